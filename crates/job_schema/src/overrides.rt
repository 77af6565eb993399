//! The words that override values of the numeric point, and the point that comes of it.

ghost use Rattle.std.specs.Prelude.{◌≡◌, ◌<◌, ◌≤◌, ◌^◌, [], MatchOption, IfOk, IfSome, length, true, false};
ghost use Rattle.text_tokens.specs.Names.{is_among};
ghost use Rattle.rational_expressions.specs.Values.{place_of};
ghost use Rattle.input_schema.specs.Readings.{Gives};
ghost use Rattle.job_schema.specs.Overrides as spec;

use crate::points::{NumericPoint, PointInput, Setting};
use crate::ratios::{read_prime, read_ratio};
use field_word::Modulus;
use input_schema::{File, InputKind, SchemaError, fault, place_among};
use out_of_memory::OutOfMemory;
use sqlite_items::Items;
use std::alloc::Global;
use std::marker::Model;
use text_tokens::Name;

/// A word that gives a value to a parameter, NAME=VALUE, with its place among all words. Contracts see
/// the place and the bytes, of which there are fewer than 2^31.
#[derive(Debug, Drop)]
pub struct Override {
    place: u32,
    text: Vec<u8>,
}

impl Model for Override {
    ghost use Rattle.job_schema.specs.Overridden.{Override as OverrideValue, override_code};

    ghost Value = { OverrideValue };

    ghost coded = { override_code };

    ghost use Rattle.job_schema.specs.KeptOverride.{shown, IsKept};

    ghost view = { shown };

    ghost invariant = { IsKept };
}

impl Override {
    ghost use Rattle.std.specs.Prelude.{◌≡◌, ◌<◌, ◌^◌, length};

    /// Its place among all words, from 1.
    pub fn place(&self) -> u32
        ensures { result ≡ self.now.place }
    {
        self.place
    }

    /// Its bytes.
    pub fn text(&self) -> &[u8]
        ensures value { result.now ≡ self.now.text }
        ensures short { length self.now.text < 2 ^ 31 }
    {
        &self.text
    }
}

/// Keeps the bytes of a word, which has fewer than 2^31 of them.
pub fn read_override(alloc: Global, place: u32, word: &str) -> Result<Override, OutOfMemory>
    requires { length word.now < 2 ^ 31 }
    ensures { IfOk result (λ o. o ≡ record { place = place; text = word.now }) }
{
    Ok(Override {
        place,
        text: Vec::from_slice(alloc, word.as_bytes())?,
    })
}

/// How many bytes stand before the first equals sign.
fn name_length(text: &[u8]) -> usize
    ensures value { result ≡ spec.name_length text.now }
    ensures within { result ≤ length text.now }
{
    let mut at = 0;
    while at < text.len() && text[at] != b'=' {
        at += 1;
    }
    at
}

fn name_in(word: &Override) -> &[u8]
    ensures { result.now ≡ spec.name_in word.now }
{
    let text = word.text();
    &text[..name_length(text)]
}

/// Whether an earlier word has this name.
fn is_repeated(earlier: &[Override], name: &[u8]) -> bool
    ensures { result ≡ spec.is_repeated earlier.now name.now }
{
    for word in earlier {
        if name_in(word) == name {
            return true;
        }
    }
    false
}

/// The point with the value of a word for the parameter at this place.
fn with_setting(
    names: &[Name],
    point: PointInput,
    place: usize,
    word: &Override,
) -> Result<PointInput, SchemaError>
    requires form { spec.name_length word.now.text < length word.now.text }
    requires place { place ≡ place_of names.now (spec.name_in word.now) }
    requires within { place < length point.settings }
    ensures value { Gives (spec.with_setting names.now point word.now) result }
    ensures same { IfOk result (λ p. length p.settings ≡ length point.settings) }
{
    let mut point = point;
    let ratio = read_ratio(File::Words, word.place(), value_in(word))?;
    let setting = Setting {
        file: File::Words,
        line: word.place(),
        ratio,
    };
    point.settings.set(place, Some(setting));
    Ok(point)
}

fn value_in(word: &Override) -> &[u8]
    requires { spec.name_length word.now.text < length word.now.text }
    ensures value { result.now ≡ spec.value_in word.now }
    ensures short { length result.now < 2 ^ 31 }
{
    let text = word.text();
    &text[name_length(text) + 1..]
}

fn with_prime(point: PointInput, word: &Override) -> Result<PointInput, SchemaError>
    requires { spec.name_length word.now.text < length word.now.text }
    ensures value { Gives (spec.with_prime point word.now) result }
    ensures same { IfOk result (λ p. length p.settings ≡ length point.settings) }
{
    let mut point = point;
    let prime = read_prime(File::Words, word.place(), value_in(word))?;
    point.prime = Some(prime);
    Ok(point)
}

/// Whether this is the name of the prime or of one of the parameters.
fn is_parameter(names: &[Name], name: &[u8]) -> bool
    ensures { result ≡ spec.is_parameter names.now name.now }
{
    name == b"prime".as_slice() || place_among(names, name).is_some()
}

fn with_value(names: &[Name], point: PointInput, word: &Override) -> Result<PointInput, SchemaError>
    requires form { spec.name_length word.now.text < length word.now.text }
    requires known { spec.is_parameter names.now (spec.name_in word.now) ≡ true }
    requires same { length point.settings ≡ length names.now }
    ensures value { Gives (spec.with_value names.now point word.now) result }
    ensures same { IfOk result (λ p. length p.settings ≡ length point.settings) }
{
    if name_in(word) == b"prime".as_slice() {
        return with_prime(point, word);
    }
    match place_among(names, name_in(word)) {
        Some(place) => with_setting(names, point, place, word),
        None => unreachable!(),
    }
}

fn with_name(
    names: &[Name],
    earlier: &[Override],
    point: PointInput,
    word: &Override,
) -> Result<PointInput, SchemaError>
    requires form { spec.name_length word.now.text < length word.now.text }
    requires same { length point.settings ≡ length names.now }
    ensures value { Gives (spec.with_name names.now earlier.now point word.now) result }
    ensures same { IfOk result (λ p. length p.settings ≡ length point.settings) }
{
    let name = name_in(word);
    if !is_parameter(names, name) {
        return Err(fault(File::Words, word.place(), InputKind::UnknownName));
    }
    if is_repeated(earlier, name) {
        return Err(fault(File::Words, word.place(), InputKind::DuplicateName));
    }
    with_value(names, point, word)
}

/// The point with the value of one word, behind these earlier ones.
fn with_word(
    names: &[Name],
    earlier: &[Override],
    point: PointInput,
    word: &Override,
) -> Result<PointInput, SchemaError>
    requires same { length point.settings ≡ length names.now }
    ensures value { Gives (spec.with_word names.now earlier.now point word.now) result }
    ensures same { IfOk result (λ p. length p.settings ≡ length point.settings) }
{
    if name_length(word.text()) == word.text().len() {
        return Err(fault(File::Words, word.place(), InputKind::BadOverride));
    }
    with_name(names, earlier, point, word)
}

/// The point with the values of all words.
fn with_words(
    names: &[Name],
    point: PointInput,
    words: &[Override],
) -> Result<PointInput, SchemaError>
    requires { length point.settings ≡ length names.now }
    ensures { Gives (spec.with_words names.now [] point words.now) result }
{
    let mut current = point;
    for i in 0..words.len() {
        current = with_word(names, &words[..i], current, &words[i])?;
    }
    Ok(current)
}

fn given_prime(line: u32, prime: Option<Modulus>) -> Result<Modulus, SchemaError>
    ensures { Gives (spec.given line prime) result }
{
    match prime {
        Some(prime) => Ok(prime),
        None => Err(fault(File::Jobs, line, InputKind::NoValue)),
    }
}

fn given_setting(line: u32, setting: Option<Setting>) -> Result<Setting, SchemaError>
    ensures { Gives (spec.given line setting) result }
{
    match setting {
        Some(setting) => Ok(setting),
        None => Err(fault(File::Jobs, line, InputKind::NoValue)),
    }
}

fn given_settings(
    alloc: Global,
    line: u32,
    settings: &[Option<Setting>],
) -> Result<Items<Setting>, SchemaError>
    ensures { Gives (spec.given_settings line settings.now) result }
{
    let mut found = Items::new(alloc);
    for setting in settings {
        found.push(given_setting(line, *setting)?)?;
    }
    Ok(found)
}

/// The point whose prime and parameters all have a value.
fn settled(alloc: Global, point: &PointInput) -> Result<NumericPoint, SchemaError>
    ensures { Gives (spec.settled point.now) result }
{
    let prime = given_prime(point.line, point.prime)?;
    let settings = given_settings(alloc, point.line, point.settings.as_slice())?;
    Ok(NumericPoint { prime, settings })
}

/// The numeric point of a job: the values that its file gives, those of the words in their stead, and
/// none missing. `names` are the names of the parameters that the point was read with.
///
/// # Errors
///
/// The first fault of a word, with its place as line: BadOverride, where it has no `=`; UnknownName,
/// where what stands before the first `=` is neither `prime` nor a parameter; DuplicateName, where an
/// earlier word names it; then the fault of its value. At last NoValue at the numeric point of the
/// file, where the prime or a parameter has no value.
pub fn override_point(
    alloc: Global,
    names: &[Name],
    point: PointInput,
    words: &[Override],
) -> Result<NumericPoint, SchemaError>
    requires { length point.settings ≡ length names.now }
    ensures { Gives (spec.numeric_point names.now point words.now) result }
{
    let point = with_words(names, point, words)?;
    settled(alloc, &point)
}
