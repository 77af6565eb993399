//! The numbers of a numeric point: the prime, and ratios of whole numbers.

ghost use Rattle.std.specs.Prelude.{◌≡◌, ◌<◌, ◌≤◌, ◌+◌, ◌^◌, length};
ghost use Rattle.input_schema.specs.Readings.{Gives};
ghost use Rattle.job_schema.specs.Ratios as spec;

use field_word::Modulus;
use input_schema::{
    File, InputKind, SchemaError, fault, is_negative, is_number, unsigned, written_number,
};
use text_tokens::is_digit;

/// A divisor, and the offset of its slash in the text.
#[derive(Clone, Copy, Debug, PartialEq, Eq, Drop)]
pub struct Divisor {
    /// The offset of the slash, counted from 0.
    pub at: u32,
    /// The number behind it.
    pub number: u128,
}

/// A value of a numeric point: a whole number, or one over another. It is taken modulo the prime later.
/// The project's own.
#[derive(Clone, Copy, Debug, PartialEq, Eq, Drop)]
pub struct Ratio {
    /// Whether a minus sign stands before it.
    pub is_negative: bool,
    /// The number before the slash.
    pub numerator: u128,
    /// What it is divided by, if anything.
    pub divisor: Option<Divisor>,
}

/// How many digits stand at the front of a text.
fn front(text: &[u8]) -> usize
    ensures value { result ≡ spec.front text.now }
    ensures within { result ≤ length text.now }
{
    let mut at = 0;
    while at < text.len() && is_digit(text[at]) {
        at += 1;
    }
    at
}

/// Whether the text is empty, or a slash and digits.
fn is_division(text: &[u8]) -> bool
    ensures { result ≡ spec.is_division text.now }
{
    match text {
        [] => true,
        [first, rest @ ..] => *first == b'/' && is_number(rest),
    }
}

/// Whether the text is digits, and then nothing or a slash and digits.
fn is_ratio(body: &[u8]) -> bool
    ensures { result ≡ spec.is_ratio body.now }
{
    let digits = front(body);
    1 <= digits && is_division(&body[digits..])
}

/// The divisor that a text writes, where it isn't empty. `at` is the offset of its slash.
fn divided_by(file: File, line: u32, at: u32, text: &[u8]) -> Result<Option<Divisor>, SchemaError>
    ensures { Gives (spec.divisor file line at text.now) result }
{
    match text {
        [] => Ok(None),
        [_, rest @ ..] => {
            let number = written_number(file, line, rest)?;
            Ok(Some(Divisor { at, number }))
        }
    }
}

/// The ratio whose sign was read; `offset` is how many bytes that took.
fn ratio_in(
    file: File,
    line: u32,
    is_negative: bool,
    offset: u32,
    body: &[u8],
) -> Result<Ratio, SchemaError>
    requires { offset + length body.now < 2 ^ 32 }
    ensures { Gives (spec.ratio_in file line is_negative offset body.now) result }
{
    if !is_ratio(body) {
        return Err(fault(file, line, InputKind::BadNumber));
    }
    let digits = front(body);
    let numerator = written_number(file, line, &body[..digits])?;
    let divisor = divided_by(file, line, offset + digits as u32, &body[digits..])?;
    Ok(Ratio {
        is_negative,
        numerator,
        divisor,
    })
}

/// The ratio that a text on this line writes: a minus sign or nothing, digits, and then nothing or a
/// slash and digits.
///
/// # Errors
///
/// BadNumber, where the text is of another form; then NumberTooWide, where a part is above 2^128 - 1.
pub fn read_ratio(file: File, line: u32, text: &[u8]) -> Result<Ratio, SchemaError>
    requires { length text.now < 2 ^ 32 }
    ensures { Gives (spec.ratio file line text.now) result }
{
    let offset = if is_negative(text) { 1 } else { 0 };
    ratio_in(file, line, is_negative(text), offset, unsigned(text))
}

/// The prime that a text on this line writes in digits alone: an odd number from 3 on and below 2^63,
/// which need not be prime.
///
/// # Errors
///
/// BadNumber, where the text isn't digits alone; then NumberTooWide, where the number is above
/// 2^128 - 1; then BadModulus, where it isn't such a number.
pub fn read_prime(file: File, line: u32, text: &[u8]) -> Result<Modulus, SchemaError>
    ensures { Gives (spec.prime file line text.now) result }
{
    let number = written_number(file, line, text)?;
    modulus_of(file, line, number)
}

/// The modulus with this number, if there is one.
fn modulus_of(file: File, line: u32, number: u128) -> Result<Modulus, SchemaError>
    ensures { Gives (spec.modulus file line number) result }
{
    if number >= 1 << 63 {
        return Err(fault(file, line, InputKind::BadModulus));
    }
    match Modulus::new(number as u64) {
        Ok(modulus) => Ok(modulus),
        Err(_) => Err(fault(file, line, InputKind::BadModulus)),
    }
}
