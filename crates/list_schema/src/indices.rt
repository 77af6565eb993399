//! The indices of an integral: numbers with their signs, joined by commas.

ghost use Rattle.std.specs.Prelude.{◌≡◌, ◌≤◌, ◌<◌, [], ◌∷◌, true, false, ◌^◌, length, All, IfOk};
ghost use Rattle.std.specs.List.{list_all};
ghost use Rattle.std.specs.Option.{SomeIff};
ghost use Rattle.text_tokens.specs.Tokens.{number_of};
ghost use Rattle.input_schema.specs.Readings.{Gives};
ghost use Rattle.integral_index.specs.Integral.{IsIndex};
ghost use Rattle.list_schema.specs.Indices as spec;

use input_schema::{File, InputKind, SchemaError, fault, is_negative, is_number, unsigned};
use sqlite_items::Items;
use std::alloc::Global;
use text_tokens::number_value;
use yaml_text::{skip, trim_end};

// The greatest index, and the greatest that an index is below zero.
const MOST: u128 = 101;

/// The place of the first comma, or the text's length.
fn piece_length(text: &[u8]) -> usize
    ensures value { result ≡ spec.piece_length text.now }
    ensures within { result ≤ length text.now }
{
    let mut at = 0;
    while at < text.len() && text[at] != b',' {
        at += 1;
    }
    at
}

/// What stands before the first comma, what stands behind it, and whether there is one.
fn first_piece(text: &[u8]) -> (&[u8], &[u8], bool)
    ensures more { result.2 ≡ true → spec.pieces text.now ≡ result.0.now ∷ spec.pieces result.1.now }
    ensures last { result.2 ≡ false → spec.pieces text.now ≡ result.0.now ∷ [] }
    ensures less { result.2 ≡ true → length result.1.now < length text.now }
{
    let end = piece_length(text);
    if end == text.len() {
        return (text, &text[end..], false);
    }
    (&text[..end], &text[end + 1..], true)
}

/// How many pieces stand between the commas of a text.
pub(crate) fn piece_count(text: &[u8]) -> usize
    requires { length text.now < 2 ^ 32 }
    ensures { result ≡ length (spec.pieces text.now) }
{
    let mut count = 1;
    for byte in text {
        if *byte == b',' {
            count += 1;
        }
    }
    count
}

/// The text without the spaces around it.
fn trim(text: &[u8]) -> &[u8]
    ensures { result.now ≡ spec.trim text.now }
{
    trim_end(skip(text))
}

/// Whether a piece is digits, and a minus sign or nothing before them, with spaces around.
fn is_index(piece: &[u8]) -> bool
    ensures { result ≡ spec.is_index piece.now }
{
    is_number(unsigned(trim(piece)))
}

/// Whether each piece between the commas is a number.
pub(crate) fn are_indices(text: &[u8]) -> bool
    ensures { result ≡ list_all spec.is_index (spec.pieces text.now) }
{
    let mut rest = text;
    loop {
        let (piece, behind, is_more) = first_piece(rest);
        if !is_index(piece) {
            return false;
        }
        if !is_more {
            return true;
        }
        rest = behind;
    }
}

/// The number that digits write. None exactly where it is above 101.
fn small_number(digits: &[u8]) -> Option<u8>
    ensures { SomeIff result (number_of digits.now ≤ 101) (number_of digits.now) }
{
    match number_value(digits) {
        Some(number) if number <= MOST => Some(number as u8),
        _ => None,
    }
}

/// This number, or minus it.
fn signed(is_negative: bool, number: u8) -> i8
    requires { number ≤ 101 }
    ensures value { result ≡ spec.signed is_negative number }
    ensures small { IsIndex result }
{
    let number = number as i8;
    if is_negative { -number } else { number }
}

/// The index that a piece of a line writes.
fn index(file: File, line: u32, piece: &[u8]) -> Result<i8, SchemaError>
    ensures value { Gives (spec.index file line piece.now) result }
    ensures small { IfOk result IsIndex }
{
    let text = trim(piece);
    match small_number(unsigned(text)) {
        Some(number) => Ok(signed(is_negative(text), number)),
        None => Err(fault(file, line, InputKind::OutOfRange)),
    }
}

/// The indices that the pieces of a text write.
pub(crate) fn indices(
    alloc: Global,
    file: File,
    line: u32,
    text: &[u8],
) -> Result<Items<i8>, SchemaError>
    ensures value { Gives (spec.indices file line text.now) result }
    ensures count { IfOk result (λ found. length found ≡ length (spec.pieces text.now)) }
    ensures small { IfOk result (All IsIndex) }
{
    let mut found = Items::new(alloc);
    let mut rest = text;
    loop {
        let (piece, behind, is_more) = first_piece(rest);
        found.push(index(file, line, piece)?)?;
        if !is_more {
            return Ok(found);
        }
        rest = behind;
    }
}
