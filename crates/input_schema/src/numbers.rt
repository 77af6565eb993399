//! Numbers, written in digits, and the sign before them.

ghost use Rattle.std.specs.Prelude.{◌≡◌};
ghost use Rattle.std.specs.List.{list_all};
ghost use Rattle.text_tokens.specs.Tokens.{is_digit};
ghost use Rattle.input_schema.specs.Numbers as spec;
ghost use Rattle.input_schema.specs.Readings.{Gives};

use crate::faults::{File, InputKind, SchemaError, fault};
use crate::nodes::scalar;
use text_tokens::{is_digit, number_value};
use yaml_text::Tree;

fn are_digits(text: &[u8]) -> bool
    ensures { result ≡ list_all is_digit text.now }
{
    text.iter().all(|byte| is_digit(*byte))
}

/// Whether the text is digits alone, at least one.
pub fn is_number(text: &[u8]) -> bool
    ensures { result ≡ spec.is_number text.now }
{
    1 <= text.len() && are_digits(text)
}

/// Whether the text begins with a minus sign.
pub fn is_negative(text: &[u8]) -> bool
    ensures { result ≡ spec.is_negative text.now }
{
    match text {
        [] => false,
        [first, ..] => *first == b'-',
    }
}

/// The text without a minus sign at its front.
pub fn unsigned(text: &[u8]) -> &[u8]
    ensures { result.now ≡ spec.unsigned text.now }
{
    if is_negative(text) { &text[1..] } else { text }
}

/// The number that a text on this line writes in digits alone. Leading zeros are accepted.
///
/// # Errors
///
/// BadNumber, where the text is empty or has a byte that is no digit; then NumberTooWide, where the
/// number is above 2^128 - 1.
pub fn written_number(file: File, line: u32, text: &[u8]) -> Result<u128, SchemaError>
    ensures { Gives (spec.written_number file line text.now) result }
{
    if !is_number(text) {
        return Err(fault(file, line, InputKind::BadNumber));
    }
    match number_value(text) {
        Some(number) => Ok(number),
        None => Err(fault(file, line, InputKind::NumberTooWide)),
    }
}

/// The number that a scalar writes.
///
/// # Errors
///
/// Shape, where the node is no scalar, and then as `written_number`.
pub fn wide_number(file: File, node: &Tree) -> Result<u128, SchemaError>
    ensures { Gives (spec.wide_number file node.now) result }
{
    let text = scalar(file, node)?;
    written_number(file, node.line, text.as_str().as_bytes())
}

/// The number that a scalar writes, which is from `least` to `most`.
///
/// # Errors
///
/// As `wide_number`, and then OutOfRange, where the number is another.
pub fn number(file: File, node: &Tree, least: u32, most: u32) -> Result<u32, SchemaError>
    ensures { Gives (spec.number file node.now least most) result }
{
    let number = wide_number(file, node)?;
    if least as u128 <= number && number <= most as u128 {
        Ok(number as u32)
    } else {
        Err(fault(file, node.line, InputKind::OutOfRange))
    }
}
