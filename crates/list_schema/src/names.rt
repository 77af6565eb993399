//! The parts of a line: the name of a family, and what stands between brackets behind it.

ghost use Rattle.std.specs.Prelude.{◌≡◌, ◌≤◌, true, length};
ghost use Rattle.list_schema.specs.Lists as spec;

use crate::indices::are_indices;
use text_tokens::{is_name, is_name_byte};
use yaml_text::skip;

/// How many letters, digits and `_` stand at the front of a text.
fn name_length(text: &[u8]) -> usize
    ensures value { result ≡ spec.name_length text.now }
    ensures within { result ≤ length text.now }
{
    let mut at = 0;
    while at < text.len() && is_name_byte(text[at]) {
        at += 1;
    }
    at
}

/// The letters, digits and `_` at the front of a text.
pub(crate) fn name_in(text: &[u8]) -> &[u8]
    ensures { result.now ≡ spec.name_in text.now }
{
    &text[..name_length(text)]
}

/// What stands behind the name, without the spaces between.
fn behind_name(text: &[u8]) -> &[u8]
    ensures value { result.now ≡ spec.behind_name text.now }
    ensures within { length result.now ≤ length text.now }
{
    skip(&text[name_length(text)..])
}

/// Whether a text begins with `[` and ends with `]`.
fn is_bracketed(text: &[u8]) -> bool
    ensures value { result ≡ spec.is_bracketed text.now }
{
    2 <= text.len() && text[0] == b'[' && text[text.len() - 1] == b']'
}

/// What stands between the first byte and the last.
fn between(text: &[u8]) -> &[u8]
    requires { 2 ≤ length text.now }
    ensures value { result.now ≡ spec.between text.now }
    ensures within { length result.now ≤ length text.now }
{
    &text[1..text.len() - 1]
}

/// What stands between the brackets behind a name.
pub(crate) fn inner(text: &[u8]) -> &[u8]
    requires { spec.is_bracketed (spec.behind_name text.now) ≡ true }
    ensures value { result.now ≡ spec.inner text.now }
    ensures within { length result.now ≤ length text.now }
{
    between(behind_name(text))
}

/// Whether a text has the form of an integral: a name, and numbers between brackets.
pub(crate) fn is_integral(text: &[u8]) -> bool
    ensures { result ≡ spec.is_integral text.now }
{
    is_name(name_in(text)) && is_bracketed(behind_name(text)) && are_indices(inner(text))
}
