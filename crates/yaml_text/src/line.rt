//! Cuts a text into the lines that the structure is read from, or finds the first fault of a line.

ghost use Rattle.std.specs.Prelude.{◌≡◌, ◌<◌, ◌≤◌, ◌+◌, ◌-◌, ◌^◌, [], ◌∷◌, ◌++◌, length, take, drop, IfOk, OnOk, false, true};
ghost use Rattle.std.specs.Str.{IsAscii};
ghost use Rattle.yaml_text.specs.Lines as spec;
ghost use Rattle.yaml_text.specs.Blocks as blocks;
ghost use Rattle.yaml_text.specs.Tokens as tokens;
ghost use Rattle.yaml_text.specs.Outcomes.{Gives};

use crate::fault::{YamlError, YamlFault, YamlKind};
use crate::token::{Pieces, Token};
use sqlite_items::Items;
use std::alloc::Global;
use std::marker::Model;

const TAB: u8 = 9;

const LF: u8 = 10;

const CR: u8 = 13;

/// A line without its comment and its trailing spaces.
#[derive(Drop)]
pub struct Line<'a> {
    number: u32,
    indent: u32,
    text: &'a [u8],
}

impl<'a> Model for Line<'a> {
    ghost use Rattle.yaml_text.specs.Lines.{Line, line_code};

    ghost Value = { Line };

    ghost coded = { line_code };

    ghost use Rattle.yaml_text.specs.Kept.{line_of, IsShort};

    ghost view = { line_of };

    ghost invariant = { IsShort };
}

impl<'a> Line<'a> {
    /// The line's number, counted from 1.
    pub fn number(&self) -> u32
        ensures { result ≡ self.now.number }
    {
        self.number
    }

    /// How many spaces it begins with.
    pub fn indent(&self) -> u32
        ensures { result ≡ self.now.indent }
    {
        self.indent
    }

    /// What stands behind these spaces.
    pub fn text(&self) -> &'a [u8]
        ensures text { result.now ≡ self.now.text }
        ensures ascii { IsAscii self.now.text }
        ensures short { self.now.indent + length self.now.text < 2 ^ 32 }
    {
        self.text
    }

    /// The same line once more.
    pub fn again(&self) -> Line<'a>
        ensures { result ≡ self.now }
    {
        Line {
            number: self.number,
            indent: self.indent,
            text: self.text,
        }
    }

    /// Whether a key with its colon comes first.
    pub fn has_key(&self) -> bool
        ensures { result ≡ blocks.is_key (tokens.token self.now.text) }
    {
        matches!(Pieces::new(self.text).peek(), Token::Key(_))
    }

    /// What stands behind the dash of an item, as a line at its own column.
    #[tactic(auto, unfolding(crate::specs::Blocks::item_line))]
    pub fn item_line(&self) -> Line<'a>
        requires { blocks.is_dash self.now.text ≡ true }
        ensures { result ≡ blocks.item_line self.now }
    {
        let text = skip(&self.text[1..]);
        Line {
            number: self.number,
            indent: self.indent + (self.text.len() - text.len()) as u32,
            text,
        }
    }

    /// Whether the text is a dash or begins with a dash and a space.
    pub fn is_dash(&self) -> bool
        ensures { result ≡ blocks.is_dash self.now.text }
    {
        byte_at(self.text, 0, b'-') && (self.text.len() == 1 || byte_at(self.text, 1, b' '))
    }
}

/// The first line of a text, without a CR right before its LF, and what stands behind it.
pub fn first_line(bytes: &[u8]) -> (&[u8], &[u8])
    requires { 0 < length bytes.now }
    ensures cut { spec.cut bytes.now ≡ result.0.now ∷ spec.cut result.1.now }
    ensures short { length result.0.now + length result.1.now ≤ length bytes.now }
    ensures less { length result.1.now < length bytes.now }
{
    let end = line_end(bytes);
    if end == bytes.len() {
        return (bytes, &bytes[end..]);
    }
    (&bytes[..before_return(bytes, end)], &bytes[end + 1..])
}

/// The place of the first LF, or the text's length.
fn line_end(bytes: &[u8]) -> usize
    ensures value { result ≡ spec.line_length bytes.now }
    ensures within { result ≤ length bytes.now }
{
    let mut at = 0;
    while at < bytes.len() && bytes[at] != LF {
        at += 1;
    }
    at
}

/// The place of the CR right before `end`, or `end` where there is none.
fn before_return(bytes: &[u8], end: usize) -> usize
    requires { end ≤ length bytes.now }
    ensures value { result ≡ spec.before_return (take end bytes.now) }
    ensures within { result ≤ end }
{
    if 0 < end && bytes[end - 1] == CR {
        end - 1
    } else {
        end
    }
}

/// How many bytes stand before the comment.
fn comment_at(raw: &[u8]) -> usize
    ensures value { take result raw.now ≡ spec.before_comment false true raw.now }
    ensures within { result ≤ length raw.now }
{
    let mut quoted = false;
    let mut fresh = true;
    let mut at = 0;
    while at < raw.len() {
        let byte = raw[at];
        if begins_comment(quoted, fresh, byte) {
            return at;
        }
        quoted = quoted_after(quoted, byte);
        fresh = byte == b' ';
        at += 1;
    }
    at
}

fn begins_comment(quoted: bool, fresh: bool, byte: u8) -> bool
    ensures { result ≡ spec.begins_comment quoted fresh byte }
{
    byte == b'#' && fresh && !quoted
}

fn quoted_after(quoted: bool, byte: u8) -> bool
    ensures { result ≡ spec.quoted_after quoted byte }
{
    if byte == b'"' { !quoted } else { quoted }
}

/// The text without the spaces at its end.
pub fn trim_end(text: &[u8]) -> &[u8]
    ensures value { result.now ≡ spec.trim_end text.now }
    ensures within { length result.now ≤ length text.now }
    ensures ascii { IsAscii text.now → IsAscii result.now }
{
    let mut end = text.len();
    while 0 < end && text[end - 1] == b' ' {
        end -= 1;
    }
    &text[..end]
}

/// How many spaces the text begins with.
pub fn spaces(text: &[u8]) -> usize
    ensures value { result ≡ spec.spaces text.now }
    ensures within { result ≤ length text.now }
{
    let mut at = 0;
    while at < text.len() && text[at] == b' ' {
        at += 1;
    }
    at
}

/// The text without the spaces that it begins with.
pub fn skip(text: &[u8]) -> &[u8]
    ensures value { result.now ≡ spec.skip text.now }
    ensures short { length result.now ≤ length text.now }
    ensures ascii { IsAscii text.now → IsAscii result.now }
{
    &text[spaces(text)..]
}

fn has_tab(bare: &[u8]) -> bool
    ensures { result ≡ spec.has_tab bare.now }
{
    bare.iter().any(|b| *b == TAB)
}

fn has_other(bare: &[u8]) -> bool
    ensures { result ≡ spec.has_other bare.now }
{
    bare.iter().any(|b| *b < 32 || 126 < *b)
}

fn has_escape(bare: &[u8]) -> bool
    ensures { result ≡ spec.has_escape bare.now }
{
    bare.iter().any(|b| *b == b'\'' || *b == b'\\')
}

fn has_open_quote(bare: &[u8]) -> bool
    ensures { result ≡ spec.has_open_quote bare.now }
{
    let mut quoted = false;
    for byte in bare {
        quoted = quoted_after(quoted, *byte);
    }
    quoted
}

fn has_quote(bare: &[u8]) -> bool
    ensures { result ≡ spec.has_quote bare.now }
{
    has_escape(bare) || has_open_quote(bare)
}

/// Whether the text begins with this byte, at this place.
pub fn byte_at(text: &[u8], at: usize, byte: u8) -> bool
    ensures value { result ≡ spec.begins byte (drop at text.now) }
    ensures within { result ≡ true → at < length text.now }
{
    at < text.len() && text[at] == byte
}

fn begins_thrice(text: &[u8], byte: u8) -> bool
    ensures { result ≡ spec.begins_thrice byte text.now }
{
    byte_at(text, 0, byte) && byte_at(text, 1, byte) && byte_at(text, 2, byte)
}

fn is_mark(text: &[u8]) -> bool
    ensures { result ≡ spec.is_mark text.now }
{
    begins_thrice(text, b'-') || begins_thrice(text, b'.')
}

/// The first fault of a line by itself.
fn fault_of(bare: &[u8]) -> Option<YamlKind>
    ensures value { result ≡ spec.fault_of bare.now }
    ensures ascii { result ≡ None → IsAscii bare.now }
{
    if has_tab(bare) {
        Some(YamlKind::Tab)
    } else if has_other(bare) {
        Some(YamlKind::NotAscii)
    } else if has_quote(bare) {
        Some(YamlKind::Quote)
    } else if is_mark(bare) {
        Some(YamlKind::Document)
    } else {
        None
    }
}

/// The line of a text without its comment and trailing spaces.
fn line_at(number: u32, bare: &[u8]) -> Line<'_>
    requires ascii { IsAscii bare.now }
    requires short { length bare.now < 2 ^ 32 }
    ensures { result ≡ spec.line_at number bare.now }
{
    Line {
        number,
        indent: spaces(bare) as u32,
        text: skip(bare),
    }
}

/// A line without its comment and its trailing spaces.
pub fn bare(raw: &[u8]) -> &[u8]
    ensures value { result.now ≡ spec.bare raw.now }
    ensures within { length result.now ≤ length raw.now }
{
    trim_end(&raw[..comment_at(raw)])
}

/// Adds a line, unless it has a fault or no byte.
fn judge<'a>(number: u32, bare: &'a [u8], found: &mut Items<Line<'a>>) -> Result<(), YamlError>
    requires { length bare.now < 2 ^ 32 }
    ensures { Gives (spec.judged number (spec.fault_of bare.now) (spec.kept number bare.now found.old)) (spec.with result found.new) }
{
    if let Some(kind) = fault_of(bare) {
        return Err(YamlError::Fault(YamlFault { line: number, kind }));
    }
    if !bare.is_empty() {
        found.push(line_at(number, bare))?;
    }
    Ok(())
}

/// The lines of a text, without comments, trailing spaces and lines that are then empty.
///
/// # Errors
///
/// The first fault of a line by itself, or that memory was refused.
pub fn lines(alloc: Global, bytes: &[u8]) -> Result<Items<Line<'_>>, YamlError>
    requires { length bytes.now + 1 < 2 ^ 32 }
    ensures { Gives (spec.lines bytes.now) result }
{
    let mut found = Items::new(alloc);
    let mut rest = bytes;
    let mut number = 0;
    while !rest.is_empty() {
        let (raw, behind) = first_line(rest);
        number += 1;
        judge(number, bare(raw), &mut found)?;
        rest = behind;
    }
    Ok(found)
}
