//! The pieces of a text on one line.

ghost use Rattle.std.specs.Prelude.{◌≡◌, ◌<◌, ◌≤◌, ◌+◌, ◌-◌, ◌^◌, length, take, drop, false, true};
ghost use Rattle.std.specs.Str.{IsAscii};
ghost use Rattle.yaml_text.specs.Words as spec;
ghost use Rattle.yaml_text.specs.Tokens as tokens;
ghost use Rattle.yaml_text.specs.Lines as lines;

use crate::fault::YamlKind;
use crate::line::{byte_at, skip, trim_end};
use std::marker::Model;

/// The text of a key or a scalar, and whether it stands there without quotes.
#[derive(Drop)]
pub struct Words<'a> {
    plain: bool,
    text: &'a [u8],
}

impl<'a> Model for Words<'a> {
    ghost use Rattle.yaml_text.specs.Words.{Words, words_code};

    ghost Value = { Words };

    ghost coded = { words_code };

    ghost use Rattle.yaml_text.specs.KeptWords.{words_of, IsShort};

    ghost view = { words_of };

    ghost invariant = { IsShort };
}

impl<'a> Words<'a> {
    /// Whether it stands there without quotes.
    pub fn plain(&self) -> bool
        ensures { result ≡ self.now.plain }
    {
        self.plain
    }

    /// Its bytes, without quotes.
    pub fn text(&self) -> &'a [u8]
        ensures text { result.now ≡ self.now.text }
        ensures ascii { IsAscii self.now.text }
        ensures short { length self.now.text < 2 ^ 32 }
    {
        self.text
    }
}

/// A piece of a text.
#[derive(Drop)]
pub enum Token<'a> {
    /// `[`
    OpenList,
    /// `]`
    CloseList,
    /// `{`
    OpenMap,
    /// `}`
    CloseMap,
    /// A comma.
    Comma,
    /// A key with its colon.
    Key(Words<'a>),
    /// A scalar.
    Scalar(Words<'a>),
    /// Nothing of these.
    Bad,
}

fn is_special(byte: u8) -> bool
    ensures { result ≡ spec.is_special byte }
{
    byte == b',' || byte == b'[' || byte == b']' || byte == b'{' || byte == b'}' || byte == b'"'
}

/// Whether nothing or a space stands at this place.
fn ends_here(text: &[u8], at: usize) -> bool
    ensures { result ≡ spec.ends_here (drop at text.now) }
{
    text.len() <= at || text[at] == b' '
}

/// Whether a colon stands at this place, and then nothing or a space.
fn is_colon(text: &[u8], at: usize) -> bool
    ensures value { result ≡ spec.is_colon (drop at text.now) }
    ensures within { result ≡ true → at < length text.now }
{
    at < text.len() && text[at] == b':' && ends_here(text, at + 1)
}

fn stops_plain(text: &[u8], at: usize) -> bool
    requires { at < length text.now }
    ensures { result ≡ spec.stops_plain (drop at text.now) }
{
    is_special(text[at]) || is_colon(text, at)
}

/// How many bytes stand before the first that no plain text holds, or before the colon of a key.
fn plain_length(text: &[u8]) -> usize
    ensures value { result ≡ spec.plain_length text.now }
    ensures within { result ≤ length text.now }
{
    let mut at = 0;
    while at < text.len() && !stops_plain(text, at) {
        at += 1;
    }
    at
}

/// Whether the text has a byte, and no colon at its end.
fn is_whole(text: &[u8]) -> bool
    ensures { result ≡ spec.is_whole text.now }
{
    match text {
        [] => false,
        [.., last] => *last != b':',
    }
}

/// How many bytes stand before the next double quote.
fn quoted_length(text: &[u8]) -> usize
    ensures value { result ≡ spec.quoted_length text.now }
    ensures within { result ≤ length text.now }
{
    let mut at = 0;
    while at < text.len() && text[at] != b'"' {
        at += 1;
    }
    at
}

/// A key where a colon that ends one stands behind the words, and else a scalar.
fn named<'a>(words: Words<'a>, after: &'a [u8]) -> (Token<'a>, &'a [u8])
    requires { IsAscii after.now }
    ensures ascii { IsAscii result.1.now }
    ensures short { length result.1.now ≤ length after.now }
    ensures value { (result.0, result.1.now) ≡ tokens.named words.entry after.now }
{
    if is_colon(after, 0) {
        (Token::Key(words), skip(&after[1..]))
    } else {
        (Token::Scalar(words), skip(after))
    }
}

fn plain(text: &[u8]) -> (Token<'_>, &[u8])
    requires ascii { IsAscii text.now }
    requires short { length text.now < 2 ^ 32 }
    ensures ascii { IsAscii result.1.now }
    ensures short { length result.1.now ≤ length text.now }
    ensures value { (result.0, result.1.now) ≡ tokens.plain text.now }
{
    let length = plain_length(text);
    let words = trim_end(&text[..length]);
    if !is_whole(words) {
        return (Token::Bad, &[]);
    }
    let words = Words {
        plain: true,
        text: words,
    };
    named(words, &text[length..])
}

/// Behind the opening quote.
fn quoted(text: &[u8]) -> (Token<'_>, &[u8])
    requires ascii { IsAscii text.now }
    requires short { length text.now < 2 ^ 32 }
    ensures ascii { IsAscii result.1.now }
    ensures short { length result.1.now ≤ length text.now }
    ensures value { (result.0, result.1.now) ≡ tokens.quoted text.now }
{
    let length = quoted_length(text);
    if !byte_at(text, length, b'"') {
        return (Token::Bad, &[]);
    }
    let words = Words {
        plain: false,
        text: &text[..length],
    };
    named(words, skip(&text[length + 1..]))
}

/// The first piece of a text that begins with no space, and the text behind it and its spaces.
#[tactic(auto, unfolding(crate::specs::Tokens::piece))]
fn piece(text: &[u8]) -> (Token<'_>, &[u8])
    requires ascii { IsAscii text.now }
    requires short { length text.now < 2 ^ 32 }
    ensures ascii { IsAscii result.1.now }
    ensures short { length result.1.now ≤ length text.now }
    ensures value { (result.0, result.1.now) ≡ tokens.piece text.now }
{
    let [first, rest @ ..] = text else {
        return (Token::Bad, text);
    };
    match *first {
        b'"' => quoted(rest),
        b'[' => (Token::OpenList, skip(rest)),
        b']' => (Token::CloseList, skip(rest)),
        b'{' => (Token::OpenMap, skip(rest)),
        b'}' => (Token::CloseMap, skip(rest)),
        b',' => (Token::Comma, skip(rest)),
        _ => plain(text),
    }
}

/// A text on one line, of which the pieces in front are taken.
#[derive(Drop)]
pub struct Pieces<'a> {
    text: &'a [u8],
}

impl<'a> Model for Pieces<'a> {
    ghost use Rattle.std.specs.Prelude.{ℕ, List, ◌<◌, ◌^◌, length};
    ghost use Rattle.std.specs.Coded.{coded_ℕ, coded_list};
    ghost use Rattle.std.specs.Str.{IsAscii};

    ghost Value = { List ℕ };

    ghost coded = { coded_list coded_ℕ };

    ghost view = { λ p. p.text.now };

    ghost invariant = { λ p. IsAscii p.text.now × (length p.text.now < 2 ^ 32) };
}

impl<'a> Pieces<'a> {
    /// The pieces of a text.
    pub fn new(text: &'a [u8]) -> Pieces<'a>
        requires ascii { IsAscii text.now }
        requires short { length text.now < 2 ^ 32 }
        ensures { result ≡ text.now }
    {
        Pieces { text }
    }

    /// What is left of the text.
    pub fn rest(&self) -> &'a [u8]
        ensures rest { result.now ≡ self.now }
        ensures ascii { IsAscii self.now }
        ensures short { length self.now < 2 ^ 32 }
    {
        self.text
    }

    /// How many bytes are left.
    pub fn left(&self) -> usize
        ensures { result ≡ length self.now }
    {
        self.text.len()
    }

    /// Whether nothing is left.
    pub fn is_empty(&self) -> bool
        ensures { result ≡ lines.is_empty self.now }
    {
        self.text.is_empty()
    }

    /// The next piece, which stays.
    pub fn peek(&self) -> Token<'a>
        ensures { result ≡ tokens.token self.now }
    {
        piece(self.text).0
    }

    /// The next piece.
    pub fn take(&mut self) -> Token<'a>
        ensures token { result ≡ tokens.token self.old }
        ensures behind { self.new ≡ tokens.behind self.old }
    {
        let (token, behind) = piece(self.text);
        self.text = behind;
        token
    }
}

fn is_sign(byte: u8) -> bool
    ensures { result ≡ tokens.is_sign byte }
{
    byte == b'&' || byte == b'*' || byte == b'!' || byte == b'%' || byte == b'@' || byte == b'`'
}

/// Whether the text begins as an anchor, an alias, a tag, a directive or an explicit key does.
pub fn is_indicator(text: &[u8]) -> bool
    ensures { result ≡ tokens.is_indicator text.now }
{
    !text.is_empty() && (is_sign(text[0]) || (text[0] == b'?' && ends_here(text, 1)))
}

fn is_block_scalar(text: &[u8]) -> bool
    ensures { result ≡ tokens.is_block_scalar text.now }
{
    !text.is_empty() && (text[0] == b'|' || text[0] == b'>')
}

fn plain_fault(text: &[u8]) -> Option<YamlKind>
    ensures { result ≡ tokens.plain_fault text.now }
{
    if is_indicator(text) {
        Some(YamlKind::Indicator)
    } else if is_block_scalar(text) {
        Some(YamlKind::BlockScalar)
    } else {
        None
    }
}

/// What a scalar is refused for by its beginning.
#[tactic(auto, unfolding(crate::specs::Tokens::scalar_fault))]
pub fn scalar_fault(words: &Words<'_>) -> Option<YamlKind>
    ensures { result ≡ tokens.scalar_fault words.now }
{
    if words.plain() {
        plain_fault(words.text())
    } else {
        None
    }
}

/// What a key is refused for by itself.
#[tactic(auto, unfolding(crate::specs::Tokens::key_fault))]
pub fn key_fault(words: &Words<'_>) -> Option<YamlKind>
    ensures { result ≡ tokens.key_fault words.now }
{
    if words.plain() && words.text() == b"<<".as_slice() {
        Some(YamlKind::Merge)
    } else {
        scalar_fault(words)
    }
}
