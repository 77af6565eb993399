//! The tokens of a text.

ghost use Rattle.std.specs.Prelude.{◌≡◌, ◌+◌, ◌<◌, ◌≤◌, ◌≢◌, [], ◌∷◌, length, drop, slice_index, slice_range, MatchOption, IsTrue, ◌==◌};
ghost use Rattle.text_tokens.specs.Tokens.{is_digit, is_letter, is_name_byte, nothing, in_number, in_name, number, name, tokens_from};
ghost use Rattle.text_tokens.specs.Pieces.{placed_piece, kind_of_byte};

/// What a token is. `Other` is a byte that begins no token.
#[derive(Clone, Copy, Debug, PartialEq, Eq)]
pub enum Kind {
    Number,
    Name,
    Plus,
    Minus,
    Star,
    Slash,
    Caret,
    Opening,
    Closing,
    Other,
}

/// A token of a text: the offset of its first byte, the offset behind its last, and what it is.
#[derive(Clone, Copy, Debug)]
pub struct Piece {
    pub at: usize,
    pub end: usize,
    pub kind: Kind,
}

/// Whether the byte is a decimal digit.
pub fn is_digit(byte: u8) -> bool
    ensures { result ≡ is_digit byte }
{
    b'0' <= byte && byte <= b'9'
}

/// Whether the byte is a letter of ASCII.
pub fn is_letter(byte: u8) -> bool
    ensures { result ≡ is_letter byte }
{
    (b'A' <= byte && byte <= b'Z') || (b'a' <= byte && byte <= b'z')
}

/// Whether the byte may stand in a name behind its first: a letter, a digit or `_`.
pub fn is_name_byte(byte: u8) -> bool
    ensures { result ≡ is_name_byte byte }
{
    is_letter(byte) || is_digit(byte) || byte == b'_'
}

/// What begins with this byte, which is no space.
fn kind_of(byte: u8) -> Kind
    ensures { result ≡ kind_of_byte byte }
{
    match byte {
        b'0'..=b'9' => Kind::Number,
        b'A'..=b'Z' | b'a'..=b'z' => Kind::Name,
        b'+' => Kind::Plus,
        b'-' => Kind::Minus,
        b'*' => Kind::Star,
        b'/' => Kind::Slash,
        b'^' => Kind::Caret,
        b'(' => Kind::Opening,
        b')' => Kind::Closing,
        _ => Kind::Other,
    }
}

/// The first offset from `from` on that holds no space.
fn skip_spaces(bytes: &[u8], from: usize) -> usize
    requires { from ≤ length bytes.now }
    ensures forward { from ≤ result }
    ensures within { result ≤ length bytes.now }
    ensures skipped { tokens_from nothing from (drop from bytes.now) ≡ tokens_from nothing result (drop result bytes.now) }
    ensures no_space { result < length bytes.now → slice_index bytes.now result ≢ 32 }
{
    let mut at = from;
    while at < bytes.len() && bytes[at] == b' ' {
        at += 1;
    }
    at
}

/// The offset behind the run of digits that begins at `at`.
fn end_of_number(bytes: &[u8], at: usize) -> usize
    requires within { at < length bytes.now }
    requires begins { IsTrue (is_digit (slice_index bytes.now at)) }
    ensures forward { at < result }
    ensures inside { result ≤ length bytes.now }
    ensures run { tokens_from nothing at (drop at bytes.now) ≡ record { at = at; token = number (slice_range bytes.now at result) } ∷ tokens_from nothing result (drop result bytes.now) }
{
    let mut end = at + 1;
    while end < bytes.len() && is_digit(bytes[end]) {
        end += 1;
    }
    end
}

/// The offset behind the run of letters, digits and `_` that begins at `at`.
fn end_of_name(bytes: &[u8], at: usize) -> usize
    requires within { at < length bytes.now }
    requires begins { IsTrue (is_letter (slice_index bytes.now at)) }
    ensures forward { at < result }
    ensures inside { result ≤ length bytes.now }
    ensures run { tokens_from nothing at (drop at bytes.now) ≡ record { at = at; token = name (slice_range bytes.now at result) } ∷ tokens_from nothing result (drop result bytes.now) }
{
    let mut end = at + 1;
    while end < bytes.len() && is_name_byte(bytes[end]) {
        end += 1;
    }
    end
}

/// The first token from `from` on. None exactly where there is no more.
pub fn next_piece(bytes: &[u8], from: usize) -> Option<Piece>
    requires { from ≤ length bytes.now }
    ensures { MatchOption result (tokens_from nothing from (drop from bytes.now) ≡ [])
        (λ p. (p.at < p.end) × (p.end ≤ length bytes.now) × (from ≤ p.at)
        × (tokens_from nothing from (drop from bytes.now) ≡ placed_piece bytes.now p ∷ tokens_from nothing p.end (drop p.end bytes.now))) }
{
    let at = skip_spaces(bytes, from);
    if at == bytes.len() {
        return None;
    }
    let kind = kind_of(bytes[at]);
    let end = match kind {
        Kind::Number => end_of_number(bytes, at),
        Kind::Name => end_of_name(bytes, at),
        _ => at + 1,
    };
    Some(Piece { at, end, kind })
}
