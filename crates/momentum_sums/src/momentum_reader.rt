//! The reader of momenta.

ghost use Rattle.std.specs.Prelude.{◌≡◌, ◌<◌, ◌≤◌, ◌^◌, ◌+◌, ◌∷◌, [], ◌++◌, ℕ, List, Bool, true, false, IsTrue, if◌then◌else◌, length, drop, slice_range, slice_index_or, map, All, IfOk, OnOk, IfErr, MatchOption, MatchResult, Some, None, pos, ◌-ℤ◌};
ghost use Rattle.std.specs.List.{list_any};
ghost use Rattle.std.specs.Str.{bytes_eq};
ghost use Rattle.text_tokens.specs.Tokens.{Token, number, name, number_of};
ghost use Rattle.text_tokens.specs.Pieces.{token_of, placed_piece, rest_from};
ghost use Rattle.text_tokens.specs.Names.{is_among};
ghost use Rattle.text_tokens.specs.Faults.{tokens_in, IsAtFault, IfFault};
ghost use Rattle.text_tokens.specs.declared.faults.TextKind.TheVariants.{BadMomentum};
ghost use Rattle.momentum_sums.specs.Momenta.{IsMomentum, IsMomentumFault, IsMomentumText, momentum_blame, is_named};
ghost use Rattle.momentum_sums.specs.MomentumReader.{follows, HasRead, IsTallied, IsTalliedText, HasRoom, with_term, has_small_sum, tally_of};

use crate::momenta::Momentum;
use out_of_memory::OutOfMemory;
use std::alloc::Global;
use text_tokens::{Kind, Name, Piece, TextError, TextFault, TextKind, next_piece, number_value};

/// What the reader of a momentum takes next: a first sign or a term, a term, the `*` behind a factor,
/// the name behind it, or a sign.
#[derive(Clone, Copy, Debug, PartialEq, Eq)]
enum Expected {
    Start,
    Term,
    Star,
    Name,
    Sign,
}

/// What a name's terms so far add and take.
#[derive(Clone, Copy, Debug)]
struct Tally {
    added: u64,
    taken: u64,
}

/// What the reader expects next, and the sign and factor that the next name has.
#[derive(Clone, Copy, Debug)]
struct Progress {
    expected: Expected,
    is_negative: bool,
    factor: u64,
}

/// What is expected after a token. None where no momentum can go on with it.
fn follow(expected: Expected, kind: Kind) -> Option<Expected>
    ensures { (at : ℕ) (bytes : List ℕ) → result ≡ follows expected (token_of kind at bytes) }
{
    match (expected, kind) {
        (Expected::Start | Expected::Sign, Kind::Plus | Kind::Minus) => Some(Expected::Term),
        (Expected::Start | Expected::Term, Kind::Number) => Some(Expected::Star),
        (Expected::Star, Kind::Star) => Some(Expected::Name),
        (Expected::Start | Expected::Term | Expected::Name, Kind::Name) => Some(Expected::Sign),
        _ => None,
    }
}

/// The factor that the digits write.
fn factor_of(digits: &[u8]) -> Result<u64, TextKind>
    ensures ok { IfOk result (λ n. (n ≡ number_of digits.now) × (n ≤ 1000)) }
    ensures fault { IfErr result (λ k. (before after : List Token) (names : List (List ℕ)) → momentum_blame names before (number digits.now) after ≡ Some k) }
{
    match number_value(digits) {
        None => Err(TextKind::NumberTooWide),
        Some(number) => {
            if number > 1000 {
                return Err(TextKind::OutOfRange);
            }
            Ok(number as u64)
        }
    }
}

impl Tally {
    /// The tally with one term more.
    fn with_term(self, is_negative: bool, factor: u64) -> Tally
        requires room { HasRoom self }
        requires small { factor ≤ 1000 }
        ensures { result ≡ with_term is_negative factor self }
    {
        if is_negative {
            Tally {
                added: self.added,
                taken: self.taken + factor,
            }
        } else {
            Tally {
                added: self.added + factor,
                taken: self.taken,
            }
        }
    }

    /// Whether the sum is at most 1000 in size.
    fn has_small_sum(self) -> bool
        ensures { result ≡ has_small_sum self }
    {
        self.added.abs_diff(self.taken) <= 1000
    }
}

/// Adds a term to the tally of each name that has these bytes. The tally then, or None where no name has
/// them.
fn add_term(
    tallies: &mut [Tally],
    names: &[Name],
    word: &[u8],
    is_negative: bool,
    factor: u64,
) -> Option<Tally>
    requires lengths { length tallies.old ≡ length names.now }
    requires room { All HasRoom tallies.old }
    requires small { factor ≤ 1000 }
    ensures each { (k : ℕ) (t : Tally) → k < length names.now →
        slice_index_or tallies.new k t ≡ (if bytes_eq (slice_index_or names.now k []) word.now then with_term is_negative factor (slice_index_or tallies.old k t) else slice_index_or tallies.old k t) }
    ensures found { MatchOption result (is_among names.now word.now ≡ false)
        (λ t. (k : ℕ) × (k < length names.now) × (bytes_eq (slice_index_or names.now k []) word.now ≡ true) × (t ≡ slice_index_or tallies.new k t)) }
{
    let mut found = None;
    for i in 0..names.len() {
        if names[i].as_str().as_bytes() == word {
            let tally = tallies[i].with_term(is_negative, factor);
            tallies[i] = tally;
            found = Some(tally);
        }
    }
    found
}

/// Whether a token from `from` on is this name.
fn comes_again(bytes: &[u8], from: usize, word: &[u8]) -> bool
    requires { from ≤ length bytes.now }
    ensures { result ≡ list_any (is_named word.now) (tokens_in (rest_from bytes.now from)) }
{
    let mut at = from;
    while let Some(piece) = next_piece(bytes, at) {
        if piece.kind == Kind::Name && &bytes[piece.at..piece.end] == word {
            return true;
        }
        at = piece.end;
    }
    false
}

/// Takes a name, whose term is added to its tally.
fn take_name(
    bytes: &[u8],
    piece: Piece,
    names: &[Name],
    tallies: &mut [Tally],
    progress: Progress,
) -> Result<(), TextKind>
    requires begins { piece.at ≤ piece.end }
    requires ends { piece.end ≤ length bytes.now }
    requires lengths { length tallies.old ≡ length names.now }
    requires room { All HasRoom tallies.old }
    requires small { progress.factor ≤ 1000 }
    ensures ok { let word = slice_range bytes.now piece.at piece.end in
        OnOk result ((before : List Token) → IsTallied names.now before progress.is_negative progress.factor tallies.old →
        (momentum_blame names.now before (name word) (tokens_in (rest_from bytes.now piece.end)) ≡ None)
        × IsTallied names.now (before ++ name word ∷ []) progress.is_negative progress.factor tallies.new) }
    ensures fault { let word = slice_range bytes.now piece.at piece.end in
        IfErr result (λ k. (before : List Token) → IsTallied names.now before progress.is_negative progress.factor tallies.old →
        momentum_blame names.now before (name word) (tokens_in (rest_from bytes.now piece.end)) ≡ Some k) }
{
    let word = &bytes[piece.at..piece.end];
    match add_term(tallies, names, word, progress.is_negative, progress.factor) {
        None => Err(TextKind::UnknownName),
        Some(tally) => {
            if tally.has_small_sum() {
                return Ok(());
            }
            if comes_again(bytes, piece.end, word) {
                return Ok(());
            }
            Err(TextKind::OutOfRange)
        }
    }
}

/// Takes a token. The fault is the one that the token has at its place.
fn take_token(
    bytes: &[u8],
    piece: Piece,
    names: &[Name],
    tallies: &mut [Tally],
    progress: Progress,
) -> Result<Progress, TextKind>
    requires begins { piece.at ≤ piece.end }
    requires ends { piece.end ≤ length bytes.now }
    requires lengths { length tallies.old ≡ length names.now }
    requires room { All HasRoom tallies.old }
    requires small { progress.factor ≤ 1000 }
    ensures ok { let token = (placed_piece bytes.now piece).token in
        IfOk result (λ p. (before : List Token) → HasRead names.now before progress tallies.old →
        (momentum_blame names.now before token (tokens_in (rest_from bytes.now piece.end)) ≡ None)
        × HasRead names.now (before ++ token ∷ []) p tallies.new) }
    ensures fault { IfErr result (λ k. (before : List Token) → HasRead names.now before progress tallies.old →
        IsAtFault IsMomentumText (momentum_blame names.now) BadMomentum before (placed_piece bytes.now piece).token (tokens_in (rest_from bytes.now piece.end)) k) }
{
    let Some(expected) = follow(progress.expected, piece.kind) else {
        return Err(TextKind::BadMomentum);
    };
    match piece.kind {
        Kind::Number => {
            let factor = factor_of(&bytes[piece.at..piece.end])?;
            Ok(Progress {
                expected,
                is_negative: progress.is_negative,
                factor,
            })
        }
        Kind::Name => {
            take_name(bytes, piece, names, tallies, progress)?;
            Ok(Progress {
                expected,
                is_negative: progress.is_negative,
                factor: progress.factor,
            })
        }
        Kind::Plus => Ok(Progress {
            expected,
            is_negative: false,
            factor: 1,
        }),
        Kind::Minus => Ok(Progress {
            expected,
            is_negative: true,
            factor: 1,
        }),
        _ => Ok(Progress {
            expected,
            is_negative: progress.is_negative,
            factor: progress.factor,
        }),
    }
}

/// Takes all tokens of a text.
fn read_terms(bytes: &[u8], names: &[Name], tallies: &mut [Tally]) -> Result<(), TextFault>
    requires size { length bytes.now < 2 ^ 32 }
    requires start { tallies.old ≡ map (tally_of []) names.now }
    ensures ok { OnOk result (IsTalliedText names.now bytes.now tallies.new) }
    ensures fault { IfErr result (λ f. IsMomentumFault names.now bytes.now f.at f.kind) }
{
    let mut progress = Progress {
        expected: Expected::Start,
        is_negative: false,
        factor: 1,
    };
    let mut from = 0;
    while let Some(piece) = next_piece(bytes, from) {
        match take_token(bytes, piece, names, tallies, progress) {
            Ok(next) => progress = next,
            Err(kind) => return Err(TextFault {
                at: piece.at as u32,
                kind,
            }),
        }
        from = piece.end;
    }
    match progress.expected {
        Expected::Sign => Ok(()),
        _ => Err(TextFault {
            at: bytes.len() as u32,
            kind: TextKind::BadMomentum,
        }),
    }
}

impl Tally {
    /// The name's coefficient.
    fn coefficient(self) -> i16
        requires { IsTrue (has_small_sum self) }
        ensures { result ≡ pos self.added -ℤ pos self.taken }
    {
        if self.taken <= self.added {
            (self.added - self.taken) as i16
        } else {
            -((self.taken - self.added) as i16)
        }
    }
}

/// The coefficients of the tallies.
fn coefficients_of(alloc: Global, tallies: &[Tally]) -> Result<Vec<i16>, OutOfMemory>
    requires { All (λ t. IsTrue (has_small_sum t)) tallies.now }
    ensures { IfOk result (λ v. v.items ≡ map (λ t. pos t.added -ℤ pos t.taken) tallies.now) }
{
    let mut coefficients = Vec::with_capacity(alloc, tallies.len())?;
    for tally in tallies {
        coefficients.push(tally.coefficient())?;
    }
    Ok(coefficients)
}

/// A tally without a term for each name.
fn no_terms(alloc: Global, names: &[Name]) -> Result<Vec<Tally>, OutOfMemory>
    ensures { IfOk result (λ v. v.items ≡ map (tally_of []) names.now) }
{
    let empty = Tally { added: 0, taken: 0 };
    Ok(vec![in alloc; empty; names.len()]?)
}

/// The tallies of a text's names.
fn read_tallies(alloc: Global, bytes: &[u8], names: &[Name]) -> Result<Vec<Tally>, TextError>
    requires size { length bytes.now < 2 ^ 32 }
    ensures ok { IfOk result (λ v. IsTalliedText names.now bytes.now v.items) }
    ensures fault { IfErr result (λ e. IfFault e (λ f. IsMomentumFault names.now bytes.now f.at f.kind)) }
{
    let mut tallies = no_terms(alloc, names)?;
    read_terms(bytes, names, &mut tallies).map_err(TextError::Fault)?;
    Ok(tallies)
}

/// The momentum that a text writes over these names: each coefficient is the sum of its name's terms.
///
/// The text is `[sign] term { sign term }`, where a term is a name, or a number, `*` and a name, and
/// spaces may stand between tokens. A fault names the first token at fault, as `TextKind` says; a sum
/// above 1000 in size is the fault of its name's last token.
#[tactic(auto, using(crate::proofs::SmallSums::tallies_are_small, crate::proofs::SmallSums::is_momentum, crate::proofs::SmallSums::coefficients_in_range))]
pub fn read_momentum(alloc: Global, text: &str, names: &[Name]) -> Result<Momentum, TextError>
    requires size { length text.now < 2 ^ 32 }
    requires few { length names.now < 2 ^ 32 }
    ensures ok { IfOk result (λ m. IsMomentum names.now text.now m) }
    ensures fault { IfErr result (λ e. IfFault e (λ f. IsMomentumFault names.now text.now f.at f.kind)) }
{
    let tallies = read_tallies(alloc, text.as_bytes(), names)?;
    let coefficients = coefficients_of(alloc, &tallies)?;
    Ok(Momentum::from_coefficients(coefficients))
}
