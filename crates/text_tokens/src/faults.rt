//! The faults of a text.

use out_of_memory::OutOfMemory;
use thiserror::Error;

/// What is wrong with a text. Contracts name the kind that comes first.
#[derive(Clone, Copy, Debug, PartialEq, Eq, Error)]
pub enum TextKind {
    /// No value can go on with this token, or the text ends too early.
    #[error("not an expression")]
    BadExpression,
    /// No momentum can go on with this token, or the text ends too early.
    #[error("not a momentum")]
    BadMomentum,
    /// A name that isn't among the given ones.
    #[error("unknown name")]
    UnknownName,
    /// A number above 2^128 - 1.
    #[error("wider than 128 bits")]
    NumberTooWide,
    /// An exponent above 64, or a number or a sum of a momentum above 1000 in size.
    #[error("out of range")]
    OutOfRange,
    /// The 33rd parenthesis that is open at once, or the 1001st of the signs `+`, `-`, `*`, `/`, `^`.
    #[error("nested too deep")]
    TooDeep,
}

/// The first fault of a text: the offset of its token, or the text's length where it ends too early.
#[derive(Clone, Copy, Debug, PartialEq, Eq, Error)]
#[error("{kind} at byte {at}")]
pub struct TextFault {
    pub at: u32,
    pub kind: TextKind,
}

/// Why a text wasn't read.
#[derive(Clone, Copy, Debug, PartialEq, Eq, Error)]
pub enum TextError {
    #[error(transparent)]
    Fault(TextFault),
    #[error("out of memory")]
    OutOfMemory,
}

impl From<OutOfMemory> for TextError {
    ghost use Rattle.std.specs.Prelude.{◌≡◌};
    ghost use Rattle.text_tokens.specs.declared.faults.TextError.TheVariants as text_error;

    ghost from_gives = { λ _ e. e ≡ text_error.OutOfMemory };

    fn from(_refused: OutOfMemory) -> TextError {
        TextError::OutOfMemory
    }
}
