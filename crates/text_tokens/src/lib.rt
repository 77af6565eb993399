//! The tokens of the texts of the input: names, numbers and marks, and the faults of a text.
#![tactic(auto)]

mod faults;
mod names;
mod numbers;
mod tokens;

pub use faults::{TextError, TextFault, TextKind};
pub use names::{Name, is_name};
pub use numbers::number_value;
pub use tokens::{Kind, Piece, is_digit, is_letter, is_name_byte, next_piece};
