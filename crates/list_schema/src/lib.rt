//! Reads a list file, the text that names integrals of one family to be selected.
#![tactic(auto)]

mod indices;
mod laws;
mod lists;
mod names;

pub use laws::{pieces_are_cut, reading_never_says_missing};
pub use lists::read_list;
