//! The text of a table, and its sending.
#![tactic(auto)]

mod distinct;
mod laws;
mod pieces;
mod sending;
mod whole;

pub use laws::{names_are_plain, text_tells_normal_forms};
pub use sending::{WriteFault, send, write_all};
pub use whole::{masters, text};
