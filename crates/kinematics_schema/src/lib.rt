//! Reads the file of kinematics: the external momenta, their conservation, the invariants and the rules
//! of scalar products.
#![tactic(auto)]

mod content;
mod externals;
mod invariants;
mod laws;
mod momenta;
mod reader;
mod rules;

pub use content::{Conserved, Kinematics, Rule};
pub use laws::{reading_is_single, reading_never_says_missing};
pub use momenta::{independent, read_independent};
pub use reader::read;
