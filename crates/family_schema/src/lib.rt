//! Reads the file of integral families: their names, loop momenta, sectors, propagators and symmetries.
#![tactic(auto)]

mod content;
mod laws;
mod loops;
mod propagators;
mod reader;
mod scope;
mod sectors;
mod symmetries;

pub use content::{Family, Momenta, Propagator, Symmetry};
pub use laws::{reading_is_single, reading_never_says_missing};
pub use reader::read;
