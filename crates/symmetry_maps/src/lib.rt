//! Symmetries of a family: maps of its loop momenta that permute its denominators, and their equations.
#![tactic(auto)]

mod checking;
mod equations;
mod faults;
pub mod laws;
mod moving;
mod symmetries;

pub use checking::check;
pub use equations::equation;
pub use faults::MapFault;
pub use symmetries::Symmetry;
