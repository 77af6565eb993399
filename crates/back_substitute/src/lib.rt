//! Back substitution: the pivots of lesser units are cleared out of the rows of a unit.
#![tactic(auto)]

pub mod laws;
mod pivots;
mod rows;
mod substitution;
mod sums;

pub use substitution::{Substituted, substitute};
