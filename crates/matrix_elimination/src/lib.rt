//! Gauss-Jordan elimination of dense matrices over the residues modulo p, prime or not, with the
//! multipliers kept that lead from the rows given to the rows found.
#![tactic(auto)]

mod elimination;
mod systems;
mod vectors;

pub use elimination::{Eliminated, EliminationFault, Solved, eliminate};
pub use systems::{SystemFault, dot, solve};
pub use vectors::Vector;
