//! Forward elimination: rows are brought into reduced echelon form, and of a unit's rows those with
//! their pivots in the unit are told apart from the rest.
#![tactic(auto)]

mod elimination;
mod fault;
pub mod laws;
mod reduction;
mod steps;

pub use elimination::{Eliminated, eliminate};
pub use fault::ForwardFault;
pub use reduction::reduced_rows;
pub use steps::place_of_pivot;
