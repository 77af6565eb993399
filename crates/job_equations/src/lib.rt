//! The seeded equations of a job, and the bound on their terms.
#![tactic(auto)]

mod bounds;
pub mod laws;
mod seeded;

pub use bounds::{EquationShape, term_bound};
pub use seeded::equations;
