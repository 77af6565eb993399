//! The equations of integration by parts.
#![tactic(auto)]

mod collecting;
mod equations;
pub mod laws;
mod shifts;
mod terms;

pub use equations::equation;
pub use shifts::are_seed_indices;
