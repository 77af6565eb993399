//! What a job says at its numeric point: the values of the invariants, the point of the rules, and the
//! denominators and the symmetries of each family.
#![tactic(auto)]

mod bases;
mod faults;
mod laws;
mod points;
mod ratios;
mod rules;
mod values;

pub use faults::{Excess, PlanError, Singular};
pub use laws::{points_agree, points_are_single, points_never_say_missing};
pub use points::{AtPoint, at_point};
