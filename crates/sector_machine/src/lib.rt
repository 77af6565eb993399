//! The machine of units: the states of a reduction, the events that lead from one to the next, and
//! their laws.
#![tactic(auto)]

pub mod laws;
