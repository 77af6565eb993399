//! Tests of kinematic points and of bases of denominators.
#![tactic(auto)]

#[cfg(test)]
mod bases;
#[cfg(test)]
mod points;
