//! Tests of numeric points, outlines and plans.
#![tactic(auto)]

#[cfg(test)]
mod integrals;
#[cfg(test)]
mod numeric_points;
#[cfg(test)]
mod outlines;
#[cfg(test)]
mod plans;
