//! Tests of the equations of one seed, of symmetries, and of the equations of all seeds.
#![tactic(auto)]

#[cfg(test)]
mod derivatives;
#[cfg(test)]
mod lists;
#[cfg(test)]
mod shared;
#[cfg(test)]
mod symmetries;
