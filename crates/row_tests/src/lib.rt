//! Tests of residues, integrals, rows, small matrices, seeds, and the elimination of one unit.
#![tactic(auto)]

#[cfg(test)]
mod forward;
#[cfg(test)]
mod integrals;
#[cfg(test)]
mod matrices;
#[cfg(test)]
mod residues;
#[cfg(test)]
mod rows;
#[cfg(test)]
mod seeds;
#[cfg(test)]
mod shared;
#[cfg(test)]
mod substitution;
