//! Momenta: sums of named momenta with whole coefficients, and the reader of their texts.
#![tactic(auto)]

mod laws;
mod momenta;
mod momentum_reader;

pub use laws::{momentum_readings_are_unique, printed_momentum_reads_back};
pub use momenta::{Momentum, are_coefficients, are_wide};
pub use momentum_reader::read_momentum;
