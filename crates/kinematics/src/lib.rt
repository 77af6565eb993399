//! Kinematic rules and the point that meets them, beside the momenta and expressions of the input.
#![tactic(auto)]

mod laws;
mod points;
mod product_places;
mod rule_rows;
mod rules;

pub use laws::refused_rules_have_no_point;
pub use momentum_sums::{
    Momentum, are_coefficients, are_wide, momentum_readings_are_unique,
    printed_momentum_reads_back, read_momentum,
};
pub use points::Point;
pub use rational_expressions::{
    Expression, ValueFault, read_value, value_readings_are_unique, values_are_unique,
};
pub use rule_rows::residue;
pub use rules::{PointFault, Rule, point, rules_fit};
pub use text_tokens::{
    Name, TextError, TextFault, TextKind, is_digit, is_name, is_name_byte, number_value,
};
