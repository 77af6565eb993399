//! Expressions over named values: the reader of their texts, and their values modulo a number.
#![tactic(auto)]

mod evaluation;
mod expressions;
mod faults;
mod laws;
mod value_reader;

pub use expressions::Expression;
pub use faults::ValueFault;
pub use laws::{value_readings_are_unique, values_are_unique};
pub use value_reader::read_value;
