//! The parts from which the schemas of the input files are made: maps with known keys, lists, names,
//! numbers, momenta and values, each with its faults in one order.
#![tactic(auto)]

mod expressions;
mod faults;
mod laws;
mod maps;
mod momenta;
mod names;
mod nodes;
mod numbers;

pub use expressions::{momentum, value};
pub use faults::{File, InputFault, InputKind, SchemaError, fault};
pub use laws::readings_are_single;
pub use maps::{Key, fields, needed, optional};
pub use momenta::replaced;
pub use names::{fresh, joined, name, new_name, place_among, reference};
pub use nodes::{flag, items, list, pair, scalar};
pub use numbers::{is_negative, is_number, number, unsigned, wide_number, written_number};
