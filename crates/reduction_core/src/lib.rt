//! The reduced list of a list of rows, the normal form of an integral under it, and the board on which
//! a list is reduced unit by unit, with its tasks.
#![tactic(auto)]

mod acceptance;
mod accepting;
mod applying;
mod ascending;
mod board;
pub mod checks;
pub mod laws;
mod listed;
mod opening;
mod plain;
mod readiness;
mod records;
mod rows;
mod shown;
mod slots;
mod table;
mod task;
mod turns;

pub use board::Board;
pub use plain::reduce_plain;
pub use records::Record;
pub use rows::Rows;
pub use sector_forward::ForwardFault;
pub use table::Table;
pub use task::{Task, Work};
