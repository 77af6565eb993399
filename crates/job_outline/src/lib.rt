//! Joins what the three files of a job and the words say, in the order in which they are read: the outline of the
//! job.
#![tactic(auto)]

mod laws;
mod outlines;
mod parts;
mod reader;

pub use laws::{outline_is_single, outlines_have_a_modulus, outlines_never_say_missing};
pub use outlines::Outline;
pub use parts::names_of;
pub use reader::read_outline;
