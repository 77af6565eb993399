//! The schemas of the jobs file and of the words that override its values.
#![tactic(auto)]

mod frames;
mod groups;
mod jobs;
mod laws;
mod overrides;
mod points;
mod ratios;
mod selections;

pub use frames::Frame;
pub use groups::Group;
pub use jobs::{Job, read_jobs};
pub use laws::reading_never_says_missing;
pub use overrides::{Override, override_point, read_override};
pub use points::{NumericPoint, PointInput, Setting};
pub use ratios::{Divisor, Ratio};
pub use selections::{ListFile, Selection};
