//! Plans a job from its outline and its list files: its seeds and its selection, what it says at its numeric point,
//! and its equations.
#![tactic(auto)]

mod gathering;
mod laws;
mod list_files;
mod planner;
mod plans;
mod reader;
mod terms;

pub use input_schema::{File, InputFault, InputKind};
pub use job_outline::{Outline, outline_is_single, outlines_have_a_modulus};
pub use job_point::{Excess, PlanError, Singular};
pub use job_schema::{Override, read_override};
pub use laws::{jobs_never_say_missing, plan_is_single, plans_agree};
pub use planner::plan;
pub use plans::Plan;
pub use reader::outline;
