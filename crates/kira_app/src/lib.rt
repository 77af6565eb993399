//! The calls that the program makes: a job from its words and files to its table.
#![tactic(auto)]

mod job_files;
mod laws;
mod loading;
mod message;
mod planning;
mod reduction;
mod refusal;
mod run;
mod status;
mod top;
mod words;

pub use job_files::Sources;
pub use laws::jobs_agree;
pub use loading::sources;
pub use message::tell;
pub use refusal::Refusal;
pub use run::run_alone;
pub use status::{Status, exit_code};
pub use top::kira_alone;
