//! The command line: what the words of a call ask for.
#![tactic(auto)]

mod command;
mod laws;
mod options;
mod places;
mod reading;
mod request;

pub use laws::{dashes_end_options, plain_words_stand};
pub use reading::read;
pub use request::{JobRequest, PlacedWord, Request, SaveRequest, WordsFault};
