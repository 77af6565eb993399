//! What the words of a call ask for.

use out_of_memory::OutOfMemory;
use std::alloc::AllocError;

/// A word NAME=VALUE behind the job file.
#[derive(Clone, Copy, Debug, Drop)]
pub struct PlacedWord<'a> {
    /// Its place among all words, options included, counted from 1.
    pub place: u32,
    /// The word.
    pub text: &'a str,
}

/// A save that a job is to be run with.
#[derive(Clone, Copy, Debug, Drop)]
pub struct SaveRequest<'a> {
    /// The name of its file, which isn't empty.
    pub file: &'a str,
    /// The most bytes that the file may have: from 64 to 4294967296, which it is where no limit is given.
    pub limit: u64,
    /// After how many units the run is to pause, from 1 to 1000000000.
    pub units: Option<u64>,
}

/// A job that is to be reduced.
#[derive(Debug, Drop)]
pub struct JobRequest<'a> {
    /// The name of the job file.
    pub job_file: &'a str,
    /// The words that override values of its numeric point.
    pub overrides: Vec<PlacedWord<'a>>,
    /// The number of threads, from 1 to 64.
    pub parallel: Option<u64>,
    /// The save, where there is to be one.
    pub save: Option<SaveRequest<'a>>,
}

/// What the words of a call ask for.
#[derive(Debug, Drop)]
pub enum Request<'a> {
    /// The usage line.
    Help,
    /// The table of a job.
    Job(JobRequest<'a>),
    /// The counts of a job that is built in.
    Sample {
        /// Its size, from 2 to 100.
        number: u64,
        /// The number of threads, from 1 to 64.
        parallel: Option<u64>,
    },
}

/// Why words aren't read.
#[derive(Clone, Copy, Debug, PartialEq, Eq)]
pub enum WordsFault {
    /// They aren't those of a call.
    Usage,
    /// Memory was refused.
    OutOfMemory,
}

impl From<AllocError> for WordsFault {
    ghost use Rattle.std.specs.Prelude.{◌≡◌};
    ghost use Rattle.command_line.specs.declared.request.WordsFault.TheVariants.{OutOfMemory};

    ghost from_gives = { λ _ fault. fault ≡ OutOfMemory };

    fn from(_refused: AllocError) -> WordsFault {
        WordsFault::OutOfMemory
    }
}

impl From<OutOfMemory> for WordsFault {
    ghost use Rattle.std.specs.Prelude.{◌≡◌};
    ghost use Rattle.command_line.specs.declared.request.WordsFault.TheVariants.{OutOfMemory};

    ghost from_gives = { λ _ fault. fault ≡ OutOfMemory };

    fn from(_refused: OutOfMemory) -> WordsFault {
        WordsFault::OutOfMemory
    }
}
