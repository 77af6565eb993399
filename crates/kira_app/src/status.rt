//! How a call ends.

ghost use Rattle.std.specs.Prelude.{◌≡◌};
ghost use Rattle.kira_app.specs.Message.{exit_code_of};

use field_word::Composite;
use job_plan::{Excess, InputFault, Singular};
use matrix_elimination::Vector;
use out_of_memory::OutOfMemory;
use reduction_core::ForwardFault;

/// How a call of the program ends.
#[derive(Debug, Drop)]
pub enum Status {
    /// The whole table was written and flushed.
    Ok,
    /// The words aren't those of a call.
    Usage,
    /// The words or the job ask for what isn't served yet.
    NotYet,
    /// The first fault of the words and the files.
    Input(InputFault),
    /// What the files say has no value, or not just one, at the numeric point.
    Singular(Singular),
    /// No table of products meets the rules: under these multipliers, one residue for each rule, their left
    /// sides cancel, and their right sides sum to the residue, which isn't 0.
    RulesClash {
        /// The multiplier of each rule.
        multipliers: Vector,
        /// What the right sides sum to.
        residue: u64,
    },
    /// An inverse was needed that isn't there: the divisor divides the modulus.
    Composite(Composite),
    /// The job passes a limit.
    TooMany {
        /// What there is too much of.
        what: Excess,
        /// How many of them: one more than the limit for seeds and selected integrals, and the exact number for
        /// terms.
        count: u64,
    },
    /// Reading a file failed.
    ReadFault,
    /// Writing the table failed; a prefix of it was written.
    WriteFault,
    /// Memory was refused.
    OutOfMemory,
}

/// The exit status of the program.
pub fn exit_code(status: &Status) -> u8
    ensures { result ≡ exit_code_of status.now }
{
    match status {
        Status::Ok => 0,
        Status::Usage => 2,
        Status::Input(_) => 3,
        Status::Singular(_) => 4,
        Status::RulesClash { .. } => 4,
        Status::Composite(_) => 5,
        Status::TooMany { .. } => 6,
        Status::ReadFault => 7,
        Status::WriteFault => 9,
        Status::OutOfMemory => 14,
        Status::NotYet => 21,
    }
}

impl From<OutOfMemory> for Status {
    ghost use Rattle.kira_app.specs.declared.status.Status.TheVariants.{OutOfMemory};

    ghost from_gives = { λ _ status. status ≡ OutOfMemory };

    fn from(_refused: OutOfMemory) -> Status {
        Status::OutOfMemory
    }
}

impl From<ForwardFault> for Status {
    ghost use Rattle.kira_app.specs.Message.{status_of_fault};

    ghost from_gives = { λ fault status. status ≡ status_of_fault fault };

    fn from(fault: ForwardFault) -> Status {
        match fault {
            ForwardFault::Composite(composite) => Status::Composite(composite),
            ForwardFault::OutOfMemory => Status::OutOfMemory,
        }
    }
}
