//! Why there is no list of seeds.

use out_of_memory::OutOfMemory as Refused;
use std::alloc::AllocFailed;
use std::fmt;

/// Why there is no list of seeds.
#[derive(Clone, Copy, Debug, PartialEq, Eq)]
pub enum SeedFault {
    /// There are more seeds than the caller allows. Seeds are counted up to `count`, which is one
    /// more than allowed.
    TooMany {
        /// One more than the caller allows.
        count: u64,
    },
    /// Memory was refused.
    OutOfMemory,
}

impl From<Refused> for SeedFault {
    ghost use Rattle.std.specs.Prelude.{◌≡◌};
    ghost use Rattle.seed_sets.specs.declared.faults.SeedFault.TheVariants.{OutOfMemory as NoMemory};

    ghost from_gives = { λ _ e. e ≡ NoMemory };

    fn from(_refused: Refused) -> SeedFault {
        SeedFault::OutOfMemory
    }
}

// The value that could not be stored is dropped.
impl<T: Drop> From<AllocFailed<T>> for SeedFault {
    ghost use Rattle.std.specs.Prelude.{◌≡◌};
    ghost use Rattle.seed_sets.specs.declared.faults.SeedFault.TheVariants.{OutOfMemory as NoMemory};

    ghost from_gives = { λ _ e. e ≡ NoMemory };

    fn from(_refused: AllocFailed<T>) -> SeedFault {
        SeedFault::OutOfMemory
    }
}

impl fmt::Display for SeedFault {
    fn fmt<W: fmt::Write>(&self, f: &mut fmt::Formatter<W>) -> fmt::Result {
        match self {
            SeedFault::TooMany { count } => write!(f, "{count} seeds or more"),
            SeedFault::OutOfMemory => write!(f, "out of memory"),
        }
    }
}
