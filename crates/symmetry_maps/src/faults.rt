//! Why a map of the loop momenta is no symmetry.

use out_of_memory::OutOfMemory;
use std::alloc::AllocFailed;
use thiserror::Error;

/// Why a map of the loop momenta was refused.
#[derive(Clone, Copy, Debug, PartialEq, Eq, Error)]
pub enum MapFault {
    /// The first denominator, from 1, whose image is the form of no denominator, or is the form of one to
    /// which an earlier denominator was sent.
    #[error("denominator {denominator} has no place of its own")]
    NotAPermutation {
        /// The number of the denominator.
        denominator: u32,
    },
    /// Memory was refused.
    #[error("out of memory")]
    OutOfMemory,
}

impl From<OutOfMemory> for MapFault {
    ghost use Rattle.std.specs.Prelude.{◌≡◌};
    ghost use Rattle.symmetry_maps.specs.declared.faults.MapFault.TheVariants as map_fault;

    ghost from_gives = { λ _ e. e ≡ map_fault.OutOfMemory };

    fn from(_refused: OutOfMemory) -> MapFault {
        MapFault::OutOfMemory
    }
}

// The value that could not be stored is dropped.
impl<T: Drop> From<AllocFailed<T>> for MapFault {
    ghost use Rattle.std.specs.Prelude.{◌≡◌};
    ghost use Rattle.symmetry_maps.specs.declared.faults.MapFault.TheVariants as map_fault;

    ghost from_gives = { λ _ e. e ≡ map_fault.OutOfMemory };

    fn from(_refused: AllocFailed<T>) -> MapFault {
        MapFault::OutOfMemory
    }
}
