//! Why denominators are no basis.

use field_word::Composite;
use matrix_elimination::{EliminationFault, Vector};
use out_of_memory::OutOfMemory;
use thiserror::Error;

/// Why a family of denominators was refused.
#[derive(Debug, Drop, Error)]
pub enum BasisFault {
    /// The denominators, times the entries of the vector, sum to a constant. The first entry other than 0
    /// is 1.
    #[error("the denominators are dependent")]
    NotBasis {
        /// One residue for each denominator.
        vector: Vector,
    },
    /// A number has no inverse, so the modulus isn't prime: a divisor of it.
    #[error(transparent)]
    Composite(Composite),
    /// Memory was refused.
    #[error("out of memory")]
    OutOfMemory,
}

impl From<OutOfMemory> for BasisFault {
    ghost use Rattle.std.specs.Prelude.{◌≡◌};
    ghost use Rattle.propagators.specs.declared.faults.BasisFault.TheVariants as basis_fault;

    ghost from_gives = { λ _ e. e ≡ basis_fault.OutOfMemory };

    fn from(_refused: OutOfMemory) -> BasisFault {
        BasisFault::OutOfMemory
    }
}

impl From<EliminationFault> for BasisFault {
    ghost use Rattle.propagators.specs.Faults.{IsSameFault};

    ghost from_gives = { IsSameFault };

    fn from(fault: EliminationFault) -> BasisFault {
        match fault {
            EliminationFault::Composite(composite) => BasisFault::Composite(composite),
            EliminationFault::OutOfMemory => BasisFault::OutOfMemory,
        }
    }
}
