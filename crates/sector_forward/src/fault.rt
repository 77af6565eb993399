//! Why an elimination was refused.

use field_word::Composite;
use out_of_memory::OutOfMemory;
use std::alloc::AllocFailed;

/// Why an elimination gave no rows.
#[derive(Clone, Copy, Debug, PartialEq, Eq)]
pub enum ForwardFault {
    /// A greatest coefficient has no inverse, so the modulus isn't prime: a divisor of it.
    Composite(Composite),
    /// Memory was refused.
    OutOfMemory,
}

impl From<OutOfMemory> for ForwardFault {
    ghost use Rattle.std.specs.Prelude.{◌≡◌};
    ghost use Rattle.sector_forward.specs.declared.fault.ForwardFault.TheVariants as forward_fault;

    ghost from_gives = { λ _ e. e ≡ forward_fault.OutOfMemory };

    fn from(_refused: OutOfMemory) -> ForwardFault {
        ForwardFault::OutOfMemory
    }
}

impl<T: Drop> From<AllocFailed<T>> for ForwardFault {
    ghost use Rattle.std.specs.Prelude.{◌≡◌};
    ghost use Rattle.sector_forward.specs.declared.fault.ForwardFault.TheVariants as forward_fault;

    ghost from_gives = { λ _ e. e ≡ forward_fault.OutOfMemory };

    fn from(_refused: AllocFailed<T>) -> ForwardFault {
        ForwardFault::OutOfMemory
    }
}

impl From<Composite> for ForwardFault {
    ghost use Rattle.std.specs.Prelude.{◌≡◌};
    ghost use Rattle.sector_forward.specs.declared.fault.ForwardFault.TheVariants as forward_fault;

    ghost from_gives = { λ fault e. e ≡ forward_fault.Composite fault };

    fn from(fault: Composite) -> ForwardFault {
        ForwardFault::Composite(fault)
    }
}
