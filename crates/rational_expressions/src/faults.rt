//! Why an expression has no value.

use field_word::Composite;
use thiserror::Error;

/// Why an expression has no value: the first division that fails.
#[derive(Clone, Copy, Debug, PartialEq, Eq, Error)]
pub enum ValueFault {
    /// Its divisor is 0; `at` is the offset of its `/`.
    #[error("division by zero at byte {at}")]
    ZeroDivisor { at: u32 },
    /// Its divisor isn't 0 and has no inverse, since the modulus isn't prime.
    #[error(transparent)]
    Composite(Composite),
}
