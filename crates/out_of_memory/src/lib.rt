//! The one answer of every crate to a refused allocation.
#![tactic(auto)]

use std::alloc::{AllocError, AllocFailed};
use std::fmt;

/// Memory was refused. It says nothing else: no clause ties it to a growth, and what was lent for
/// writing is as before, unless the call that answers it says otherwise.
#[derive(Clone, Copy, Debug, PartialEq, Eq)]
pub struct OutOfMemory;

impl From<AllocError> for OutOfMemory {
    fn from(_refused: AllocError) -> OutOfMemory {
        OutOfMemory
    }
}

// The value that could not be stored is dropped.
impl<T: Drop> From<AllocFailed<T>> for OutOfMemory {
    fn from(_refused: AllocFailed<T>) -> OutOfMemory {
        OutOfMemory
    }
}

impl fmt::Display for OutOfMemory {
    fn fmt<W: fmt::Write>(&self, f: &mut fmt::Formatter<W>) -> fmt::Result {
        write!(f, "out of memory")
    }
}
