//! The answers of calls that reach outside.

use thiserror::Error;

/// A read, a write or a flush failed, and the count of faults of its object rose in the call.
#[derive(Clone, Copy, Debug, PartialEq, Eq, Error)]
#[error("a call to the outside failed")]
pub struct Failed;

/// Why a file wasn't loaded.
#[derive(Clone, Copy, Debug, PartialEq, Eq, Error)]
pub enum LoadFault {
    /// No file of this name is held.
    #[error("no such file")]
    Missing,
    /// Reading failed, and the count of faults rose.
    #[error("reading failed")]
    Failed,
    /// Memory was refused.
    #[error("out of memory")]
    OutOfMemory,
}
