//! The outside of the program: files that are read, and sinks that are written to.
//!
//! Each trait has a meaning, which an object may tell or not, and a count of faults, which never falls.
//! The forms in memory tell all; those over the host tell nothing and are the trusted edge.
#![tactic(auto)]

mod fault;
mod files;
mod host_files;
mod host_sink;
mod memory_files;
mod memory_sink;
mod sink;
mod text8;

pub use fault::{Failed, LoadFault};
pub use files::Files;
pub use host_files::HostFiles;
pub use host_sink::HostSink;
pub use memory_files::{Entry, MemoryFiles};
pub use memory_sink::MemorySink;
pub use sink::Sink;
pub use text8::Text8;
