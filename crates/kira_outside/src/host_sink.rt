//! A standard stream of the host: the trusted edge.

ghost use Rattle.std.specs.Prelude.{◌≡◌};

use crate::{Failed, Sink};
use std::io;

/// A stream of the host. It tells nothing of what was written, and counts each error; a stream that
/// takes no byte of a piece is one.
#[derive(Drop)]
pub struct HostSink<W: io::Write + Drop> {
    stream: W,
    faults: u64,
}

impl<W: io::Write + Drop> HostSink<W> {
    /// A sink over this stream, with no fault counted yet.
    pub fn new(stream: W) -> HostSink<W>
        ensures { ⟦<HostSink<W> as Sink>⟧.faults result ≡ 0 }
    {
        HostSink { stream, faults: 0 }
    }
}

impl<W: io::Write + Drop> Sink for HostSink<W> {
    ghost use Rattle.std.specs.Prelude.{None};

    ghost told = { λ _. None };

    ghost faults = { λ sink. sink.faults };

    fn write(&mut self, bytes: &[u8]) -> Result<usize, Failed> {
        match self.stream.write(bytes) {
            Ok(count) if 0 < count || bytes.is_empty() => Ok(count),
            _ => {
                self.faults = self.faults.saturating_add(1);
                Err(Failed)
            }
        }
    }

    fn flush(&mut self) -> Result<(), Failed> {
        match self.stream.flush() {
            Ok(()) => Ok(()),
            Err(_) => {
                self.faults = self.faults.saturating_add(1);
                Err(Failed)
            }
        }
    }
}
