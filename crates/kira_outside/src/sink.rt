//! A stream of bytes that the program writes.

ghost use Rattle.std.specs.Prelude.{◌≡◌, ◌≤◌, ◌<◌, ℕ, Option, length, take, option_map, IfOk, OnOk, OnErr};
ghost use Rattle.kira_outside.specs.Faults.{Rose};
ghost use Rattle.kira_outside.specs.Stream.{Stream, appended, all_flushed};

use crate::Failed;

/// Something to write bytes to, in pieces.
pub trait Sink {
    /// The bytes written, and how many of them the last successful flush found, where it tells.
    ghost told: { Self → Option Stream };

    /// How often a call has failed. Each failing call adds one, but at its last value, 2 ^ 64 - 1, it stays.
    ghost faults: { Self → ℕ };

    /// Takes the first bytes of the piece, at least one where there is one, and says how many.
    fn write(&mut self, bytes: &[u8]) -> Result<usize, Failed>
        ensures within { IfOk result (λ count. count ≤ length bytes.now) }
        ensures takes { IfOk result (λ count. 0 < length bytes.now → 0 < count) }
        ensures written { IfOk result (λ count. told self.new ≡ option_map (appended (take count bytes.now)) (told self.old)) }
        ensures unchanged { OnErr result (told self.new ≡ told self.old) }
        ensures failed { OnErr result (Rose (faults self.old) (faults self.new)) }
        ensures ok_count { OnOk result (faults self.new ≡ faults self.old) }
        ensures never_falls { faults self.old ≤ faults self.new };

    /// Hands on all that was written.
    fn flush(&mut self) -> Result<(), Failed>
        ensures flushed { OnOk result (told self.new ≡ option_map all_flushed (told self.old)) }
        ensures unchanged { OnErr result (told self.new ≡ told self.old) }
        ensures failed { OnErr result (Rose (faults self.old) (faults self.new)) }
        ensures ok_count { OnOk result (faults self.new ≡ faults self.old) }
        ensures never_falls { faults self.old ≤ faults self.new };
}
