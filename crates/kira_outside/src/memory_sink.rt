//! A sink in memory, which tells all that it was given.

ghost use Rattle.std.specs.Prelude.{◌≡◌, ◌≤◌, ◌<◌, ◌↔◌, ℕ, [], length, min, take, option_map, IfOk, OnOk, OnErr, IsErr};
ghost use Rattle.kira_outside.specs.Faults.{Rose, one_more};
ghost use Rattle.kira_outside.specs.Stream.{appended, all_flushed};

use crate::{Failed, Sink};
use out_of_memory::OutOfMemory;
use std::alloc::Global;
use std::marker::Model;

/// A sink in memory. It reserves its room when it is made, so that no write takes memory. Calls are
/// numbered from 1, and those whose number is listed fail; so does a write that would pass the room.
#[derive(Drop)]
pub struct MemorySink {
    bytes: Vec<u8>,
    flushed: usize,
    failing: Vec<u64>,
    piece: usize,
    room: usize,
    calls: u64,
    faults: u64,
}

impl Model for MemorySink {
    ghost use Rattle.std.specs.Prelude.{◌≤◌, vec_capacity};
    ghost use Rattle.kira_outside.specs.MemoryState.{SinkInMemory, sink_in_memory_code};

    ghost Value = { SinkInMemory };

    ghost coded = { sink_in_memory_code };

    ghost view = { λ sink. record { stream = record { bytes = sink.bytes.items; flushed = sink.flushed }; failing = sink.failing.items; piece = sink.piece; room = sink.room; calls = sink.calls; faults = sink.faults } };

    ghost invariant = { λ sink. (1 ≤ sink.piece) × (sink.room ≤ vec_capacity sink.bytes) };
}

impl MemorySink {
    /// An empty sink that takes at most `piece` bytes per write, and at most `room` in all.
    pub fn new(
        alloc: Global,
        failing: Vec<u64>,
        piece: usize,
        room: usize,
    ) -> Result<MemorySink, OutOfMemory>
        requires { 1 ≤ piece }
        ensures { IfOk result (λ sink. sink ≡ record { stream = record { bytes = []; flushed = 0 }; failing = failing.items; piece = piece; room = room; calls = 0; faults = 0 }) }
    {
        let bytes = Vec::with_capacity(alloc, room)?;
        Ok(MemorySink {
            bytes,
            flushed: 0,
            failing,
            piece,
            room,
            calls: 0,
            faults: 0,
        })
    }

    /// What was written.
    pub fn bytes(&self) -> &[u8]
        ensures { result.now ≡ self.now.stream.bytes }
    {
        &self.bytes
    }
}

impl Sink for MemorySink {
    ghost use Rattle.std.specs.Prelude.{Some};
    ghost use Rattle.kira_outside.specs.MemoryState.{IsFailing, IsMadeAs, WriteFails};

    ghost told = { λ sink. Some sink.stream };

    ghost faults = { λ sink. sink.faults };

    fn write(&mut self, bytes: &[u8]) -> Result<usize, Failed>
        ensures within { IfOk result (λ count. count ≤ length bytes.now) }
        ensures takes { IfOk result (λ count. 0 < length bytes.now → 0 < count) }
        ensures written { IfOk result (λ count. Some self.new.stream ≡ option_map (appended (take count bytes.now)) (Some self.old.stream)) }
        ensures unchanged { OnErr result (Some self.new.stream ≡ Some self.old.stream) }
        ensures failed { OnErr result (Rose self.old.faults self.new.faults) }
        ensures ok_count { OnOk result (self.new.faults ≡ self.old.faults) }
        ensures never_falls { self.old.faults ≤ self.new.faults }

        // It takes as much as a piece holds, fails by its list and its room alone, counts no other
        // fault, and each call has the next number.
        ensures piece { IfOk result (λ count. count ≡ min self.old.piece (length bytes.now)) }
        ensures listed { IsErr result ↔ WriteFails self.old (length bytes.now) }
        ensures numbered { self.new.calls ≡ one_more self.old.calls }
        ensures kept { IsMadeAs self.old self.new }
    {
        self.calls = self.calls.saturating_add(1);
        let count = self.piece.min(bytes.len());
        if self.failing.contains(&self.calls)
            || self.room < self.bytes.len().saturating_add(count)
        {
            self.faults = self.faults.saturating_add(1);
            return Err(Failed);
        }
        let taken = self.bytes.extend_from_slice(&bytes[..count]);
        prove!(taken.is_ok());
        Ok(count)
    }

    fn flush(&mut self) -> Result<(), Failed>
        ensures flushed { OnOk result (Some self.new.stream ≡ option_map all_flushed (Some self.old.stream)) }
        ensures unchanged { OnErr result (Some self.new.stream ≡ Some self.old.stream) }
        ensures failed { OnErr result (Rose self.old.faults self.new.faults) }
        ensures ok_count { OnOk result (self.new.faults ≡ self.old.faults) }
        ensures never_falls { self.old.faults ≤ self.new.faults }

        // It fails by its list alone, and each call has the next number.
        ensures listed { IsErr result ↔ IsFailing self.old.failing self.old.calls }
        ensures numbered { self.new.calls ≡ one_more self.old.calls }
        ensures kept { IsMadeAs self.old self.new }
    {
        self.calls = self.calls.saturating_add(1);
        if self.failing.contains(&self.calls) {
            self.faults = self.faults.saturating_add(1);
            return Err(Failed);
        }
        self.flushed = self.bytes.len();
        Ok(())
    }
}
