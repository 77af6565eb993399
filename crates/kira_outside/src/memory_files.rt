//! Files in memory, which tell all that they hold, and how many loads were made.

ghost use Rattle.std.specs.Prelude.{◌≡◌, ◌≤◌, ◌↔◌, ◌≢◌, ℕ, List, [], ◌∷◌, ◌++◌, Some, length, take, option_map, IfOk, OnOk, OnErr, IsErrOf, IsSome};
ghost use Rattle.std.specs.FinMap.{get};
ghost use Rattle.kira_outside.specs.Faults.{Rose, one_more};
ghost use Rattle.kira_outside.specs.Held.{HoldsName, LoadGives, LacksName};
ghost use Rattle.kira_outside.specs.MemoryState.{held_of};

use crate::{Files, LoadFault, Text8};
use std::alloc::Global;
use std::marker::Model;

/// A file in memory.
#[derive(Drop)]
pub struct Entry {
    /// The name under which it is loaded.
    pub name: Text8,
    /// Its bytes.
    pub bytes: Vec<u8>,
}

/// Files in memory. Calls are numbered from 1, and those whose number is listed fail.
#[derive(Drop)]
pub struct MemoryFiles {
    entries: Vec<Entry>,
    failing: Vec<u64>,
    calls: u64,
    faults: u64,
}

impl Model for MemoryFiles {
    ghost use Rattle.kira_outside.specs.MemoryState.{FilesInMemory, files_in_memory_code, held_of};

    ghost Value = { FilesInMemory };

    ghost coded = { files_in_memory_code };

    ghost view = { λ files. record { held = held_of files.entries.items; failing = files.failing.items; calls = files.calls; faults = files.faults } };
}

impl MemoryFiles {
    /// Holds these names with their bytes; where several entries have one name, the first counts.
    pub fn new(entries: Vec<Entry>, failing: Vec<u64>) -> MemoryFiles
        ensures { result ≡ record { held = held_of entries.items; failing = failing.items; calls = 0; faults = 0 } }
    {
        MemoryFiles {
            entries,
            failing,
            calls: 0,
            faults: 0,
        }
    }
}

impl Files for MemoryFiles {
    ghost use Rattle.kira_outside.specs.MemoryState.{IsFailing, CountsLoads};

    ghost held = { λ files. Some files.held };

    ghost loaded = { CountsLoads };

    ghost faults = { λ files. files.faults };

    fn load(&mut self, alloc: Global, name: &str, most: usize) -> Result<Vec<u8>, LoadFault>
        ensures bytes { IfOk result (λ bytes. LoadGives (Some self.old.held) name.now most bytes.items) }
        ensures at_most { IfOk result (λ bytes. length bytes.items ≤ most) }
        ensures missing { IsErrOf result LoadFault.Missing → LacksName self.old.faults self.new.faults (Some self.old.held) name.now }
        ensures memory { IsErrOf result LoadFault.OutOfMemory → HoldsName (Some self.old.held) name.now }
        ensures loaded { (names : List (List ℕ)) → CountsLoads self.old names → CountsLoads self.new (names ++ name.now ∷ []) }
        ensures same { Some self.new.held ≡ Some self.old.held }
        ensures failed { IsErrOf result LoadFault.Failed → Rose self.old.faults self.new.faults }
        ensures ok_count { OnOk result (self.new.faults ≡ self.old.faults) }
        ensures memory_count { IsErrOf result LoadFault.OutOfMemory → self.new.faults ≡ self.old.faults }
        ensures never_falls { self.old.faults ≤ self.new.faults }

        // It fails by its list alone, counts no other fault, and each call has the next number.
        ensures listed { IsErrOf result LoadFault.Failed ↔ IsFailing self.old.failing self.old.calls }
        ensures counted { ¬ (IsFailing self.old.failing self.old.calls) → self.new.faults ≡ self.old.faults }
        ensures numbered { self.new.calls ≡ one_more self.old.calls }
        ensures list { self.new.failing ≡ self.old.failing }
    {
        self.calls = self.calls.saturating_add(1);
        if self.failing.contains(&self.calls) {
            self.faults = self.faults.saturating_add(1);
            return Err(LoadFault::Failed);
        }
        load_entry(alloc, &self.entries, name, most)
    }
}

// The first `most` bytes of the first entry of this name.
fn load_entry(
    alloc: Global,
    entries: &[Entry],
    name: &str,
    most: usize,
) -> Result<Vec<u8>, LoadFault>
    ensures bytes { IfOk result (λ bytes. LoadGives (Some (held_of entries.now)) name.now most bytes.items) }
    ensures at_most { IfOk result (λ bytes. length bytes.items ≤ most) }
    ensures missing { IsErrOf result LoadFault.Missing → get (held_of entries.now) name.now ≡ None }
    ensures memory { IsErrOf result LoadFault.OutOfMemory → IsSome (get (held_of entries.now) name.now) }
    ensures not_failed { result ≢ Err LoadFault.Failed }
{
    match find_entry(entries, name) {
        None => Err(LoadFault::Missing),
        Some(bytes) => first_bytes(alloc, bytes, most),
    }
}

// The bytes of the first entry of this name.
fn find_entry<'a>(entries: &'a [Entry], name: &str) -> Option<&'a [u8]>
    ensures { option_map (λ bytes. bytes.now) result ≡ get (held_of entries.now) name.now }
{
    for entry in entries {
        if entry.name.as_str() == name {
            return Some(&entry.bytes);
        }
    }
    None
}

fn first_bytes(alloc: Global, bytes: &[u8], most: usize) -> Result<Vec<u8>, LoadFault>
    ensures first { IfOk result (λ copy. copy.items ≡ take most bytes.now) }
    ensures memory { OnErr result (result ≡ Err LoadFault.OutOfMemory) }
{
    let first = &bytes[..bytes.len().min(most)];
    match Vec::from_slice(alloc, first) {
        Ok(copy) => Ok(copy),
        Err(_) => Err(LoadFault::OutOfMemory),
    }
}
