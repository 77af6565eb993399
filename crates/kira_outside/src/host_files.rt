//! The folder in which the program was started: the trusted edge.

ghost use Rattle.std.specs.Prelude.{◌≡◌, ◌≤◌, length, IfOk};

use crate::{Files, LoadFault};
use std::alloc::Global;
use std::io::{ErrorKind, Read};
use std::{fs, rt};

// As many bytes are asked of a file at once.
const CHUNK: usize = 1 << 14;

/// Files of the host, named relative to the folder in which the program was started. They tell nothing
/// of their content, and count each error, a missing file too.
#[derive(Drop)]
pub struct HostFiles<R: rt::Files + Drop> {
    runtime: R,
    faults: u64,
}

impl<R: rt::Files + Drop> HostFiles<R> {
    /// The files that this runtime reaches, with no fault counted yet.
    pub fn new(runtime: R) -> HostFiles<R>
        ensures { ⟦<HostFiles<R> as Files>⟧.faults result ≡ 0 }
    {
        HostFiles { runtime, faults: 0 }
    }

    fn read(&self, alloc: Global, name: &str, most: usize) -> Result<Vec<u8>, LoadFault>
        ensures { IfOk result (λ bytes. length bytes.items ≤ most) }
    {
        let mut file = match fs::open(&self.runtime, name) {
            Ok(file) => file,
            Err(error) if error.kind() == ErrorKind::NotFound => return Err(LoadFault::Missing),
            Err(_) => return Err(LoadFault::Failed),
        };
        read_at_most(alloc, &mut file, most)
    }
}

impl<R: rt::Files + Drop> Files for HostFiles<R> {
    ghost use Rattle.std.specs.Prelude.{⊤, None};

    ghost held = { λ _. None };

    ghost loaded = { λ _ _. ⊤ };

    ghost faults = { λ files. files.faults };

    fn load(&mut self, alloc: Global, name: &str, most: usize) -> Result<Vec<u8>, LoadFault> {
        let loaded = self.read(alloc, name, most);
        if let Err(LoadFault::Missing | LoadFault::Failed) = loaded {
            self.faults = self.faults.saturating_add(1);
        }
        loaded
    }
}

// The first `most` bytes that the reader gives, or all where it gives fewer.
fn read_at_most<R: Read>(alloc: Global, reader: &mut R, most: usize) -> Result<Vec<u8>, LoadFault>
    ensures { IfOk result (λ bytes. length bytes.items ≤ most) }
{
    let mut bytes = Vec::new(alloc);
    let mut chunk = [0u8; CHUNK];
    while bytes.len() < most {
        let wanted = CHUNK.min(most - bytes.len());
        let Ok(count) = reader.read(&mut chunk[..wanted]) else {
            return Err(LoadFault::Failed);
        };
        if count == 0 {
            break;
        }
        if bytes.extend_from_slice(&chunk[..count]).is_err() {
            return Err(LoadFault::OutOfMemory);
        }
    }
    Ok(bytes)
}
