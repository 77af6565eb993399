//! Files that are missing or too long, each with the message that docs/FORMATS.md asks for. Other refusals are tried
//! with the built program: examples/refused has them.

use crate::calls::{call_over, push_file, push_job};
use crate::jobs::TADPOLE;
use kira_outside::MemoryFiles;
use std::alloc::Global;
use std::test::Fail;

// Whether the tadpole is refused with this message where just its first files are held.
fn is_missing(alloc: Global, count: usize, message: &str) -> Result<bool, Fail> {
    let mut entries = Vec::new(alloc);
    push_job(alloc, &mut entries, &TADPOLE)?;
    entries.truncate(count);
    let mut files = MemoryFiles::new(entries, Vec::new(alloc));
    let ended = call_over(alloc, "jobs.yaml", &mut files)?;
    Ok(ended.is(3, b"", message.as_bytes()))
}

// Whether a job file of so many signs of a comment is refused with this message. Of two files of one name
// the first is loaded.
fn is_long(alloc: Global, length: usize, message: &str) -> Result<bool, Fail> {
    let bytes = vec![in alloc; b'#'; length]?;
    let mut entries = Vec::new(alloc);
    push_file(alloc, &mut entries, "jobs.yaml", &bytes)?;
    push_job(alloc, &mut entries, &TADPOLE)?;
    let mut files = MemoryFiles::new(entries, Vec::new(alloc));
    let ended = call_over(alloc, "jobs.yaml", &mut files)?;
    Ok(ended.is(3, b"", message.as_bytes()))
}

// How many of the files are held, and the message.
const MISSING: &[(usize, &str)] = &[
    (0, "kira: jobs.yaml:0: no such file\n"),
    (1, "kira: config/integralfamilies.yaml:0: no such file\n"),
    (2, "kira: config/kinematics.yaml:0: no such file\n"),
];

// The length of the job file, and the message. One with just as many bytes as it may have is read.
const LONG: &[(usize, &str)] = &[
    (16777217, "kira: jobs.yaml:0: longer than 16777216 bytes\n"),
    (
        16777216,
        "kira: jobs.yaml:1: the value has the wrong shape\n",
    ),
];

#[test]
fn missing_and_long_files(rt: HostRuntime) -> Result<(), Fail> {
    for (count, message) in MISSING {
        let is_right = is_missing(rt.alloc(), *count, message)?;
        assert!(rt; is_right, "{message}");
    }
    for (length, message) in LONG {
        let is_right = is_long(rt.alloc(), *length, message)?;
        assert!(rt; is_right, "{message}");
    }
    Ok(())
}
