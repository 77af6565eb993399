//! Calls over files and sinks in memory, for tests, and walks over tables of what calls are to write.

ghost use Rattle.std.specs.Prelude.{◌≡◌, ◌<◌};

use crate::jobs::Files;
use kira_app::{Status, exit_code, kira_alone};
use kira_outside::{Entry, MemoryFiles, MemorySink, Text8};
use std::alloc::Global;
use std::marker::Brand;
use std::process::Abort;
use std::sync::ledger::{Blank, Ledger};
use std::test::Fail;
use step_counter::Steps;

/// The files of a call, its words, separated by blanks, and what it prints.
pub(crate) type Printed = (&'static Files, &'static str, &'static str);

/// The files of a call, its words, separated by blanks, its exit status, and its message.
pub(crate) type Refused = (&'static Files, &'static str, u8, &'static str);

// A file in memory.
fn entry(alloc: Global, name: &str, text: &[u8]) -> Result<Entry, Fail> {
    Ok(Entry {
        name: Text8::new(alloc, name)?,
        bytes: text.to_vec(alloc)?,
    })
}

/// Puts a file behind the others.
pub(crate) fn push_file(
    alloc: Global,
    entries: &mut Vec<Entry>,
    name: &str,
    text: &[u8],
) -> Result<(), Fail> {
    entries.push(entry(alloc, name, text)?)?;
    Ok(())
}

/// Puts the files of a job behind the others.
pub(crate) fn push_job(alloc: Global, entries: &mut Vec<Entry>, files: &Files) -> Result<(), Fail> {
    push_file(alloc, entries, "jobs.yaml", files.jobs.as_bytes())?;
    let families = files.families.as_bytes();
    push_file(alloc, entries, "config/integralfamilies.yaml", families)?;
    let kinematics = files.kinematics.as_bytes();
    push_file(alloc, entries, "config/kinematics.yaml", kinematics)?;
    push_file(alloc, entries, files.list.0, files.list.1.as_bytes())
}

/// The files of a job in memory, where the loads with these numbers fail.
pub(crate) fn held(alloc: Global, files: &Files, failing: Vec<u64>) -> Result<MemoryFiles, Fail> {
    let mut entries = Vec::new(alloc);
    push_job(alloc, &mut entries, files)?;
    Ok(MemoryFiles::new(entries, failing))
}

/// How a call ended, and what it wrote.
#[derive(Drop)]
pub(crate) struct Ending {
    status: Status,
    out: MemorySink,
    err: MemorySink,
}

impl Ending {
    /// Whether the call ended with this exit status, and wrote just this table and this message.
    pub(crate) fn is(&self, code: u8, table: &[u8], message: &[u8]) -> bool {
        exit_code(&self.status) == code && self.out.bytes() == table && self.err.bytes() == message
    }
}

fn words_of(alloc: Global, line: &str) -> Result<Vec<String>, Fail> {
    let mut words = Vec::new(alloc);
    for word in line.split_whitespace() {
        words.push(String::from_str(alloc, word)?)?;
    }
    Ok(words)
}

// The call, with a counter of its own for the steps.
fn counted<L: Ledger>(
    alloc: Global,
    words: &[String],
    files: &mut MemoryFiles,
    out: &mut MemorySink,
    err: &mut MemorySink,
    blank: Blank,
) -> Status
    requires name { blank.name ≡ L.name }
    requires parts { blank.parts ≡ L.parts }
    requires some { 0 < L.parts }
{
    let (book, share) = blank.open::<L>();
    kira_alone(alloc, words, files, out, err, &mut Steps::new(book, share))
}

fn run(
    alloc: Global,
    words: &[String],
    files: &mut MemoryFiles,
    mut out: MemorySink,
    mut err: MemorySink,
) -> Ending {
    let status = counted::<Brand>(alloc, words, files, &mut out, &mut err, Blank::new(1));
    Ending { status, out, err }
}

/// A call with these words, separated by blanks, over these files and this sink.
pub(crate) fn call_with(
    alloc: Global,
    line: &str,
    files: &mut MemoryFiles,
    out: MemorySink,
) -> Result<Ending, Fail> {
    let err = MemorySink::new(alloc, Vec::new(alloc), 7, 65536)?;
    let words = words_of(alloc, line)?;
    Ok(run(alloc, &words, files, out, err))
}

/// A call with these words over these files, where no write fails.
pub(crate) fn call_over(
    alloc: Global,
    line: &str,
    files: &mut MemoryFiles,
) -> Result<Ending, Fail> {
    let out = MemorySink::new(alloc, Vec::new(alloc), 65536, 65536)?;
    call_with(alloc, line, files, out)
}

// A call with these words over the files of a job, where nothing fails.
fn call(alloc: Global, line: &str, files: &Files) -> Result<Ending, Fail> {
    let mut files = held(alloc, files, Vec::new(alloc))?;
    call_over(alloc, line, &mut files)
}

fn prints(alloc: Global, case: &Printed) -> Result<bool, Fail> {
    let (files, line, table) = *case;
    Ok(call(alloc, line, files)?.is(0, table.as_bytes(), b""))
}

fn refuses(alloc: Global, case: &Refused) -> Result<bool, Fail> {
    let (files, line, code, message) = *case;
    Ok(call(alloc, line, files)?.is(code, b"", message.as_bytes()))
}

/// Each of the calls prints what it is to print, and nothing else.
pub(crate) fn all_print(rt: &impl Abort, alloc: Global, cases: &[Printed]) -> Result<(), Fail> {
    for case in cases {
        let is_right = prints(alloc, case)?;
        assert!(rt; is_right, "{}: {}", case.1, case.2);
    }
    Ok(())
}

/// Each of the calls is refused with its exit status and its message, and prints no table.
pub(crate) fn all_refuse(rt: &impl Abort, alloc: Global, cases: &[Refused]) -> Result<(), Fail> {
    for case in cases {
        let is_right = refuses(alloc, case)?;
        assert!(rt; is_right, "{}: {}", case.1, case.3);
    }
    Ok(())
}
