//! `kira`: reduces the loop integrals of a job to master integrals, modulo a prime.
#![tactic(auto)]

ghost use Rattle.std.specs.Prelude.{◌≡◌, ◌<◌};
ghost use Rattle.std.specs.Process.{exit_status};
ghost use Rattle.kira_app.specs.Message.{exit_code_of};

use kira_app::{Refusal, Status, exit_code, kira_alone, tell};
use kira_outside::{Files, HostFiles, HostSink, Sink};
use std::alloc::Global;
use std::marker::Brand;
use std::process::ExitCode;
use std::sync::ledger::{Blank, Ledger};
use std::{env, io};
use step_counter::Steps;

// The words after the program's name. One that isn't text is no word of a call.
fn words(rt: &HostRuntime) -> Result<Vec<String>, Status> {
    match env::args(rt) {
        Ok(args) => args
            .skip(1)
            .collect(rt.alloc())
            .map_err(|_| Status::OutOfMemory),
        Err(error) if error.kind() == io::ErrorKind::InvalidData => Err(Status::Usage),
        Err(_) => Err(Status::OutOfMemory),
    }
}

// The call with a counter of its own for the steps, which nobody reads.
fn call<F: Files, O: Sink, E: Sink, L: Ledger>(
    alloc: Global,
    words: &[String],
    files: &mut F,
    out: &mut O,
    err: &mut E,
    blank: Blank,
) -> Status
    requires name { blank.name ≡ L.name }
    requires parts { blank.parts ≡ L.parts }
    requires some { 0 < L.parts }
{
    let (book, share) = blank.open::<L>();
    let mut steps = Steps::new(book, share);
    kira_alone(alloc, words, files, out, err, &mut steps)
}

// What the process ends with where the call ended with this status.
fn ending(status: &Status) -> ExitCode
    ensures { exit_status result ≡ exit_code_of status.now }
{
    ExitCode::from(exit_code(status))
}

fn main(rt: HostRuntime) -> ExitCode {
    let mut files = HostFiles::new(rt);
    let mut out = HostSink::new(rt.stdout());
    let mut err = HostSink::new(rt.stderr());
    let status = match words(&rt) {
        Ok(words) => call::<_, _, _, Brand>(
            rt.alloc(),
            &words,
            &mut files,
            &mut out,
            &mut err,
            Blank::new(1),
        ),
        Err(status) => {
            let refusal = Refusal::plain(rt.alloc(), status);
            tell(&refusal, "", &mut err);
            refusal.status
        }
    };
    ending(&status)
}
