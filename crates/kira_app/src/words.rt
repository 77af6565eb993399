//! The words of a call.

ghost use Rattle.std.specs.Prelude.{◌≡◌, true, map, Ok, Err, IfOk};
ghost use Rattle.std.specs.List.{list_all};
ghost use Rattle.std.specs.String.{string_bytes};
ghost use Rattle.command_line.specs.Request.{is_short_word, seen_word, IsAnswerOf};
ghost use Rattle.kira_app.specs.Words.{override_of, IsServing, IsWanted};

use crate::Status;
use command_line::{JobRequest, PlacedWord, Request, WordsFault, read};
use job_plan::{Override, read_override};
use out_of_memory::OutOfMemory;
use std::alloc::Global;

/// A job that is to be reduced without a save.
#[derive(Drop)]
pub(crate) struct ServedJob<'a> {
    /// The name of its file.
    pub(crate) job_file: &'a str,
    /// The words that override values of its numeric point.
    pub(crate) overrides: Vec<Override>,
}

/// What the words of a call ask for.
#[derive(Drop)]
pub(crate) enum Wanted<'a> {
    /// The usage line.
    Help,
    /// The table of a job.
    Job(ServedJob<'a>),
    /// Nothing that is served.
    Refused(Status),
}

// The overrides, as a plan reads them.
fn overrides(alloc: Global, words: &[PlacedWord]) -> Result<Vec<Override>, OutOfMemory>
    requires { list_all is_short_word words.now ≡ true }
    ensures { IfOk result (λ found. found.items ≡ map override_of (map seen_word words.now)) }
{
    let mut found = Vec::with_capacity(alloc, words.len())?;
    for word in words {
        found.push(read_override(alloc, word.place, word.text)?)?;
    }
    Ok(found)
}

// A job that was asked for, where it is served.
fn served<'a>(alloc: Global, request: &JobRequest<'a>) -> Wanted<'a>
    requires { list_all is_short_word request.now.overrides.items ≡ true }
    ensures { IsServing request.now result }
{
    if request.save.is_some() {
        return Wanted::Refused(Status::NotYet);
    }
    match overrides(alloc, &request.overrides) {
        Ok(overrides) => Wanted::Job(ServedJob {
            job_file: request.job_file,
            overrides,
        }),
        Err(_) => Wanted::Refused(Status::OutOfMemory),
    }
}

// What is made of the request of some words.
fn asked_for<'a>(alloc: Global, words: &[String], request: Request<'a>) -> Wanted<'a>
    requires { IsAnswerOf (map string_bytes words.now) (Ok request) }
    ensures { IsWanted (map string_bytes words.now) result }
{
    match request {
        Request::Help => Wanted::Help,
        Request::Job(job) => served(alloc, &job),
        Request::Sample { .. } => Wanted::Refused(Status::NotYet),
    }
}

// What is made of words that were refused.
fn unread<'a>(words: &[String], fault: WordsFault) -> Wanted<'a>
    requires { IsAnswerOf (map string_bytes words.now) (Err fault) }
    ensures { IsWanted (map string_bytes words.now) result }
{
    match fault {
        WordsFault::Usage => Wanted::Refused(Status::Usage),
        WordsFault::OutOfMemory => Wanted::Refused(Status::OutOfMemory),
    }
}

/// What the words of a call ask for.
pub(crate) fn read_words<'a>(alloc: Global, words: &'a [String]) -> Wanted<'a>
    ensures { IsWanted (map string_bytes words.now) result }
{
    match read(alloc, words) {
        Ok(request) => asked_for(alloc, words, request),
        Err(fault) => unread(words, fault),
    }
}
