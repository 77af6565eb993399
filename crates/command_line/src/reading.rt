//! The words of a call, read.

ghost use Rattle.std.specs.Prelude.{◌≡◌, ◌<◌, ◌^◌, true, drop, map, length, IfOk};
ghost use Rattle.std.specs.List.{list_all};
ghost use Rattle.std.specs.String.{string_bytes};
ghost use Rattle.clap.specs.Matches.{found_of};
ghost use Rattle.clap.specs.Walk.{rows_of};
ghost use Rattle.command_line.specs.Request.{is_short, are_short, is_help, positionals, placed, is_short_word, seen_word, seen_options, job_file_of, IsSaveGiven, IsRequestOf, IsAnswerBy, IsAnswerOf};

use crate::command::matched;
use crate::options::{Options, options_of};
use crate::places::places;
use crate::{JobRequest, PlacedWord, Request, SaveRequest, WordsFault};
use clap::ArgMatches;
use out_of_memory::OutOfMemory;
use std::alloc::Global;

/// There are fewer words than this, and fewer bytes in each.
const LIMIT: usize = 1 << 31;

/// The most bytes of a save file where no limit is given.
const SAVE_LIMIT: u64 = 4294967296;

// Whether each word is short.
fn all_short(words: &[String]) -> bool
    ensures { result ≡ list_all is_short (map string_bytes words.now) }
{
    for word in words {
        if LIMIT <= word.len() {
            return false;
        }
    }
    true
}

// Whether there aren't too many words, and each is short.
fn are_short(words: &[String]) -> bool
    ensures { result ≡ are_short (map string_bytes words.now) }
{
    words.len() < LIMIT && all_short(words)
}

// Whether this is the one word that asks for the usage line.
fn is_help(words: &[String]) -> bool
    ensures { result ≡ is_help (map string_bytes words.now) }
{
    match words {
        [word] => word.as_str() == "--help",
        _ => false,
    }
}

// Whether each text is short.
fn are_short_texts(texts: &[&str]) -> bool
    ensures { result ≡ list_all is_short (map (λ text. text.now) texts.now) }
{
    for text in texts {
        if LIMIT <= text.len() {
            return false;
        }
    }
    true
}

// The texts behind the first, each with its place.
fn paired<'a>(
    alloc: Global,
    places: &[u32],
    texts: &[&'a str],
) -> Result<Vec<PlacedWord<'a>>, OutOfMemory>
    requires { list_all is_short (map (λ text. text.now) texts.now) ≡ true }
    ensures short { IfOk result (λ found. list_all is_short_word found.items ≡ true) }
    ensures value { IfOk result (λ found. map seen_word found.items ≡ placed (drop 1 places.now) (drop 1 (map (λ text. text.now) texts.now))) }
{
    let mut found = Vec::new(alloc);
    for i in 1..places.len().min(texts.len()) {
        found.push(PlacedWord {
            place: places[i],
            text: texts[i],
        })?;
    }
    Ok(found)
}

// The first text, which is there.
fn first_text<'a>(texts: &[&'a str]) -> &'a str
    ensures { result.now ≡ job_file_of (map (λ text. text.now) texts.now) }
{
    match texts {
        [] => "",
        [text, ..] => text,
    }
}

// The save that the options ask for.
fn save_of<'a>(options: &Options<'a>) -> Option<SaveRequest<'a>>
    ensures { IsSaveGiven (seen_options options.now) result }
{
    Some(SaveRequest {
        file: options.save?,
        limit: options.save_limit.unwrap_or(SAVE_LIMIT),
        units: options.units,
    })
}

// What the matches ask for, where they meet the further conditions.
fn request_of<'a>(
    alloc: Global,
    words: &[String],
    texts: &[&'a str],
    options: &Options<'a>,
) -> Result<Request<'a>, OutOfMemory>
    requires few { length words.now < 2 ^ 31 }
    requires short { list_all is_short (map (λ text. text.now) texts.now) ≡ true }
    ensures { IfOk result (IsRequestOf (map string_bytes words.now) (seen_options options.now) (map (λ text. text.now) texts.now)) }
{
    match options.sample {
        Some(number) => Ok(Request::Sample {
            number,
            parallel: options.parallel,
        }),
        None => Ok(Request::Job(JobRequest {
            job_file: first_text(texts),
            overrides: paired(alloc, &places(alloc, words)?, texts)?,
            parallel: options.parallel,
            save: save_of(options),
        })),
    }
}

// What the matches with these positionals ask for.
fn answer_of<'a>(
    alloc: Global,
    words: &[String],
    matches: &ArgMatches<'a>,
    texts: &[&'a str],
) -> Result<Request<'a>, WordsFault>
    requires { length words.now < 2 ^ 31 }
    ensures { IsAnswerBy (map string_bytes words.now) (rows_of (found_of matches.now)) (map (λ text. text.now) texts.now) result }
{
    match options_of(matches) {
        Some(options) if are_short_texts(texts) && options.is_fitting(texts) => {
            Ok(request_of(alloc, words, texts, &options)?)
        }
        _ => Err(WordsFault::Usage),
    }
}

// What the matches ask for.
fn matches_answer<'a>(
    alloc: Global,
    words: &[String],
    matches: &ArgMatches<'a>,
) -> Result<Request<'a>, WordsFault>
    requires { length words.now < 2 ^ 31 }
    ensures { IsAnswerBy (map string_bytes words.now) (rows_of (found_of matches.now)) (positionals (rows_of (found_of matches.now))) result }
{
    match matches.get_raw("words") {
        Some(texts) => answer_of(alloc, words, matches, texts),
        None => answer_of(alloc, words, matches, &[]),
    }
}

/// What the words of a call ask for. The one word `--help` asks for the usage line. All others are read by
/// one simple command with the options `-p` or `--parallel` N, `--save` FILE, `--save-limit` N, `--units` N and
/// `--sample` N and any number of positionals: the job file and its overrides. `Usage` comes exactly where that
/// command refuses the words or a further condition doesn't hold.
pub fn read<'a>(alloc: Global, words: &'a [String]) -> Result<Request<'a>, WordsFault>
    ensures { IsAnswerOf (map string_bytes words.now) result }
{
    if is_help(words) {
        return Ok(Request::Help);
    }
    if !are_short(words) {
        return Err(WordsFault::Usage);
    }
    let matches = matched(alloc, words)?;
    matches_answer(alloc, words, &matches)
}
