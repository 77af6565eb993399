//! The one simple command by which the words are read.

ghost use Rattle.std.specs.Prelude.{◌≡◌, ◌≢◌, [], Err, false, map, IfOk};
ghost use Rattle.std.specs.String.{string_bytes};
ghost use Rattle.clap.specs.Matches.{found_of};
ghost use Rattle.clap.specs.Walk.{rows_of, rule_of};
ghost use Rattle.clap.specs.Simple.{app_of};
ghost use Rattle.command_line.specs.Command as spec;
ghost use Rattle.command_line.specs.Command.{command, faults_at, rows_at};
ghost use Rattle.command_line.specs.declared.request.WordsFault.{WordsFault as FaultValue};
ghost use Rattle.command_line.specs.declared.request.WordsFault.TheVariants as fault;

use crate::WordsFault;
use clap::builder::ValueParser;
use clap::error::ErrorKind;
use clap::{Arg, ArgAction, ArgMatches, Command};
use std::alloc::{AllocError, Global};

// An option whose value is a number.
fn number_option<'a>(alloc: Global, name: &'a str, low: u64, high: u64) -> Arg<'a>
    ensures rule { rule_of result ≡ spec.number_option name.entry.now low high }
    ensures local { result.global ≡ false }
{
    Arg::new(alloc, name)
        .long(name)
        .value_parser(ValueParser::unsigned(low, high))
}

// The number of threads.
fn parallel<'a>(alloc: Global) -> Arg<'a>
    ensures rule { rule_of result ≡ spec.parallel }
    ensures local { result.global ≡ false }
{
    number_option(alloc, "parallel", 1, 64).short('p')
}

// The name of the save file.
fn save<'a>(alloc: Global) -> Arg<'a>
    ensures rule { rule_of result ≡ spec.save }
    ensures local { result.global ≡ false }
{
    Arg::new(alloc, "save").long("save")
}

// The job file and the overrides behind it.
fn words<'a>(alloc: Global) -> Arg<'a>
    ensures rule { rule_of result ≡ spec.words }
    ensures local { result.global ≡ false }
{
    Arg::new(alloc, "words")
        .action(ArgAction::Append)
        .num_args(1usize..)
}

// The command without options.
fn bare<'a>(alloc: Global) -> Command<'a>
    ensures { app_of result ≡ spec.bare }
{
    Command::new(alloc, "kira")
        .no_binary_name(true)
        .disable_help_flag(true)
}

// The command with the options of a save.
fn with_save<'a>(alloc: Global) -> Result<Command<'a>, AllocError>
    ensures { IfOk result (λ made. app_of made ≡ spec.with_save) }
{
    bare(alloc)
        .arg(parallel(alloc))?
        .arg(save(alloc))?
        .arg(number_option(alloc, "save-limit", 64, 4294967296))
}

// The whole command.
fn command<'a>(alloc: Global) -> Result<Command<'a>, AllocError>
    ensures { IfOk result (λ made. app_of made ≡ command) }
{
    with_save(alloc)?
        .arg(number_option(alloc, "units", 1, 1000000000))?
        .arg(number_option(alloc, "sample", 2, 100))?
        .arg(words(alloc))
}

/// What the command makes of the words.
pub(crate) fn matched<'a>(alloc: Global, words: &'a [String]) -> Result<ArgMatches<'a>, WordsFault>
    ensures ok { IfOk result (λ matches. (faults_at (map string_bytes words.now) ≡ [])
        × (rows_of (found_of matches) ≡ rows_at (map string_bytes words.now))) }
    ensures usage { result ≡ Err fault.Usage → faults_at (map string_bytes words.now) ≢ [] }
{
    match command(alloc)?.try_get_matches_from(words) {
        Ok(matches) => Ok(matches),
        Err(error) => Err(match error.kind() {
            ErrorKind::OutOfMemory => WordsFault::OutOfMemory,
            _ => WordsFault::Usage,
        }),
    }
}
