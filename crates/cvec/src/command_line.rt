//! What a command line asks for.
ghost use Rattle.std.specs.Prelude.{◌≡◌, ◌≢◌, ◌⊎◌, ◌↔◌, IsTrue, IfOk};
ghost use Rattle.std.specs.IoError.{error_kind};
ghost use Rattle.std.specs.declared.io.ErrorKind.TheVariants as io_kinds;
ghost use Rattle.clap.specs.Values.{kind_of};
ghost use Rattle.cvec.specs.Request.{IsShown, IsRefused, IsInRange, IsSweep, steps_engine};

use crate::commands::{make_command, make_error};
use clap::error::ErrorKind;
use clap::{ArgMatches, Error};
use engine_core::Engine;
use std::alloc::Global;
use std::env::{self, Env};
use std::io;
use sweep_core::{MOST_ITEMS, MOST_SCHEDULES};

/// The request of a command line.
#[derive(Debug, Drop)]
pub enum Request {
    /// Play the script on standard input.
    Play(Engine),
    /// The same, and explain the error if there is one.
    PlayExplained(Engine),
    /// Hold a race of `workers` workers with `each` values each.
    Race { workers: u32, each: u32 },
    /// Sweep `count` schedules of `len` items each, from a seed on.
    Sweep { seed: u64, count: u32, len: u32 },
    /// Print the schedule with this number of a sweep.
    Schedule { seed: u64, number: u32, len: u32 },
    /// Show this text: help, or the version.
    Show(String),
    /// Refuse the command line; the text says why.
    Refuse(String),
    /// Report that memory ran out while the command line was read.
    NoMemory,
}

const FROM_A_FILE: &str = "
A script is read from standard input: write '<' before the name of its file.
";

// The numbers of a race.
fn race_of(alloc: Global, matches: &ArgMatches<'_>) -> Result<Request, Error>
    ensures { IfOk result IsInRange }
{
    match (
        matches.get_one::<u32>("workers"),
        matches.get_one::<u32>("each"),
    ) {
        (Some(workers), Some(each)) => Ok(Request::Race { workers, each }),
        _ => Err(make_error(
            alloc,
            ErrorKind::MissingRequiredArgument,
            "both numbers are required",
        )),
    }
}

// The engine of atomic steps with these flags.
fn steps_engine(traced: bool, counted: bool) -> Engine
    ensures { result ≡ steps_engine traced counted }
{
    match (traced, counted) {
        (false, false) => Engine::Steps,
        (false, true) => Engine::Counted,
        (true, false) => Engine::Traced,
        (true, true) => Engine::TracedCounted,
    }
}

// Tests whether a sweep may have these numbers.
fn is_sweep(count: u32, len: u32) -> bool
    ensures { IsTrue result ↔ IsSweep count len }
{
    count >= 1 && count <= MOST_SCHEDULES && len >= 1 && len <= MOST_ITEMS
}

// The request for a sweep that may have these numbers, or for one of its schedules.
fn sweep_or_schedule(
    alloc: Global,
    seed: u64,
    count: u32,
    len: u32,
    printed: Option<u32>,
) -> Result<Request, Error>
    requires { IsSweep count len }
    ensures { IfOk result IsInRange }
{
    match printed {
        None => Ok(Request::Sweep { seed, count, len }),
        Some(number) if number < count => Ok(Request::Schedule { seed, number, len }),
        Some(_) => Err(make_error(
            alloc,
            ErrorKind::ValueValidation,
            "invalid value for '--print <I>': it is not below that of '--count <N>'",
        )),
    }
}

// The numbers of a sweep. The parser has looked at them, but says so in no clause.
fn sweep_of(alloc: Global, matches: &ArgMatches<'_>) -> Result<Request, Error>
    ensures { IfOk result IsInRange }
{
    match (
        matches.get_one::<u64>("seed"),
        matches.get_one::<u32>("count"),
        matches.get_one::<u32>("len"),
    ) {
        (Some(seed), Some(count), Some(len)) if is_sweep(count, len) => {
            sweep_or_schedule(alloc, seed, count, len, matches.get_one::<u32>("print"))
        }
        _ => Err(make_error(
            alloc,
            ErrorKind::MissingRequiredArgument,
            "all three numbers are required",
        )),
    }
}

// The request to play by the engine, and to explain an error if that is asked for.
fn play_of(engine: Engine, matches: &ArgMatches<'_>) -> Request
    ensures { IsInRange result }
{
    if matches.get_flag("explain") {
        Request::PlayExplained(engine)
    } else {
        Request::Play(engine)
    }
}

// What the words name. Help and the version are errors, too.
pub(crate) fn parse_words(alloc: Global, words: &[String]) -> Result<Request, Error>
    ensures { IfOk result IsInRange }
{
    let matches = make_command(alloc)?.try_get_matches_from(words)?;
    match matches.subcommand() {
        Some(("calls", matches)) => Ok(play_of(Engine::Calls, matches)),
        Some(("steps", matches)) => {
            let engine = steps_engine(matches.get_flag("trace"), matches.get_flag("count"));
            Ok(play_of(engine, matches))
        }
        Some(("race", matches)) => race_of(alloc, matches),
        Some(("sweep", matches)) => sweep_of(alloc, matches),
        _ => Err(make_error(alloc, ErrorKind::MissingSubcommand, "a command is required")),
    }
}

// Tests whether the parser was out of memory.
pub(crate) fn is_memory(error: &Error) -> bool
    ensures { IsTrue result ↔ (kind_of error.now ≡ ErrorKind.OutOfMemory) }
{
    matches!(error.kind(), ErrorKind::OutOfMemory)
}

// The request of a command line that stopped the parser.
pub(crate) fn request_of_error(alloc: Global, error: &Error) -> Request
    ensures memory { kind_of error.now ≡ ErrorKind.OutOfMemory → result ≡ Request.NoMemory }
    ensures shown { (kind_of error.now ≡ ErrorKind.DisplayHelp)
        ⊎ (kind_of error.now ≡ ErrorKind.DisplayVersion) → IsShown result }
    ensures refused { kind_of error.now ≢ ErrorKind.DisplayHelp
        → kind_of error.now ≢ ErrorKind.DisplayVersion → IsRefused result }
    ensures range { IsInRange result }
{
    if is_memory(error) {
        return Request::NoMemory;
    }
    match error.to_string(alloc) {
        Ok(text) if error.use_stderr() => Request::Refuse(text),
        Ok(text) => Request::Show(text),
        Err(_) => Request::NoMemory,
    }
}

// Tests whether the first word names a command that plays a script, and a later one is no option.
fn names_a_file(words: &[String]) -> bool {
    let command = words.get(1).map(|word| word.as_str());
    (command == Some("calls") || command == Some("steps"))
        && words
            .iter()
            .skip(2)
            .any(|word| !word.as_str().starts_with('-'))
}

// Adds a hint to the text of a refusal.
fn with_hint(request: Request) -> Request
    requires { IsInRange request }
    ensures { IsInRange result }
{
    match request {
        Request::Refuse(mut text) => match text.push_str(FROM_A_FILE) {
            Ok(()) => Request::Refuse(text),
            Err(_) => Request::NoMemory,
        },
        other => other,
    }
}

// What the words ask for.
pub(crate) fn request_of_words(alloc: Global, words: &[String]) -> Request
    ensures { IsInRange result }
{
    match parse_words(alloc, words) {
        Ok(request) => request,
        Err(error) => {
            let request = request_of_error(alloc, &error);
            if matches!(error.kind(), ErrorKind::UnknownArgument) && names_a_file(words) {
                with_hint(request)
            } else {
                request
            }
        }
    }
}

// What becomes of a command line that the system did not give, as it does if a word is not UTF-8.
pub(crate) fn request_without_words(alloc: Global, error: &io::Error) -> Request
    ensures memory { error_kind error.now ≡ io_kinds.OutOfMemory → result ≡ Request.NoMemory }
    ensures refused { IsRefused result }
    ensures range { IsInRange result }
{
    if error.kind() == io::ErrorKind::OutOfMemory {
        return Request::NoMemory;
    }
    let message = "invalid UTF-8 was detected in one or more arguments";
    request_of_error(alloc, &make_error(alloc, ErrorKind::Io, message))
}

// The words of the command line; the first is the program's name.
fn read_words<R: Env + AllocGlobal>(rt: &R) -> io::Result<Vec<String>> {
    let mut words = Vec::new(rt.alloc());
    for word in env::args(rt)? {
        words.push(word)?;
    }
    Ok(words)
}

/// Returns what the command line of this process asks for.
pub fn read_request<R: Env + AllocGlobal>(rt: &R) -> Request
    ensures { IsInRange result }
{
    match read_words(rt) {
        Ok(words) => request_of_words(rt.alloc(), &words),
        Err(error) => request_without_words(rt.alloc(), &error),
    }
}
