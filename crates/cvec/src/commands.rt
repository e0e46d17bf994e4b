//! The program's commands and their options, as the parser of command lines knows them.
ghost use Rattle.std.specs.Prelude.{◌≡◌, ◌⊎◌};
ghost use Rattle.clap.specs.Values.{kind_of};

use clap::error::ErrorKind;
use clap::{Arg, ArgAction, Command, Error};
use race_core::{MOST_EACH, MOST_WORKERS};
use std::alloc::{AllocError, Global};
use sweep_core::{MOST_ITEMS, MOST_SCHEDULES};

const ABOUT: &str = "Runs scripts of calls on a vector that several actors grow";

const CALLS: &str = "Plays each item of the script on standard input as one whole call";

const STEPS: &str = "Plays each item of the script on standard input as one atomic step";

const RACE: &str = "Lets threads append to one shared vector, and checks what they won";

const SWEEP: &str = "Plays schedules of atomic steps sampled from a seed, and checks each";

const MORE: &str = "\
Example:
  $ cat examples/first.cvec
  limit 8
  actor a push 5, size
  actor b push 6
  steps a b a
  $ cvec calls < examples/first.cvec
  a1 push at 0
  b1 push at 1
  a2 size 2
  size 2: 5 6

Exit status, with the line on standard error:
  0  done
  2  the input is not a script      line L: fault N
  3  out of memory                  memory
  4  standard input failed          read fault
  4  standard output failed         write fault
  5  the command line is refused    the reason
  6  a race is refused              race: fault N

docs/SCRIPTS.md has the grammar of scripts, the answer lines and the faults.";

// An option that is required: a number from 1 to another.
fn make_number<'a>(
    alloc: Global,
    name: &'a str,
    letter: &'a str,
    help: &'a str,
    most: u32,
) -> Arg<'a> {
    Arg::new(alloc, name)
        .long(name)
        .value_name(letter)
        .help(help)
        .required(true)
        .action(ArgAction::Set)
        .value_parser(clap::value_parser!(u32).range(1..=i64::from(most)))
}

// A flag.
fn make_flag<'a>(alloc: Global, name: &'a str, help: &'a str) -> Arg<'a> {
    Arg::new(alloc, name)
        .long(name)
        .help(help)
        .action(ArgAction::SetTrue)
}

fn make_seed<'a>(alloc: Global) -> Arg<'a> {
    Arg::new(alloc, "seed")
        .long("seed")
        .value_name("S")
        .help("The seed of the first schedule; schedule i has the seed S + i")
        .required(true)
        .action(ArgAction::Set)
        .value_parser(clap::value_parser!(u64))
}

fn make_print<'a>(alloc: Global) -> Arg<'a> {
    Arg::new(alloc, "print")
        .long("print")
        .value_name("I")
        .help("Only prints schedule I, from 0 to N - 1, as a script for cvec steps")
        .action(ArgAction::Set)
        .value_parser(clap::value_parser!(u32))
}

fn make_sweep_command<'a>(alloc: Global) -> Result<Command<'a>, AllocError> {
    let count = "The number of schedules, from 1 to 10000";
    let len = "The number of items of each schedule, from 1 to 1000";
    Command::new(alloc, "sweep")
        .about(SWEEP)
        .arg(make_seed(alloc))?
        .arg(make_number(alloc, "count", "N", count, MOST_SCHEDULES))?
        .arg(make_number(alloc, "len", "L", len, MOST_ITEMS))?
        .arg(make_print(alloc))
}

fn make_race_command<'a>(alloc: Global) -> Result<Command<'a>, AllocError> {
    let workers = "The number of threads that append, from 1 to 64";
    let each = "The number of values that each appends, from 1 to 100000";
    Command::new(alloc, "race")
        .about(RACE)
        .arg(make_number(alloc, "workers", "W", workers, MOST_WORKERS))?
        .arg(make_number(alloc, "each", "E", each, MOST_EACH))
}

// A flag of the commands that play a script.
fn make_explain_flag<'a>(alloc: Global) -> Arg<'a> {
    make_flag(
        alloc,
        "explain",
        "Also prints, below the line of a fault, what it means",
    )
}

fn make_calls_command<'a>(alloc: Global) -> Result<Command<'a>, AllocError> {
    Command::new(alloc, "calls")
        .about(CALLS)
        .arg(make_explain_flag(alloc))
}

fn make_steps_command<'a>(alloc: Global) -> Result<Command<'a>, AllocError> {
    let counted = "Also prints, for each ended call, its lost exchanges and its steps";
    let traced = "First prints, for each item, its step and what the step found or did";
    Command::new(alloc, "steps")
        .about(STEPS)
        .arg(make_flag(alloc, "count", counted))?
        .arg(make_flag(alloc, "trace", traced))?
        .arg(make_explain_flag(alloc))
}

fn add_command<'a>(
    command: Command<'a>,
    made: Result<Command<'a>, AllocError>,
) -> Result<Command<'a>, AllocError> {
    command.subcommand(made?)
}

pub(crate) fn make_command<'a>(alloc: Global) -> Result<Command<'a>, AllocError> {
    let command = Command::new(alloc, "cvec")
        .bin_name("cvec")?
        .version("0.1.0")
        .about(ABOUT)
        .after_help(MORE)
        .subcommand_required(true)
        .disable_help_subcommand(true);
    let command = add_command(command, make_calls_command(alloc))?;
    let command = add_command(command, make_steps_command(alloc))?;
    let command = add_command(command, make_race_command(alloc))?;
    add_command(command, make_sweep_command(alloc))
}

// An error of the command line's own, in the parser's form.
pub(crate) fn make_error(alloc: Global, kind: ErrorKind, message: &str) -> Error
    ensures { (kind_of result ≡ kind) ⊎ (kind_of result ≡ ErrorKind.OutOfMemory) }
{
    match make_command(alloc) {
        Ok(mut command) => match command.error(kind, message) {
            Ok(error) => error,
            Err(error) => Error::from(error),
        },
        Err(error) => Error::from(error),
    }
}
