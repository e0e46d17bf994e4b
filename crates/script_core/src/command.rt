//! Commands and programs.
ghost use Rattle.std.specs.Prelude.{◌≡◌};
ghost use Rattle.script_core.specs.Reading.{AreWords, Gives};
ghost use Rattle.std.specs.Str.{bytes_eq};
ghost use Rattle.script_core.specs.Grammar.{words, argument, command_alone, command_with_one, command_with_two};
ghost use Rattle.script_core.specs.Grammar.{command_with_three, parsed_command, parsed_program};

use crate::cut::cut_at;
use crate::error::{Fault, Stop};
use crate::number::parse_number;
use book_core::{Command, Sequence};
use std::alloc::Global;

// The most commands of a program.
const MOST_COMMANDS: usize = 1_000;

// The words of a piece, up to the most that a command may have.
pub(crate) enum Words<'a> {
    One(&'a [u8]),
    Two(&'a [u8], &'a [u8]),
    Three(&'a [u8], &'a [u8], &'a [u8]),
    Four(&'a [u8], &'a [u8], &'a [u8], &'a [u8]),
    More,
}

fn split_words(piece: &[u8]) -> Words<'_>
    ensures { AreWords (words piece.now) result }
{
    let (first, rest) = cut_at(piece, b" ");
    let Some(rest) = rest else {
        return Words::One(first);
    };
    let (second, rest) = cut_at(rest, b" ");
    let Some(rest) = rest else {
        return Words::Two(first, second);
    };
    let (third, rest) = cut_at(rest, b" ");
    let Some(rest) = rest else {
        return Words::Three(first, second, third);
    };
    let (fourth, rest) = cut_at(rest, b" ");
    if rest.is_some() {
        return Words::More;
    }
    Words::Four(first, second, third, fourth)
}

fn parse_argument(word: &[u8]) -> Result<u64, Fault>
    ensures { result ≡ argument word.now }
{
    parse_number(word, Fault::BadCommand)
}

fn is_word(word: &[u8], name: &str) -> bool
    ensures { result ≡ bytes_eq word.now name.now }
{
    word == name.as_bytes()
}

#[tactic(auto, unfolding(crate::specs::Grammar::command_alone))]
fn parse_command_alone(word: &[u8]) -> Result<Command, Fault>
    ensures { result ≡ command_alone word.now }
{
    if is_word(word, "size") {
        Ok(Command::Size)
    } else {
        Err(Fault::BadCommand)
    }
}

#[tactic(auto, unfolding(crate::specs::Grammar::command_with_one))]
fn parse_command_with_one(word: &[u8], a: &[u8]) -> Result<Command, Fault>
    ensures { result ≡ command_with_one word.now a.now }
{
    if is_word(word, "push") {
        let value = parse_argument(a)?;
        Ok(Command::Push { value })
    } else if is_word(word, "read") {
        let place = parse_argument(a)?;
        Ok(Command::Read { place })
    } else {
        Err(Fault::BadCommand)
    }
}

#[tactic(auto, unfolding(crate::specs::Grammar::command_with_two))]
fn parse_command_with_two(word: &[u8], a: &[u8], b: &[u8]) -> Result<Command, Fault>
    ensures { result ≡ command_with_two word.now a.now b.now }
{
    if is_word(word, "grow") {
        let n = parse_argument(a)?;
        let value = parse_argument(b)?;
        Ok(Command::Grow { n, value })
    } else if is_word(word, "atleast") {
        let to = parse_argument(a)?;
        let value = parse_argument(b)?;
        Ok(Command::AtLeast { to, value })
    } else if is_word(word, "mend") {
        let place = parse_argument(a)?;
        let value = parse_argument(b)?;
        Ok(Command::Mend { place, value })
    } else {
        Err(Fault::BadCommand)
    }
}

#[tactic(auto, unfolding(crate::specs::Grammar::command_with_three))]
fn parse_command_with_three(word: &[u8], a: &[u8], b: &[u8], c: &[u8]) -> Result<Command, Fault>
    ensures { result ≡ command_with_three word.now a.now b.now c.now }
{
    if !is_word(word, "fail") {
        return Err(Fault::BadCommand);
    }
    let n = parse_argument(a)?;
    let value = parse_argument(b)?;
    let at = parse_argument(c)?;
    if at < n {
        Ok(Command::Fail { n, value, at })
    } else {
        Err(Fault::BadCommand)
    }
}

#[tactic(auto, unfolding(crate::specs::Grammar::parsed_command))]
fn parse_command(piece: &[u8]) -> Result<Command, Fault>
    ensures { result ≡ parsed_command (words piece.now) }
{
    match split_words(piece) {
        Words::One(word) => parse_command_alone(word),
        Words::Two(word, a) => parse_command_with_one(word, a),
        Words::Three(word, a, b) => parse_command_with_two(word, a, b),
        Words::Four(word, a, b, c) => parse_command_with_three(word, a, b, c),
        Words::More => Err(Fault::BadCommand),
    }
}

// A command for each piece of the text.
pub(crate) fn parse_program(alloc: Global, text: &[u8]) -> Result<Sequence<Command>, Stop>
    ensures { Gives result (parsed_program text.now) }
{
    let mut commands = Vec::new(alloc);
    let mut text = text;
    loop {
        if commands.len() >= MOST_COMMANDS {
            return Err(Stop::Fault(Fault::TooMany));
        }
        let (piece, rest) = cut_at(text, b", ");
        commands.push(parse_command(piece)?)?;
        let Some(rest) = rest else {
            return Ok(Sequence::from_vec(commands));
        };
        text = rest;
    }
}
