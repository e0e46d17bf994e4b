//! Actor lines.
ghost use Rattle.std.specs.Prelude.{◌≡◌, ◌<◌, length, OnOk};
ghost use Rattle.script_core.specs.Reading.{Gives};
ghost use Rattle.script_core.specs.Grammar.{parsed_name, parsed_actor};

use crate::command::parse_program;
use crate::cut::cut_at;
use crate::error::{Fault, Stop};
use book_core::{Command, Sequence};
use std::alloc::Global;

// The most actors of a script.
const MOST_ACTORS: usize = 16;

#[tactic(auto, unfolding(crate::specs::Grammar::parsed_name))]
fn parse_name(word: &[u8]) -> Result<u8, Fault>
    ensures { result ≡ parsed_name word.now }
{
    match word {
        [letter] if letter.is_ascii_lowercase() => Ok(*letter),
        _ => Err(Fault::BadName),
    }
}

// The name and the program of an actor line, read after its word. `names` are those of the lines before it.
#[tactic(auto, unfolding(crate::specs::Grammar::parsed_actor))]
pub(crate) fn parse_actor(
    alloc: Global,
    names: &[u8],
    text: &[u8],
) -> Result<(u8, Sequence<Command>), Stop>
    ensures given { Gives result (parsed_actor names.now text.now) }
    ensures room { OnOk result (length names.now < 16) }
{
    if names.len() >= MOST_ACTORS {
        return Err(Stop::Fault(Fault::TooMany));
    }
    let (word, rest) = cut_at(text, b" ");
    let name = parse_name(word)?;
    if names.contains(&name) {
        return Err(Stop::Fault(Fault::TwiceNamed));
    }
    let Some(rest) = rest else {
        return Err(Stop::Fault(Fault::BadCommand));
    };
    Ok((name, parse_program(alloc, rest)?))
}
