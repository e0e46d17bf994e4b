//! The items line.
ghost use Rattle.std.specs.Prelude.{◌≡◌, ◌≤◌, ◌==◌, ◌<◌, [], length, IfSome, position};
ghost use Rattle.script_core.specs.Reading.{Gives};
ghost use Rattle.script_core.specs.Grammar.{item_from, parsed_item, try_each, words, parsed_items};

use crate::cut::cut_at;
use crate::error::{Fault, Stop};
use book_core::{Item, Sequence};
use std::alloc::Global;

// The most items of a script.
const MOST_ITEMS: usize = 100_000;

fn place_of(names: &[u8], name: u8) -> Option<usize>
    ensures value { result ≡ position (λ n. n == name) names.now }
    ensures bound { IfSome result (λ place. place < length names.now) }
{
    names.iter().position(|n| *n == name)
}

fn item_of_actor(names: &[u8], name: u8, memory: bool) -> Result<Item, Fault>
    requires { length names.now ≤ 16 }
    ensures { result ≡ item_from (position (λ n. n == name) names.now) memory }
{
    match place_of(names, name) {
        Some(actor) => Ok(Item {
            actor: actor as u32,
            memory,
        }),
        None => Err(Fault::BadName),
    }
}

#[tactic(auto, unfolding(crate::specs::Grammar::parsed_item))]
fn parse_item(names: &[u8], word: &[u8]) -> Result<Item, Fault>
    requires { length names.now ≤ 16 }
    ensures { result ≡ parsed_item names.now word.now }
{
    match word {
        [name] => item_of_actor(names, *name, true),
        [name, b'!'] => item_of_actor(names, *name, false),
        _ => Err(Fault::BadName),
    }
}

// An item for each word of the text.
fn parse_some_items(alloc: Global, names: &[u8], text: &[u8]) -> Result<Sequence<Item>, Stop>
    requires { length names.now ≤ 16 }
    ensures { Gives result (try_each (parsed_item names.now) 100000 [] (words text.now)) }
{
    let mut items = Vec::new(alloc);
    let mut text = text;
    loop {
        if items.len() >= MOST_ITEMS {
            return Err(Stop::Fault(Fault::TooMany));
        }
        let (word, rest) = cut_at(text, b" ");
        items.push(parse_item(names, word)?)?;
        let Some(rest) = rest else {
            return Ok(Sequence::from_vec(items));
        };
        text = rest;
    }
}

// The items of an items line, read after its word.
#[tactic(auto, unfolding(crate::specs::Grammar::parsed_items))]
pub(crate) fn parse_items(alloc: Global, names: &[u8], text: &[u8]) -> Result<Sequence<Item>, Stop>
    requires { length names.now ≤ 16 }
    ensures { Gives result (parsed_items names.now text.now) }
{
    match text {
        [] => Ok(Sequence::from_vec(Vec::new(alloc))),
        [_, text @ ..] => parse_some_items(alloc, names, text),
    }
}
