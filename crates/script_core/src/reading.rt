//! Whole scripts.
ghost use Rattle.std.specs.Prelude.{◌≡◌, ◌≢◌, ◌⊎◌, ◌+◌, ◌^◌, ◌<◌, ◌≤◌, ◌==◌, count_by, take, drop, length, OnOk, []};
ghost use Rattle.std.specs.Prelude.{IfOk, IfErr, IsErrOf, Ok, Err, Bool};
ghost use Rattle.seg_core.specs.Segment.{IsLayout, IsLimit};
ghost use Rattle.book_core.specs.Commands.{AreSound, HavePrograms};
ghost use Rattle.script_core.specs.declared.script.Script.{Script};
ghost use Rattle.script_core.specs.Reading.{GivesLines};
ghost use Rattle.script_core.specs.Grammar.{lines, parsed_limit, layout_in, parsed_actor, parsed_items, at_line};
ghost use Rattle.script_core.specs.Grammar.{closed, body_of, after_limit, script_of};
ghost use Rattle.script_core.specs.Spelling.{IsScript, most_limit, text_of};

use crate::actor::parse_actor;
use crate::error::ScriptError;
use crate::items::parse_items;
use crate::lines::{LineKind, first_line, is_layout_line, kind_of, parse_layout, parse_limit};
use crate::script::Script;
use book_core::{Command, Item, Sequence};
use std::alloc::Global;

// The most bytes of a script.
const MOST_BYTES: usize = 1_048_576;

/// Reads a script, or reports its first fault with its line. `NoMemory` may come in place of any result.
///
/// Time and memory are linear in the length of the text.
pub fn read(alloc: Global, text: &[u8]) -> Result<Script, ScriptError>
    ensures ok { IfOk result (λ s. script_of text.now ≡ Ok s) }
    ensures fault { IfErr result (λ e. e ≢ ScriptError.NoMemory → script_of text.now ≡ Err e) }

    // In the grammar's own words: a text is read exactly if it is the spelling of a script.
    ensures found { IfOk result (λ s.
        (with_layout last_lf : Bool) × IsScript s with_layout last_lf
        × (text.now ≡ text_of s with_layout last_lf)) }
    ensures only { (s : Script) (with_layout last_lf : Bool) → IsScript s with_layout last_lf
        → text.now ≡ text_of s with_layout last_lf
        → (result ≡ Ok s) ⊎ IsErrOf result ScriptError.NoMemory }

    // So it can be played.
    ensures limit { IfOk result (λ s. IsLimit s.limit × (s.limit ≤ most_limit)) }
    ensures first { IfOk result (λ s. IsLayout s.first) }
    ensures names { IfOk result (λ s. length s.names ≡ length s.programs) }
    ensures sound { IfOk result (λ s. AreSound s.programs) }
    ensures actors { IfOk result (λ s. HavePrograms s.programs s.items) }
{
    read_whole(alloc, text)
}

fn read_whole(alloc: Global, text: &[u8]) -> Result<Script, ScriptError>
    ensures { GivesLines result (script_of text.now) }
{
    if text.is_empty() {
        return Err(ScriptError::Empty { line: 1 });
    }
    if text.len() > MOST_BYTES {
        let line = line_of_last_byte(text);
        return Err(ScriptError::TooMany { line });
    }
    let (first, rest) = first_line(text);
    let limit = read_limit(first)?;
    read_after_limit(alloc, limit, rest)
}

// The line of the last byte that a script may have.
fn line_of_last_byte(text: &[u8]) -> u64
    requires { 1048576 < length text.now }
    ensures { result ≡ 1 + count_by (λ b. b == 10) (take 1048576 text.now) }
{
    line_ends(&text[..MOST_BYTES]) as u64 + 1
}

fn line_ends(bytes: &[u8]) -> usize
    requires { length bytes.now < 2 ^ 32 }
    ensures count { result ≡ count_by (λ b. b == 10) bytes.now }
    ensures bound { result ≤ length bytes.now }
{
    bytes.iter().filter(|b| **b == b'\n').count()
}

fn read_limit(line: &[u8]) -> Result<u64, ScriptError>
    ensures { result ≡ at_line 1 (parsed_limit line.now) }
{
    parse_limit(line).map_err(|fault| fault.at(1))
}

fn read_layout(line: &[u8]) -> Result<u32, ScriptError>
    requires { 6 ≤ length line.now }
    ensures { result ≡ at_line 2 (layout_in (drop 6 line.now)) }
{
    parse_layout(line).map_err(|fault| fault.at(2))
}

fn read_actor(
    alloc: Global,
    line: u64,
    names: &[u8],
    text: &[u8],
) -> Result<(u8, Sequence<Command>), ScriptError>
    ensures given { GivesLines result (at_line line (parsed_actor names.now text.now)) }
    ensures room { OnOk result (length names.now < 16) }
{
    parse_actor(alloc, names, text).map_err(|stop| stop.at(line))
}

fn read_items(
    alloc: Global,
    line: u64,
    names: &[u8],
    text: &[u8],
) -> Result<Sequence<Item>, ScriptError>
    requires { length names.now ≤ 16 }
    ensures { GivesLines result (at_line line (parsed_items names.now text.now)) }
{
    parse_items(alloc, names, text).map_err(|stop| stop.at(line))
}

// The script, if nothing is left after its items line.
fn end_script(line: u64, script: Script, rest: &[u8]) -> Result<Script, ScriptError>
    ensures { result ≡ closed line script (lines rest.now) }
{
    if rest.is_empty() {
        Ok(script)
    } else {
        Err(ScriptError::BadLine { line })
    }
}

// The lines from line 2 on: a layout line or none, and then the others.
fn read_after_limit(alloc: Global, limit: u64, text: &[u8]) -> Result<Script, ScriptError>
    requires { length text.now ≤ 1048576 }
    ensures { GivesLines result (after_limit limit (lines text.now)) }
{
    if text.is_empty() {
        return Err(ScriptError::NoItems { line: 2 });
    }
    let (second, rest) = first_line(text);
    if !is_layout_line(second) {
        return read_body(alloc, limit, 1, 2, text);
    }
    let first = read_layout(second)?;
    read_body(alloc, limit, first, 3, rest)
}

// Reads the actor lines and the items line; `line` is the number of the first of them.
fn read_body(
    alloc: Global,
    limit: u64,
    first: u32,
    line: u64,
    text: &[u8],
) -> Result<Script, ScriptError>
    requires { line + length text.now ≤ 1048578 }
    ensures { GivesLines result (body_of limit first line [] [] (lines text.now)) }
{
    let mut names = Vec::new(alloc);
    let mut programs = Vec::new(alloc);
    let mut line = line;
    let mut text = text;
    while !text.is_empty() {
        let (next, rest) = first_line(text);
        match kind_of(next) {
            LineKind::Actor(words) => {
                let (name, program) = read_actor(alloc, line, &names, words)?;
                names.push(name)?;
                programs.push(program)?;
            }
            LineKind::Items(words) => {
                let items = read_items(alloc, line, &names, words)?;
                let names = Sequence::from_vec(names);
                let programs = Sequence::from_vec(programs);
                let script = Script {
                    limit,
                    first,
                    names,
                    programs,
                    items,
                };
                return end_script(line + 1, script, rest);
            }
            LineKind::Other => return Err(ScriptError::BadLine { line }),
        }
        text = rest;
        line += 1;
    }
    Err(ScriptError::NoItems { line })
}
