//! Lines, and what they are.
ghost use Rattle.std.specs.Prelude.{◌≡◌, ◌<◌, ◌≤◌, ◌∷◌, length, drop, IsTrue};
ghost use Rattle.script_core.specs.Grammar.{lines, parsed_limit, layout_in, is_layout_line, is_items_line};
ghost use Rattle.script_core.specs.Reading.{IsKind};

use crate::cut::cut_at;
use crate::error::Fault;
use crate::number::parse_number;

// The greatest limit of a script.
const MOST_LIMIT: u64 = 65_536;

// The kind of a line after the first, with the text after its word.
pub(crate) enum LineKind<'a> {
    Actor(&'a [u8]),
    Items(&'a [u8]),
    Other,
}

// The first line, and the bytes after it.
pub(crate) fn first_line(text: &[u8]) -> (&[u8], &[u8])
    requires { 0 < length text.now }
    ensures lines { lines text.now ≡ result.0.now ∷ lines result.1.now }
    ensures shorter { length result.1.now < length text.now }
{
    let (line, rest) = cut_at(text, b"\n");
    match rest {
        Some(rest) => (line, rest),
        None => (line, &text[text.len()..]),
    }
}

#[tactic(auto, unfolding(crate::specs::Grammar::is_layout_line))]
pub(crate) fn is_layout_line(line: &[u8]) -> bool
    ensures value { result ≡ is_layout_line line.now }
    ensures long { IsTrue result → 6 ≤ length line.now }
{
    line.starts_with(b"first ")
}

#[tactic(auto, unfolding(crate::specs::Grammar::is_items_line))]
fn is_items_line(line: &[u8]) -> bool
    ensures value { result ≡ is_items_line line.now }
    ensures long { IsTrue result → 5 ≤ length line.now }
{
    line == b"steps".as_slice() || line.starts_with(b"steps ")
}

#[tactic(auto, unfolding(crate::specs::Grammar::is_actor_line))]
pub(crate) fn kind_of(line: &[u8]) -> LineKind<'_>
    ensures { IsKind line.now result }
{
    if line.starts_with(b"actor ") {
        LineKind::Actor(&line[6..])
    } else if is_items_line(line) {
        LineKind::Items(&line[5..])
    } else {
        LineKind::Other
    }
}

// The layout of a layout line.
#[tactic(auto, unfolding(crate::specs::Grammar::layout_in))]
pub(crate) fn parse_layout(line: &[u8]) -> Result<u32, Fault>
    requires { 6 ≤ length line.now }
    ensures { result ≡ layout_in (drop 6 line.now) }
{
    let first = parse_number(&line[6..], Fault::BadFirst)?;
    if (1..=8).contains(&first) {
        Ok(first as u32)
    } else {
        Err(Fault::BadFirst)
    }
}

// The limit of a first line.
#[tactic(auto, unfolding(crate::specs::Grammar::parsed_limit, crate::specs::Grammar::limit_in))]
pub(crate) fn parse_limit(line: &[u8]) -> Result<u64, Fault>
    ensures { result ≡ parsed_limit line.now }
{
    if !line.starts_with(b"limit ") {
        return Err(Fault::BadLine);
    }
    let limit = parse_number(&line[6..], Fault::BadLimit)?;
    if (1..=MOST_LIMIT).contains(&limit) {
        Ok(limit)
    } else {
        Err(Fault::BadLimit)
    }
}
