//! Workers find which points of a file are near each other, and append the edges between them to one vector,
//! while the first one reports how many there are. The owner closes the vector, sorts the edges, drops the
//! duplicates, and prints what no schedule can change.
//!
//!   mesh FILE [WORKERS [LIMIT]]
#![tactic(auto)]

mod points;
mod search;

use crate::points::{Edge, Point, read_points};
use crate::search::Search;
use anyhow::{Context, Result, ensure};
use quiet_core::Quiet;
use span_core::{Free, with_writers};
use std::alloc::AllocGlobal;
use std::env::{self, Env};
use std::fs;
use std::rt::Clock;
use std::sync::Wait;
use std::sync::atomic::AtomicU64;
use std::thread::Threads;

// The greatest limit that a vector may have.
const GREATEST_LIMIT: u64 = 1 << 40;

// Lists the edges that the workers find, in any order. Each is found from both of its points.
fn find_edges<R: Threads + Wait + Clock + Eprint + Sync>(
    search: &Search<'_, R>,
    limit: u64,
) -> Result<Quiet<Edge>> {
    ensure!(0 < limit && limit <= GREATEST_LIMIT, "no such limit");
    let opened = Quiet::new(search.alloc, limit).open().ok();
    let (vector, mut hand) = opened.context("out of memory")?;
    let workers = u32::from(search.finders) + 1;
    let found = with_writers(
        search.rt,
        search.alloc,
        &vector,
        &mut hand,
        workers,
        search,
        &Free,
    );
    let closed = Quiet::try_close(vector, hand).ok();
    let list = closed.context("a worker lost its shares")?;
    found?;
    Ok(list)
}

// Prints how many edges there are, each once, and the first five.
fn print_edges<R: Print>(rt: &R, list: Quiet<Edge>) -> Result<()> {
    let mut edges = list.into_vec().map_err(|(error, _list)| error)?;
    let appended = edges.len();
    edges.sort_unstable();
    edges.dedup();
    let dropped = appended - edges.len();
    println!(rt; "{} edges, {dropped} duplicates dropped", edges.len())?;
    for edge in edges.as_slice().iter().take(5) {
        println!(rt; "{} {}", edge.low, edge.high)?;
    }
    Ok(())
}

// Parses an argument, or returns the default.
fn parse_number(word: Option<String>, otherwise: u64) -> Result<u64> {
    match word {
        Some(word) => word.as_str().parse().context(format_args!("{word:?}")),
        None => Ok(otherwise),
    }
}

fn main(rt: HostRuntime) -> Result<()> {
    let mut words = env::args(&rt)?.skip(1);
    let file = words.next().context("mesh FILE [WORKERS [LIMIT]]")?;
    let finders = u8::try_from(parse_number(words.next(), 8)?).context("WORKERS")?;
    let limit = parse_number(words.next(), 1 << 32)?;
    let text = fs::read_to_string(&rt, file.as_str()).context("the file of points")?;
    let points = read_points(rt.alloc(), text.as_str())?;
    ensure!(0 < finders, "no workers");
    let search = Search {
        rt: &rt,
        alloc: rt.alloc(),
        points: points.as_slice(),
        finders,
        ended: AtomicU64::new(0),
    };
    print_edges(&rt, find_edges(&search, limit)?)
}
