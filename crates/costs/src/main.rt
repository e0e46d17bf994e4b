//! Measures what calls cost, each next to a yardstick that does the least that the call could do, and puts
//! the shared vector under stress.
//!
//! - Without an argument it runs each operation shortly and prints that all of its wins were counted: the
//!   same whatever the machine does. With the argument `figures` it measures for some seconds and prints
//!   times.
//! - With `load NAME THREADS` it runs one load, and with `count NAME VALUES` a short one on a small vector, or a turn
//!   in the life of a list of this many values, for a tool that counts its instructions.
//! - With `stress SECONDS` threads make random calls on shared vectors, and the results are compared.
//! - Each measured operation has a file of its own with one function that runs its tries in threads and
//!   returns a `Trial`.
//!
//! Contracts say that each hand and each token is used with its own word or vector. No clause says what a run
//! costs.
#![tactic(auto)]

mod bare_number;
mod boxcar_loads;
mod claim_word;
mod figures;
mod growths;
mod hundreds;
mod lists;
mod lives;
mod loads;
mod operation;
mod other_vectors;
mod pushed_walk;
mod reads;
mod shared_vector;
mod start;
mod stress;
mod tokens;
mod trial;
mod walks;
mod writers;

use crate::boxcar_loads::{print_boxcar_reads, print_boxcar_time};
use crate::figures::print_figures;
use crate::hundreds::print_hundreds;
use crate::lives::{LISTED, Turn, print_turn};
use crate::loads::{layout_of, load_of};
use crate::operation::{GROUPS, Group, Operation};
use crate::pushed_walk::print_pushed_walk;
use crate::stress::print_stress;
use anyhow::{Result, bail, ensure};
use std::alloc::AllocGlobal;
use std::env::{self, Env};
use std::rt::Clock;
use std::sync::Wait;
use std::thread::Threads;

// How the short run is made.
const THREADS: usize = 2;

const TRIES: u64 = 500;

// Says that every win of an operation was counted.
fn print_counted<R: Print>(rt: &R, name: &str) -> Result<()> {
    println!(rt; "{name}: {TRIES} tries by each of {THREADS} threads, every win counted")?;
    Ok(())
}

// Runs an operation shortly.
fn print_count<R: Threads + Wait + Clock + Print + AllocGlobal + Sync>(
    rt: &R,
    operation: Operation,
) -> Result<()> {
    let trial = operation.run(rt, THREADS, TRIES)?;
    let name = operation.name();
    ensure!(trial.wins == trial.size, "{name} lost a win");
    print_counted(rt, name)
}

// Runs each operation of a group shortly.
fn print_counts_of<R: Threads + Wait + Clock + Print + AllocGlobal + Sync>(
    rt: &R,
    group: Group,
) -> Result<()> {
    for operation in group.operations.as_slice() {
        print_count(rt, *operation)?;
    }
    Ok(())
}

fn print_counts<R: Threads + Wait + Clock + Print + AllocGlobal + Sync>(rt: &R) -> Result<()> {
    for group in GROUPS.as_slice() {
        print_counts_of(rt, *group)?;
    }
    Ok(())
}

// What the words after the program's name ask for.
enum Task<'a> {
    Counts,
    Figures,
    Load {
        name: &'a str,
        threads: usize,
        values: Option<u64>,
    },
    Stress(u64),
}

// The number that a word says.
fn number_of(word: &String) -> Result<u64> {
    Ok(word.as_str().parse()?)
}

fn task_of(words: &[String]) -> Result<Task<'_>> {
    match words {
        [] => Ok(Task::Counts),
        [word] if word.as_str() == "figures" => Ok(Task::Figures),
        [word, seconds] if word.as_str() == "stress" => Ok(Task::Stress(number_of(seconds)?)),
        [word, name, threads] if word.as_str() == "load" => Ok(Task::Load {
            name: name.as_str(),
            threads: number_of(threads)? as usize,
            values: None,
        }),
        [word, name, values] if word.as_str() == "count" => Ok(Task::Load {
            name: name.as_str(),
            threads: 1,
            values: Some(number_of(values)?),
        }),
        _ => bail!(
            "usage: costs [figures | load NAME THREADS | count NAME VALUES | stress SECONDS]"
        ),
    }
}

// The turn in the life of a list that has this name.
fn turn_of(name: &str) -> Option<Turn> {
    match name {
        "discard" => Some(Turn::Discard),
        "open" => Some(Turn::Open),
        "close" => Some(Turn::Close),
        "into-vec" => Some(Turn::IntoVec),
        _ => None,
    }
}

// Prints the nanoseconds that the load took, with this many values if a number is given.
fn print_load<R: Threads + Wait + Clock + Print + AllocGlobal + Sync>(
    rt: &R,
    name: &str,
    threads: usize,
    values: Option<u64>,
) -> Result<()> {
    if let Some(turn) = turn_of(name) {
        return print_turn(rt, turn, values.unwrap_or(LISTED));
    }
    if let Some(values) = values {
        return load_of(name)?.with_values(values).print_time(rt, threads);
    }
    match name {
        "boxcar" => print_boxcar_time(rt, threads),
        "boxcar-at" => print_boxcar_reads(rt, threads),
        "hundreds" | "hundreds-256" => print_hundreds(rt, layout_of(name)),
        "walk-pushed" => print_pushed_walk(rt, threads),
        _ => load_of(name)?.print_time(rt, threads),
    }
}

fn words_of<R: Env + AllocGlobal>(rt: &R) -> Result<Vec<String>> {
    let mut words = Vec::new(rt.alloc());
    for word in env::args(rt)?.skip(1) {
        words.push(word)?;
    }
    Ok(words)
}

fn run_task<R: Threads + Wait + Clock + Print + AllocGlobal + Sync>(
    rt: &R,
    task: Task<'_>,
) -> Result<()> {
    match task {
        Task::Counts => print_counts(rt),
        Task::Figures => print_figures(rt),
        Task::Load {
            name,
            threads,
            values,
        } => print_load(rt, name, threads, values),
        Task::Stress(seconds) => print_stress(rt, seconds),
    }
}

fn main(rt: HostRuntime) -> Result<()> {
    let words = words_of(&rt)?;
    run_task(&rt, task_of(words.as_slice())?)
}
