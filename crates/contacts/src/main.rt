//! Four threads find which particles of a box touch, and collect the contacts in one vector, while a fifth
//! reads those that are there. The owner closes the vector, sorts the list, and prints totals that no
//! schedule can change.
//!
//!   contacts [PARTICLES [SEED]]
#![tactic(auto)]

mod particles;
mod workers;

use crate::particles::{Contact, scatter};
use crate::workers::{FINDERS, Search};
use anyhow::{Context, Error, Result, ensure};
use quiet_core::Quiet;
use span_core::{Free, Refusal, with_writers};
use std::alloc::AllocGlobal;
use std::env::{self, Env};
use std::sync::Wait;
use std::thread::Threads;

const LIMIT: u64 = 1 << 32;

// Looks at what the workers returned: how many contacts each appended or saw.
fn check_counts(counts: Result<Vec<u64>, Refusal<Error>>, list: &Quiet<Contact>) -> Result<()> {
    let seen = counts?.as_slice().iter().all(|count| *count <= list.len());
    ensure!(seen, "a worker saw too much");
    Ok(())
}

// The list of the contacts that the workers find, in any order.
fn collect_contacts<R: Threads + Wait + AllocGlobal + Sync>(
    rt: &R,
    search: &Search<'_, R>,
) -> Result<Quiet<Contact>> {
    let alloc = rt.alloc();
    let opened = Quiet::new(alloc, LIMIT).open().ok();
    let (vector, mut hand) = opened.context("out of memory")?;
    let counts = with_writers(rt, alloc, &vector, &mut hand, FINDERS + 1, search, &Free);
    let closed = Quiet::try_close(vector, hand).ok();
    let list = closed.context("a worker lost its shares")?;
    check_counts(counts, &list)?;
    Ok(list)
}

// The same of particles that are scattered first.
fn find_contacts<R: Threads + Wait + AllocGlobal + Sync>(
    rt: &R,
    count: u32,
    seed: u64,
) -> Result<Quiet<Contact>> {
    let particles = scatter(rt.alloc(), count, seed)?;
    collect_contacts(rt, &Search { rt, particles })
}

// The contacts that there are, in order.
fn sort_contacts<R: AllocGlobal>(rt: &R, list: Quiet<Contact>) -> Result<Vec<Contact>> {
    let mut contacts: Vec<Contact> = list.into_iter().flatten().collect(rt.alloc())?;
    contacts.sort()?;
    Ok(contacts)
}

fn print_totals<R: Print>(rt: &R, contacts: &[Contact]) -> Result<()> {
    let total = contacts
        .iter()
        .fold(0u64, |sum, contact| sum.wrapping_add(contact.distance));
    let count = contacts.len();
    println!(rt; "{count} contacts, whose squared distances add up to {total}")?;
    for contact in contacts.iter().take(3) {
        println!(rt; "{} touches {}", contact.first, contact.second)?;
    }
    Ok(())
}

fn main(rt: HostRuntime) -> Result<()> {
    let mut words = env::args(&rt)?.skip(1);
    let count = words.next().as_deref().unwrap_or("2000").parse()?;
    let seed = words.next().as_deref().unwrap_or("1").parse()?;
    let contacts = sort_contacts(&rt, find_contacts(&rt, count, seed)?)?;
    print_totals(&rt, contacts.as_slice())
}
