//! Tokens that travel: one thread appends squares to a vector and sends a note of each place, and another
//! reads the values by the notes while more are appended.
#![tactic(auto)]

ghost use Rattle.std.specs.Thread.{IsSync};
ghost use Rattle.grow_core.specs.Vector.{IsHandOf};

mod note;

use crate::note::Note;
use anyhow::{Context, anyhow};
use crossbeam_channel::{Receiver, Sender, unbounded};
use grow_core::{Hand, Shared};
use quiet_core::Quiet;
use std::alloc::{AllocGlobal, Global};
use std::sync::Wait;
use std::thread;
use std::thread::Threads;

const COUNT: u64 = 1000;

// Appends the squares from 1 on, and sends a note of each. It ends early if the vector is full or nobody
// listens.
fn send_squares<'a, R: Wait>(
    rt: &R,
    vector: &'a Shared<u64>,
    hand: &mut Hand<u64>,
    notes: Sender<Note<'a>, Global>,
) -> anyhow::Result<()>
    requires { IsHandOf vector.now hand.old }
    ensures { IsHandOf vector.now hand.new }
{
    for number in 1..COUNT + 1 {
        let Ok(placed) = vector.push_back(rt, hand, number * number) else {
            return Err(anyhow!("a square was refused"));
        };
        let Ok(()) = notes.send(rt, Note { vector, placed }) else {
            return Err(anyhow!("nobody reads the notes"));
        };
    }
    Ok(())
}

// The sum of the values that the notes are of.
fn add_up<R: Wait>(rt: &R, notes: Receiver<Note<'_>, Global>) -> u64 {
    let mut sum: u64 = 0;
    for note in notes.iter(rt) {
        sum = sum.wrapping_add(*note.value());
    }
    sum
}

// The same by a hand that goes.
fn send_all<'a, R: Wait>(
    rt: &R,
    vector: &'a Shared<u64>,
    mut hand: Hand<u64>,
    notes: Sender<Note<'a>, Global>,
) -> anyhow::Result<()>
    requires { IsHandOf vector.now hand }
{
    send_squares(rt, vector, &mut hand, notes)
}

// The sum of the squares, which one thread sends and another adds up.
fn sum_squares<R: Threads + Wait + AllocGlobal + Sync>(
    rt: &R,
    vector: &Shared<u64>,
    hand: Hand<u64>,
) -> anyhow::Result<u64>
    requires { IsHandOf vector.now hand }
{
    let (sender, receiver) = unbounded(rt.alloc())?;
    let (sent, sum) = thread::join(
        rt,
        || -> anyhow::Result<()>
            requires { IsSync R.row × IsHandOf vector.now hand }
        { send_all(rt, vector, hand, sender) },
        || add_up(rt, receiver),
    );
    sent?;
    Ok(sum)
}

fn main(rt: HostRuntime) -> anyhow::Result<()> {
    let opened = Quiet::new(rt.alloc(), COUNT).open().ok();
    let (vector, hand) = opened.context("out of memory")?;
    let sum = sum_squares(&rt, &vector, hand)?;
    println!(rt; "{COUNT} notes were read, and their values add up to {sum}")?;
    Ok(())
}
