// Any one allocation may be refused: then the loop says so, and the next one succeeds. `tests/refuse-memory`
// refuses each request in turn.
ghost use Rattle.std.specs.Prelude.{◌≡◌, ◌<◌};
ghost use Rattle.grow_core.specs.Hand.{IsWholeHand};
ghost use Rattle.grow_core.specs.Vector.{IsHandOf};

use super::buffered_writers::{flush_all, push_one};
use super::hands::{Task, append_by, append_to_new};
use super::lent_writers::{Appends, Meets, len_or_shares, write_new};
use super::ways::{LIMIT, fills};
use super::writers::shows_below;
use super::{maps, sum_of};
use crate::gates::Refusing;
use grow_core::{Hand, Shared};
use quiet_core::Quiet;
use span_core::{BufferedWriter, Free, ParError, Refusal, Span, Writer, split_even, with_writers};
use std::alloc::{AllocGlobal, Global};
use std::sync::Wait;
use std::sync::atomic::Ordering;
use std::thread::Threads;

// A list of six values, if there is memory for it.
fn six(alloc: Global) -> Option<Quiet<u64>> {
    let values = vec![in alloc; 0u64, 1, 4, 9, 16, 25].ok()?;
    match Quiet::from_vec(alloc, 16, values) {
        Ok(list) => Some(list),
        Err(_refused) => None,
    }
}

static SIX: [(u64, Option<u64>); 6] = [
    (0, Some(0)),
    (1, Some(1)),
    (2, Some(4)),
    (3, Some(9)),
    (4, Some(16)),
    (5, Some(25)),
];

fn maps_six<R: Threads + Wait + Sync>(
    rt: &R,
    alloc: Global,
    list: &Quiet<u64>,
) -> Result<bool, ParError> {
    maps(rt, alloc, list, Span::new(0, list.len(), 2), 3, &Free, &SIX)
}

// The loops are tried again if they had no memory, and then return.
fn return_again<R: Threads + Wait + Sync>(rt: &R, alloc: Global, list: &Quiet<u64>) -> bool {
    let mut mapped = maps_six(rt, alloc, list);
    if mapped == Err(ParError::NoMemory) {
        mapped = maps_six(rt, alloc, list);
    }
    let mut sum = sum_of(rt, alloc, list, 2, 3, &Free);
    if sum == Err(ParError::NoMemory) {
        sum = sum_of(rt, alloc, list, 2, 3, &Free);
    }
    list.len() == 6 && mapped == Ok(true) && sum == Ok(55)
}

#[test]
fn a_map_and_a_reduction_are_tried_again(rt: HostRuntime) {
    if let Some(list) = six(rt.alloc()) {
        assert!(rt; return_again(&rt, rt.alloc(), &list));
    }
}

// Three workers append a value each, and try again if they had no memory. Returns whether all returned, and the
// length of the closed list.
fn append_again<R: Threads + Wait + Sync>(rt: &R, alloc: Global) -> Option<(bool, u64)> {
    let (vector, mut hand) = Quiet::new(alloc, 100).open().ok()?;
    let task = Task::new(1, 3, None);
    let mut told = append_by(rt, alloc, &vector, &mut hand, 3, &task, &Free);
    if told.is_err() {
        told = append_by(rt, alloc, &vector, &mut hand, 3, &task, &Free);
    }
    Some((told == Ok(true), Quiet::close(vector, hand).len()))
}

#[test]
fn workers_with_hands_are_tried_again(rt: HostRuntime) {
    if let Some((is_three, len)) = append_again(&rt, rt.alloc()) {
        assert!(rt; is_three && 3 <= len && len <= 6);
    }
}

// Tests whether two workers both pass the gate twice and work, or, if a thread could not be started, neither.
fn both_work_or_neither<R: Threads + Wait + Sync>(rt: &R, alloc: Global) -> bool {
    let gate = Refusing::new(2, 2);
    let task = Task::new(0, 2, None);
    match append_to_new(rt, alloc, 8, 2, &task, &gate) {
        Some((told, _)) => {
            let works = task.begun.load(Ordering::SeqCst);
            gate.is_passed(2) && works == 2 || told.is_err() && gate.is_passed(0) && works == 0
        }
        None => true,
    }
}

#[test]
fn nobody_works_if_a_thread_cannot_be_started(rt: HostRuntime) {
    assert!(rt; both_work_or_neither(&rt, rt.alloc()));
}

// Tests whether three workers with a writer each append a value, at the second try if there was no memory.
fn are_written_again<R: Threads + Wait + Sync>(
    rt: &R,
    alloc: Global,
    vector: &Shared<u64>,
    hand: &mut Hand<u64>,
) -> bool
    requires ours { IsHandOf vector.now hand.old }
    requires fewer { 3 < hand.old.shares }
    ensures of { hand.new.of ≡ hand.old.of }
{
    let job = Appends::new(rt, 1, 3);
    if with_writers(rt, alloc, vector, hand, 3, &job, &Free).is_ok() {
        return true;
    }
    with_writers(rt, alloc, vector, hand, 3, &job, &Free).is_ok()
}

// The same on a new vector. Returns the length of the closed list as well.
fn write_again<R: Threads + Wait + Sync>(rt: &R, alloc: Global) -> Option<(bool, u64)> {
    let (vector, mut hand) = Quiet::new(alloc, 100).open().ok()?;
    let are_done = are_written_again(rt, alloc, &vector, &mut hand);
    match len_or_shares(vector, hand) {
        Ok(len) => Some((are_done, len)),
        Err(_shares) => Some((false, 0)),
    }
}

#[test]
fn workers_with_writers_are_tried_again(rt: HostRuntime) {
    if let Some((are_done, len)) = write_again(&rt, rt.alloc()) {
        assert!(rt; are_done && 3 <= len && len <= 6);
    }
}

// Tests whether two workers that wait for each other both begin, or neither does and the reason is said.
fn both_begin_or_neither<R: Threads + Wait + Sync>(rt: &R, alloc: Global) -> bool {
    let gate = Refusing::new(2, 2);
    let job = Meets::new(rt, 2);
    let Some((told, closed)) = write_new(rt, alloc, 8, 2, &job, &gate) else {
        return true;
    };
    let begun = job.begun.load(Ordering::SeqCst);
    let begins = match told {
        Ok(_numbers) => 2,
        Err(Refusal::NoMemory) => 2,
        Err(_other) => 0,
    };
    closed == Ok(0) && gate.is_passed(begins) && begun == begins
}

#[test]
fn no_worker_waits_for_one_that_cannot_be_started(rt: HostRuntime) {
    assert!(rt; both_begin_or_neither(&rt, rt.alloc()));
}

// Tests whether each way to append of a writer fills a vector, at the second try if need be.
fn fills_again<R: AllocGlobal + Wait>(rt: &R) -> Option<bool> {
    let (vector, hand) = Quiet::new(rt.alloc(), LIMIT).open().ok()?;
    let mut writer = Writer::new(&vector, hand);
    Some(fills(rt, &mut writer, true) && shows_below(&vector, LIMIT))
}

#[test]
fn each_growth_of_a_writer_is_tried_again(rt: HostRuntime) {
    assert!(rt; fills_again(&rt) != Some(false));
}

// Tests whether a value is pushed, at the second try if need be. A refusal leaves the buffer as it was.
fn pushes_again<R: Wait>(rt: &R, writer: &mut BufferedWriter<'_, u64>, value: u64) -> bool {
    let len = writer.buffered().len();
    let mut pushed = push_one(rt, writer, value);
    if pushed == Err("out of memory") && writer.buffered().len() == len {
        pushed = push_one(rt, writer, value);
    }
    pushed == Ok(())
}

// Tests whether a value that is buffered is appended, at the second try if need be.
fn flushes_again<R: Wait>(rt: &R, writer: &mut BufferedWriter<'_, u64>) -> bool {
    let mut flushed = flush_all(rt, writer);
    if flushed == Err("out of memory") && writer.buffered().len() == 1 {
        flushed = flush_all(rt, writer);
    }
    flushed == Ok(()) && writer.buffered().len() == 0
}

// Tests whether five values are appended through a buffer.
fn appends_five_again<R: Wait>(rt: &R, writer: &mut BufferedWriter<'_, u64>) -> bool {
    for value in 0..5 {
        if !pushes_again(rt, writer, value) {
            return false;
        }
    }
    flushes_again(rt, writer)
}

fn buffers_again<R: Wait>(rt: &R, alloc: Global) -> Option<bool> {
    let (vector, hand) = Quiet::new(alloc, 8).open().ok()?;
    let mut writer = BufferedWriter::new(alloc, Writer::new(&vector, hand), 2);
    Some(appends_five_again(rt, &mut writer) && shows_below(&vector, 5))
}

#[test]
fn buffered_values_are_appended_again(rt: HostRuntime) {
    assert!(rt; buffers_again(&rt, rt.alloc()) != Some(false));
}

// Tests whether three hands are split off one with all shares, at the second try if need be. A refusal leaves
// it all of them.
fn splits_again(alloc: Global, vector: &Shared<u64>, hand: &mut Hand<u64>) -> bool
    requires ours { IsHandOf vector.now hand.old }
    requires shares { IsWholeHand hand.old }
{
    if split_even(alloc, vector, hand, 3).is_ok() {
        return hand.share() == 16_384;
    }
    hand.share() == 65_536 && split_even(alloc, vector, hand, 3).is_ok() && hand.share() == 16_384
}

// The same of the first hand of a new vector, if there is memory for that.
fn first_splits_again(alloc: Global) -> Option<bool> {
    let (vector, mut hand) = Quiet::<u64>::new(alloc, 8).open().ok()?;
    Some(splits_again(alloc, &vector, &mut hand))
}

#[test]
fn a_hand_is_split_again(rt: HostRuntime) {
    assert!(rt; first_splits_again(rt.alloc()) != Some(false));
}

// How many leaves there are, and the last place of the last one.
fn leaves_of(alloc: Global, span: &Span) -> Option<(usize, u64)> {
    let leaves = span.leaves(alloc).ok()?;
    let last = leaves.last()?;
    Some((leaves.len(), last.to()))
}

#[test]
fn leaves_are_cut_again(rt: HostRuntime) {
    let span = Span::new(0, 100, 3);
    let mut cut = leaves_of(rt.alloc(), &span);
    if cut == None {
        cut = leaves_of(rt.alloc(), &span);
    }
    assert!(rt; cut == Some((36, 100)) && span.size() == 100);
}
