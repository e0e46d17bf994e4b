// Workers that append to one vector, each by a hand of its own: the hand is whole again, whatever they
// return.
ghost use Rattle.std.specs.Prelude.{◌<◌, ◌≤◌};
ghost use Rattle.grow_core.specs.Vector.{IsHandOf};
ghost use Rattle.span_core.specs.Hands.{KeepsShares};

use super::watch::Watch;
use crate::results::succeeded;
use grow_core::{Hand, Shared};
use quiet_core::Quiet;
use span_core::{Free, Gate, PairGate, Refusal, split_even, with_hands};
use std::alloc::Global;
use std::sync::Wait;
use std::sync::atomic::{AtomicU64, Ordering};
use std::thread::Threads;

// The task of each worker: it appends `each` values and returns its number. Number `stops` stops after half of
// them.
#[derive(Drop)]
pub(super) struct Task<'a> {
    each: u64,
    stops: u32,
    // How often a worker has begun.
    pub(super) begun: AtomicU64,
    watch: Option<&'a Watch>,
}

// The error of a worker whose growth was refused. One that stops returns its number.
const GROWTH: u32 = u32::MAX;

impl<'a> Task<'a> {
    pub(super) fn new(each: u64, stops: u32, watch: Option<&'a Watch>) -> Task<'a> {
        Task {
            each,
            stops,
            begun: AtomicU64::new(0),
            watch,
        }
    }

    // Notes that a worker begins. Returns how many values it is to append.
    fn begin(&self, worker: u32) -> u64 {
        self.begun.fetch_add(1, Ordering::SeqCst);
        if let Some(watch) = self.watch {
            watch.note_work(worker);
        }
        if worker == self.stops {
            self.each / 2
        } else {
            self.each
        }
    }
}

// Does the task by one worker.
fn append_all<R: Wait>(
    rt: &R,
    vector: &Shared<u64>,
    worker: u32,
    hand: &mut Hand<u64>,
    task: &Task<'_>,
) -> Result<u32, u32>
    requires ours { IsHandOf vector.now hand.old }
    ensures { KeepsShares hand.old hand.new }
{
    for count in 0..task.begin(worker) {
        if vector.push_back(rt, hand, count).is_err() {
            return Err(GROWTH);
        }
    }
    if worker == task.stops {
        Err(worker)
    } else {
        Ok(worker)
    }
}

// Tests whether each of the workers has returned its number, in order.
pub(super) fn are_all(numbers: &[u32], workers: u32) -> bool {
    let mut next = 0;
    for number in numbers {
        if next >= workers || *number != next {
            return false;
        }
        next += 1;
    }
    next == workers
}

// Does the task by some workers. Returns whether each returned its number, in order.
pub(super) fn append_by<R: Threads + Wait + Sync, G: Gate + Sync>(
    rt: &R,
    alloc: Global,
    vector: &Shared<u64>,
    hand: &mut Hand<u64>,
    workers: u32,
    task: &Task<'_>,
    gate: &G,
) -> Result<bool, Refusal<u32>>
    requires ours { IsHandOf vector.now hand.old }
    requires some { 0 < workers }
    requires fewer { workers < hand.old.shares }
    ensures { KeepsShares hand.old hand.new }
{
    let work = |vector: &Shared<u64>, worker: u32, hand: &mut Hand<u64>| -> Result<u32, u32>
        requires { IsHandOf vector.now hand.old }
        ensures { KeepsShares hand.old hand.new }
    { append_all(rt, vector, worker, hand, task) };
    let numbers = with_hands(rt, alloc, vector, hand, workers, &work, gate)?;
    Ok(are_all(numbers.as_slice(), workers))
}

// The same on a new vector. Returns the length of the closed list as well.
pub(super) fn append_to_new<R: Threads + Wait + Sync, G: Gate + Sync>(
    rt: &R,
    alloc: Global,
    limit: u64,
    workers: u32,
    task: &Task<'_>,
    gate: &G,
) -> Option<(Result<bool, Refusal<u32>>, u64)>
    requires { 0 < limit × limit ≤ 1000 }
{
    if workers == 0 || workers > 300 {
        return None;
    }
    let (vector, mut hand) = Quiet::new(alloc, limit).open().ok()?;
    let told = append_by(rt, alloc, &vector, &mut hand, workers, task, gate);
    let list = Quiet::close(vector, hand);
    let len = list.len();
    drop(list);
    Some((told, len))
}

// The one of eight workers that stops after five of ten values, whether all return in order, and the length of
// the closed list.
static STOPS: [(u32, Result<bool, Refusal<u32>>, u64); 9] = [
    (8, Ok(true), 80),
    (0, Err(Refusal::Worker(0)), 75),
    (1, Err(Refusal::Worker(1)), 75),
    (2, Err(Refusal::Worker(2)), 75),
    (3, Err(Refusal::Worker(3)), 75),
    (4, Err(Refusal::Worker(4)), 75),
    (5, Err(Refusal::Worker(5)), 75),
    (6, Err(Refusal::Worker(6)), 75),
    (7, Err(Refusal::Worker(7)), 75),
];

#[test]
fn the_vector_closes_whichever_of_eight_workers_stops(rt: HostRuntime) {
    for (stops, told, len) in STOPS.as_slice() {
        let task = Task::new(10, *stops, None);
        let ended = append_to_new(&rt, rt.alloc(), 80, 8, &task, &Free);
        assert!(rt; ended == Some((*told, *len)), "{stops}");
    }
}

#[test]
fn the_vector_closes_if_growths_or_workers_are_refused(rt: HostRuntime) {
    let task = Task::new(10, 8, None);
    let full = append_to_new(&rt, rt.alloc(), 30, 8, &task, &Free);
    assert!(rt; full == Some((Err(Refusal::Worker(GROWTH)), 30)));
    let stuck = append_to_new(&rt, rt.alloc(), 80, 8, &task, &PairGate::new(0));
    assert!(rt; stuck == Some((Err(Refusal::Stuck), 60)));
}

// The shares of the last hand, if there is one.
fn share_of_last(hands: &[Hand<u64>]) -> u32 {
    match hands.last() {
        Some(last) => last.share(),
        None => 0,
    }
}

// Splits a hand with `shares` off, and `n` hands off that.
fn split_evenly(
    alloc: Global,
    vector: &Shared<u64>,
    rest: &mut Hand<u64>,
    shares: u32,
    n: u32,
) -> Option<(u32, u32)>
    requires ours { IsHandOf vector.now rest.old }
    requires fewer { shares < rest.old.shares }
    requires enough { n < shares }
{
    let mut hand = vector.split(rest, shares);
    let hands = split_even(alloc, vector, &mut hand, n).ok();
    let each = match &hands {
        Some(hands) => Some(share_of_last(hands.as_slice())),
        None => None,
    };
    let left = hand.share();
    drop((hands, hand));
    Some((each?, left))
}

// The shares of each of `n` hands, and of what is left of one that had `shares`, if the parts are even.
fn even_shares(alloc: Global, shares: u32, n: u32) -> Option<(u32, u32)> {
    if n >= shares || shares > 65_535 {
        return None;
    }
    let (vector, mut rest) = Quiet::<u64>::new(alloc, 8).open().ok()?;
    let told = split_evenly(alloc, &vector, &mut rest, shares, n);
    drop((vector, rest));
    told
}

// Shares, how many hands are split off, the shares of each, and those that are left.
static EVEN: [(u32, u32, u32, u32); 6] = [
    (10, 3, 2, 4),
    (10, 9, 1, 1),
    (10, 0, 0, 10),
    (1000, 10, 90, 100),
    (65_535, 300, 217, 435),
    (65_535, 65_534, 1, 1),
];

#[test]
fn what_is_left_of_even_shares_stays(rt: HostRuntime) {
    for (shares, n, each, left) in EVEN.as_slice() {
        assert!(rt;
            even_shares(rt.alloc(), *shares, *n) == Some((*each, *left)),
            "{shares} {n}"
        );
    }
}
