// A job that is a gate as well, and keeps how far each worker is.
ghost use Rattle.std.specs.Prelude.{◌<◌};

use crate::span::numbered;
use quiet_core::Quiet;
use span_core::{Gate, Job, ParError, Span, par_map, par_reduce, run_workers};
use std::alloc::{AllocError, Global};
use std::sync::Wait;
use std::sync::atomic::{AtomicU64, Ordering};
use std::thread::Threads;

const ASKED: u64 = 1;

const WORKED: u64 = 2;

const ENDED: u64 = 3;

// A worker is at 0, and then at each of the states above in turn. Work in a loop leaves it where it is.
#[derive(Drop)]
pub(super) struct Watch {
    refused_from: u32,
    states: Vec<AtomicU64>,
    wrong: AtomicU64,
    calls: AtomicU64,
    leaves: bool,
}

impl Watch {
    pub(super) fn new(
        alloc: Global,
        workers: u32,
        refused_from: u32,
        leaves: bool,
    ) -> Result<Watch, AllocError> {
        let mut states = Vec::new(alloc);
        for _worker in 0..workers {
            states.push(AtomicU64::new(0)).map_err(AllocError::from)?;
        }
        Ok(Watch {
            refused_from,
            states,
            wrong: AtomicU64::new(0),
            calls: AtomicU64::new(0),
            leaves,
        })
    }

    // A worker goes on from one state to another. If it is not in that state, that is wrong.
    fn step(&self, worker: u32, from: u64, to: u64) {
        let found = match self.states.get(worker as usize) {
            Some(state) => state.swap(to, Ordering::SeqCst),
            None => u64::MAX,
        };
        if found != from {
            self.wrong.fetch_add(1, Ordering::SeqCst);
        }
    }

    // Notes that a worker works.
    pub(super) fn note_work(&self, worker: u32) {
        self.calls.fetch_add(1, Ordering::SeqCst);
        self.step(worker, ASKED, WORKED);
    }

    // Notes a call for a place of a leaf of two, by one of `workers` workers.
    fn visit(&self, place: u64, workers: u64) -> u64 {
        self.calls.fetch_add(1, Ordering::SeqCst);
        let worker = (place / 2).checked_rem(workers).unwrap_or(0);
        self.step(u32::try_from(worker).unwrap_or(u32::MAX), ASKED, ASKED);
        place
    }

    // Tests whether all workers have ended, after `calls` calls and no wrong step.
    pub(super) fn has_ended(&self, calls: u64) -> bool {
        for state in &self.states {
            if state.load(Ordering::SeqCst) != ENDED {
                return false;
            }
        }
        self.wrong.load(Ordering::SeqCst) == 0 && self.calls.load(Ordering::SeqCst) == calls
    }
}

impl Job<u32> for Watch {
    ghost use Rattle.std.specs.Prelude.{◌≡◌, ◌<◌};

    ghost ready = { λ watch worker. worker < watch.refused_from };

    ghost gives = { λ _ worker answer. answer ≡ worker };

    fn work(&self, worker: u32) -> Result<u32, AllocError> {
        self.note_work(worker);
        Ok(worker)
    }
}

impl Gate for Watch {
    ghost use Rattle.std.specs.Prelude.{◌<◌, ◌≤◌};

    ghost may_refuse = { λ watch worker. watch.refused_from ≤ worker };

    ghost lets_through = { λ watch worker. worker < watch.refused_from };

    fn before(&self, worker: u32) -> bool {
        self.step(worker, 0, ASKED);
        worker < self.refused_from
    }

    fn after(&self, worker: u32) {
        let worked = worker < self.refused_from && !self.leaves;
        self.step(worker, if worked { WORKED } else { ASKED }, ENDED);
    }
}

// How many results there are if all is well.
fn pass<R: Threads + Wait + Sync>(
    rt: &R,
    alloc: Global,
    watch: &Watch,
    workers: u32,
) -> Result<usize, ParError> {
    let answers = run_workers(rt, alloc, watch, watch, workers)?;
    Ok(answers.len())
}

// Tests whether the workers below a number work, and the gate makes the loop stuck if there are others.
fn those_below_work<R: Threads + Wait + Sync>(
    rt: &R,
    alloc: Global,
    workers: u32,
    refused_from: u32,
) -> Result<bool, AllocError> {
    let watch = Watch::new(alloc, workers, refused_from, false)?;
    let calls = u64::from(refused_from);
    let ended = pass(rt, alloc, &watch, workers);
    Ok(
        (refused_from < workers && ended == Err(ParError::Stuck)
            || refused_from == workers && ended == Ok(workers as usize))
            && watch.has_ended(calls)
            && pass(rt, alloc, &watch, 0) == Err(ParError::BadWorkers)
            && pass(rt, alloc, &watch, 65) == Err(ParError::BadWorkers)
            && watch.has_ended(calls),
    )
}

// The number of workers, and the first one that the gate refuses.
static PASSED: [(u32, u32); 9] = [
    (1, 1),
    (2, 2),
    (7, 7),
    (64, 64),
    (5, 3),
    (9, 8),
    (16, 0),
    (64, 1),
    (64, 63),
];

#[test]
fn each_worker_asks_works_and_ends_in_turn(rt: HostRuntime) {
    for (workers, refused_from) in PASSED.as_slice() {
        assert!(rt;
            those_below_work(&rt, rt.alloc(), *workers, *refused_from) == Ok(true),
            "{workers} {refused_from}"
        );
    }
}

// Maps the places, in leaves of two, by some workers: each is asked for once.
fn map_by<R: Threads + Wait + Sync>(
    rt: &R,
    alloc: Global,
    list: &Quiet<u64>,
    workers: u32,
    watch: &Watch,
) -> Result<bool, ParError> {
    let places = list.len();
    let visit = |place: u64, _value: Option<&u64>| watch.visit(place, u64::from(workers));
    let all = par_map(
        rt,
        alloc,
        list,
        Span::new(0, places, 2),
        workers,
        visit,
        watch,
    )?;
    Ok(
        all.last().copied() == places.checked_sub(1)
            && all.len() as u64 == places
            && watch.has_ended(places),
    )
}

// Folds them: each is asked for once, and joined once.
fn fold_by<R: Threads + Wait + Sync>(
    rt: &R,
    alloc: Global,
    list: &Quiet<u64>,
    workers: u32,
    watch: &Watch,
) -> Result<bool, ParError> {
    let places = list.len();
    let visit = |place: u64, _value: Option<&u64>| watch.visit(place, u64::from(workers));
    let joins = AtomicU64::new(1);
    let join = |a: u64, b: u64| {
        joins.fetch_add(1, Ordering::SeqCst);
        a.wrapping_add(b)
    };
    let span = Span::new(0, places, 2);
    let sum = par_reduce(rt, alloc, list, span, workers, visit, 0, join, watch)?;
    Ok(
        sum == places.wrapping_mul(places.wrapping_sub(1)) / 2
            && joins.load(Ordering::SeqCst) == places
            && watch.has_ended(places),
    )
}

// Maps and folds the places.
fn loops_pass<R: Threads + Wait + Sync>(
    rt: &R,
    alloc: Global,
    list: &Quiet<u64>,
    workers: u32,
) -> bool {
    match (
        Watch::new(alloc, workers, workers, true),
        Watch::new(alloc, workers, workers, true),
    ) {
        (Ok(first), Ok(second)) => {
            map_by(rt, alloc, list, workers, &first) == Ok(true)
                && fold_by(rt, alloc, list, workers, &second) == Ok(true)
        }
        _ => false,
    }
}

static LOOPS: [(u32, u64); 5] = [(1, 2), (1, 8), (3, 2), (3, 16), (64, 131_072)];

#[test]
fn each_place_is_asked_for_once_between_the_gates(rt: HostRuntime) {
    for (workers, places) in LOOPS.as_slice() {
        let list = numbered(&rt, *places);
        assert!(rt;
            list.len() == *places && loops_pass(&rt, rt.alloc(), &list, *workers),
            "{workers} {places}"
        );
    }
}
