// Gates that open only once all workers have come, so that these really run at once.
use super::hands::{Task, append_to_new};
use super::refusals::Fates;
use super::{maps, numbered, sum_of};
use quiet_core::Quiet;
use span_core::{Gate, PairGate, Span, run_workers};
use std::alloc::Global;
use std::sync::Wait;
use std::sync::atomic::{AtomicU64, Ordering};
use std::thread::{Threads, yield_now};

// How often a worker looks at most whether all have come.
const LOOKS: u64 = 10_000_000;

// Opens once all of its workers have come. A worker that has waited too long is refused.
#[derive(Drop)]
struct AllCome {
    workers: u64,
    came: AtomicU64,
}

impl AllCome {
    fn new(workers: u32) -> AllCome {
        AllCome {
            workers: u64::from(workers),
            came: AtomicU64::new(0),
        }
    }
}

impl Gate for AllCome {
    ghost may_refuse = { λ _ _. Unit {0} };

    fn before(&self, _worker: u32) -> bool {
        self.came.fetch_add(1, Ordering::SeqCst);
        for _look in 0..LOOKS {
            if self.came.load(Ordering::SeqCst) >= self.workers {
                return true;
            }
            yield_now();
        }
        false
    }

    fn after(&self, _worker: u32) {}
}

// Tests whether workers with a hand each run at the same time, and those of both loops, with a place each.
fn run_at_once<R: Threads + Wait + Sync>(
    rt: &R,
    alloc: Global,
    list: &Quiet<u64>,
    workers: u32,
) -> bool {
    let task = Task::new(0, workers, None);
    let hands = append_to_new(rt, alloc, 8, workers, &task, &AllCome::new(workers));
    let sum = sum_of(rt, alloc, list, 1, workers, &AllCome::new(workers));
    let span = Span::new(0, list.len(), 1);
    let all = maps(rt, alloc, list, span, workers, &AllCome::new(workers), &[]);
    hands == Some((Ok(true), 0)) && sum.is_ok() && all.is_ok()
}

#[test]
fn all_workers_run_at_once(rt: HostRuntime) {
    for workers in [2, 3, 4, 9, 64].as_slice() {
        let list = numbered(&rt, u64::from(*workers));
        assert!(rt; run_at_once(&rt, rt.alloc(), &list, *workers), "{workers}");
    }
}

// A pair whose worker 1 comes late.
#[derive(Drop)]
struct LatePair {
    pair: PairGate,
    looks: AtomicU64,
}

impl Gate for LatePair {
    ghost may_refuse = { λ _ _. Unit {0} };

    fn before(&self, worker: u32) -> bool {
        if worker == 1 {
            for _look in 0..LATE {
                self.looks.load(Ordering::SeqCst);
            }
        }
        self.pair.before(worker)
    }

    fn after(&self, _worker: u32) {}
}

// How often the late worker looks around first.
const LATE: u64 = 20_000_000;

// The one that is early may look for the late one nearly without end.
#[test]
fn a_pair_with_many_turns_waits_for_a_late_worker(rt: HostRuntime) {
    let gate = LatePair {
        pair: PairGate::new(u64::MAX),
        looks: AtomicU64::new(0),
    };
    let refused = run_workers(&rt, rt.alloc(), &Fates::new(0), &gate, 2).err();
    assert!(rt; refused == None);
}
