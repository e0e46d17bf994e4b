// Several workers are refused, and the lowest one's refusal is seen.
use super::hands::are_all;
use span_core::{Gate, Job, ParError, run_workers};
use std::alloc::{AllocError, Global};
use std::sync::Wait;
use std::sync::atomic::{AtomicU64, Ordering};
use std::thread::Threads;

// A digit for each worker, the lowest first, to the base 3: 0 works, 1 is refused by the gate, 2 has no
// memory.
#[derive(Drop)]
pub(super) struct Fates {
    digits: u32,
    before: AtomicU64,
    after: AtomicU64,
}

impl Fates {
    pub(super) fn new(digits: u32) -> Fates {
        Fates {
            digits,
            before: AtomicU64::new(0),
            after: AtomicU64::new(0),
        }
    }

    fn of(&self, worker: u32) -> u32 {
        let mut digits = self.digits;
        for _ in 0..worker {
            digits /= 3;
        }
        digits % 3
    }

    fn lowest(&self, workers: u32) -> Option<ParError> {
        for worker in 0..workers {
            match self.of(worker) {
                1 => return Some(ParError::Stuck),
                2 => return Some(ParError::NoMemory),
                _ => {}
            }
        }
        None
    }
}

impl Job<u32> for Fates {
    ghost use Rattle.std.specs.Prelude.{◌≡◌};

    ghost ready = { λ _ _. Unit {0} };

    ghost gives = { λ _ worker answer. answer ≡ worker };

    fn work(&self, worker: u32) -> Result<u32, AllocError> {
        if self.of(worker) == 2 {
            return Err(AllocError);
        }
        Ok(worker)
    }
}

impl Gate for Fates {
    ghost may_refuse = { λ _ _. Unit {0} };

    fn before(&self, worker: u32) -> bool {
        self.before.fetch_add(1, Ordering::SeqCst);
        self.of(worker) != 1
    }

    fn after(&self, _worker: u32) {
        self.after.fetch_add(1, Ordering::SeqCst);
    }
}

// Tests whether the refusal of the lowest worker is returned, or the numbers of all in order, and all of them
// pass the gate twice.
fn returns_lowest<R: Threads + Wait + Sync>(
    rt: &R,
    alloc: Global,
    workers: u32,
    digits: u32,
) -> bool {
    let fates = Fates::new(digits);
    let is_told = match run_workers(rt, alloc, &fates, &fates, workers) {
        Ok(numbers) => fates.lowest(workers) == None && are_all(numbers.as_slice(), workers),
        Err(refusal) => fates.lowest(workers) == Some(refusal),
    };
    is_told
        && fates.before.load(Ordering::SeqCst) == u64::from(workers)
        && fates.after.load(Ordering::SeqCst) == u64::from(workers)
}

// Workers, and a digit for each: of 9 the last, of 16 the last, and of 64 those of numbers 20 and 19.
static MANY: [(u32, u32); 8] = [
    (5, 0),
    (9, 6561),
    (9, 13_122),
    (16, 14_348_907),
    (16, 28_697_814),
    (64, 3_486_784_401),
    (64, 2_324_522_934),
    (64, 0),
];

#[test]
fn the_lowest_refusal_or_the_results_in_order_are_returned(rt: HostRuntime) {
    for digits in 0..81 {
        assert!(rt; returns_lowest(&rt, rt.alloc(), 4, digits), "{digits}");
    }
    for (workers, digits) in MANY.as_slice() {
        assert!(rt;
            returns_lowest(&rt, rt.alloc(), *workers, *digits),
            "{workers} {digits}"
        );
    }
}
