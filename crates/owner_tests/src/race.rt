//! Races under each gate, and the number of each refusal.

mod memory;

use crate::gates::Refusing;
use grow_core::GrowError;
use race_core::{RaceError, RaceReport, race, race_error_of};
use span_core::{Free, PairGate};

const TWENTY: RaceReport = RaceReport {
    size: 20,
    sum: 190,
    legal: true,
};

// Workers by ten values each, how often one of a pair looks for the other, and what their race returns.
static PAIRS: [(u32, u64, Result<RaceReport, RaceError>); 3] = [
    (2, 0, Err(RaceError::Stuck)),
    (1, 1000, Err(RaceError::Stuck)),
    (2, 1_000_000_000, Ok(TWENTY)),
];

#[test]
fn two_workers_run_at_once_and_one_waits_in_vain(rt: HostRuntime) {
    for (workers, turns, ended) in PAIRS.as_slice() {
        let gate = PairGate::new(*turns);
        assert!(rt;
            race(&rt, rt.alloc(), *workers, 10, &gate) == *ended,
            "{workers} {turns}"
        );
    }
}

// Which of five workers the gate refuses, and whether it refuses one.
static REFUSED: [(u32, u32, bool); 7] = [
    (0, 5, true),
    (2, 5, true),
    (4, 5, true),
    (5, 5, false),
    (0, 1, true),
    (1, 2, true),
    (2, 3, true),
];

#[test]
fn each_worker_passes_the_gate_twice_whichever_are_refused(rt: HostRuntime) {
    for (from, to, stuck) in REFUSED.as_slice() {
        let gate = Refusing::new(*from, *to);
        let ended = race(&rt, rt.alloc(), 5, 10, &gate);
        assert!(rt;
            (ended == Err(RaceError::Stuck)) == *stuck && gate.is_passed(5),
            "{from} {to}"
        );
    }
}

static BAD_SIZES: [(u32, u32); 4] = [(0, 1), (65, 1), (1, 0), (1, 100_001)];

#[test]
fn a_bad_size_is_refused(rt: HostRuntime) {
    for (workers, each) in BAD_SIZES.as_slice() {
        let ended = race(&rt, rt.alloc(), *workers, *each, &Free);
        assert!(rt; ended == Err(RaceError::BadSize), "{workers} {each}");
    }
}

// A refusal of a race, and its number.
static NUMBERS: [(RaceError, u8); 5] = [
    (RaceError::NoMemory, 1),
    (RaceError::BadSize, 2),
    (RaceError::Stuck, 3),
    (RaceError::Grow { number: 2 }, 4),
    (RaceError::Grow { number: 5 }, 4),
];

#[test]
fn each_refusal_has_its_number(rt: HostRuntime) {
    for (refusal, number) in NUMBERS.as_slice() {
        assert!(rt; refusal.number() == *number, "{number}");
    }
}

#[test]
fn a_refused_growth_is_reported(rt: HostRuntime) {
    let full = race_error_of(GrowError::Full { size: 1, back: 5 });
    assert!(rt; full == RaceError::Grow { number: 2 });
    let memory = race_error_of(GrowError::NoMemory { back: 5 });
    assert!(rt; memory == RaceError::NoMemory);
}
