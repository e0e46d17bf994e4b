// Five workers that are started by halves: if a thread cannot be started, nobody of its range works, and every
// other worker does.
use span_core::{ForkJoin, fork_join};
use std::sync::Wait;
use std::sync::atomic::{AtomicU64, Ordering};
use std::thread::Threads;

// Counts the calls at each worker, in a hexadecimal digit each, with worker 0 in the last one. Work of a worker
// adds 1 there, and a range of `count` workers that does not work adds `8 + count` at its first worker.
#[derive(Drop)]
struct Calls {
    digits: AtomicU64,
}

impl Calls {
    fn add(&self, worker: u32, number: u64) {
        let digit = 1u64.wrapping_shl(worker.wrapping_mul(4));
        let _before = self
            .digits
            .fetch_add(number.wrapping_mul(digit), Ordering::SeqCst);
    }
}

impl ForkJoin<(), (), ()> for Calls {
    ghost use Rattle.std.specs.Prelude.{IfOk, IfErr};

    ghost brings = { λ _ _ _ _. Unit {0} };

    ghost gives = { λ _ _ _ _. Unit {0} };

    ghost refuses = { λ _ _ _ _. Unit {0} };

    fn work(&self, worker: u32, _brought: ()) -> Result<(), ()> {
        self.add(worker, 1);
        Ok(())
    }

    fn cut(&self, _brought: (), _first: u32, _low: u32, _high: u32) -> ((), ()) {
        ((), ())
    }

    fn join_halves(
        &self,
        _first: u32,
        _low: u32,
        _high: u32,
        lower: Result<(), ()>,
        upper: Result<(), ()>,
    ) -> Result<(), ()>
        requires lower { IfOk lower (λ _. Unit {0}) × IfErr lower (λ _. Unit {0}) }
        requires upper { IfOk upper (λ _. Unit {0}) × IfErr upper (λ _. Unit {0}) }
        ensures answer { IfOk result (λ _. Unit {0}) }
        ensures refused { IfErr result (λ _. Unit {0}) }
    {
        lower?;
        upper
    }

    fn unstarted(&self, _brought: (), first: u32, count: u32) -> Result<(), ()> {
        self.add(first, u64::from(count).wrapping_add(8));
        Err(())
    }
}

// The calls if the upper three workers have no thread: then the lower two do not work either.
const NONE_WORK: u64 = 0xb0a;

// The calls of workers 0 and 1, and those of 2 to 4, if these have a thread. A range of two or three may lack a
// thread too.
static LOWER: [u64; 2] = [0x11, 0x99];

static UPPER: [u64; 3] = [0x111, 0xa9, 0x991];

// Tests whether five workers make the calls of one of these outcomes, and succeed exactly if all of them work.
fn work_by_halves<R: Threads + Wait + Sync>(rt: &R) -> bool {
    let calls = Calls {
        digits: AtomicU64::new(0),
    };
    let told = fork_join(rt, &calls, (), 0, 5);
    let digits = calls.digits.load(Ordering::SeqCst);
    let (lower, upper) = (digits & 0xff, digits >> 8);
    told.is_ok() == (digits == 0x1_1111)
        && (digits == NONE_WORK
            || LOWER.as_slice().contains(&lower) && UPPER.as_slice().contains(&upper))
}

#[test]
fn a_refused_allocation_stops_both_halves_of_a_range(rt: HostRuntime) {
    assert!(rt; work_by_halves(&rt));
}
