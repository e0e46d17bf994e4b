//! Workers that all begin, or of whom none does.
use std::sync::Wait;
use std::sync::atomic::{AtomicU64, Ordering};

// How many workers have come. It is `FAILED` or more once a thread could not be started.
#[derive(Drop)]
pub(crate) struct Crew {
    came: AtomicU64,
    workers: u64,
}

// More than there are workers, and with them within the 32 bits that a sleep looks at.
const FAILED: u64 = 1 << 31;

impl Crew {
    pub(crate) fn new(workers: u32) -> Crew {
        Crew {
            came: AtomicU64::new(0),
            workers: u64::from(workers),
        }
    }

    // Called by each worker before its work. Waits until all have come, and returns whether the worker may
    // begin: not if a thread could not be started.
    pub(crate) fn begins<R: Wait>(&self, rt: &R) -> bool {
        let others = self.came.fetch_add(1, Ordering::SeqCst);
        if others.wrapping_add(1) == self.workers {
            self.came.wake_all();
        }
        for _ in rt.forever() {
            let came = self.came.load(Ordering::SeqCst);
            if came >= FAILED {
                return false;
            }
            if came >= self.workers {
                return true;
            }
            self.came.park(rt, came as u32);
        }
        unreachable!()
    }

    // Called if a thread could not be started: nobody begins.
    pub(crate) fn fail(&self) {
        self.came.store(FAILED, Ordering::SeqCst);
        self.came.wake_all();
    }
}
