//! Where threads gather before their time starts, and how one thread is timed.
use std::hint::spin_loop;
use std::rt::Clock;
use std::sync::atomic::{AtomicU64, Ordering};
use std::time::Instant;

// The steps of arithmetic that each of several threads does first: about 100 milliseconds. The kernel may start a
// thread on a processor that is in use, and has then moved it to a processor of its own.
const STEPS: u64 = 75_000_000;

// How often a thread looks at most whether all have come: seconds, so that it waits in vain only if a thread could not
// be started.
const LOOKS: u64 = 100_000_000;

/// What one thread did, and when.
#[derive(Clone, Copy)]
pub struct Timed {
    pub begun: Instant,
    pub ended: Instant,
    pub wins: u64,
}

/// A place for threads to gather before their time starts.
#[derive(Drop)]
pub struct Start {
    threads: u64,
    come: AtomicU64,
    // What the arithmetic came to, so that no compiler leaves it out.
    sum: AtomicU64,
}

// Does the arithmetic, and returns what it comes to.
fn do_steps() -> u64 {
    let mut sum: u64 = 1;
    for step in 0..STEPS {
        sum = sum
            .wrapping_mul(6_364_136_223_846_793_005)
            .wrapping_add(step);
    }
    sum
}

impl Timed {
    /// Returns what a thread did that began then and ends now; `None` if the clock cannot be read.
    pub fn until_now<R: Clock>(rt: &R, begun: Instant, wins: u64) -> Option<Timed> {
        let ended = Instant::now(rt).ok()?;
        Some(Timed { begun, ended, wins })
    }

    /// Returns the two together: from the beginning of the first to the end of the last.
    pub fn with(self, other: Timed) -> Timed {
        Timed {
            begun: self.begun.min(other.begun),
            ended: self.ended.max(other.ended),
            wins: self.wins.wrapping_add(other.wins),
        }
    }
}

impl Start {
    /// Makes a start for this many threads.
    pub fn new(threads: usize) -> Start {
        Start {
            threads: threads as u64,
            come: AtomicU64::new(0),
            sum: AtomicU64::new(0),
        }
    }

    // Looks until all threads have come, and LOOKS times at most.
    fn look_for_all(&self) {
        for _look in 0..LOOKS {
            if self.come.load(Ordering::SeqCst) >= self.threads {
                break;
            }
            spin_loop();
        }
    }

    // Does the arithmetic, and waits for the other threads. A thread that is alone does neither.
    fn gather(&self) {
        if self.threads > 1 {
            self.sum.fetch_add(do_steps(), Ordering::SeqCst);
            self.come.fetch_add(1, Ordering::SeqCst);
            self.look_for_all();
        }
    }

    /// Waits for the other threads, and returns when this one goes on; `None` if the clock cannot be read.
    pub fn begin<R: Clock>(&self, rt: &R) -> Option<Instant> {
        self.gather();
        Instant::now(rt).ok()
    }
}
