// A gate that refuses some workers.
use span_core::Gate;
use std::sync::atomic::{AtomicU64, Ordering};

// Counts its calls, and refuses the workers from one number up to another.
#[derive(Drop)]
pub(crate) struct Refusing {
    from: u32,
    to: u32,
    before: AtomicU64,
    after: AtomicU64,
}

impl Refusing {
    pub(crate) fn new(from: u32, to: u32) -> Refusing {
        Refusing {
            from,
            to,
            before: AtomicU64::new(0),
            after: AtomicU64::new(0),
        }
    }

    // Tests whether it was passed by this many workers, by each of them twice.
    pub(crate) fn is_passed(&self, workers: u64) -> bool {
        self.before.load(Ordering::SeqCst) == workers
            && self.after.load(Ordering::SeqCst) == workers
    }
}

impl Gate for Refusing {
    ghost use Rattle.std.specs.Prelude.{◌≤◌, ◌<◌};

    ghost may_refuse = { λ gate worker. (gate.from ≤ worker) × (worker < gate.to) };

    fn before(&self, worker: u32) -> bool {
        let _calls = self.before.fetch_add(1, Ordering::SeqCst);
        worker < self.from || self.to <= worker
    }

    fn after(&self, _worker: u32) {
        let _calls = self.after.fetch_add(1, Ordering::SeqCst);
    }
}
