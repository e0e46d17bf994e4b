//! What each worker passes before and after its work.
ghost use Rattle.std.specs.Prelude.{◌≡◌, ℕ, ◌<◌, ◌≤◌, ◌⊎◌, ⊤, IsTrue};
ghost use Rattle.std.specs.Bool.{OnTrue, OnFalse};

use std::marker::Model;
use std::sync::atomic::{AtomicBool, Ordering};

/// A gate that each worker passes before it starts and after it finishes.
pub trait Gate {
    /// Whether this gate may refuse this worker.
    ghost may_refuse: { Self → ℕ → Type 0 };

    /// What is known of a worker that this gate let through. Work asks for it, so that none is done without
    /// the gate.
    ghost lets_through: { Self → ℕ → Type 0 } = { λ _ _. ⊤ };

    /// Called by each worker before its first piece of work. Returns whether the worker may work.
    fn before(&self, worker: u32) -> bool
        ensures refused { OnFalse result (may_refuse self.now worker) }
        ensures through { OnTrue result (lets_through self.now worker) };

    /// Called by each worker after its last piece of work, or after its refusal.
    fn after(&self, worker: u32);
}

/// The gate that lets every worker through.
#[derive(Clone, Copy, Debug)]
pub struct Free;

impl Gate for Free {
    ghost may_refuse = { λ _ _. ⊥ };

    fn before(&self, _worker: u32) -> bool
        ensures { IsTrue result }
    {
        true
    }

    fn after(&self, _worker: u32) {}
}

/// The gate that lets workers 0 and 1 through only once both have come, so that they run at the same time.
#[derive(Drop)]
pub struct PairGate {
    turns: u64,
    first: AtomicBool,
    second: AtomicBool,
}

impl Model for PairGate {
    ghost use Rattle.span_core.specs.Gate.{PairView};

    ghost Value = { PairView };

    ghost view = { λ g. record { turns = g.turns } };
}

impl PairGate {
    /// Makes a gate whose workers 0 and 1 each look at most `turns` times whether the other has come.
    pub fn new(turns: u64) -> PairGate
        ensures { result.turns ≡ turns }
    {
        PairGate {
            turns,
            first: AtomicBool::new(false),
            second: AtomicBool::new(false),
        }
    }

    // Tests whether the other one of the pair came, looked at as often as the gate says.
    fn waits_for(&self, other: &AtomicBool) -> bool
        ensures { IsTrue result → 0 < self.now.turns }
    {
        for _ in 0..self.turns {
            if other.load(Ordering::SeqCst) {
                return true;
            }
        }
        false
    }
}

impl Gate for PairGate {
    ghost may_refuse = { λ _ worker. worker < 2 };

    ghost lets_through = { λ gate worker. (2 ≤ worker) ⊎ (0 < gate.turns) };

    fn before(&self, worker: u32) -> bool
        ensures others { OnFalse result (worker < 2) }
        // A gate that looks no times refuses both.
        ensures looked { IsTrue result → (2 ≤ worker) ⊎ (0 < self.now.turns) }
    {
        let (mine, other) = match worker {
            0 => (&self.first, &self.second),
            1 => (&self.second, &self.first),
            _ => return true,
        };
        mine.store(true, Ordering::SeqCst);
        self.waits_for(other)
    }

    fn after(&self, _worker: u32) {}
}
