// The seats that the cells of a block are tied to.
ghost use Rattle.std.specs.Prelude.{◌≡◌, List, Option};
ghost use Rattle.std.specs.Coded.{coded_option};
ghost use base.Stored.{coded_list};
ghost use Rattle.tie_core.specs.Tie.{Tie, tie_coded, Stage, stage_coded, seats, seats_at, idle_ties};

use std::marker::{Model, PhantomData};

/// The ties of cells in order, with the seat of each, which shows that nobody has begun the cell. It has no bytes. A
/// caller makes it in a proof by hand, so `marker` is public.
pub struct Seats {
    pub marker: PhantomData<()>,
    pub ghost ties: { List (Option Tie) } by { coded_list (coded_option tie_coded) },
}

impl Model for Seats {
    ghost also_owns = { λ s. seats s.ties };
}

impl Seats {
    /// Makes the ties of `n` cells of an owner's, which nobody has begun. They are of no table, and have no seats.
    pub fn idle(n: u64) -> Seats
        ensures { result.ties ≡ idle_ties n }
    {
        // In the proof, each of these ties says only that its cell is idle.
        Seats {
            marker: PhantomData,
        }
    }
}

impl Drop for Seats {
    fn drop(self) {
        let Self { marker: _ } = self;
    }
}

/// The ties of cells in order, with the seat of each, which shows how far the cell is. It has no bytes.
pub struct StagedSeats {
    pub marker: PhantomData<()>,
    pub ghost ties: { List (Option Tie) } by { coded_list (coded_option tie_coded) },
    pub ghost stages: { List Stage } by { coded_list stage_coded },
}

impl Model for StagedSeats {
    ghost also_owns = { λ s. seats_at s.ties s.stages };
}

impl Drop for StagedSeats {
    fn drop(self) {
        let Self { marker: _ } = self;
    }
}
