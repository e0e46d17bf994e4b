// An owner's block of cells that have no seats, and how they get them once the block is shared. Neither call takes a
// step.
ghost use Rattle.std.specs.Prelude.{◌≡◌, ◌<◌, ℕ, Some, IfOk, length};
ghost use Rattle.cell_core.specs.Block.{block_len, cell_at};
ghost use Rattle.cell_core.specs.Fixed.{AreAtStages, AreTies, stage_in, untied_cell};
ghost use Rattle.cell_core.specs.Member.{AreBrokenMembers, KnowsCells};
ghost use Rattle.cell_core.specs.Slot.{AreTied};
ghost use Rattle.tie_core.specs.Tie.{Idle};

use crate::block::{Block, EndedEpoch, Row, Tied};
use std::alloc::{AllocError, Allocator};
use tie_core::{Seats, StagedSeats};

impl<T, A: Allocator> Block<T, A, Tied> {
    /// Makes a block of `n` empty cells for an owner. Each is fixed at the stage of a cell that nobody has begun: it
    /// has no seat until `tie_now` gives it one. It requests memory like `new`.
    #[tactic(auto, using(crate::proofs::NewTies::idle_length, crate::proofs::NewTies::idle_at))]
    pub fn new_idle(alloc: A, n: u64) -> Result<Block<T, A, Tied>, AllocError>
        ensures len { IfOk result (λ block. block_len block ≡ n) }
        ensures each { IfOk result (λ block. (i : ℕ) → i < n
            → stage_in (cell_at block i) ≡ Some Idle) }
    {
        Block::new_for(alloc, n, Seats::idle(n))
    }

    /// Gives each cell of a block that nobody shares its seat, in order. Each cell is fixed at the stage that its seat
    /// shows, so it has no other seat. A cell that is broken was broken by an owner whose epoch has ended, as the row
    /// knows, whose member at `from` is the first cell. What the row knows of the cells stays known, and their tokens
    /// stay good. The call does nothing.
    #[tactic(auto, using(crate::proofs::NewTies::new_ties))]
    pub fn tie_now(&mut self, seats: StagedSeats, row: &Row<T>, from: u64, ended: &EndedEpoch)
        requires ties { (length seats.ties ≡ block_len self.old) × AreTies seats.ties }
        requires stages { length seats.stages ≡ block_len self.old }
        requires fixed { AreAtStages seats.stages self.old.cells }
        requires known { KnowsCells row.now from self.old.cells }
        requires broken { AreBrokenMembers seats.stages row.now from ended.now }
        ensures ties { AreTied seats.ties self.new.cells }
        ensures len { block_len self.new ≡ block_len self.old }
        ensures names { (i : ℕ) → untied_cell (cell_at self.new i) ≡ untied_cell (cell_at self.old i) }
        ensures known { KnowsCells row.now from self.new.cells }
    {
        // For the proof: the contract alone speaks of what the row knows.
        let _row = row;
        let _from = from;
        drop(self.laid.retie(seats, &ended.ended));
    }
}
