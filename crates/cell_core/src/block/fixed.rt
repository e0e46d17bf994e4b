// How an owner of a tied block learns how far its cells are, and unties them: both give up seats, and neither takes a
// step.
ghost use Rattle.std.specs.Prelude.{◌≡◌, ℕ, ◌<◌, Some, None, length};
ghost use Rattle.cell_core.specs.Block.{block_len, cell_at, FixesCell, KeepsOtherCells};
ghost use Rattle.cell_core.specs.Fixed.{FixesOne};
ghost use Rattle.cell_core.specs.Slot.{ArePlain, cell_in};
ghost use Rattle.cell_core.specs.Member.{IsUntied, KnowsCells};
ghost use Rattle.tie_core.specs.Tie.{Stage, looks};

use crate::block::steps::Laid;
use crate::block::{Block, Row, Tied};
use std::alloc::Allocator;
use tie_core::{Book, Offer};

impl<T, A: Allocator> Laid<T, A> {
    // Runs the offer's update at the stage of the cell at an index, whose seat is given up. It is no instruction.
    pub(crate) fn fix_for<'b, X, K: Book<X>>(
        &mut self,
        index: u64,
        offer: Offer<'b, X, K>,
    ) -> Offer<'b, X, K>
        requires { (index < length self.old.cells)
            × ((cell_in self.old.cells index).tied ≡ Some offer.tie) × (offer.step ≡ looks)
            × (offer.made ≡ None) }
        ensures { (self.new.heap ≡ self.old.heap) × (self.new.rows ≡ self.old.rows)
            × (result.tie ≡ offer.entry.tie) × (result.about ≡ offer.entry.about)
            × ((s : Stage) × FixesOne self.old.cells index self.new.cells s
            × (result.made ≡ Some (s, s))) }
    {
        offer
    }
}

impl<T, A: Allocator> Block<T, A, Tied> {
    /// Learns how far a tied cell is, while nobody else has the block: the offer's update runs as in a look, and the
    /// cell's seat is given up. The cell's tie is then fixed at its stage. The call does nothing.
    #[tactic(auto, using(crate::proofs::PlainCells::tied_kind))]
    pub fn fix_for<'b, X, K: Book<X>>(
        &mut self,
        offset: u64,
        offer: Offer<'b, X, K>,
    ) -> Offer<'b, X, K>
        requires within { offset < block_len self.old }
        requires tie { (cell_at self.old offset).tied ≡ Some offer.tie }
        requires step { (offer.step ≡ looks) × (offer.made ≡ None) }
        ensures fixed { (s : Stage) × FixesCell self.old self.new offset s
            × (result.made ≡ Some (s, s)) }
        ensures offer { (result.tie ≡ offer.entry.tie) × (result.about ≡ offer.entry.about) }
        ensures len { block_len self.new ≡ block_len self.old }
        ensures others { KeepsOtherCells self.old self.new offset }
    {
        self.laid.fix_for(offset, offer)
    }

    /// Unties all cells like `untie`, of a block that stays one of tied cells: each cell's seat is given up. What is
    /// known of the cells by a row, whose member at `from` is the first cell, stays known; tokens of these cells stay
    /// good. The call does nothing.
    #[tactic(auto, using(crate::proofs::Untied::are_plain, crate::proofs::Untied::untied_kind, crate::proofs::Untied::untied_length, crate::proofs::Untied::untied_at))]
    pub fn untie_now(&mut self, row: &Row<T>, from: u64)
        requires { KnowsCells row.now from self.old.cells }
        ensures len { block_len self.new ≡ block_len self.old }
        ensures known { KnowsCells row.now from self.new.cells }
        ensures plain { ArePlain self.new.cells }
        ensures each { (i : ℕ) → i < block_len self.old
            → IsUntied (cell_at self.old i) (cell_at self.new i) }
    {
        self.laid.untie(&row.row, from);
    }
}
