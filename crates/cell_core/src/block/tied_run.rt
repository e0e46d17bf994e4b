// Runs of tied cells: each call has one atomic step, which runs an update of its caller for each cell, in order.
ghost use Rattle.std.specs.Prelude.{◌≡◌, ◌<◌, ◌≤◌, ◌+◌, ◌%◌, Some, None, length, replicate};
ghost use Rattle.cell_core.specs.Block.{block_len};
ghost use Rattle.cell_core.specs.Laid.{word_cells};
ghost use Rattle.cell_core.specs.Run.{AreTiedTo, IsRunPenAt, cells_from, members_of};
ghost use Rattle.tie_core.specs.Tie.{Idle, Begun, Filled, begins, fills};

use crate::block::fields::{in_fields, word_of};
use crate::block::{Block, First, Row, RunPen, Tied};
use crate::slot::steps::FILLED;
use std::alloc::Allocator;
use std::marker::PhantomData;
use tie_core::{RunBook, RunOffer};

impl<T, A: Allocator> Block<T, A, Tied> {
    /// Begins `n` tied cells from an offset on, whose states are in one word. The offer's updates show that nobody has
    /// begun any of the cells, so this never fails. They run in a load of the call's own, which reads no state. The pen
    /// is the right to fill the cells.
    #[tactic(auto, using(crate::proofs::PlainCells::tied_run_kind, crate::proofs::RunParts::from_length))]
    #[inline(always)]
    pub fn begin_run_for<'a, 'b, X, K: RunBook<X>>(
        &'a self,
        offset: u64,
        n: u64,
        offer: RunOffer<'b, X, K>,
    ) -> (RunPen<'a, T, First>, RunOffer<'b, X, K>)
        requires within { offset + n ≤ block_len self.now }
        requires some { 0 < n }
        requires word { offset % word_cells + n ≤ word_cells }
        requires ties { AreTiedTo offer.ties (cells_from n offset self.now.cells) }
        requires step { (offer.step ≡ begins) × (offer.made ≡ None) }
        ensures pen { IsRunPenAt self.now offset n result.0 }
        ensures made { result.1.made ≡ Some (replicate n (Idle, Begun)) }
        ensures offer { (result.1.ties ≡ offer.entry.ties) × (result.1.about ≡ offer.entry.about) }
    {
        let cells = self
            .laid
            .cells(self.link, word_of(offset), offset as usize, n as usize);
        let (run, offer) = cells.begin_for(offer);
        let pen = RunPen {
            offset,
            n,
            written: 0,
            run,
            marker: PhantomData,
        };
        (pen, offer)
    }
}

impl<'a, T> RunPen<'a, T, First> {
    /// Publishes the values of all cells by one step, and returns what is then known of the cells, in order. The
    /// offer's updates run in that step, one for each cell, in order.
    #[inline(always)]
    pub fn publish_for<'b, X, K: RunBook<X>>(
        self,
        offer: RunOffer<'b, X, K>,
    ) -> (Row<T>, RunOffer<'b, X, K>)
        requires written { length self.values ≡ length self.cells }
        requires ties { AreTiedTo offer.ties self.cells }
        requires step { (offer.step ≡ fills) × (offer.made ≡ None) }
        ensures row { result.0 ≡ members_of self.entry.cells self.entry.values }
        ensures made { result.1.made
            ≡ Some (replicate (length self.entry.cells) (Begun, Filled)) }
        ensures offer { (result.1.ties ≡ offer.entry.ties) × (result.1.about ≡ offer.entry.about) }
    {
        let RunPen {
            offset,
            n,
            written: _,
            run,
            marker: _,
        } = self;
        let (row, offer) = run.publish_for(in_fields(FILLED, n, offset), offer);
        (Row { row }, offer)
    }
}
