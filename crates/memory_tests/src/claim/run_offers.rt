// A hand lends its seat to steps on runs of tied cells, and takes it back: what its caller then proves, by the public
// clauses of the crates alone.
ghost use Rattle.std.specs.Prelude.{◌≡◌, ◌+◌, ◌%◌, ◌<◌, ◌≤◌, length};
ghost use Rattle.cell_core.specs.Block.{block_len};
ghost use Rattle.cell_core.specs.Laid.{word_cells};
ghost use Rattle.cell_core.specs.Run.{AreTiedTo, IsRunPenAt, cells_from};
ghost use Rattle.tie_core.specs.Run.{run_of};
ghost use Rattle.claim_core.specs.Hand.{IsHandOf, seen_size};
ghost use Rattle.claim_core.specs.Gain.{IsTiedTo, KnowsNoneBegun, OwnsPlaces};
ghost use Rattle.claim_core.specs.Ties.{FindsRun};
ghost use Rattle.memory_tests.specs.Offers.{HasBegunRun, HasFilledRun};

use cell_core::block::{Block, First, Row, RunPen, Tied};
use claim_core::{CellTag, Hand, Word, laws};
use std::alloc::{Allocator, Global};

// A hand that owns places next to each other, and knows none of them begun, may begin them all in one step.
fn begin_own_run<'a, A: Allocator>(
    word: &Word<A>,
    hand: &mut Hand,
    cells: &'a Block<u64, Global, Tied>,
    tag: &CellTag,
    offset: u64,
    place: u64,
    n: u64,
) -> RunPen<'a, u64, First>
    requires ours { IsHandOf word.now hand.old }
    requires within { offset + n ≤ block_len cells.now }
    requires some { 0 < n }
    requires word { offset % word_cells + n ≤ word_cells }
    requires cells { AreTiedTo (run_of tag.now.tie n) (cells_from n offset cells.now.cells) }
    requires tied { IsTiedTo word.now tag.now.tie }
    requires found { FindsRun hand.old.rows place n tag.now.tie.id }
    requires own { OwnsPlaces hand.old place n }
    requires unknown { KnowsNoneBegun hand.old place n }
    ensures pen { IsRunPenAt cells.now offset n result }
    ensures begun { HasBegunRun place n hand.old hand.new }
{
    let offer = hand.offer_begin_run(word, tag, place, n);
    let (pen, offer) = cells.begin_run_for(offset, n, offer);
    hand.take_back_run(offer);
    pen
}

// Once each has its value, it may publish them all by one step. Its history then has the fill of each, in order.
fn publish_own_run<'a, A: Allocator>(
    word: &Word<A>,
    hand: &mut Hand,
    pen: RunPen<'a, u64, First>,
    tag: &CellTag,
    place: u64,
    n: u64,
) -> Row<u64>
    requires ours { IsHandOf word.now hand.old }
    requires some { 0 < n }
    requires long { length pen.cells ≡ n }
    requires written { length pen.values ≡ n }
    requires cells { AreTiedTo (run_of tag.now.tie n) pen.cells }
    requires tied { IsTiedTo word.now tag.now.tie }
    requires found { FindsRun hand.old.rows place n tag.now.tie.id }
    requires claimed { (hand.old.of.base ≤ place) × (place + n ≤ seen_size hand.old) }
    ensures filled { HasFilledRun place n hand.old hand.new }
{
    laws::runs_go_in_order();
    let offer = hand.offer_fill_run(word, tag, place, n);
    let (row, offer) = pen.publish_for(offer);
    hand.take_back_run(offer);
    row
}
