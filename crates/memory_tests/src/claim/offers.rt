// A hand lends its seat to steps on tied cells, and takes it back: what its caller then proves, by the public
// clauses of the crates alone.
ghost use Rattle.std.specs.Prelude.{◌≡◌, ◌<◌, ◌≤◌, [], ◌∷◌, Some, IfOk};
ghost use Rattle.std.specs.List.{Contains};
ghost use Rattle.cell_core.specs.Block.{block_len, cell_at, IsPenAt};
ghost use Rattle.claim_core.specs.Hand.{IsHandOf, IsWholeHand, OwnsPlace, seen_size};
ghost use Rattle.claim_core.specs.Gain.{IsEntryTo, IsTiedTo};
ghost use Rattle.claim_core.specs.Plays.{block_view};
ghost use Rattle.claim_core.specs.Ties.{Finds};
ghost use Rattle.memory_tests.specs.Offers.{HasFilled, HasLooked, HasTried};
ghost use Rattle.memory_tests.specs.Opened.{GoesOn};

use atomic_table::Badge;
use cell_core::block::{Block, Found, Look, Pen, Placed, Tied};
use claim_core::{BlockSeat, CellTag, EntryAt, Hand, RowTag, Word, laws};
use std::alloc::{Allocator, Global};
use std::marker::Brand;
use std::test::Fail;

// A look at a place that the hand has seen is logged with what the cell shows.
pub(crate) fn look_at<'a, A: Allocator>(
    word: &Word<A>,
    hand: &mut Hand,
    cells: &'a Block<u64, Global, Tied>,
    tag: &CellTag,
    offset: u64,
    place: u64,
) -> Look<'a, u64>
    requires ours { IsHandOf word.now hand.old }
    requires within { offset < block_len cells.now }
    requires cell { (cell_at cells.now offset).tied ≡ Some tag.now.tie }
    requires tied { IsTiedTo word.now tag.now.tie }
    requires found { Finds hand.old.rows place tag.now.tie.id }
    requires seen { place < seen_size hand.old }
    ensures looked { HasLooked place hand.old hand.new }
    ensures goes_on { GoesOn hand.old hand.new }
{
    let offer = hand.offer_look(word, tag, place);
    let (look, offer) = cells.look_for(offset, offer);
    hand.take_back(offer);
    look
}

// A hand that owns a place, and does not know it begun, may begin and fill it. Its history then has the fill.
pub(crate) fn fill_own<A: Allocator>(
    word: &Word<A>,
    hand: &mut Hand,
    cells: &Block<u64, Global, Tied>,
    tag: &CellTag,
    offset: u64,
    place: u64,
) -> Placed<u64>
    requires ours { IsHandOf word.now hand.old }
    requires within { offset < block_len cells.now }
    requires cell { (cell_at cells.now offset).tied ≡ Some tag.now.tie }
    requires tied { IsTiedTo word.now tag.now.tie }
    requires found { Finds hand.old.rows place tag.now.tie.id }
    requires own { OwnsPlace hand.old place }
    requires unknown { Contains hand.old.begun place → ⊥ }
    ensures of { hand.new.of ≡ hand.old.of }
    ensures filled { HasFilled place hand.old hand.new }
{
    laws::runs_are_apart();
    laws::events_follow();
    let offer = hand.offer_begin(word, tag, place);
    let (pen, offer) = cells.begin_for(offset, offer);
    hand.take_back(offer);
    let offer = hand.offer_fill(word, tag, place);
    let (placed, offer) = pen.fill_for(place, offer);
    hand.take_back(offer);
    placed
}

// A try to mend a place that the hand has seen is logged as the mend, or as a look at what the cell shows.
pub(crate) fn try_mend<'a, A: Allocator>(
    word: &Word<A>,
    hand: &mut Hand,
    cells: &'a Block<u64, Global, Tied>,
    tag: &CellTag,
    offset: u64,
    place: u64,
) -> Result<Pen<'a, u64, Tied>, Found<u64>>
    requires ours { IsHandOf word.now hand.old }
    requires within { offset < block_len cells.now }
    requires cell { (cell_at cells.now offset).tied ≡ Some tag.now.tie }
    requires tied { IsTiedTo word.now tag.now.tie }
    requires found { Finds hand.old.rows place tag.now.tie.id }
    requires seen { place < seen_size hand.old }
    ensures pen { IfOk result (IsPenAt cells.now offset) }
    ensures tried { HasTried place hand.old hand.new result }
    ensures goes_on { GoesOn hand.old hand.new }
{
    let offer = hand.offer_mend(word, tag, place);
    let (taken, offer) = cells.mend_for(offset, offer);
    hand.take_back(offer);
    taken
}

// A hand lends its seat to the exchange that sets an entry to a block. Both seats are lost with the visit, and
// the hand still says what it has seen.
fn lend_to_exchange<R: EntryAt, A: Allocator>(
    word: &Word<A>,
    hand: &mut Hand,
    tag: &RowTag,
    cell: &CellTag,
    block: &mut BlockSeat,
) -> u64
    requires ours { IsHandOf word.now hand.old }
    requires tied { IsEntryTo word.now tag.now.tie }
    requires places { (R.from ≡ tag.now.from) × (R.n ≡ tag.now.n) × (R.first ≡ cell.now.tie.id) }
    requires block { (block.old.table_id ≡ word.now.table)
        × (block.old.views ≡ block_view R.first R.n ∷ []) }
    ensures seen { result ≡ seen_size hand.old }
{
    // Only the contract speaks of the cell.
    let _ = cell;
    let visit = hand.visit_publish::<R, A>(word, tag, block);
    drop(visit);
    hand.seen()
}

// A whole hand makes an entry for two places and lays a block of two cells for it, and lends its seat.
fn lend_whole<A: Allocator>(word: &Word<A>, hand: &mut Hand) -> u64
    requires ours { IsHandOf word.now hand.old }
    requires whole { IsWholeHand hand.old }
    requires unlaid { hand.old.laid ≤ 0 }
    requires start { word.now.base ≡ 0 }
{
    let (own, tag) = word.enter(hand, 0, 2);
    own.lose();
    let mut block = Badge::blank();
    let (seats, cell) = word.lay(&mut block, 2);
    drop(seats);
    lend_to_exchange::<Brand, A>(word, hand, &tag, &cell, &mut block)
}

#[test]
fn a_hand_lends_its_seat_to_a_visit(rt: HostRuntime) -> Result<(), Fail> {
    let (word, mut hand) = Word::open(rt.alloc(), 8, 0)?;
    assert!(rt; lend_whole(&word, &mut hand) == 0);
    Ok(())
}
