//! The seats of a list's cells and of its block, and how a hand finds the cells by the table.
ghost use Rattle.std.specs.Prelude.{◌≡◌, ◌+◌, ◌<◌, ◌≤◌, length, Some, None, IfSome};
ghost use Rattle.cell_core.specs.Block.{block_len};
ghost use Rattle.cell_core.specs.Member.{KnowsCells};
ghost use Rattle.cell_core.specs.Slot.{AreTied};
ghost use Rattle.claim_core.specs.Gain.{EndsAt, Gains, IsEntryTo, IsTiedTo, a_row};
ghost use Rattle.claim_core.specs.Hand.{IsHandOf, IsWholeHand, seen_size};
ghost use Rattle.table_core.specs.Table.{IsKeyIn, IsKeyOf, IsTiedBy, entry_tie};
ghost use Rattle.tie_core.specs.Tie.{row_of};
ghost use Rattle.memory_tests.specs.Opened.{IsListIn, values_of};

use cell_core::block::{Block, EndedEpoch, Row, Tied};
use claim_core::{CellTag, EntryAt, Hand, RowTag, Word, laws};
use seg_core::Layout;
use std::alloc::Global;
use table_core::{Key, Table};
use tie_core::PlacedSeat;

// Gives each cell of a list its seat, and makes that of the block. The word was opened with the list.
pub(super) fn adopt<T>(
    word: &Word<Global>,
    hand: &mut Hand,
    cells: &mut Block<T, Global, Tied>,
    row: &Row<T>,
    ended: &EndedEpoch,
) -> (CellTag, PlacedSeat, RowTag)
    requires list { IsListIn cells.old row.now ended.now }
    requires word { (word.now.base ≡ length row.now) × (word.now.filled ≡ values_of row.now) }
    requires ours { IsHandOf word.now hand.old }
    requires whole { IsWholeHand hand.old }
    requires unlaid { hand.old.laid ≤ 0 }
    ensures ties { AreTied (row_of result.0.tie (block_len cells.old)) cells.new.cells }
    ensures len { block_len cells.new ≡ block_len cells.old }
    ensures known { KnowsCells row.now 0 cells.new.cells }
    ensures tied { IsTiedTo word.now result.0.tie }
    ensures entry { IsEntryTo word.now result.2.tie × (result.1.tie ≡ result.2.tie)
        × (result.2.from ≡ 0) × (result.2.n ≡ block_len cells.old) }
    ensures number { result.1.number ≡ result.0.tie.id + block_len cells.old }
    ensures ends { EndsAt (0 + block_len cells.old) hand.old hand.new }
{
    let (seats, cell, seat, tag) = word.adopt(hand, 0, cells.len());
    // For the proof: at which stage each seat is, and that each cell gets one.
    laws::first_stages_go_in_order();
    cells.ties_laws();
    cells.tie_now(seats, row, 0, ended);
    (cell, seat, tag)
}

// The layout whose first segment has 32 places.
pub(super) fn layout() -> Layout
    ensures { result ≡ 5 }
{
    match Layout::new(5) {
        Some(layout) => layout,
        None => unreachable!(),
    }
}

// Sets the first entry of a table to the block, which it has 32 places for.
pub(super) fn attach<T: Drop>(
    table: &mut Table<T, Tied>,
    cells: Box<Block<T, Global, Tied>>,
    seat: PlacedSeat,
    cell: &CellTag,
) -> Key
    requires layout { table.old.layout ≡ 5 }
    requires len { block_len cells.value ≡ 32 }
    requires ties { AreTied (row_of cell.now.tie 32) cells.value.cells }
    requires number { seat.number ≡ cell.now.tie.id + 32 }
    requires none_lent { table.old.lent ≡ None }
    ensures tied { IsTiedBy table.new 0 seat.tie cell.now.tie }
    ensures key { IsKeyOf table.new 0 cells.value result }
    ensures layout { table.new.layout ≡ table.old.layout }
{
    cells.ties_laws();
    table.attach_placed(0, cells, seat, cell)
}

// Finds the block by its key. The hand then knows where the places stand.
pub(super) fn find<'a, R: EntryAt>(
    word: &Word<Global>,
    hand: &mut Hand,
    table: &'a Table<u64, Tied>,
    key: &Key,
    cell: &CellTag,
    tag: &RowTag,
    place: u64,
) -> &'a Block<u64, Global, Tied>
    requires ours { IsHandOf word.now hand.old }
    requires entry { IsEntryTo word.now tag.now.tie × (tag.now.from ≡ 0) × (tag.now.n ≡ 32) }
    requires places { (R.from ≡ 0) × (R.n ≡ 32) }
    requires seen { (place < seen_size hand.old) × (place < 32) }
    requires key { IsKeyIn table.now key.now × (key.now.segment ≡ 0) }
    requires tied { IsTiedBy table.now 0 tag.now.tie cell.now.tie }
    requires len { block_len key.now.block ≡ 32 }
    requires ties { AreTied (row_of cell.now.tie 32) key.now.block.cells }
    ensures block { result.now ≡ key.now.block }
    ensures row { Gains (a_row (record { from = 0; n = 32; seat = cell.now.tie.id })) hand.old hand.new }
{
    let visit = hand.visit_look::<R, Global>(word, tag, place);
    let (cells, visit) = table.known_for(key, visit);
    // For the proof: the seats of the cells have numbers in a row, and that of the block is next.
    cells.ties_laws();
    hand.take_back_visit(visit);
    cells
}

// Finds the block and its key by a look that names no place.
pub(super) fn scout<'a, R: EntryAt>(
    word: &Word<Global>,
    hand: &mut Hand,
    table: &'a Table<u64, Tied>,
    tag: &RowTag,
) -> Option<(&'a Block<u64, Global, Tied>, Key)>
    requires ours { IsHandOf word.now hand.old }
    requires layout { table.now.layout ≡ 5 }
    requires entry { IsEntryTo word.now tag.now.tie × (tag.now.from ≡ 0) × (tag.now.n ≡ 32) }
    requires places { (R.from ≡ 0) × (R.n ≡ 32) }
    requires tied { entry_tie table.now 0 ≡ Some tag.now.tie }
    ensures key { IfSome result (λ (block, key). IsKeyOf table.now 0 block.now key) }
    ensures len { IfSome result (λ (block, _). block_len block.now ≡ 32) }
{
    let visit = hand.visit_scout::<R, Global>(word, tag);
    let (found, visit) = table.scout_key_for(0, visit);
    hand.take_back_visit(visit);
    found
}
