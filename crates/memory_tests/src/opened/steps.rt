//! A hand's steps on the cells of a list that a word was opened on: a look, a mend, and a fill of a place that was claimed.
ghost use Rattle.std.specs.Prelude.{◌≡◌, ◌+◌, ◌<◌, ◌≤◌, ℕ, [], ◌∷◌, length, true, get_or, false, Some, IsTrue};
ghost use Rattle.cell_core.specs.Block.{block_len, cell_at};
ghost use Rattle.cell_core.specs.Member.{KnowsCells};
ghost use Rattle.cell_core.specs.Slot.{AreTied};
ghost use Rattle.claim_core.specs.Gain.{IsEntryTo, IsTiedTo};
ghost use Rattle.claim_core.specs.Hand.{IsHandOf, IsWholeHand, seen_size};
ghost use Rattle.claim_core.specs.History.{Adds, AddsEvents, fill_event, mend_event, mender_of};
ghost use Rattle.claim_core.specs.SeatSteps.{look_event};
ghost use Rattle.claim_core.specs.Ties.{Finds};
ghost use Rattle.claim_core.specs.Word.{WordView};
ghost use Rattle.claim_core.specs.declared.role.CellStage.TheVariants as stages;
ghost use Rattle.tie_core.specs.Tie.{row_of};
ghost use Rattle.table_core.specs.Table.{IsKeyOf, IsTiedBy, entry_tie};
ghost use Rattle.memory_tests.specs.Opened.{GoesOn, HasTakenSteps, IsListIn, values_of};

use crate::claim::offers::{fill_own, look_at, try_mend};
use crate::opened::list::{Values, made_by_turns, value_of};
use crate::opened::seats::{adopt, attach, find, layout, scout};
use cell_core::block::{Block, EndedEpoch, Look, Pen, Placed, Row, Tied};
use claim_core::{CellTag, Hand, Mark, RowTag, Word, laws};
use std::alloc::Global;
use std::marker::Brand;
use std::test::Fail;
use table_core::{Key, Table};

// A look at a place of the list that has a value is logged with that value, whatever others do.
fn look_at_value<'a>(
    word: &Word<Global>,
    hand: &mut Hand,
    cells: &'a Block<u64, Global, Tied>,
    tag: &CellTag,
    place: u64,
) -> Look<'a, u64>
    requires ours { IsHandOf word.now hand.old }
    requires within { place < block_len cells.now }
    requires cell { (cell_at cells.now place).tied ≡ Some tag.now.tie }
    requires tied { IsTiedTo word.now tag.now.tie }
    requires found { Finds hand.old.rows place tag.now.tie.id }
    requires opened { (place < word.now.base) × (get_or word.now.filled place false ≡ true) }
    requires seen { place < seen_size hand.old }
    ensures goes_on { GoesOn hand.old hand.new }
    ensures looked { AddsEvents hand.old.log (look_event place stages.Filled ∷ []) hand.new.log }
{
    laws::opened_values_are_found();
    let look = look_at(word, hand, cells, tag, place, place);
    // For the proof: the history that the hand has seen is legal.
    hand.laws();
    look
}

// The mender of a place fills it.
fn fill_mended(
    word: &Word<Global>,
    hand: &mut Hand,
    pen: Pen<'_, u64, Tied>,
    tag: &CellTag,
    place: u64,
    value: u64,
) -> Placed<u64>
    requires ours { IsHandOf word.now hand.old }
    requires cell { pen.cell.tied ≡ Some tag.now.tie }
    requires tied { IsTiedTo word.now tag.now.tie }
    requires found { Finds hand.old.rows place tag.now.tie.id }
    requires seen { place < seen_size hand.old }
    ensures goes_on { GoesOn hand.old hand.new }
    ensures filled { AddsEvents hand.old.log
        (fill_event (mender_of hand.old.of.limit place) place ∷ []) hand.new.log }
{
    let offer = hand.offer_fill_mended(word, tag, place);
    let (placed, offer) = pen.fill_for(value, offer);
    hand.take_back(offer);
    placed
}

// Mends a broken place of the list: it is taken for mending, and then filled by its mender.
fn mend_place(
    word: &Word<Global>,
    hand: &mut Hand,
    cells: &Block<u64, Global, Tied>,
    tag: &CellTag,
    place: u64,
    value: u64,
) -> bool
    requires ours { IsHandOf word.now hand.old }
    requires within { place < block_len cells.now }
    requires cell { (cell_at cells.now place).tied ≡ Some tag.now.tie }
    requires tied { IsTiedTo word.now tag.now.tie }
    requires found { Finds hand.old.rows place tag.now.tie.id }
    requires seen { place < seen_size hand.old }
    ensures goes_on { GoesOn hand.old hand.new }
    ensures mended { IsTrue result → Adds hand.old.log ((mend_event hand.old.of.limit place ∷ [])
        ∷ (fill_event (mender_of hand.old.of.limit place) place ∷ []) ∷ []) hand.new.log }
{
    // For the proof: a history goes on from itself.
    laws::prefixes_add_nothing();
    match try_mend(word, hand, cells, tag, place, place) {
        Ok(pen) => {
            drop(fill_mended(word, hand, pen, tag, place, value));
            true
        }
        Err(found) => {
            drop(found);
            false
        }
    }
}

// Claims the places up to a size, and fills the first of them, which the word did not begin with.
fn claim_and_fill(
    word: &Word<Global>,
    hand: &mut Hand,
    cells: &Block<u64, Global, Tied>,
    tag: &CellTag,
    place: u64,
    to: u64,
) -> bool
    requires ours { IsHandOf word.now hand.old }
    requires whole { IsWholeHand hand.old }
    requires next { seen_size hand.old ≡ place }
    requires to { (place < to) × (to ≤ word.now.limit) }
    requires fresh { hand.old.begun ≡ [] }
    requires within { place < block_len cells.now }
    requires cell { (cell_at cells.now place).tied ≡ Some tag.now.tie }
    requires tied { IsTiedTo word.now tag.now.tie }
    requires found { Finds hand.old.rows place tag.now.tie.id }
    ensures of { hand.new.of ≡ hand.old.of }
    ensures filled { IsTrue result → (index : ℕ)
        × AddsEvents hand.old.log (fill_event index place ∷ []) hand.new.log }
{
    laws::added_places_are_owned();
    laws::events_follow();
    match word.raise(hand, to) {
        Ok(_run) => {
            drop(fill_own(word, hand, cells, tag, place, place));
            true
        }
        Err(_enough) => false,
    }
}

// The tag of the cell of a place, of cells whose seats have numbers in a row.
fn tag_at(cells: &Block<u64, Global, Tied>, tag: &CellTag, place: u64) -> CellTag
    requires within { place < 32 }
    requires ties { AreTied (row_of tag.now.tie 32) cells.now.cells }
    ensures cell { (cell_at cells.now place).tied ≡ Some result.tie }
    ensures number { result.tie.id ≡ tag.now.tie.id + place }
    ensures tied { (word : WordView) → IsTiedTo word tag.now.tie → IsTiedTo word result.tie }
{
    // For the proof: how the cells are tied.
    cells.ties_laws();
    tag.further(place)
}

// Looks at the first place, which has a value, mends a broken one, whose state is in another word, and fills the first
// place past the list. The history then shows it, in this order.
fn take_steps(
    word: &Word<Global>,
    hand: &mut Hand,
    cells: &Block<u64, Global, Tied>,
    tag: &CellTag,
) -> bool
    requires ours { IsHandOf word.now hand.old }
    requires whole { IsWholeHand hand.old }
    requires size { (seen_size hand.old ≡ 20) × (word.now.base ≡ 20) × (24 ≤ word.now.limit) }
    requires fresh { hand.old.begun ≡ [] }
    requires first { get_or word.now.filled 0 false ≡ true }
    requires len { block_len cells.now ≡ 32 }
    requires ties { AreTied (row_of tag.now.tie 32) cells.now.cells }
    requires tied { IsTiedTo word.now tag.now.tie }
    requires rows { hand.old.rows ≡ record { from = 0; n = 32; seat = tag.now.tie.id } ∷ [] }
    ensures of { hand.new.of ≡ hand.old.of }
    ensures events { IsTrue result → HasTakenSteps word.now.limit hand.old.log hand.new.log }
{
    // For the proof: what two steps add to a history.
    laws::events_follow();
    laws::prefixes_add_nothing();
    let is_found = match look_at_value(word, hand, cells, &tag_at(cells, tag, 0), 0) {
        Look::Filled(value, _placed) => *value == value_of(0),
        _ => false,
    };
    let is_mended = mend_place(word, hand, cells, &tag_at(cells, tag, 17), 17, 7);
    let is_filled = claim_and_fill(word, hand, cells, &tag_at(cells, tag, 20), 20, 24);
    is_found && is_mended && is_filled
}

// Tests whether the cell has this value.
fn shows(cells: &Block<u64, Global, Tied>, place: u64, value: u64) -> bool
    requires { place < block_len cells.now }
{
    match cells.look_alone(place) {
        Look::Filled(found, _placed) => *found == value,
        _ => false,
    }
}

// Tests whether the cell has this value, by what is known of the list.
fn is_known(cells: &Block<u64, Global, Tied>, row: &Row<u64>, place: u64, value: u64) -> bool
    requires within { (place < block_len cells.now) × (place < length row.now) }
    requires known { KnowsCells row.now 0 cells.now.cells }
{
    match cells.known(place, &row.at(place)) {
        Some((found, _placed)) => *found == value,
        None => false,
    }
}

// Tests whether all values are there.
fn keeps_values(cells: &Block<u64, Global, Tied>, row: &Row<u64>) -> bool
    requires within { (block_len cells.now ≡ 32) × (length row.now ≡ 20) }
    requires known { KnowsCells row.now 0 cells.now.cells }
{
    for i in 0..10u64 {
        if !is_known(cells, row, 2 * i, value_of(2 * i)) {
            return false;
        }
    }
    is_known(cells, row, 17, 7) && shows(cells, 20, 20)
}

// Tests whether all other cells are as they were.
fn keeps_others(cells: &Block<u64, Global, Tied>) -> bool
    requires { block_len cells.now ≡ 32 }
{
    matches!(cells.look_alone(19), Look::Broken(_)) && matches!(cells.look_alone(21), Look::Empty)
}

// A look at the entry that names no place finds the block that the key is of.
fn is_scouted(word: &Word<Global>, hand: &mut Hand, table: &Table<u64, Tied>, tag: &RowTag) -> bool
    requires ours { IsHandOf word.now hand.old }
    requires layout { table.now.layout ≡ 5 }
    requires entry { IsEntryTo word.now tag.now.tie × (tag.now.from ≡ 0) × (tag.now.n ≡ 32) }
    requires tied { entry_tie table.now 0 ≡ Some tag.now.tie }
{
    match scout::<Brand>(word, hand, table, tag) {
        Some((cells, key)) => shows(cells, 17, 7) && shows(table.known(&key), 0, value_of(0)),
        None => false,
    }
}

// Finds the list's block by its key, and takes the steps.
fn is_used(
    word: &Word<Global>,
    hand: &mut Hand,
    table: &Table<u64, Tied>,
    key: &Key,
    cell: &CellTag,
    tag: &RowTag,
    row: &Row<u64>,
) -> bool
    requires ours { IsHandOf word.now hand.old }
    requires whole { IsWholeHand hand.old }
    requires size { (seen_size hand.old ≡ 20) × (word.now.base ≡ 20) × (24 ≤ word.now.limit) }
    requires fresh { (hand.old.begun ≡ []) × (hand.old.rows ≡ []) }
    requires first { get_or word.now.filled 0 false ≡ true }
    requires entry { IsEntryTo word.now tag.now.tie × (tag.now.from ≡ 0) × (tag.now.n ≡ 32) }
    requires cell { IsTiedTo word.now cell.now.tie }
    requires key { IsKeyOf table.now 0 key.now.block key.now }
    requires tied { IsTiedBy table.now 0 tag.now.tie cell.now.tie }
    requires len { (block_len key.now.block ≡ 32) × (length row.now ≡ 20) }
    requires ties { AreTied (row_of cell.now.tie 32) key.now.block.cells }
    requires known { KnowsCells row.now 0 key.now.block.cells }
    ensures of { hand.new.of ≡ hand.old.of }
    ensures events { IsTrue result → HasTakenSteps word.now.limit hand.old.log hand.new.log }
{
    laws::events_follow();
    let cells = find::<Brand>(word, hand, table, key, cell, tag, 0);
    take_steps(word, hand, cells, cell) && keeps_values(cells, row) && keeps_others(cells)
}

// Opens a word on the list, and puts its block into a table.
fn is_opened(
    alloc: Global,
    cells: Block<u64, Global, Tied>,
    row: &Row<u64>,
    ended: &EndedEpoch,
) -> Result<bool, Fail>
    requires list { IsListIn cells row.now ended.now }
    requires len { (block_len cells ≡ 32) × (length row.now ≡ 20) }
    requires first { get_or (values_of row.now) 0 false ≡ true }
{
    let mark = Mark::of::<Row<u64>, Values>(row);
    let (word, mut hand) = Word::open_marked(alloc, 64, 20, mark)?;
    let mut cells = Box::new(alloc, cells)?;
    let (cell, seat, tag) = adopt(&word, &mut hand, &mut cells, row, ended);
    let mut table = Table::new_for(alloc, layout());
    let key = attach(&mut table, cells, seat, &cell);
    let is_right = is_used(&word, &mut hand, &table, &key, &cell, &tag, row);
    Ok(is_right && is_scouted(&word, &mut hand, &table, &tag))
}

#[test]
fn a_list_is_opened_and_used(rt: HostRuntime) -> Result<(), Fail> {
    let (cells, row, ended) = made_by_turns(rt.alloc(), 32, 20)?;
    assert!(rt; is_opened(rt.alloc(), cells, &row, &ended)?);
    Ok(())
}
