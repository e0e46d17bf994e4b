//! A segment table whose entries are tied: blocks are installed and found by visits, and cells by what a visit tells.
ghost use Rattle.std.specs.Prelude.{◌≡◌, ◌+◌, ◌<◌, ℕ, [], ◌∷◌, Some, None, IfSome};
ghost use Rattle.cell_core.specs.Block.{block_len, cell_at};
ghost use Rattle.cell_core.specs.Mould.{last_seat};
ghost use Rattle.cell_core.specs.Slot.{AreTied};
ghost use Rattle.seg_core.specs.Segment.{segment_count};
ghost use Rattle.table_core.specs.Table.{IsBlockOf, IsKeyIn, IsLengthOf, IsTiedBy};
ghost use Rattle.tie_core.specs.Tie.{row_of};
ghost use Rattle.tie_core.specs.Desk.{IsTieOf};
ghost use Rattle.tie_core.specs.Visit.{IsEntryOf};

use crate::is_some;
use crate::ties::{Telling, is_found_empty};
use atomic_table::{Badge, Shared, Table};
use cell_core::block::{Block, Tied};
use seg_core::Layout;
use std::alloc::Global;
use std::test::Fail;
use table_core::{Key, Table as Segments};
use tie_core::{Desk, EntryTag, Tag};

// Looks for the block of an entry. The look tells the caller's seat what it found: nothing, or the number of the
// block's seat. By that number the caller knows the seat of each cell.
fn find_cell<'a>(
    table: &Shared<u8, u64, (), Telling>,
    desk: &Desk<u8, u64, (), Telling>,
    badge: &mut Badge<u64>,
    segments: &'a Segments<u64, Tied>,
    segment: u32,
    tag: &EntryTag<u64, Telling>,
    cells: &Tag<u64, Telling>,
    offset: u64,
) -> Option<(&'a Block<u64, Global, Tied>, Tag<u64, Telling>)>
    requires within { segment < segment_count segments.now.layout }
    requires offset { (n : ℕ) → IsLengthOf segments.now.layout segment n → offset < n }
    requires desk { desk.now.table_id ≡ table.now.table_id }
    requires seat { (badge.old.table_id ≡ table.now.table_id)
        × ((v : ℕ) × (badge.old.views ≡ v ∷ [])) }
    requires entry { IsEntryOf table.now.table_id desk.now.floor tag.now.tie }
    requires cells { IsTieOf table.now.table_id desk.now.floor cells.now.tie }
    requires tied { IsTiedBy segments.now segment tag.now.tie cells.now.tie }
    ensures seat { (badge.new.table_id ≡ badge.old.table_id) × (badge.new.id ≡ badge.old.id) }
    ensures back { (v : ℕ) × (badge.new.views ≡ v ∷ []) }
    ensures none { result ≡ None → badge.new.views ≡ 0 ∷ [] }
    ensures within { IfSome result (λ (block, _). offset < block_len block.now) }
    ensures tie { IfSome result (λ (block, cell). ((cell_at block.now offset).tied ≡ Some cell.tie)
        × IsTieOf table.now.table_id desk.now.floor cell.tie) }
    ensures number { IfSome result (λ (block, cell). (k : ℕ) × (badge.new.views ≡ (k + 1) ∷ [])
        × (cell.tie.id + block_len block.now ≡ k + offset)) }
{
    let visit = Desk::visit::<Telling>(table, desk, badge, tag, 0);
    let (found, visit) = segments.scout_for(segment, visit);
    visit.back(badge);
    match found {
        Some(block) => {
            // For the proof: the ties of a row of cells follow from the block's mould.
            block.ties_laws();
            Some((block, cells.numbered(block).further(offset)))
        }
        None => None,
    }
}

// Sets an entry to a block that was laid for it, unless another came first. `last` has the block's seat.
fn install(
    table: &Shared<u8, u64, (), Telling>,
    desk: &Desk<u8, u64, (), Telling>,
    badge: &mut Badge<u64>,
    last: &mut Badge<u64>,
    segments: &Segments<u64, Tied>,
    segment: u32,
    tag: &EntryTag<u64, Telling>,
    cells: &Tag<u64, Telling>,
    block: Box<Block<u64, Global, Tied>>,
) -> Key
    requires within { segment < segment_count segments.now.layout }
    requires desk { desk.now.table_id ≡ table.now.table_id }
    requires seat { (badge.old.table_id ≡ table.now.table_id)
        × ((v : ℕ) × (badge.old.views ≡ v ∷ [])) }
    requires last { (last.old.table_id ≡ table.now.table_id)
        × ((y : ℕ) × (last.old.views ≡ y ∷ [])) }
    requires entry { IsEntryOf table.now.table_id desk.now.floor tag.now.tie }
    requires tied { IsTiedBy segments.now segment tag.now.tie cells.now.tie }
    requires length { IsBlockOf segments.now.layout segment block.value }
    requires row { AreTied (row_of cells.now.tie (block_len block.value)) block.value.cells }
    requires number { last.old.id ≡ last_seat block.value.cells }
    ensures seat { (badge.new.table_id ≡ badge.old.table_id) × (badge.new.id ≡ badge.old.id) }
    ensures back { (v : ℕ) × (badge.new.views ≡ v ∷ []) }
    ensures key { IsKeyIn segments.now result × (result.segment ≡ segment) }
{
    // For the proof: the block has the mould that the entry says.
    block.ties_laws();
    let visit = Desk::publish::<Telling>(table, desk, badge, last, tag, 0);
    let (_, key, visit) = segments.install_key_for(segment, block, visit);
    visit.back(badge);
    key
}

// Looks for the block of a key's entry. Who installed it and who finds it agree on the tie of each cell.
fn find_again(
    table: &Shared<u8, u64, (), Telling>,
    desk: &Desk<u8, u64, (), Telling>,
    badge: &mut Badge<u64>,
    segments: &Segments<u64, Tied>,
    tag: &EntryTag<u64, Telling>,
    cells: &Tag<u64, Telling>,
    key: &Key,
) -> Option<Key>
    requires key { IsKeyIn segments.now key.now }
    requires desk { desk.now.table_id ≡ table.now.table_id }
    requires seat { (badge.old.table_id ≡ table.now.table_id)
        × ((v : ℕ) × (badge.old.views ≡ v ∷ [])) }
    requires entry { IsEntryOf table.now.table_id desk.now.floor tag.now.tie }
    requires tied { IsTiedBy segments.now key.now.segment tag.now.tie cells.now.tie }
    ensures seat { (badge.new.table_id ≡ badge.old.table_id) × (badge.new.id ≡ badge.old.id) }
    ensures back { (v : ℕ) × (badge.new.views ≡ v ∷ []) }
    ensures ties { IfSome result (λ found. (offset : ℕ)
        → (cell_at found.block offset).tied ≡ (cell_at key.now.block offset).tied) }
{
    let visit = Desk::visit::<Telling>(table, desk, badge, tag, 0);
    let (found, visit) = segments.scout_key_for(key.segment(), visit);
    visit.back(badge);
    match found {
        Some((_, found)) => {
            segments.agree(&found, key);
            Some(found)
        }
        None => None,
    }
}

// Tests whether the entry of segment 1 shows nothing, and then the block that is installed there, and whether a step on
// a cell of that block, by the tie that the look told, finds it empty.
fn is_installed_and_found(
    table: &Shared<u8, u64, (), Telling>,
    desk: &Desk<u8, u64, (), Telling>,
    badge: &mut Badge<u64>,
    last: &mut Badge<u64>,
    segments: &Segments<u64, Tied>,
    tag: &EntryTag<u64, Telling>,
    cells: &Tag<u64, Telling>,
    block: Box<Block<u64, Global, Tied>>,
) -> bool
    requires layout { segments.now.layout ≡ 1 }
    requires desk { desk.now.table_id ≡ table.now.table_id }
    requires seat { (badge.old.table_id ≡ table.now.table_id)
        × ((v : ℕ) × (badge.old.views ≡ v ∷ [])) }
    requires last { (last.old.table_id ≡ table.now.table_id)
        × ((y : ℕ) × (last.old.views ≡ y ∷ [])) }
    requires entry { IsEntryOf table.now.table_id desk.now.floor tag.now.tie }
    requires cells { IsTieOf table.now.table_id desk.now.floor cells.now.tie }
    requires tied { IsTiedBy segments.now 1 tag.now.tie cells.now.tie }
    requires length { block_len block.value ≡ 2 }
    requires row { AreTied (row_of cells.now.tie 2) block.value.cells }
    requires number { last.old.id ≡ last_seat block.value.cells }
{
    let is_none = find_cell(table, desk, badge, segments, 1, tag, cells, 1).is_none();
    let key = install(table, desk, badge, last, segments, 1, tag, cells, block);
    let is_again = find_again(table, desk, badge, segments, tag, cells, &key).is_some();
    let is_empty = match find_cell(table, desk, badge, segments, 1, tag, cells, 1) {
        Some((block, cell)) => is_found_empty(table, desk, badge, block, &cell, 1),
        None => false,
    };
    is_none && is_again && is_empty
}

#[test]
fn a_block_is_installed_and_found_by_visits(rt: HostRuntime) -> Result<(), Fail> {
    let (table, seat) = Table::<u8, u64, (), Telling, Global>::of_words(rt.alloc(), &[0], &())?;
    let desk = Desk::of(&table.shared);
    let mut last = Badge::blank();
    let (seats, cells) = Desk::lay::<Telling>(&table.shared, &desk, &mut last, 2);
    let block: Block<u64, Global, Tied> = Block::new_for(rt.alloc(), 2, seats)?;
    // For the proof: the block's seat is the one behind those of its cells.
    block.ties_laws();
    let block = Box::new(rt.alloc(), block)?;
    let mut badge = seat.into_badge();
    let (own, tag) = Desk::enter::<Telling>(&table.shared, &desk, &mut badge, 2, 2);
    let mut segments: Segments<u64, Tied> = Segments::new_for(rt.alloc(), Layout::default());
    segments.tie(1, own, &cells);
    assert!(rt;
        is_installed_and_found(
            &table.shared,
            &desk,
            &mut badge,
            &mut last,
            &segments,
            &tag,
            &cells,
            block
        )
    );
    Ok(())
}

// An owner takes a block out of a tied table by its key, and puts it back; the entry then has no tie.
fn is_attached_again(
    segments: &mut Segments<u64, Tied>,
    block: Box<Block<u64, Global, Tied>>,
) -> bool
    requires layout { segments.old.layout ≡ 1 }
    requires length { block_len block.value ≡ 2 }
{
    let key = segments.attach(1, block);
    let block = segments.detach(&key);
    drop((key, segments.attach(1, block)));
    let is_lent = segments.block_mut(1).is_some();
    // For the proof: the segments are those of a layout.
    let _layout = segments.layout();
    let is_back = is_some(segments.key_now(1));
    segments.give_up(1);
    is_lent && is_back && segments.scout(1).is_none() && segments.installed() == 0
}

#[test]
fn an_owner_has_the_blocks_of_a_tied_table(rt: HostRuntime) -> Result<(), Fail> {
    let (table, _seat) = Table::<u8, u64, (), Telling, Global>::of_words(rt.alloc(), &[0], &())?;
    let desk = Desk::of(&table.shared);
    let mut last = Badge::blank();
    let (seats, _cells) = Desk::lay::<Telling>(&table.shared, &desk, &mut last, 2);
    let block: Block<u64, Global, Tied> = Block::new_for(rt.alloc(), 2, seats)?;
    let block = Box::new(rt.alloc(), block)?;
    let mut segments: Segments<u64, Tied> = Segments::new_for(rt.alloc(), Layout::default());
    assert!(rt; is_attached_again(&mut segments, block));
    Ok(())
}
