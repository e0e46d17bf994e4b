// Tied cells that an owner fixes and unties: how far each is, whether it has a value, and what stays of it.
ghost use Rattle.std.specs.Prelude.{◌≡◌, ◌+◌, ◌*◌, ◌<◌, ◌↔◌, ℕ, [], ◌∷◌, Some, IsTrue};
ghost use Rattle.cell_core.specs.Block.{block_len, cell_at, KeepsOtherCells};
ghost use Rattle.cell_core.specs.Fixed.{stage_in};
ghost use Rattle.cell_core.specs.Slot.{ArePlain};
ghost use Rattle.tie_core.specs.Tie.{Tie, Idle, Filled, stage_number};
ghost use Rattle.tie_core.specs.Desk.{IsTieOf};

use super::Telling;
use atomic_table::{Badge, Shared, Table};
use cell_core::block::{Block, Epoch, Row, Tied};
use std::alloc::Global;
use std::test::Fail;
use tie_core::{Desk, Tag};

// Fixes a tied cell and settles it. Returns whether it has a value. The caller's seat is told the stage, which says the
// same.
fn has_value_as_told(
    table: &Shared<u8, u64, (), Telling>,
    desk: &Desk<u8, u64, (), Telling>,
    badge: &mut Badge<u64>,
    cells: &mut Block<u64, Global, Tied>,
    tag: &Tag<u64, Telling>,
    offset: u64,
    epoch: &Epoch,
) -> bool
    requires within { offset < block_len cells.old }
    requires desk { desk.now.table_id ≡ table.now.table_id }
    requires seat { (badge.old.table_id ≡ table.now.table_id)
        × ((v : ℕ) × (badge.old.views ≡ v ∷ [])) }
    requires tie { ((cell_at cells.old offset).tied ≡ Some tag.now.tie)
        × IsTieOf table.now.table_id desk.now.floor tag.now.tie }
    ensures seat { (badge.new.table_id ≡ badge.old.table_id) × (badge.new.id ≡ badge.old.id) }
    ensures view { (v : ℕ) × (badge.new.views ≡ v ∷ []) }
    ensures told { IsTrue result
        ↔ (badge.new.views ≡ (offset * 8 + stage_number Filled) ∷ []) }
    ensures len { block_len cells.new ≡ block_len cells.old }
{
    let offer = Desk::offer::<Telling>(table, desk, badge, tag, offset);
    let offer = cells.fix_for(offset, offer);
    offer.back(badge);
    let member = cells.settle_now(offset, epoch);
    cells.member(offset, &member, epoch).is_some()
}

// Puts a value into a tied cell, which is then fixed as filled, and settles it. So the value stays.
fn keeps_what_is_put(cells: &mut Block<u64, Global, Tied>, offset: u64, epoch: &Epoch) -> bool
    requires within { offset < block_len cells.old }
    requires tie { (t : Tie) × ((cell_at cells.old offset).tied ≡ Some t) }
    ensures kept { IsTrue result }
    ensures len { block_len cells.new ≡ block_len cells.old }
    ensures others { KeepsOtherCells cells.old cells.new offset }
{
    drop(cells.put_now(offset, 5));
    let member = cells.settle_now(offset, epoch);
    cells.member(offset, &member, epoch).is_some()
}

// Gives up the seats of all cells. A cell that is known to be idle keeps the name of its value.
fn unties_idle(cells: &mut Block<u64, Global, Tied>, offset: u64)
    requires within { offset < block_len cells.old }
    requires idle { stage_in (cell_at cells.old offset) ≡ Some Idle }
    ensures plain { ArePlain cells.new.cells }
    ensures len { block_len cells.new ≡ block_len cells.old }
    ensures named { (cell_at cells.new offset).value_name
        ≡ (cell_at cells.old offset).value_name }
{
    cells.untie_now(&Row::new(), 0);
}

// Takes what is in a tied cell, and gives up the seats of all cells. Returns how many of the first cells are filled.
fn filled_when_untied(cells: &mut Block<u64, Global, Tied>, offset: u64) -> u64
    requires within { offset < block_len cells.old }
    requires tie { (t : Tie) × ((cell_at cells.old offset).tied ≡ Some t) }
    ensures plain { ArePlain cells.new.cells }
{
    drop(cells.take(offset));
    unties_idle(cells, offset);
    let (count, _) = cells.filled_row(0, offset);
    count
}

#[test]
fn an_owner_is_told_whether_a_cell_has_a_value(rt: HostRuntime) -> Result<(), Fail> {
    let (table, seat) = Table::<u8, u64, (), Telling, Global>::of_words(rt.alloc(), &[0], &())?;
    let desk = Desk::of(&table.shared);
    let mut last = Badge::blank();
    let (seats, tag) = Desk::lay::<Telling>(&table.shared, &desk, &mut last, 3);
    let mut cells: Block<u64, Global, Tied> = Block::new_for(rt.alloc(), 3, seats)?;
    cells.ties_laws();
    let epoch = Epoch::new();
    let mut badge = seat.into_badge();
    let tag = tag.further(1);
    let told = has_value_as_told(
        &table.shared,
        &desk,
        &mut badge,
        &mut cells,
        &tag,
        1,
        &epoch,
    );
    let seat = badge.into_seat::<u8>();
    let closed = table.close_with(seat);
    closed.free();
    assert!(rt; !told);
    Ok(())
}

#[test]
fn an_untied_block_keeps_what_was_put(rt: HostRuntime) -> Result<(), Fail> {
    let (table, seat) = Table::<u8, u64, (), Telling, Global>::of_words(rt.alloc(), &[0], &())?;
    let desk = Desk::of(&table.shared);
    let mut last = Badge::blank();
    let (seats, _) = Desk::lay::<Telling>(&table.shared, &desk, &mut last, 3);
    let mut cells: Block<u64, Global, Tied> = Block::new_for(rt.alloc(), 3, seats)?;
    cells.ties_laws();
    let kept = keeps_what_is_put(&mut cells, 0, &Epoch::new());
    let filled = filled_when_untied(&mut cells, 2);
    let closed = table.close_with(seat);
    closed.free();
    assert!(rt; kept && filled == 1);
    Ok(())
}
