// Runs of tied cells, under a rule that lets the seat of a block begin the block's cells in order.
ghost use Rattle.std.specs.Prelude.{◌≡◌, ◌+◌, ◌<◌, [], ◌∷◌, length};
ghost use Rattle.cell_core.specs.Block.{block_len};
ghost use Rattle.cell_core.specs.Slot.{AreTied};
ghost use Rattle.tie_core.specs.Tie.{begins, fills, row_of, stage_number};
ghost use Rattle.tie_core.specs.Desk.{IsTieOf};
ghost use Rattle.memory_tests.specs.InOrder.{AreInOrder, idle_from};

use atomic_table::{Badge, Shared, Table, TableRule};
use cell_core::block::{Block, Tied};
use std::alloc::Global;
use std::test::Fail;
use tie_core::{Desk, RowPlay, RunPlay, Staged, Tag};

// A stage shows as its number, and a block's seat as that of the first idle cell.
struct InOrder;

impl<S> TableRule<S, u64, ()> for InOrder {
    ghost holds = { λ _ s. AreInOrder s.views };

    ghost first = { λ _. 0 };
}

impl Staged<u64> for InOrder {
    ghost shows = { stage_number };
}

impl RowPlay<u64> for InOrder {
    ghost owner = { λ first _. idle_from first };
}

// The block's seat goes on by the number of cells that are begun.
struct Beginning;

impl RunPlay<u64> for Beginning {
    ghost step = { begins };

    ghost then = { λ _ before made after. after ≡ before + length made };
}

// It stays when cells are filled.
struct Filling;

impl RunPlay<u64> for Filling {
    ghost step = { fills };

    ghost then = { λ _ before _ after. after ≡ before };
}

// Begins, writes and publishes the first three cells of twenty by their block's seat, which then says so.
fn fills_three(
    table: &Shared<u8, u64, (), InOrder>,
    desk: &Desk<u8, u64, (), InOrder>,
    badge: &mut Badge<u64>,
    tag: &Tag<u64, InOrder>,
    cells: &Block<u64, Global, Tied>,
) -> u64
    requires desk { desk.now.table_id ≡ table.now.table_id }
    requires tie { IsTieOf table.now.table_id desk.now.floor tag.now.tie }
    requires seat { (badge.old.table_id ≡ table.now.table_id)
        × (badge.old.id ≡ tag.now.tie.id + 20)
        × (badge.old.views ≡ idle_from tag.now.tie.id ∷ []) }
    requires cells { AreTied (row_of tag.now.tie 20) cells.now.cells
        × (length cells.now.cells ≡ 20) }
    ensures seat { badge.new.views ≡ idle_from (tag.now.tie.id + 3) ∷ [] }
{
    cells.ties_laws();
    let first = tag.further(0);
    let offer = Desk::offer_run::<Beginning>(table, desk, badge, &first, 3, 0);
    let (pen, offer) = cells.begin_run_for(0, 3, offer);
    offer.back(badge);
    let (before, _) = cells.filled_run(0, 3);
    let pen = pen.write(5).write(6).write(7);
    let offer = Desk::offer_run::<Filling>(table, desk, badge, &first, 3, 0);
    let (row, offer) = pen.publish_for(offer);
    drop(row);
    offer.back(badge);
    let (after, _) = cells.filled_run(0, 4);
    before.wrapping_mul(10).wrapping_add(after)
}

// Begins and fills a cell, if nobody has begun it.
fn is_begun(cells: &Block<u64>, offset: u64) -> bool
    requires { offset < block_len cells.now }
{
    match cells.begin(offset) {
        Ok(pen) => {
            drop(pen.fill(9));
            true
        }
        Err(_) => false,
    }
}

// Gives up the seats of twenty cells, and returns the value of the third one. What was found filled before stays known,
// and a cell that nobody has begun is begun like any other.
fn third_untied(cells: Block<u64, Global, Tied>) -> u64
    requires { length cells.cells ≡ 20 }
{
    let (count, row) = cells.filled_row(0, 20);
    let plain = cells.untie(&row, 0);
    if count != 3 || !is_begun(&plain, 5) {
        return 0;
    }
    match plain.known(2, &row.at(2)) {
        Some((value, _)) => *value,
        None => 0,
    }
}

#[test]
fn a_tied_run_is_begun_and_published(rt: HostRuntime) -> Result<(), Fail> {
    let (table, seat) = Table::<u8, u64, (), InOrder, Global>::of_words(rt.alloc(), &[0], &())?;
    let desk = Desk::of(&table.shared);
    let mut badge = Badge::blank();
    let (seats, tag) = Desk::lay::<InOrder>(&table.shared, &desk, &mut badge, 20);
    let cells: Block<u64, Global, Tied> = Block::new_for(rt.alloc(), 20, seats)?;
    let filled = fills_three(&table.shared, &desk, &mut badge, &tag, &cells);
    let third = third_untied(cells);
    let closed = table.close_with(seat);
    closed.free();
    assert!(rt; filled == 3);
    assert!(rt; third == 7);
    Ok(())
}
