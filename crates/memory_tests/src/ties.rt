//! Tables whose rules permit everything, and a block whose cells are tied to one: the whole way of a seat, from the
//! table through an offer and a step back to its caller, and what its caller then knows.
ghost use Rattle.std.specs.Prelude.{◌≡◌, ◌+◌, ◌*◌, ◌<◌, ◌⊎◌, ℕ, [], ◌∷◌, Some, IsTrue};
ghost use Rattle.cell_core.specs.Block.{block_len, cell_at};
ghost use Rattle.tie_core.specs.Tie.{Idle, looks, stage_number};
ghost use Rattle.tie_core.specs.Desk.{IsTieOf};
ghost use Rattle.memory_tests.specs.Found.{content_number};

mod entries;
mod fixed;
mod runs;
mod tags;

use atomic_table::{Badge, Shared, Table, TableRule};
use cell_core::block::{Block, Look, Tied};
use std::alloc::Global;
use std::test::Fail;
use tie_core::{CellPlay, Desk, Entered, EntryPlay, RowPlay, Staged, Tag};

// Any table is right, and no view shows anything.
struct Anything;

impl<S> TableRule<S, (), ()> for Anything {
    ghost holds = { λ _ _. Unit {0} };

    ghost first = { λ _. tt };
}

impl Staged<()> for Anything {
    ghost shows = { λ _. tt };
}

impl RowPlay<()> for Anything {
    ghost owner = { λ _ _. tt };
}

impl CellPlay<()> for Anything {
    ghost step = { looks };

    ghost then = { λ _ _ _ _ _. Unit {0} };
}

impl Entered<()> for Anything {
    ghost empty = { λ _ _. tt };

    ghost placed = { λ _ _. tt };

    ghost spent = { tt };
}

impl EntryPlay<()> for Anything {
    ghost then = { λ _ _ _ _. Unit {0} };
}

// Any table is right. Views are numbers: a stage shows as its number, and a look at a cell gives the seat of its caller
// the number that the offer has, and how far the cell was. A step on an entry gives it the number of the seat there.
struct Telling;

impl<S> TableRule<S, u64, ()> for Telling {
    ghost holds = { λ _ _. Unit {0} };

    ghost first = { λ _. 0 };
}

impl Staged<u64> for Telling {
    ghost shows = { stage_number };
}

impl RowPlay<u64> for Telling {
    ghost owner = { λ _ _. 0 };
}

impl CellPlay<u64> for Telling {
    ghost step = { looks };

    ghost then = { λ told _ from _ after. after ≡ told * 8 + stage_number from };
}

impl Entered<u64> for Telling {
    ghost empty = { λ _ _. 0 };

    ghost placed = { λ _ _. 0 };

    ghost spent = { 0 };
}

impl EntryPlay<u64> for Telling {
    ghost then = { λ _ _ found after. after ≡ content_number found };
}

// A look that finds a cell empty tells the caller's seat that nobody had begun it, or that it was begun.
fn is_found_empty(
    table: &Shared<u8, u64, (), Telling>,
    desk: &Desk<u8, u64, (), Telling>,
    badge: &mut Badge<u64>,
    cells: &Block<u64, Global, Tied>,
    tag: &Tag<u64, Telling>,
    offset: u64,
) -> bool
    requires within { offset < block_len cells.now }
    requires desk { desk.now.table_id ≡ table.now.table_id }
    requires seat { (badge.old.table_id ≡ table.now.table_id)
        × ((v : ℕ) × (badge.old.views ≡ v ∷ [])) }
    requires tie { ((cell_at cells.now offset).tied ≡ Some tag.now.tie)
        × IsTieOf table.now.table_id desk.now.floor tag.now.tie }
    ensures seat { (badge.new.table_id ≡ badge.old.table_id) × (badge.new.id ≡ badge.old.id) }
    ensures told { IsTrue result → (badge.new.views ≡ (offset * 8) ∷ [])
        ⊎ (badge.new.views ≡ (offset * 8 + 1) ∷ []) }
{
    let offer = Desk::offer::<Telling>(table, desk, badge, tag, offset);
    let (look, offer) = cells.look_for(offset, offer);
    offer.back(badge);
    match look {
        Look::Empty => true,
        _ => false,
    }
}

// A look at a cell that is fixed as idle gives the caller's seat that fact, and the number that the offer has.
struct IdleLook;

impl CellPlay<u64> for IdleLook {
    ghost step = { looks };

    ghost then = { λ told _ from _ after. (after ≡ told) × (from ≡ Idle) };
}

// Empties a cell, which then has no seat, and looks at it: the caller's seat gets the number.
fn is_empty_when_taken(
    table: &Shared<u8, u64, (), Telling>,
    desk: &Desk<u8, u64, (), Telling>,
    badge: &mut Badge<u64>,
    cells: &mut Block<u64, Global, Tied>,
    tag: &Tag<u64, Telling>,
    offset: u64,
) -> bool
    requires within { offset < block_len cells.old }
    requires desk { desk.now.table_id ≡ table.now.table_id }
    requires seat { (badge.old.table_id ≡ table.now.table_id)
        × ((v : ℕ) × (badge.old.views ≡ v ∷ [])) }
    requires tie { ((cell_at cells.old offset).tied ≡ Some tag.now.tie)
        × IsTieOf table.now.table_id desk.now.floor tag.now.tie }
    ensures seat { (badge.new.table_id ≡ badge.old.table_id) × (badge.new.id ≡ badge.old.id) }
    ensures told { badge.new.views ≡ offset ∷ [] }
{
    drop(cells.take(offset));
    let offer = Desk::offer_look::<IdleLook, _>(table, desk, badge, &*cells, offset, offset);
    let (look, offer) = cells.look_for(offset, offer);
    offer.back(badge);
    match look {
        Look::Empty => true,
        _ => false,
    }
}

#[test]
fn a_tied_cell_is_looked_at_and_the_seat_comes_back(rt: HostRuntime) -> Result<(), Fail> {
    let (table, seat) = Table::<u8, (), (), Anything, Global>::of_words(rt.alloc(), &[0], &())?;
    let desk = Desk::of(&table.shared);
    let mut last = Badge::blank();
    let (seats, tag) = Desk::lay::<Anything>(&table.shared, &desk, &mut last, 20);
    let cells: Block<u64, Global, Tied> = Block::new_for(rt.alloc(), 20, seats)?;
    cells.ties_laws();
    let mut badge = seat.into_badge();
    let tag = tag.further(17);
    let offer = Desk::offer::<Anything>(&table.shared, &desk, &mut badge, &tag, 17);
    let (look, offer) = cells.look_for(17, offer);
    let empty = match look {
        Look::Empty => true,
        _ => false,
    };
    offer.back(&mut badge);
    let seat = badge.into_seat::<u8>();
    let closed = table.close_with(seat);
    closed.free();
    assert!(rt; empty);
    Ok(())
}

#[test]
fn a_taken_cell_has_no_seat(rt: HostRuntime) -> Result<(), Fail> {
    let (table, seat) = Table::<u8, u64, (), Telling, Global>::of_words(rt.alloc(), &[0], &())?;
    let desk = Desk::of(&table.shared);
    let mut last = Badge::blank();
    let (seats, tag) = Desk::lay::<Telling>(&table.shared, &desk, &mut last, 3);
    let mut cells: Block<u64, Global, Tied> = Block::new_for(rt.alloc(), 3, seats)?;
    cells.ties_laws();
    let mut badge = seat.into_badge();
    let tag = tag.further(2);
    let empty = is_empty_when_taken(&table.shared, &desk, &mut badge, &mut cells, &tag, 2);
    let seat = badge.into_seat::<u8>();
    let closed = table.close_with(seat);
    closed.free();
    assert!(rt; empty);
    Ok(())
}

#[test]
fn an_entry_gets_a_seat_and_a_visit_is_made(rt: HostRuntime) -> Result<(), Fail> {
    let (table, seat) = Table::<u8, (), (), Anything, Global>::of_words(rt.alloc(), &[3], &())?;
    let desk = Desk::of(&table.shared);
    let mut badge = seat.into_badge();
    let (own, tag) = Desk::enter::<Anything>(&table.shared, &desk, &mut badge, 0, 2);
    let visit = Desk::visit::<Anything>(&table.shared, &desk, &mut badge, &tag, 0);
    drop(visit);
    own.lose();
    assert!(rt; table.shared.peek(0) == 3);
    Ok(())
}
