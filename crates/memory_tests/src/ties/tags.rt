//! An entry is tied by a tag of the desk before any block is laid for it; tags of entries in a row; and what the rule
//! tells of two seats.
ghost use Rattle.std.specs.Prelude.{◌≡◌, ℕ, [], ◌∷◌, IfOk};
ghost use Rattle.table_core.specs.Table.{IsTiedBlockOf, IsTiedBy};
ghost use Rattle.tie_core.specs.Desk.{IsTieOf};
ghost use Rattle.tie_core.specs.Visit.{EntryTie};

use crate::ties::Telling;
use atomic_table::{Badge, Shared, Table};
use cell_core::block::{Block, Tied};
use seg_core::Layout;
use std::alloc::{AllocError, Global};
use std::test::Fail;
use table_core::Table as Segments;
use tie_core::{Desk, EntryTags, PairLaw, Tag};

// It tells nothing.
impl PairLaw<u64> for Telling {
    ghost tells = { λ _ _. Unit {0} };
}

// A block for the entry of segment 1, which was tied by a tag of the desk.
fn block_for(
    table: &Shared<u8, u64, (), Telling>,
    desk: &Desk<u8, u64, (), Telling>,
    last: &mut Badge<u64>,
    segments: &Segments<u64, Tied>,
    any: &Tag<u64, Telling>,
    alloc: Global,
) -> Result<Block<u64, Global, Tied>, AllocError>
    requires layout { segments.now.layout ≡ 1 }
    requires desk { desk.now.table_id ≡ table.now.table_id }
    requires last { last.old.views ≡ [] }
    requires any { IsTieOf desk.now.table_id desk.now.floor any.now.tie }
    requires tied { (own : EntryTie) × IsTiedBy segments.now 1 own any.now.tie }
    ensures block { IfOk result (IsTiedBlockOf segments.now 1) }
    ensures last { (last.new.table_id ≡ table.now.table_id)
        × ((v : ℕ) × (last.new.views ≡ v ∷ [])) }
{
    let (seats, tag) = Desk::lay::<Telling>(table, desk, last, 2);
    // For the proof: both tags have the same codes.
    tag.agrees(any);
    let block = Block::new_for(alloc, 2, seats)?;
    block.ties_laws();
    Ok(block)
}

#[test]
fn a_block_is_laid_for_an_entry_that_is_tied_already(rt: HostRuntime) -> Result<(), Fail> {
    let (table, seat) = Table::<u8, u64, (), Telling, Global>::of_words(rt.alloc(), &[0], &())?;
    let desk = Desk::of(&table.shared);
    let any = desk.tag();
    let mut badge = seat.into_badge();
    let (own, tag) = Desk::enter::<Telling>(&table.shared, &desk, &mut badge, 2, 2);
    let mut segments: Segments<u64, Tied> = Segments::new_for(rt.alloc(), Layout::default());
    segments.tie(1, own, &any);
    let mut last = Badge::blank();
    let block = block_for(&table.shared, &desk, &mut last, &segments, &any, rt.alloc())?;
    Desk::compare::<Telling>(&table.shared, &desk, &mut badge, &mut last);
    let mut tags = EntryTags::new();
    tags.push(&tag);
    let visit = Desk::visit::<Telling>(&table.shared, &desk, &mut badge, &tags.at(0), 0);
    let (found, visit) = segments.scout_for(1, visit);
    visit.back(&mut badge);
    assert!(rt; found.is_none() && block.len() == 2);
    Ok(())
}
