//! How the segments of a list are tied to the word of the vector that the list becomes.
ghost use Rattle.std.specs.Prelude.{◌≡◌, ◌+◌, ◌<◌, ◌≤◌, []};
ghost use Rattle.seg_core.specs.Segment.{segment_count};
ghost use Rattle.grow_core.specs.Opening.{IsOpening};
ghost use Rattle.grow_core.specs.Parts.{AreBrokenIn};

use crate::keys::{Keys, key_of};
use crate::ties::SegmentTable;
use cell_core::block::{EndedEpoch, Row};
use claim_core::{CellTag, Hand as ClaimHand, RowTags, Word, laws};
use std::alloc::Global;

// What a list brings to the vector that is opened on it, next to its segments: what is known of its members, evidence that
// its epoch has ended, and how many segments it has.
#[derive(Drop)]
pub(crate) struct Brought<T> {
    pub(crate) row: Row<T>,
    pub(crate) ended: EndedEpoch,
    pub(crate) count: u32,
}

// Ties the entry of a segment of the list, and its cells: each gets a seat at the stage that it is fixed at. It is no
// step, and looks at no cell.
fn tie_segment<T: Drop>(
    word: &Word<Global>,
    claims: &mut ClaimHand,
    table: &mut SegmentTable<T>,
    keys: &mut Keys,
    cells: &CellTag,
    tags: &mut RowTags,
    list: &Brought<T>,
    segment: u32,
)
    requires opening { IsOpening word.now claims.old table.old keys.old list.now.row list.now.count
        cells.now.tie tags.old segment }
    requires broken { AreBrokenIn list.now.ended list.now.row }
    requires within { segment < list.now.count }
    ensures opening { IsOpening word.now claims.new table.new keys.new list.now.row list.now.count
        cells.now.tie tags.new (segment + 1) }
    ensures hand { claims.new ≡ record claims.old { laid = claims.new.laid } }
    ensures layout { table.new.layout ≡ table.old.layout }
{
    let layout = table.layout();
    // For the proof: its f is that of a layout.
    let _f = layout.f();
    let from = layout.first(segment);
    let Some(key) = key_of(keys, segment) else {
        unreachable!()
    };
    let (seats, cell, seat, tag) = word.adopt(claims, from, layout.len(segment));
    // For the proof: all ties of one desk have the same codes, and how the seats lie that a word makes for a list.
    cell.agrees(cells);
    laws::first_stages_go_in_order();
    let mut block = table.detach(&key);
    block.ties_laws();
    block.tie_now(seats, &list.row, from, &list.ended);
    // For the proof: the block's seat is the one behind those of its cells.
    block.ties_laws();
    keys.set(
        segment,
        Some(table.attach_placed(segment, block, seat, cells)),
    );
    tags.push(&tag);
}

// Ties the entry of a segment that the list does not have. A block that it is set to is freed.
fn tie_entry<T: Drop>(
    word: &Word<Global>,
    claims: &mut ClaimHand,
    table: &mut SegmentTable<T>,
    keys: &mut Keys,
    cells: &CellTag,
    tags: &mut RowTags,
    list: &Brought<T>,
    segment: u32,
)
    requires opening { IsOpening word.now claims.old table.old keys.old list.now.row list.now.count
        cells.now.tie tags.old segment }
    requires past { list.now.count ≤ segment }
    requires within { segment < segment_count table.old.layout }
    ensures opening { IsOpening word.now claims.new table.new keys.new list.now.row list.now.count
        cells.now.tie tags.new (segment + 1) }
    ensures hand { claims.new ≡ record claims.old { laid = claims.new.laid } }
    ensures layout { table.new.layout ≡ table.old.layout }
{
    let layout = table.layout();
    // For the proof: its f is that of a layout.
    let _f = layout.f();
    let (seat, tag) = word.enter(claims, layout.first(segment), layout.len(segment));
    table.tie(segment, seat, cells);
    keys.set(segment, None);
    tags.push(&tag);
}

// Ties all entries to the word, and the cells of the list's segments, and returns the entries' tags, in order. It takes no
// memory.
pub(crate) fn tie_entries<T: Drop>(
    word: &Word<Global>,
    claims: &mut ClaimHand,
    table: &mut SegmentTable<T>,
    keys: &mut Keys,
    cells: &CellTag,
    list: &Brought<T>,
) -> RowTags
    requires opening { IsOpening word.now claims.old table.old keys.old list.now.row list.now.count
        cells.now.tie [] 0 }
    requires broken { AreBrokenIn list.now.ended list.now.row }
    ensures opening { IsOpening word.now claims.new table.new keys.new list.now.row list.now.count
        cells.now.tie result (segment_count table.old.layout) }
    ensures hand { claims.new ≡ record claims.old { laid = claims.new.laid } }
    ensures layout { table.new.layout ≡ table.old.layout }
{
    let layout = table.layout();
    // For the proof: its f is that of a layout.
    let _f = layout.f();
    let mut tags = RowTags::new();
    for segment in 0..layout.segments() {
        if segment < list.count {
            tie_segment(word, claims, table, keys, cells, &mut tags, list, segment);
        } else {
            tie_entry(word, claims, table, keys, cells, &mut tags, list, segment);
        }
    }
    tags
}
