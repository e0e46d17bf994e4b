// The blocks and cells of an owner's places.
ghost use Rattle.std.specs.Prelude.{◌≡◌, ◌<◌, ◌≤◌, Some, None, IfSome, IsSome, slice_set};
ghost use Rattle.seg_core.specs.Segment.{segment_start, segment_end, segment_count, segment_of, most_segments};
ghost use Rattle.cell_core.specs.Block.{block_len, IsMemberAt, KeepsOtherCells};
ghost use Rattle.table_core.specs.Table.{IsBlockOf, KeepsOtherEntries, RenewsEntry};
ghost use Rattle.grow_core.specs.Keys.{AreKeys, HasBlock, IsBlockPut, key_at, mark_of};
ghost use Rattle.grow_core.specs.Token.{place_in};
ghost use Rattle.grow_core.specs.Parts.{HasFirstKeys, IsBrokenIn, RestagesCell, member_stage};

use crate::keys::{Keys, key_of};
use crate::ties::{CellBlock, SegmentTable};
use cell_core::block::{Epoch, Member};
use table_core::Key;

// The position of a place of the installed segments: its segment, the cell there, and the segment's key. It is always
// found: a caller that only proves something by it, and tests for it, leaves no instruction.
#[inline(always)]
pub(crate) fn find_cell<T>(
    table: &SegmentTable<T>,
    keys: &Keys,
    count: u32,
    place: u64,
) -> Option<(u32, u64, Key)>
    requires few { count ≤ segment_count table.now.layout }
    requires there { HasFirstKeys keys.now count }
    requires inside { place < segment_start table.now.layout count }
    ensures some { IsSome result }
    ensures small { IfSome result (λ (segment, _, _). segment < most_segments) }
    ensures segment { IfSome result (λ (segment, _, _). segment < segment_count table.now.layout) }
    ensures first { IfSome result (λ (segment, _, _). segment < count) }
    ensures number { IfSome result (λ (segment, _, _).
        segment ≡ segment_of table.now.layout place) }
    ensures place { IfSome result (λ (segment, offset, _).
        place_in table.now.layout segment offset ≡ place) }
    ensures within { IfSome result (λ (segment, _, _).
        place < segment_end table.now.layout segment) }
    ensures key { IfSome result (λ (segment, _, key). key_at keys.now segment ≡ Some key) }
{
    let layout = table.layout();
    // For the proof: its f is that of a layout.
    let _f = layout.f();
    let (segment, offset) = layout.locate(place);
    match key_of(keys, segment) {
        Some(key) => Some((segment, offset, key)),
        None => None,
    }
}

// The same, where it is needed.
pub(crate) fn cell_of<T>(
    table: &SegmentTable<T>,
    keys: &Keys,
    count: u32,
    place: u64,
) -> (u32, u64, Key)
    requires few { count ≤ segment_count table.now.layout }
    requires there { HasFirstKeys keys.now count }
    requires inside { place < segment_start table.now.layout count }
    ensures small { result.0 < most_segments }
    ensures segment { result.0 < segment_count table.now.layout }
    ensures first { result.0 < count }
    ensures number { result.0 ≡ segment_of table.now.layout place }
    ensures place { place_in table.now.layout result.0 result.1 ≡ place }
    ensures within { place < segment_end table.now.layout result.0 }
    ensures key { key_at keys.now result.0 ≡ Some result.2 }
{
    match find_cell(table, keys, count, place) {
        Some(cell) => cell,
        None => unreachable!(),
    }
}

// Takes the block of a place out of the table. Returns it behind its segment and the place's offset there.
pub(crate) fn take_block<T: Drop>(
    table: &mut SegmentTable<T>,
    keys: &Keys,
    count: u32,
    place: u64,
) -> (u32, u64, Box<CellBlock<T>>)
    requires few { count ≤ segment_count table.old.layout }
    requires there { HasFirstKeys keys.now count }
    requires inside { place < segment_start table.old.layout count }
    requires named { AreKeys (mark_of table.old) keys.now }
    ensures small { result.0 < most_segments }
    ensures segment { result.0 < segment_count table.old.layout }
    ensures first { result.0 < count }
    ensures place { place_in table.old.layout result.0 result.1 ≡ place }
    ensures within { place < segment_end table.old.layout result.0 }
    ensures block { HasBlock keys.now result.0 result.2.value }
    ensures length { IsBlockOf table.old.layout result.0 result.2.value }
    ensures layout { table.new.layout ≡ table.old.layout }
    ensures others { KeepsOtherEntries table.old table.new result.0 }
{
    let (segment, offset, key) = cell_of(table, keys, count, place);
    (segment, offset, table.detach(&key))
}

// Puts the block of a segment into the table, and its key into the row.
pub(crate) fn put_block<T: Drop>(
    table: &mut SegmentTable<T>,
    keys: &mut Keys,
    segment: u32,
    block: Box<CellBlock<T>>,
)
    requires within { segment < segment_count table.old.layout }
    requires small { segment < most_segments }
    requires length { IsBlockOf table.old.layout segment block.value }
    ensures put { IsBlockPut table.new segment block.value keys.old keys.new }
    ensures layout { table.new.layout ≡ table.old.layout }
    ensures others { KeepsOtherEntries table.old table.new segment }
{
    keys.set(segment, Some(table.attach(segment, block)));
}

// The entry of a segment is not set any more, and the row loses its key. A block that it had is dropped.
pub(crate) fn clear_entry<T: Drop>(table: &mut SegmentTable<T>, keys: &mut Keys, segment: u32)
    requires within { segment < segment_count table.old.layout }
    requires small { segment < most_segments }
    ensures keys { keys.new ≡ slice_set keys.old segment None }
    ensures layout { table.new.layout ≡ table.old.layout }
    ensures others { KeepsOtherEntries table.old table.new segment }
    ensures another { RenewsEntry table.old table.new segment }
{
    table.give_up(segment);
    keys.set(segment, None);
}

// Writes a value into the cell, or breaks it. It returns what is then known of the cell, and the value that
// it held. A cell that was fixed at a stage is then fixed at that of a filled cell, or of a broken one.
#[tactic(auto, using(crate::proofs::Staged::restaged_value, crate::proofs::Staged::restaged_broken))]
pub(crate) fn write<T>(
    block: &mut CellBlock<T>,
    offset: u64,
    value: Option<T>,
    epoch: &Epoch,
) -> (Member<T>, Option<T>)
    requires { offset < block_len block.old }
    ensures member { IsMemberAt block.new offset result.0 }
    ensures value { result.0.value ≡ value }
    ensures broken { IsBrokenIn epoch.now result.0 }
    ensures staged { RestagesCell block.old block.new offset (member_stage (Some result.0)) }
    ensures len { block_len block.new ≡ block_len block.old }
    ensures others { KeepsOtherCells block.old block.new offset }
{
    match value {
        Some(value) => {
            let (placed, held) = block.put_now(offset, value);
            (Member::of(&placed), held)
        }
        None => block.spoil_now(offset, epoch),
    }
}
