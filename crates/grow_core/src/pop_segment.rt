//! How the members of an owner's list are moved out of it, segment by segment.
ghost use Rattle.std.specs.Prelude.{◌≡◌, ℕ, ◌+◌, ◌-◌, ◌<◌, ◌≤◌, Some, IfOk, IfErr, length, map, slice_get, vec_len, vec_capacity};
ghost use Rattle.seg_core.specs.Segment.{segment_start};
ghost use Rattle.cell_core.specs.Block.{block_len, IsMemberAt};
ghost use Rattle.cell_core.specs.Member.{MemberView};
ghost use Rattle.grow_core.specs.PopSegment.{IsFilled, IsUnbroken, MovesLast, PopsValues};

use crate::blocks::take_block;
use crate::parts::Parts;
use crate::ties::CellBlock;
use cell_core::block::Row;

// Moves out the values of the last `n` members of a row, last one first, to the end of a list that has room for them.
// They are those of the first cells of the block.
fn pop_values<T: Drop>(
    block: &mut CellBlock<T>,
    n: u64,
    row: &mut Row<T>,
    len: u64,
    values: &mut Vec<T>,
)
    requires within { n ≤ block_len block.old }
    requires few { n ≤ len }
    requires len { length row.old ≡ len }
    requires members { (i : ℕ) (m : MemberView T) → i < n → slice_get row.old (len - n + i) ≡ Some m
        → IsMemberAt block.old i m × IsFilled m }
    requires room { vec_len values.old + n ≤ vec_capacity values.old }
    ensures popped { PopsValues block.old block.new n row.old row.new
        values.old.items values.new.items n }
    ensures added { vec_len values.new ≡ vec_len values.old + n }
    ensures capacity { vec_capacity values.new ≡ vec_capacity values.old }
{
    for i in 0..n {
        let member = row.at(len - 1 - i);
        row.pop();
        let value = block.take_value(&member.placed(n - 1 - i));
        values.push_reserved(value);
    }
}

impl<T: Drop> Parts<T> {
    // Moves out the members of the last segment, last one first, to the end of a list that has room for them, and
    // frees the segment.
    fn pop_segment(&mut self, values: &mut Vec<T>)
        requires some { 0 < length self.old.members }
        requires last { (k : ℕ) → k < self.old.segments
            → segment_start self.old.layout k < length self.old.members }
        requires unbroken { IsUnbroken self.old.members }
        requires room { vec_len values.old + length self.old.members ≤ vec_capacity values.old }
        ensures moved { MovesLast self.old.members self.new.members
            values.old.items values.new.items }
        ensures fewer { length self.new.members < length self.old.members }
        ensures unbroken { IsUnbroken self.new.members }
        ensures room { vec_len values.new + length self.new.members ≤ vec_capacity values.new }
    {
        self.closed = None;
        let (segment, last, mut block) = take_block(
            &mut self.table,
            &self.keys,
            self.count,
            self.len - 1,
        );
        let n = last + 1;
        pop_values(&mut block, n, &mut self.row, self.len, values);
        // Its cells are empty.
        Box::into_inner(block).free();
        self.keys.set(segment, None);
        self.count = segment;
        self.len -= n;
    }

    /// Moves all members out, in order, into a list of their values, and frees the segments. None of them may be
    /// broken. It asks for memory once, and gives the parts back if there is none.
    pub fn into_values(self) -> Result<Vec<T>, Parts<T>>
        requires unbroken { IsUnbroken self.members }
        ensures values { IfOk result (λ values. map Some values.items ≡ self.members) }
        ensures back { IfErr result (λ parts. parts ≡ self) }
    {
        let Ok(mut values) = Vec::with_capacity(self.alloc, self.len() as usize) else {
            return Err(self);
        };
        let mut parts = self;
        'segments: while parts.len() > 0 {
            parts.cut();
            parts.pop_segment(&mut values);
        }
        values.reverse();
        drop(parts);
        Ok(values)
    }
}
