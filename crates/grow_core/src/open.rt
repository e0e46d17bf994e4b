//! How an owner's list is opened: it becomes a vector that many callers share.
ghost use Rattle.std.specs.Prelude.{◌≡◌, length, IfOk, IfErr};
ghost use Rattle.claim_core.specs.Hand.{IsNewHand};
ghost use Rattle.grow_core.specs.Vector.{limit_of, layout_of, base_of};

use crate::hand::Hand;
use crate::opening::{Brought, tie_entries};
use crate::parts::Parts;
use crate::ties::SegmentTable;
use crate::vector::Shared;
use cell_core::block::Row;
use claim_core::{Mark, Marks, OpenError, Word};

// A vector's word is marked with the layout and the names of its segments.
pub(crate) struct Segments;

impl<T> Marks<SegmentTable<T>> for Segments {
    ghost use Rattle.grow_core.specs.Keys.{mark_of};

    ghost numbers = { λ table. mark_of table };
}

// Its history begins with the values of the list that it is opened on.
pub(crate) struct ListValues;

impl<T> Marks<Row<T>> for ListValues {
    ghost use Rattle.std.specs.Prelude.{[]};
    ghost use Rattle.grow_core.specs.Parts.{values_in, filled_in};

    ghost numbers = { λ _. [] };

    ghost filled = { λ row. filled_in (values_in row) };
}

impl<T: Drop> Shared<T> {
    /// Opens a vector that begins with the members of the list, with the hand that has all shares. It moves
    /// no member and looks at none: it takes the two small allocations of the claim word, at any length, and a
    /// time that depends on the number of segments alone. The only refusal is out of memory, and it gives the
    /// list back.
    pub fn of_parts(parts: Parts<T>) -> Result<(Shared<T>, Hand<T>), (Parts<T>, OpenError)>
        ensures opened { IfOk result (λ (vector, _). vector.opened ≡ parts.members) }
        ensures limit { IfOk result (λ (vector, _). limit_of vector ≡ parts.limit) }
        ensures layout { IfOk result (λ (vector, _). layout_of vector ≡ parts.layout) }
        ensures base { IfOk result (λ (vector, _). base_of vector ≡ length parts.members) }
        ensures hand { IfOk result (λ (vector, hand). IsNewHand vector.word hand) }
        ensures back { IfErr result (λ (back, _). back ≡ parts) }
        ensures no_memory { IfErr result (λ (_, error). error ≡ OpenError.NoMemory) }
    {
        // For the proof: reading a field shows the type's invariant.
        let list = Mark::of::<Row<T>, ListValues>(&parts.row);
        let (mut word, mut claims) = match Word::open_marked(
            parts.alloc,
            parts.limit,
            parts.len,
            list,
        ) {
            Ok(opened) => opened,
            Err(error) => return Err((parts, error)),
        };
        let Parts {
            mut table,
            mut keys,
            row,
            epoch,
            count,
            alloc,
            before,
            closed,
            ..
        } = parts;
        drop((before, closed));
        let cells = word.cell_tag();
        let list = Brought {
            row,
            ended: epoch.end(),
            count,
        };
        let tags = tie_entries(&word, &mut claims, &mut table, &mut keys, &cells, &list);
        let Brought { row, .. } = list;
        // The entries have their names only now.
        let segments = Mark::of::<SegmentTable<T>, Segments>(&table);
        word.mark_again(&mut claims, segments);
        let vector = Shared {
            word,
            table,
            keys,
            count,
            row,
            alloc,
            cells,
            tags,
        };
        Ok((vector, Hand::of(claims)))
    }
}
