// Values that lie side by side, lent as a slice.
ghost use Rattle.std.specs.Prelude.{◌≡◌, ◌+◌, ◌≤◌, List, Some, length, map};
ghost use Rattle.cell_core.specs.Block.{block_len, AreFilledFrom};
ghost use Rattle.cell_core.specs.Member.{HaveValues};

use crate::block::steps::{Laid, Link};
use crate::block::{Block, Kind, Row};
use crate::slot::member::RawRow;
use std::alloc::Allocator;
use std::slice::from_raw_parts;

impl<T, A: Allocator> Laid<T, A> {
    // The values of `n` cells from an index on, which all have one.
    pub(crate) fn values<'a>(
        &'a self,
        link: Link<T>,
        index: usize,
        n: usize,
        row: &RawRow<T>,
    ) -> &'a [T]
        requires { (self.now.rows.at ≡ link.words) × (self.now.rows.rooms ≡ link.rooms)
            × (index + n ≤ length self.now.cells)
            × ((xs : List T) × (length xs ≡ n) × HaveValues self.now.cells index row.now.of xs) }
        ensures { HaveValues self.now.cells index row.now.of result.now }
    {
        // For the proof: the row shows that each cell has a value.
        let _row = row;
        unsafe { from_raw_parts(link.rooms.add(index), n) }
    }
}

impl<T, A: Allocator, B: Kind> Block<T, A, B> {
    /// Returns the values of `n` cells from an offset on as a slice, by a row that shows that each has one. It takes no
    /// step.
    pub fn values<'a>(&'a self, offset: u64, n: u64, row: &Row<T>) -> &'a [T]
        requires within { offset + n ≤ block_len self.now }
        requires n { length row.now ≡ n }
        requires filled { AreFilledFrom self.now offset row.now }
        ensures { map Some result.now ≡ map (λ m. m.value) row.now }
    {
        self.laid
            .values(self.link, offset as usize, n as usize, &row.row)
    }
}
