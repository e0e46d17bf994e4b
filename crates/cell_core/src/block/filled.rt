// Filled cells next to each other: one load for each word shows how many there are, and what is known of each.
ghost use Rattle.std.specs.Prelude.{◌≡◌, ◌+◌, ◌%◌, ◌<◌, ◌≤◌, Some, length, map, slice_get};
ghost use Rattle.cell_core.specs.Block.{block_len, AreAtFilled, AreFilledFrom, IsOtherAfter, IsPlacedAt};
ghost use Rattle.cell_core.specs.Laid.{word_cells};

use crate::block::fields::{WORD_CELLS, filled_in, word_of};
use crate::block::{Block, Kind, Placed, Row};
use std::alloc::Allocator;

impl<T, A: Allocator, B: Kind> Block<T, A, B> {
    /// Returns how many cells from an offset on are filled, up to the first that is not and `n` at most, and what is
    /// known of them then. The states of the `n` cells are in one word, which is loaded once.
    #[inline]
    pub fn filled_run(&self, offset: u64, n: u64) -> (u64, Row<T>)
        requires within { offset + n ≤ block_len self.now }
        requires some { 0 < n }
        requires word { offset % word_cells + n ≤ word_cells }
        ensures most { result.0 ≤ n }
        ensures row { length result.1 ≡ result.0 }
        ensures filled { AreFilledFrom self.now offset result.1 }
        ensures stages { AreAtFilled self.now offset result.0 }
        ensures next { IsOtherAfter self.now offset result.0 n }
    {
        let cells = self
            .laid
            .cells(self.link, word_of(offset), offset as usize, n as usize);
        let (word, sights) = cells.sight();
        let count = filled_in(word, n, offset);
        let row = sights.filled(count);
        (count, Row { row })
    }

    // The same of those of `n` cells whose states are in one word. Returns how many these are, how many of them are
    // filled, and what is known of those.
    #[inline(always)]
    fn filled_word(&self, offset: u64, n: u64) -> (u64, u64, Row<T>)
        requires within { offset + n ≤ block_len self.now }
        requires some { 0 < n }
        ensures asked { (0 < result.0) × (result.0 ≤ n) }
        ensures most { result.1 ≤ result.0 }
        ensures row { length result.2 ≡ result.1 }
        ensures filled { AreFilledFrom self.now offset result.2 }
        ensures stages { AreAtFilled self.now offset result.1 }
        ensures next { IsOtherAfter self.now offset result.1 result.0 }
    {
        // A whole word is compared with one that is filled: the compiler knows both numbers.
        if offset % WORD_CELLS == 0 && WORD_CELLS <= n {
            let (found, row) = self.filled_run(offset, WORD_CELLS);
            return (WORD_CELLS, found, row);
        }
        let asked = (WORD_CELLS - offset % WORD_CELLS).min(n);
        let (found, row) = self.filled_run(offset, asked);
        (asked, found, row)
    }

    /// Returns the same of any `n` cells. It loads each of their words once, up to the first with a cell that is not
    /// filled.
    pub fn filled_row(&self, offset: u64, n: u64) -> (u64, Row<T>)
        requires { offset + n ≤ block_len self.now }
        ensures most { result.0 ≤ n }
        ensures row { length result.1 ≡ result.0 }
        ensures filled { AreFilledFrom self.now offset result.1 }
        ensures stages { AreAtFilled self.now offset result.0 }
        ensures next { IsOtherAfter self.now offset result.0 n }
    {
        // For the proof: offsets below the length fit into 64 bits.
        let _len = self.len;
        let mut row = Row::new();
        let mut count = 0;
        'words: while count < n {
            let (asked, found, more) = self.filled_word(offset + count, n - count);
            row.append(more);
            if found < asked {
                count += found;
                break;
            }
            // The same number, but the next load need not wait for this one.
            count += asked;
        }
        (count, row)
    }

    /// Returns the values of the filled cells from an offset on as a slice, up to the first cell that is not filled and
    /// `n` at most, and what is known of these cells then. It loads each of their words once.
    pub fn filled(&self, offset: u64, n: u64) -> (&[T], Row<T>)
        requires { offset + n ≤ block_len self.now }
        ensures most { length result.0.now ≤ n }
        ensures filled { AreFilledFrom self.now offset result.1 }
        ensures values { map Some result.0.now ≡ map (λ m. m.value) result.1 }
    {
        let (count, row) = self.filled_row(offset, n);
        let values = self.values(offset, count, &row);
        (values, row)
    }

    /// Returns the token of the cell at an index of a row that knows the cells from an offset on to be filled.
    #[inline(always)]
    pub fn token_at(&self, offset: u64, row: &Row<T>, index: u64) -> Placed<T>
        requires filled { AreFilledFrom self.now offset row.now }
        requires within { index < length row.now }
        ensures placed { IsPlacedAt self.now (offset + index) result }
        ensures value { slice_get (map (λ m. m.value) row.now) index ≡ Some (Some result.value) }
    {
        // For the proof: offsets below the length fit into 64 bits.
        let _len = self.len;
        let member = row.at(index);
        member.placed(offset + index)
    }
}
