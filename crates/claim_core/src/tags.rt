//! Tags that a word gives without a step: they have its codes.
ghost use Rattle.claim_core.specs.Gain.{IsTiedTo};

use crate::offers::CellTag;
use crate::rule::OneList;
use crate::seat_view::SeatView;
use crate::word::Word;
use std::alloc::Allocator;
use tie_core::EntryTags;

/// The tags of entries in a row that are tied to a word.
pub type RowTags = EntryTags<SeatView, OneList>;

impl<A: Allocator> Word<A> {
    /// Returns a tag of the word, of no cell in particular: by its codes an entry can be tied before a block is
    /// laid for it.
    pub fn cell_tag(&self) -> CellTag
        ensures { IsTiedTo self.now result.tie }
    {
        self.desk.tag()
    }
}
