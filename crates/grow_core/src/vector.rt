//! The vector, and how its size is looked at.
ghost use Rattle.std.specs.Prelude.{◌≡◌, ◌<◌, ◌≤◌, ℕ, None, [], ◌∷◌, length};
ghost use Rattle.claim_core.specs.Word.{AreBounds};
ghost use Rattle.claim_core.specs.Hand.{IsWholeHand, SeesSize, seen_size};
ghost use Rattle.claim_core.specs.History.{AddsEvents, size_event};
ghost use Rattle.seg_core.specs.Segment.{most_segments, segment_count, segment_start};
ghost use Rattle.grow_core.specs.Closing.{AreKnown, IsTakenBy};
ghost use Rattle.grow_core.specs.Keys.{AreKeys, key_at, mark_of};
ghost use Rattle.grow_core.specs.Parts.{AreLong, HasFirstKeys, filled_in};
ghost use Rattle.grow_core.specs.Steps.{FindsMore};
ghost use Rattle.grow_core.specs.Vector.{IsHandOf, BeginsAsOpened, vector_of, limit_of, layout_of, base_of};

use crate::hand::Hand;
use crate::keys::Keys;
use crate::ties::SegmentTable;
use cell_core::block::Row;
use claim_core::{CellTag, RowTags, Word, laws};
use seg_core::Layout;
use std::alloc::Global;
use std::fmt;
use std::marker::Model;

/// A vector that many callers share. Contracts see which vector it is, its limit and its base, and the list
/// that it was opened on.
pub struct Shared<T> {
    pub(crate) word: Word<Global>,
    pub(crate) table: SegmentTable<T>,
    // What is known of the opened list: the keys of its first `count` segments, and its members.
    pub(crate) keys: Keys,
    pub(crate) count: u32,
    pub(crate) row: Row<T>,
    pub(crate) alloc: Global,
    // How the cells of the segments are tied, and their entries, in order. Neither has bytes.
    pub(crate) cells: CellTag,
    pub(crate) tags: RowTags,
}

impl<T> Model for Shared<T> {
    ghost use Rattle.grow_core.specs.Parts.{values_in};
    ghost use Rattle.grow_core.specs.Vector.{VectorView, vector_coded, IsShared};

    ghost Value = { VectorView T };

    ghost coded = { vector_coded T.code };

    ghost view = { λ v. record {
      word = v.word;
      segments = v.table;
      opened = values_in v.row;
    } };

    ghost invariant = { λ v. IsShared v.word v.table v.keys v.row v.count v.cells.tie v.tags };
}

// By hand, so that proofs of callers do not go into its fields.
impl<T: Drop> Drop for Shared<T> {
    fn drop(self) {
        let Self {
            word: _,
            table: _,
            keys: _,
            count: _,
            row: _,
            alloc: _,
            cells: _,
            tags: _,
        } = self;
    }
}

impl<T> Shared<T> {
    // Takes the vector apart for a close. The hand finds the keys of the first segments, with all places. Returns the word,
    // the segments, what is known of the opened list, and how cells are tied; then the keys, and how many there are.
    pub(crate) fn take_apart_by(
        self,
        hand: &mut Hand<T>,
    ) -> (Word<Global>, SegmentTable<T>, Row<T>, CellTag, Keys, u32)
        requires ours { IsHandOf self hand.old }
        requires whole { IsWholeHand hand.old }
        ensures parts { self ≡ vector_of result.0 result.1 result.2 }
        ensures its { IsTakenBy result.0 result.1 result.2 result.3.tie result.4 result.5 }
        ensures named { AreKeys (mark_of result.1) result.4 }
        ensures long { AreLong (layout_of self) result.4 }
        ensures there { HasFirstKeys result.4 result.5 }
        ensures few { result.5 ≤ segment_count (layout_of self) }
        ensures none { (s : ℕ) → s < most_segments → result.5 ≤ s → key_at result.4 s ≡ None }
        ensures all { seen_size hand.old ≤ segment_start (layout_of self) result.5 }
        ensures rows { AreKnown self.segments hand.new result.4 }
        ensures finds { FindsMore hand.old hand.new }
        ensures log { hand.new.log ≡ hand.old.log }
    {
        let (before, n) = self.first_keys(&self.keys, hand);
        let Shared {
            word,
            table,
            keys: _,
            count: _,
            row,
            alloc: _,
            cells,
            tags: _,
        } = self;
        (word, table, row, cells, before, n)
    }
}

// The size and the values are left out: only a step with a hand may look at them.
impl<T> fmt::Debug for Shared<T> {
    fn fmt<W: fmt::Write>(&self, f: &mut fmt::Formatter<W>) -> fmt::Result {
        f.debug_struct("Shared")
            .field("limit", &self.word.limit())
            .finish_non_exhaustive()
    }
}

impl<T> Shared<T> {
    /// Returns the greatest size that the vector may have.
    pub fn limit(&self) -> u64
        ensures { result ≡ limit_of self.now }
    {
        self.word.limit()
    }

    /// Returns how the vector's places are divided into segments.
    pub fn layout(&self) -> Layout
        ensures { result ≡ layout_of self.now }
    {
        self.table.layout()
    }

    /// Shows a proof that the vector began with the list that it was opened on, and so did its history. The
    /// call does nothing.
    pub fn laws(&self)
        ensures bounds { AreBounds (limit_of self.now) (base_of self.now) }
        ensures opened { length self.now.opened ≡ base_of self.now }
        // In the history a value is named by its place.
        ensures first { BeginsAsOpened self.now }
        ensures filled { self.now.word.filled ≡ filled_in self.now.opened }
    {
        // For the proof: reading a field shows the type's invariant.
        let _table = &self.table;
        laws::first_places_are_told();
    }

    /// Returns the size now, by one load.
    pub fn size(&self, hand: &mut Hand<T>) -> u64
        requires ours { IsHandOf self.now hand.old }
        ensures seen { SeesSize hand.old hand.new result }
        ensures grows { seen_size hand.old ≤ result }
        ensures opened { length self.now.opened ≤ result }
        ensures logs { AddsEvents hand.old.log (size_event result ∷ []) hand.new.log }
        // Nobody else can append while one hand has all shares.
        ensures whole { IsWholeHand hand.old → result ≡ seen_size hand.old }
    {
        // For the proof: a hand that has seen more owns the same places.
        self.laws();
        hand.claims.laws();
        laws::own_places_stay();
        self.word.size(&mut hand.claims)
    }
}
