//! The segments of a vector, and what their places show.
ghost use Rattle.std.specs.Prelude.{◌≡◌, ℕ, ◌+◌, ◌-◌, ◌<◌, ◌≤◌, Some, IfSome, length, slice_get};
ghost use Rattle.std.specs.Iterator.{at_most};
ghost use Rattle.std.specs.Option.{option_copied};
ghost use Rattle.cell_core.specs.Block.{AreFilledFrom};
ghost use Rattle.table_core.specs.Table.{IsBlockOf, IsKeyIn};
ghost use Rattle.grow_core.specs.Parts.{values_in};
ghost use Rattle.grow_core.specs.Token.{place_in};
ghost use Rattle.grow_core.specs.ShownCells.{GoesOnBySegment, HoldOpened};
ghost use Rattle.grow_core.specs.Slices.{IsInOneSegment, IsToTheEnd};
ghost use Rattle.seg_core.specs.Segment.{HasPlace, segment_count, segment_end};
ghost use Rattle.grow_core.specs.Vector.{IsOpenedAt, base_of, limit_of, layout_of};

use crate::blocks::find_cell;
use crate::published::Published;
use crate::read::Shown;
use crate::ties::CellBlock;
use crate::vector::Shared;
use cell_core::block::Row;
use seg_core::laws::places;
use std::iter::FusedIterator;
use std::marker::Model;
use table_core::Key;

/// The segments that are left, in order, up to an end. An item has the places of one segment.
#[derive(Drop)]
pub struct ShownSegments<'a, T> {
    vector: &'a Shared<T>,
    place: u64,
    end: u64,
}

impl<'a, T> Model for ShownSegments<'a, T> {
    ghost use Rattle.std.specs.Prelude.{◌≤◌};
    ghost use Rattle.grow_core.specs.Vector.{limit_of};
    ghost use Rattle.grow_core.specs.Published.{PublishedView, published_coded};

    ghost Value = { PublishedView T };

    ghost coded = { published_coded T.code };

    ghost view = { λ s. record { vector = s.vector.now; place = s.place; end = s.end } };

    ghost invariant = { λ s. (s.place ≤ s.end) × (s.end ≤ limit_of s.vector.now) };
}

/// Places of one segment. A call looks at those that it asks for.
#[derive(Drop)]
pub struct ShownCells<'a, T> {
    vector: &'a Shared<T>,
    segment: u32,
    from: u64,
    n: u64,
}

impl<'a, T> Model for ShownCells<'a, T> {
    ghost use Rattle.std.specs.Prelude.{◌+◌, ◌<◌, ◌≤◌};
    ghost use Rattle.seg_core.specs.Segment.{HasPlace, segment_count, segment_end};
    ghost use Rattle.grow_core.specs.Vector.{limit_of, layout_of};
    ghost use Rattle.grow_core.specs.ShownCells.{CellsView, cells_coded};

    ghost Value = { CellsView T };

    ghost coded = { cells_coded T.code };

    ghost view = { λ c. record { vector = c.vector.now; from = c.from; n = c.n } };

    ghost invariant = { λ c. (0 < c.n) × (c.from + c.n ≤ limit_of c.vector.now)
        × (c.segment < segment_count (layout_of c.vector.now))
        × HasPlace (layout_of c.vector.now) c.segment c.from
        × (c.from + c.n ≤ segment_end (layout_of c.vector.now) c.segment) };
}

impl<T> Shared<T> {
    /// Iterates over the segments up to the size that one load finds now, for a caller without a hand.
    pub fn segments(&self) -> ShownSegments<'_, T>
        ensures vector { result.vector ≡ self.now }
        ensures from { result.place ≡ 0 }
        ensures opened { base_of self.now ≤ result.end }
        ensures within { result.end ≤ limit_of self.now }
    {
        ShownSegments {
            vector: self,
            place: 0,
            end: self.claimed(),
        }
    }

    /// Returns the places from `place` on, up to `end` or to the end of the segment of `place`. It looks at none.
    pub fn cells(&self, place: u64, end: u64) -> ShownCells<'_, T>
        requires some { place < end }
        requires within { end ≤ limit_of self.now }
        ensures vector { result.vector ≡ self.now }
        ensures from { result.from ≡ place }
        ensures some { 0 < result.n }
        ensures within { place + result.n ≤ end }
        ensures segment { IsInOneSegment (layout_of self.now) place result.n }
        ensures most { IsToTheEnd (layout_of self.now) place result.n end }
    {
        // For the proof: the limit is that of a vector.
        self.laws();
        let layout = self.layout();
        let (segment, _) = layout.locate(place);
        let past = layout.first(segment) + layout.len(segment);
        ShownCells {
            vector: self,
            segment,
            from: place,
            n: past.min(end) - place,
        }
    }

    /// Returns the values of the filled places of one segment from `place` on, up to the first that is not filled now,
    /// for a caller without a hand. It loads each of their words of states once, and no size. The slice is empty if the
    /// place is not filled, or is not below the limit.
    pub fn shown_run(&self, place: u64) -> &[T]
        ensures within { 0 < length result.now
            → place + length result.now ≤ limit_of self.now }
        ensures segment { 0 < length result.now
            → IsInOneSegment (layout_of self.now) place (length result.now) }
        ensures opened { HoldOpened self.now place result.now }
    {
        // For the proof: the limit is that of a vector.
        self.laws();
        let limit = self.limit();
        if place >= limit {
            return &[];
        }
        self.cells(place, limit).filled(0)
    }

    /// Returns the address of the words with the states of the place's segment (`Block::states` of `cell_core`), if the
    /// segment is installed. They stay there as long as the vector.
    pub fn states_at(&self, place: u64) -> Option<*mut u64>
        ensures { IfSome result (λ _. place < limit_of self.now) }
    {
        // For the proof: the limit is that of a vector.
        self.laws();
        if place >= self.limit() {
            return None;
        }
        let (segment, _offset) = self.table.layout().locate(place);
        match self.table.scout(segment) {
            Some(block) => Some(block.states()),
            None => None,
        }
    }

    // The values of the filled places of one segment from this one on, up to the first that is not filled, and `n` at
    // most.
    pub(crate) fn filled_places(&self, segment: u32, place: u64, n: u64) -> &[T]
        requires there { HasPlace (layout_of self.now) segment place }
        requires segment { segment < segment_count (layout_of self.now) }
        requires within { place + n ≤ segment_end (layout_of self.now) segment }
        ensures few { length result.now ≤ n }
        ensures opened { HoldOpened self.now place result.now }
    {
        let offset = place - self.table.layout().first(segment);
        let Some((block, key)) = self.table.scout_key(segment) else {
            return &[];
        };
        let (values, row) = block.filled(offset, n);
        if place < self.word.base() {
            let opened = (self.word.base() - place).min(values.len() as u64);
            self.opened_cells_agree(block, &key, offset, place, &row, opened);
        }
        values
    }

    // Shows a proof that cells which were found filled have the values of the opened list at their places. It leaves no
    // instruction in its callers.
    fn opened_cells_agree(
        &self,
        block: &CellBlock<T>,
        key: &Key,
        offset: u64,
        place: u64,
        found: &Row<T>,
        n: u64,
    )
        requires key { IsKeyIn self.now.segments key.now }
        requires block { block.now ≡ key.now.block }
        requires long { IsBlockOf (layout_of self.now) key.now.segment block.now }
        requires here { place_in (layout_of self.now) key.now.segment offset ≡ place }
        requires found { AreFilledFrom block.now offset found.now }
        requires few { n ≤ length found.now }
        requires within { place + n ≤ base_of self.now }
        ensures { (i : ℕ) (x : T) → i < n → IsOpenedAt self.now (place + i) x
            → slice_get (values_in found.now) i ≡ Some (Some x) }
    {
        // For the proof: the vector's base is within its limit.
        self.laws();
        for i in 0..n {
            // For the proof: each place is one cell of one segment.
            places();
            if let Some((_segment, _offset, known)) = find_cell(
                &self.table,
                &self.keys,
                self.count,
                place + i,
            ) {
                self.table.agree(&known, key);
                self.row
                    .at(place + i)
                    .agree(&block.token_at(offset, found, i));
            }
        }
    }
}

impl<'a, T> Iterator for ShownSegments<'a, T> {
    type Item = ShownCells<'a, T>;

    ghost next_gives = { GoesOnBySegment };

    ghost remaining = { λ s. at_most (s.end - s.place) };

    fn next(&mut self) -> Option<ShownCells<'a, T>> {
        let (vector, from) = (self.vector, self.place);
        if from == self.end {
            return None;
        }
        let cells = vector.cells(from, self.end);
        self.place += cells.n;
        Some(cells)
    }
}

impl<'a, T> FusedIterator for ShownSegments<'a, T> {}

impl<'a, T> ShownCells<'a, T> {
    /// Returns the first place.
    pub fn from(&self) -> u64
        ensures { result ≡ self.now.from }
    {
        self.from
    }

    /// Returns the number of places, at least one.
    pub fn len(&self) -> u64
        ensures value { result ≡ self.now.n }
        ensures some { 0 < result }
    {
        self.n
    }

    /// Returns the value of place `i` of these, or `None` if it shows none now: not yet, or because it is broken. It
    /// looks once.
    pub fn get(&self, i: u64) -> Option<&'a T>
        requires { i < self.now.n }
        ensures opened { (x : T) → IsOpenedAt self.now.vector (self.now.from + i) x
            → option_copied result ≡ Some x }
    {
        let vector = self.vector;
        // For the proof: the limit is that of a vector.
        vector.laws();
        match vector.look(self.from + i) {
            Shown::Filled(at) => Some(at.value),
            Shown::Pending | Shown::Broken(_) => None,
        }
    }

    /// Iterates over what each of the places shows, like `published`.
    pub fn iter(&self) -> Published<'a, T>
        ensures vector { result.vector ≡ self.now.vector }
        ensures from { result.place ≡ self.now.from }
        ensures end { result.end ≡ self.now.from + self.now.n }
    {
        let vector = self.vector;
        // For the proof: the limit is that of a vector.
        vector.laws();
        vector.published_from(self.from, self.from + self.n)
    }

    /// Returns the values of the filled places from place `i` of these on, up to the first that is not filled. It loads
    /// each of their words of states once; the slice is empty if the first place is not filled.
    pub fn filled(&self, i: u64) -> &'a [T]
        requires { i < self.now.n }
        ensures few { i + length result.now ≤ self.now.n }
        ensures opened { HoldOpened self.now.vector (self.now.from + i) result.now }
    {
        let vector = self.vector;
        // For the proof: the limit is that of a vector.
        vector.laws();
        vector.filled_places(self.segment, self.from + i, self.n - i)
    }
}
