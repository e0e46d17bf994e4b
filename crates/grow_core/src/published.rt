//! A walk over what a vector shows.
ghost use Rattle.std.specs.Prelude.{◌≡◌, ◌+◌, ◌<◌, ◌≤◌, [], ◌∷◌, Some, IfSome, IsSome, length, filter, is_some, slice_get};
ghost use Rattle.seg_core.specs.Segment.{most_places};
ghost use Rattle.grow_core.specs.Vector.{IsOpenedAt, base_of, limit_of};
ghost use Rattle.grow_core.specs.Published.{one_if_shown};
ghost use Rattle.grow_core.specs.ShownCells.{HoldOpened};

use crate::read::Shown;
use crate::vector::Shared;
use std::iter::FusedIterator;
use std::marker::Model;

// How many places a walk looks at together.
const LOOKED_AHEAD: u64 = 256;

/// The values that the places of a vector show, in order. An item is `None` if its place shows no value: not
/// yet, or because it is broken.
#[derive(Drop)]
pub struct Published<'a, T> {
    vector: &'a Shared<T>,
    end: u64,
    // The values of places that were found filled: those from this place on.
    from: u64,
    filled: &'a [T],
    // How many of them were shown. An item that is one of them changes this number alone.
    shown: usize,
}

impl<'a, T> Model for Published<'a, T> {
    ghost use Rattle.std.specs.Prelude.{◌+◌, ◌<◌, ◌≤◌, length};
    ghost use Rattle.grow_core.specs.Vector.{limit_of};
    ghost use Rattle.grow_core.specs.Published.{PublishedView, published_coded};
    ghost use Rattle.grow_core.specs.ShownCells.{HoldOpened};

    ghost Value = { PublishedView T };

    ghost coded = { published_coded T.code };

    ghost view = { λ p. record { vector = p.vector.now; place = p.from + p.shown; end = p.end } };

    ghost invariant = { λ p. (p.shown ≤ length p.filled.now) × (p.from + length p.filled.now ≤ p.end)
        × (p.end ≤ limit_of p.vector.now) × HoldOpened p.vector.now p.from p.filled.now };
}

// Counts an item: 1 if its place shows a value, otherwise 0.
fn count_shown<T>(item: &Option<&T>) -> u64
    ensures value { result ≡ one_if_shown item.now }
    ensures few { result ≤ 1 }
{
    match item {
        Some(_) => 1,
        None => 0,
    }
}

// The value with this number.
#[inline(always)]
fn value_at<T>(values: &[T], i: usize) -> &T
    requires { i < length values.now }
    ensures { slice_get values.now i ≡ Some result.now }
{
    &values[i]
}

impl<T> Shared<T> {
    /// Walks over what each place shows, from place 0 to the size that one load finds now, for a caller
    /// without a hand. Each item is what one look shows. It looks at up to 256 places ahead, as long as they are
    /// filled, by one load for each word of states. A place that is not filled then is looked at again when its item
    /// is asked for.
    #[inline(always)]
    pub fn published(&self) -> Published<'_, T>
        ensures vector { result.vector ≡ self.now }
        ensures from { result.place ≡ 0 }
        ensures opened { base_of self.now ≤ result.end }
        ensures within { result.end ≤ limit_of self.now }
        ensures small { result.end ≤ most_places }
    {
        // For the proof: the limit is that of a vector.
        self.laws();
        self.published_from(0, self.claimed())
    }

    /// Returns how many places show a value now, for a caller without a hand: it walks like `published`, and counts the
    /// values that it finds. A place that is filled during the walk may be counted or not.
    ///
    /// Its time is linear in the size. It takes no memory.
    pub fn published_count(&self) -> u64
        // A value of the opened list is shown to everybody.
        ensures opened { length (filter is_some self.now.opened) ≤ result }
        ensures within { result ≤ limit_of self.now }
    {
        // For the proof: the opened list ends at the vector's base.
        self.laws();
        let mut count = 0;
        for item in self.published() {
            count += count_shown(&item);
        }
        count
    }

    /// Returns the size that one load finds now, for a caller without a hand. Each place below it is claimed, or is a
    /// member of the list that the vector was opened on.
    pub fn claimed(&self) -> u64
        ensures opened { base_of self.now ≤ result }
        ensures within { result ≤ limit_of self.now }
    {
        // For the proof: the vector's base is within its limit.
        self.laws();
        let size = self.word.peek();
        size.max(self.word.base()).min(self.limit())
    }

    // A walk from a place on, up to an end.
    #[inline(always)]
    pub(crate) fn published_from(&self, place: u64, end: u64) -> Published<'_, T>
        requires order { place ≤ end }
        requires within { end ≤ limit_of self.now }
        ensures vector { result.vector ≡ self.now }
        ensures from { result.place ≡ place }
        ensures end { result.end ≡ end }
    {
        let none: &[T] = &[];
        Published {
            vector: self,
            end,
            from: place,
            filled: none,
            shown: 0,
        }
    }

    // The values of the places from this one on that are found filled, up to the first that is not, and `n` or
    // LOOKED_AHEAD at most. A walk comes here once for all of them, by a call, so that its loop has little else.
    #[cold]
    #[inline(never)]
    #[tactic(auto, using(crate::proofs::Places::within_length, crate::proofs::OpenedValues::hold_one))]
    fn look_along(&self, place: u64, n: u64) -> &[T]
        requires some { 0 < n }
        requires within { place + n ≤ limit_of self.now }
        ensures few { length result.now ≤ n }
        ensures opened { HoldOpened self.now place result.now }
        ensures shown { (x : T) → IsOpenedAt self.now place x → 0 < length result.now }
    {
        // For the proof: the opened list ends at the vector's base, which is within its limit.
        self.laws();
        let layout = self.layout();
        let (segment, _) = layout.locate(place);
        let left = layout.first(segment) + layout.len(segment) - place;
        let filled = self.filled_places(segment, place, n.min(left).min(LOOKED_AHEAD));
        if 0 < filled.len() {
            return filled;
        }
        if place < self.word.base() {
            return self.look_for_value(place);
        }
        filled
    }

    // The value that a look shows at a place, as a slice. There is none if it shows no value.
    fn look_for_value(&self, place: u64) -> &[T]
        ensures few { length result.now ≤ 1 }
        ensures opened { (x : T) → IsOpenedAt self.now place x → result.now ≡ x ∷ [] }
    {
        match self.look(place) {
            Shown::Filled(at) => self.slice_of(&at.placed),
            Shown::Pending | Shown::Broken(_) => &[],
        }
    }
}

impl<'a, T> Published<'a, T> {
    // The values with the next item, the place of the first of them, and how many come before the item: the values that
    // are left, or, if none is, those that a look finds. There are none if the next place shows no value, or at the
    // end.
    #[inline(always)]
    fn values_ahead(&self) -> Option<(u64, &'a [T], usize)>
        ensures place { IfSome result (λ (from, _, shown). from + shown ≡ self.now.place) }
        ensures more { IfSome result (λ (_, filled, shown). shown < length filled.now) }
        ensures within { IfSome result
            (λ (from, filled, _). from + length filled.now ≤ self.now.end) }
        ensures opened { IfSome result
            (λ (from, filled, _). HoldOpened self.now.vector from filled.now) }
        ensures shown { (x : T) → self.now.place < self.now.end
            → IsOpenedAt self.now.vector self.now.place x → IsSome result }
    {
        if self.shown < self.filled.len() {
            return Some((self.from, self.filled, self.shown));
        }
        let place = self.from + self.shown as u64;
        if place == self.end {
            return None;
        }
        let vector = self.vector;
        let filled = vector.look_along(place, self.end - place);
        if 0 < filled.len() {
            return Some((place, filled, 0));
        }
        None
    }
}

impl<'a, T> Iterator for Published<'a, T> {
    ghost use Rattle.std.specs.Iterator.{at_most};
    ghost use Rattle.std.specs.Prelude.{◌-◌};
    ghost use Rattle.grow_core.specs.Published.{WalksOn};

    type Item = Option<&'a T>;

    ghost next_gives = { WalksOn };

    ghost remaining = { λ p. at_most (p.end - p.place) };

    // It is laid into the loop of a walk, and passes no `&mut` on, so that the fields of the walk can lie in registers.
    #[inline(always)]
    fn next(&mut self) -> Option<Option<&'a T>> {
        if let Some((from, filled, shown)) = self.values_ahead() {
            self.from = from;
            self.filled = filled;
            self.shown = shown + 1;
            return Some(Some(value_at(filled, shown)));
        }
        let place = self.from + self.shown as u64;
        if place == self.end {
            return None;
        }
        let none: &[T] = &[];
        self.from = place + 1;
        self.filled = none;
        self.shown = 0;
        Some(None)
    }
}

impl<'a, T> FusedIterator for Published<'a, T> {}
