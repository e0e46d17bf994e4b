// The raw steps on a run: cells next to each other whose states are in one word. One step begins them all, one
// publishes them all, and one load shows them all. A tied run is begun in a step on another word.
ghost use Rattle.std.specs.Prelude.{Bool, true, false, Some, None, ◌≡◌, ◌≢◌, ℕ, ◌+◌, ◌%◌, ◌^◌, ◌<◌, ◌≤◌, ◌++◌, ◌∷◌, [], List, length, replicate};
ghost use base.Stored.{coded_bool, coded_list};
ghost use Rattle.tie_core.specs.Tie.{Idle, Begun, Filled, begins, fills};
ghost use Rattle.cell_core.specs.Fields.{sums};
ghost use Rattle.cell_core.specs.Fixed.{ShowStages};
ghost use Rattle.cell_core.specs.Slot.{Names, ArePlain, names_coded, empty_state};
ghost use Rattle.cell_core.specs.Run.{AreEmptyIn, AreFilledIn, AreTiedTo, cells_owned, run_owned, sights_owned, members_of};

use crate::slot::member::RawRow;
use crate::slot::steps::RawPen;
use atomic_table::exchange;
use std::marker::{Brand, Model, PhantomData};
use std::sync::atomic::Ordering::SeqCst;
use std::sync::atomic::raw;
use tie_core::{RunBook, RunOffer};

// Some cells of one word that are lent: the word, and the room of the first one. It must be spent.
pub(crate) struct RawCells<'a, T> {
    pub(crate) word: *const u64,
    pub(crate) room: *const T,
    pub(crate) marker: PhantomData<&'a T>,
    pub(crate) ghost of: { List Names } by { coded_list names_coded },
    pub(crate) ghost index: { ℕ },
}

impl<'a, T> Model for RawCells<'a, T> {
    ghost also_owns = { λ s. cells_owned T.row s.of 'a s.word s.room s.index };
}

// What an exchange gained that sought a word and found another or this one: the right to write each cell, or the value
// that is written. It must be spent.
pub(crate) struct RawRun<'a, T> {
    word: *const u64,
    room: *const T,
    marker: PhantomData<&'a T>,
    pub(crate) ghost of: { List Names } by { coded_list names_coded },
    pub(crate) ghost index: { ℕ },
    pub(crate) ghost first: { Bool } by { coded_bool },
    pub(crate) ghost sought: { ℕ },
    pub(crate) ghost found: { ℕ },
    pub(crate) ghost values: { List T } by { coded_list T.code },
}

impl<'a, T> Model for RawRun<'a, T> {
    ghost also_owns = { λ r.
        run_owned T.row r.of 'a r.word r.room r.index r.first r.sought r.found r.values };
}

// What a load of a word showed of some of its cells. It has no bytes.
pub(crate) struct RawSights<T> {
    marker: PhantomData<T>,
    pub(crate) ghost of: { List Names } by { coded_list names_coded },
    pub(crate) ghost index: { ℕ },
    pub(crate) ghost word: { ℕ },
}

impl<T> Model for RawSights<T> {
    ghost also_owns = { λ s. sights_owned T.row s.of s.index s.word };
}

impl<'a, T> RawCells<'a, T> {
    // The step from empty to busy of each cell, if the word is the one that is sought. Returns the word as it was.
    pub(crate) fn begin(self, sought: u64, begun: u64) -> (u64, RawRun<'a, T>)
        requires { AreEmptyIn sought self.index (length self.of)
            × (begun ≡ (sought + sums 1 (length self.of) self.index) % 2 ^ 64) × ArePlain self.of }
        ensures { (result.1.of ≡ self.entry.of) × (result.1.index ≡ self.entry.index)
            × (result.1.first ≡ false) × (result.1.sought ≡ sought) × (result.1.found ≡ result.0)
            × (result.1.values ≡ []) }
    {
        let RawCells { word, room, marker } = self;
        let found = unsafe { exchange::<Brand>(word, sought, begun) };
        (found, RawRun { word, room, marker })
    }

    // Begins each cell of a tied run. The caller's updates show that nobody has begun any. They run in a load of a
    // word that nobody else has, so that no cache line is waited for.
    #[inline(always)]
    pub(crate) fn begin_for<'b, X, K: RunBook<X>>(
        self,
        offer: RunOffer<'b, X, K>,
    ) -> (RawRun<'a, T>, RunOffer<'b, X, K>)
        requires { AreTiedTo offer.ties self.of × (offer.step ≡ begins) × (offer.made ≡ None)
            × (0 < length self.of) }
        ensures { (result.0.of ≡ self.entry.of) × (result.0.index ≡ self.entry.index)
            × (result.0.first ≡ true) × (result.0.found ≡ result.0.sought) × (result.0.values ≡ [])
            × (result.1.ties ≡ offer.entry.ties) × (result.1.about ≡ offer.entry.about)
            × (result.1.step ≡ offer.entry.step)
            × (result.1.made ≡ Some (replicate (length self.entry.of) (Idle, Begun))) }
    {
        let RawCells { word, room, marker } = self;
        // The step is this load.
        let own = 0;
        let _found = unsafe { raw::load::<Brand>(&raw const own, SeqCst) };
        (RawRun { word, room, marker }, offer)
    }

    // The word, and what it shows of each cell.
    #[inline(always)]
    pub(crate) fn sight(self) -> (u64, RawSights<T>)
        ensures { (result.1.of ≡ self.entry.of) × (result.1.index ≡ self.entry.index)
            × (result.1.word ≡ result.0) × ShowStages self.entry.of self.entry.index result.0 }
    {
        let RawCells {
            word,
            room: _,
            marker: _,
        } = self;
        let found = unsafe { raw::load::<Brand>(word, SeqCst) };
        let sights = RawSights {
            marker: PhantomData,
        };
        (found, sights)
    }
}

impl<T> RawSights<T> {
    // What is known of the first `n` cells, which are all filled.
    #[inline(always)]
    pub(crate) fn filled(self, n: u64) -> RawRow<T>
        requires { (n ≤ length self.of) × AreFilledIn self.word self.index n }
        ensures { (xs : List T) × (length xs ≡ n) × (result.of ≡ members_of self.of xs) }
    {
        let RawSights { marker: _ } = self;
        RawRow {
            marker: PhantomData,
        }
    }
}

impl<'a, T> RawRun<'a, T> {
    // Writes the value of the first cell that has none yet. Nobody sees it yet.
    pub(crate) fn write(self, value: T, at: usize) -> RawRun<'a, T>
        requires { (self.found ≡ self.sought) × (at ≡ length self.values) × (at < length self.of) }
        ensures { (result.of ≡ self.entry.of) × (result.index ≡ self.entry.index)
            × (result.first ≡ self.entry.first) × (result.sought ≡ self.entry.sought)
            × (result.found ≡ self.entry.found) × (result.values ≡ self.entry.values ++ value ∷ []) }
    {
        let RawRun { word, room, marker } = self;
        unsafe { (room.add(at) as *mut T).write(value) };
        RawRun { word, room, marker }
    }

    // Adds what makes each busy cell filled.
    pub(crate) fn publish(self, added: u64) -> RawRow<T>
        requires { (self.found ≡ self.sought) × (length self.values ≡ length self.of)
            × (added ≡ sums 2 (length self.of) self.index) × ArePlain self.of × (self.first ≡ false) }
        ensures { result.of ≡ members_of self.entry.of self.entry.values }
    {
        let RawRun {
            word,
            room: _,
            marker: _,
        } = self;
        unsafe { raw::fetch_add::<Brand>(word, added, SeqCst) };
        RawRow {
            marker: PhantomData,
        }
    }

    // Adds what makes each begun cell of a tied run filled. The caller's updates run in that step.
    #[inline(always)]
    pub(crate) fn publish_for<'b, X, K: RunBook<X>>(
        self,
        bits: u64,
        offer: RunOffer<'b, X, K>,
    ) -> (RawRow<T>, RunOffer<'b, X, K>)
        requires { (self.found ≡ self.sought) × (length self.values ≡ length self.of)
            × (bits ≡ sums 3 (length self.of) self.index) × (self.first ≡ true) × (0 < length self.of)
            × AreTiedTo offer.ties self.of × (offer.step ≡ fills) × (offer.made ≡ None) }
        ensures { (result.0.of ≡ members_of self.entry.of self.entry.values)
            × (result.1.ties ≡ offer.entry.ties) × (result.1.about ≡ offer.entry.about)
            × (result.1.step ≡ offer.entry.step)
            × (result.1.made ≡ Some (replicate (length self.entry.of) (Begun, Filled))) }
    {
        let RawRun {
            word,
            room: _,
            marker: _,
        } = self;
        unsafe { raw::fetch_add::<Brand>(word, bits, SeqCst) };
        let row = RawRow {
            marker: PhantomData,
        };
        (row, offer)
    }

    // Parts the first cell from those after it. None has a value yet.
    pub(crate) fn first(self) -> (RawPen<'a, T>, RawRun<'a, T>)
        requires { (self.found ≡ self.sought) × (self.values ≡ []) × (0 < length self.of) }
        ensures { (result.0.of ∷ result.1.of ≡ self.entry.of) × (result.0.index ≡ self.entry.index)
            × (result.0.first ≡ self.entry.first) × (result.0.sought ≡ empty_state)
            × (result.0.found ≡ empty_state) × (result.1.index ≡ self.entry.index + 1)
            × (result.1.first ≡ self.entry.first) × (result.1.sought ≡ self.entry.sought)
            × (result.1.found ≡ self.entry.sought) × (result.1.values ≡ []) }
    {
        let RawRun { word, room, marker } = self;
        let others = unsafe { room.add(1) };
        (
            RawPen { word, room, marker },
            RawRun {
                word,
                room: others,
                marker,
            },
        )
    }

    pub(crate) fn unused(self)
        requires { self.found ≢ self.sought }
    {
        let RawRun {
            word: _,
            room: _,
            marker: _,
        } = self;
    }

    // No cell is left.
    pub(crate) fn end(self)
        requires { self.of ≡ [] }
    {
        let RawRun {
            word: _,
            room: _,
            marker: _,
        } = self;
    }
}
