// The raw steps on one cell, each a few lines around one atomic step on the word that holds the cell's state.
ghost use Rattle.std.specs.Prelude.{Bool, true, false, ◌≡◌, ◌≢◌, ℕ, ◌+◌, ◌*◌, ◌-◌, ◌^◌, ◌<◌, [], ◌∷◌, Option, Some, None};
ghost use base.Fml.{ftrue};
ghost use base.Stored.{coded_bool};
ghost use denote.Sharing.{said};
ghost use Rattle.std.specs.Coded.{coded_option};
ghost use Rattle.cell_core.specs.Fields.{field};
ghost use Rattle.cell_core.specs.Fixed.{ShowsStage};
ghost use Rattle.tie_core.specs.Tie.{Filled, Broken, HasMade, begins, breaks, fills, looks, mends};
ghost use Rattle.cell_core.specs.Slot.{Names, IsPlain, SeeksBroken, names_coded, break_added, fill_added, writer_stage, slot_owned, pen_owned, sighted, written, was_broken};
ghost use Rattle.cell_core.specs.Slot.{empty_state, busy_state, filled_state, broken_state, owner_broken_state};
ghost use Rattle.cell_core.specs.Member.{HasNames, IsStateOf, MayBeStateOf, IsEpochOf};

use crate::slot::epoch::{RawEnded, RawEpoch};
use crate::slot::member::RawMember;
use std::marker::{Brand, Model, PhantomData};
use std::sync::atomic::Ordering::SeqCst;
use std::sync::atomic::raw;
use tie_core::{Book, Offer};

// The state of a cell, in four bits of a word: it is empty, one thread has it, it is filled, it is broken, or an owner
// broke it and its epoch may still last. All but the first have the lowest bit.
pub(crate) const EMPTY: u64 = 0;

pub(crate) const BUSY: u64 = 1;

pub(crate) const FILLED: u64 = 3;

pub(crate) const BROKEN: u64 = 5;

pub(crate) const BROKEN_BY_OWNER: u64 = 9;

// A cell that is lent: the word that has its state in a field, and its room. It must be spent.
pub(crate) struct RawSlot<'a, T> {
    pub(crate) word: *const u64,
    pub(crate) room: *const T,
    pub(crate) marker: PhantomData<&'a T>,
    pub(crate) ghost of: { Names } by { names_coded },
    pub(crate) ghost index: { ℕ },
}

impl<'a, T> Model for RawSlot<'a, T> {
    ghost also_owns = { λ s. slot_owned T.row s.of 'a s.word s.room s.index };
}

// What a step that sought a state gained when it found another or this one: `first` says whether the cell is begun and
// not busy. It must be spent.
pub(crate) struct RawPen<'a, T> {
    pub(crate) word: *const u64,
    pub(crate) room: *const T,
    pub(crate) marker: PhantomData<&'a T>,
    pub(crate) ghost of: { Names } by { names_coded },
    pub(crate) ghost index: { ℕ },
    pub(crate) ghost first: { Bool } by { coded_bool },
    pub(crate) ghost sought: { ℕ },
    pub(crate) ghost found: { ℕ },
}

impl<'a, T> Model for RawPen<'a, T> {
    ghost also_owns = { λ c. pen_owned T.row c.of 'a c.word c.room c.index c.first c.sought c.found };
}

// What a load of the state `found` showed. It has no bytes.
pub(crate) struct RawSight<T> {
    marker: PhantomData<T>,
    pub(crate) ghost of: { Names } by { names_coded },
    pub(crate) ghost found: { ℕ },
    pub(crate) ghost value: { Option T } by { coded_option T.code },
}

impl<T> Model for RawSight<T> {
    ghost also_owns = { λ s. sighted T.row s.of s.found s.value };
}

// Shows that a cell holds a value. It has no bytes. The writer's own token knows the state that its step
// found.
pub(crate) struct Written<T> {
    pub(crate) marker: PhantomData<T>,
    pub(crate) ghost of: { ℕ },
    pub(crate) ghost value: { T },
    pub(crate) ghost found: { ℕ },
}

impl<T> Model for Written<T> {
    ghost also_owns = { λ w. written T.row w.of w.value };

    ghost also_shares = { λ w _ κ. said (written T.row w.of w.value) κ };
}

// Evidence that a cell was once broken. It has no bytes.
pub(crate) struct RawBroken {
    marker: PhantomData<u8>,
    pub(crate) ghost of: { ℕ },
}

impl Model for RawBroken {
    ghost also_owns = { λ c. was_broken c.of };

    ghost also_shares = { λ c _ κ. said (was_broken c.of) κ };
}

// What shows that another call began a cell. It has no bytes, and a lost step alone makes one.
pub(crate) struct RawBegun {
    marker: PhantomData<()>,
    pub(crate) ghost of: { Names } by { names_coded },
}

impl Model for RawBegun {
    ghost also_owns = { λ _. ftrue };
}

impl<'a, T> RawSlot<'a, T> {
    // The step from empty to busy, which leaves any other state. Returns the word as it was.
    pub(crate) fn begin(self, unit: u64) -> (u64, RawPen<'a, T>)
        requires { (unit ≡ 16 ^ self.index) × IsPlain self.of }
        ensures { (result.1.of ≡ self.entry.of) × (result.1.index ≡ self.entry.index)
            × (result.1.first ≡ false) × (result.1.sought ≡ empty_state)
            × (result.1.found ≡ field result.0 self.entry.index) }
    {
        let RawSlot { word, room, marker } = self;
        let found = unsafe { raw::fetch_or::<Brand>(word, unit, SeqCst) };
        (found, RawPen { word, room, marker })
    }

    // The step from broken to busy, which leaves any other state.
    pub(crate) fn mend(self, mask: u64) -> (u64, RawPen<'a, T>)
        requires { (mask ≡ 2 ^ 64 - 1 - 4 * 16 ^ self.index) × IsPlain self.of }
        ensures { (result.1.of ≡ self.entry.of) × (result.1.index ≡ self.entry.index)
            × (result.1.first ≡ false) × (result.1.sought ≡ broken_state)
            × (result.1.found ≡ field result.0 self.entry.index) }
    {
        let RawSlot { word, room, marker } = self;
        let found = unsafe { raw::fetch_and::<Brand>(word, mask, SeqCst) };
        (found, RawPen { word, room, marker })
    }

    // Takes a cell that an owner broke, by evidence that the epoch has ended. Leaves any other state.
    pub(crate) fn reopen(
        self,
        mask: u64,
        member: &RawMember<T>,
        ended: &RawEnded,
    ) -> (u64, RawPen<'a, T>)
        requires { (mask ≡ 2 ^ 64 - 1 - 8 * 16 ^ self.index)
            × HasNames self.of member.now.of.value member.now.of.name member.now.of.epoch
            × IsEpochOf member.now.of.value member.now.of.epoch (ended.now.of ∷ []) × IsPlain self.of }
        ensures { (result.1.of ≡ self.entry.of) × (result.1.index ≡ self.entry.index)
            × (result.1.first ≡ false) × (result.1.sought ≡ owner_broken_state)
            × (result.1.found ≡ field result.0 self.entry.index)
            × MayBeStateOf member.now.of.value (field result.0 self.entry.index) }
    {
        let RawSlot { word, room, marker } = self;
        let found = unsafe { raw::fetch_and::<Brand>(word, mask, SeqCst) };
        (found, RawPen { word, room, marker })
    }

    // The word, and what the cell's state shows.
    pub(crate) fn sight(self) -> (u64, RawSight<T>)
        ensures { (result.1.of ≡ self.entry.of)
            × (result.1.found ≡ field result.0 self.entry.index) }
    {
        let RawSlot {
            word,
            room: _,
            marker: _,
        } = self;
        let found = unsafe { raw::load::<Brand>(word, SeqCst) };
        let sight = RawSight {
            marker: PhantomData,
        };
        (found, sight)
    }

    // The word, and what the state of a tied cell shows. The caller's update runs in the load.
    #[inline(always)]
    pub(crate) fn sight_for<'b, X, K: Book<X>>(
        self,
        offer: Offer<'b, X, K>,
    ) -> (u64, RawSight<T>, Offer<'b, X, K>)
        requires { (self.of.tied ≡ Some offer.tie) × (offer.step ≡ looks) × (offer.made ≡ None) }
        ensures { (result.1.of ≡ self.entry.of) × (result.1.found ≡ field result.0 self.entry.index)
            × (result.2.tie ≡ offer.entry.tie) × (result.2.about ≡ offer.entry.about)
            × (result.2.step ≡ offer.entry.step)
            × HasMade looks (field result.0 self.entry.index) result.2.made }
    {
        let RawSlot {
            word,
            room: _,
            marker: _,
        } = self;
        let found = unsafe { raw::load::<Brand>(word, SeqCst) };
        let sight = RawSight {
            marker: PhantomData,
        };
        (found, sight, offer)
    }

    // Begins a tied cell. The caller's update shows that nobody has begun it. It runs in a load of a word that nobody
    // else has, so that no cache line is waited for.
    #[inline(always)]
    pub(crate) fn begin_for<'b, X, K: Book<X>>(
        self,
        offer: Offer<'b, X, K>,
    ) -> (RawPen<'a, T>, Offer<'b, X, K>)
        requires { (self.of.tied ≡ Some offer.tie) × (offer.step ≡ begins) × (offer.made ≡ None) }
        ensures { (result.0.of ≡ self.entry.of) × (result.0.index ≡ self.entry.index)
            × (result.0.first ≡ true) × (result.0.sought ≡ empty_state) × (result.0.found ≡ empty_state)
            × (result.1.tie ≡ offer.entry.tie) × (result.1.about ≡ offer.entry.about)
            × (result.1.step ≡ offer.entry.step) × HasMade begins empty_state result.1.made }
    {
        let RawSlot { word, room, marker } = self;
        // The step is this load.
        let own = 0;
        let _found = unsafe { raw::load::<Brand>(&raw const own, SeqCst) };
        (RawPen { word, room, marker }, offer)
    }

    // The step of a cell with a seat from broken to busy, whoever broke the cell: a cell has a seat only if its epoch
    // has ended. It leaves any other state. The caller's update runs in it.
    #[inline(always)]
    pub(crate) fn mend_for<'b, X, K: Book<X>>(
        self,
        mask: u64,
        offer: Offer<'b, X, K>,
    ) -> (u64, RawPen<'a, T>, Offer<'b, X, K>)
        requires { (self.of.tied ≡ Some offer.tie) × (offer.step ≡ mends) × (offer.made ≡ None)
            × (mask ≡ 2 ^ 64 - 1 - 12 * 16 ^ self.index) × (offer.tie.fixed ≡ None) }
        ensures { (result.1.of ≡ self.entry.of) × (result.1.index ≡ self.entry.index)
            × (result.1.first ≡ false)
            × SeeksBroken (field result.0 self.entry.index) result.1.sought
            × (result.1.found ≡ field result.0 self.entry.index)
            × (result.2.tie ≡ offer.entry.tie) × (result.2.about ≡ offer.entry.about)
            × (result.2.step ≡ offer.entry.step)
            × HasMade mends (field result.0 self.entry.index) result.2.made }
    {
        let RawSlot { word, room, marker } = self;
        let found = unsafe { raw::fetch_and::<Brand>(word, mask, SeqCst) };
        (found, RawPen { word, room, marker }, offer)
    }

    // Returns the value, by evidence that there is one. It takes no step.
    pub(crate) fn value(self, written: &Written<T>) -> &'a T
        requires { written.now.of ≡ self.of.value_name }
        ensures { result.now ≡ written.now.value }
    {
        let RawSlot {
            word: _,
            room,
            marker: _,
        } = self;
        unsafe { &*room }
    }

    // Loads the word, by what is known of the cell.
    pub(crate) fn known(self, member: &RawMember<T>) -> (u64, RawSight<T>)
        requires { HasNames self.of member.now.of.value member.now.of.name member.now.of.epoch }
        ensures { (result.1.of ≡ self.entry.of) × (result.1.found ≡ field result.0 self.entry.index)
            × MayBeStateOf member.now.of.value (field result.0 self.entry.index)
            × ShowsStage self.entry.of (field result.0 self.entry.index) }
    {
        let RawSlot {
            word,
            room: _,
            marker: _,
        } = self;
        let found = unsafe { raw::load::<Brand>(word, SeqCst) };
        let sight = RawSight {
            marker: PhantomData,
        };
        (found, sight)
    }

    // Loads the word, by evidence that the epoch lasts.
    pub(crate) fn lasting(self, member: &RawMember<T>, epoch: &RawEpoch) -> u64
        requires { HasNames self.of member.now.of.value member.now.of.name member.now.of.epoch
            × IsEpochOf member.now.of.value member.now.of.epoch (epoch.now.of ∷ []) }
        ensures { IsStateOf member.now.of.value (field result self.entry.index) }
    {
        let RawSlot {
            word,
            room: _,
            marker: _,
        } = self;
        unsafe { raw::load::<Brand>(word, SeqCst) }
    }
}

impl<'a, T> RawPen<'a, T> {
    // Writes the value, and then adds what makes a busy cell filled.
    pub(crate) fn fill(self, value: T, added: u64) -> Written<T>
        requires { (self.found ≡ self.sought) × (added ≡ 2 * 16 ^ self.index) × IsPlain self.of
            × (self.first ≡ false) }
        ensures { (result.of ≡ self.entry.of.value_name) × (result.value ≡ value)
            × (result.found ≡ self.entry.found) }
    {
        let RawPen {
            word,
            room,
            marker: _,
        } = self;
        unsafe { (room as *mut T).write(value) };
        unsafe { raw::fetch_add::<Brand>(word, added, SeqCst) };
        Written {
            marker: PhantomData,
        }
    }

    // Adds what makes a busy cell broken.
    pub(crate) fn break_cell(self, bits: u64) -> RawBroken
        requires { (self.found ≡ self.sought) × (bits ≡ 4 * 16 ^ self.index) × IsPlain self.of
            × (self.first ≡ false) }
        ensures { result.of ≡ self.entry.of.broken_name }
    {
        let RawPen {
            word,
            room: _,
            marker: _,
        } = self;
        unsafe { raw::fetch_add::<Brand>(word, bits, SeqCst) };
        RawBroken {
            marker: PhantomData,
        }
    }

    // Writes the value, and then adds what makes the cell filled. The caller's update runs in that step.
    #[inline(always)]
    pub(crate) fn fill_for<'b, X, K: Book<X>>(
        self,
        item: T,
        bits: u64,
        offer: Offer<'b, X, K>,
    ) -> (Written<T>, Offer<'b, X, K>)
        requires { (self.found ≡ self.sought) × (bits ≡ fill_added self.first * 16 ^ self.index)
            × (self.of.tied ≡ Some offer.tie) × (offer.step ≡ fills) × (offer.made ≡ None) }
        ensures { (result.0.of ≡ self.entry.of.value_name) × (result.0.value ≡ item)
            × (result.0.found ≡ self.entry.found) × (result.1.tie ≡ offer.entry.tie)
            × (result.1.about ≡ offer.entry.about) × (result.1.step ≡ offer.entry.step)
            × (result.1.made ≡ Some (writer_stage self.entry.first, Filled)) }
    {
        let RawPen {
            word,
            room,
            marker: _,
        } = self;
        unsafe { (room as *mut T).write(item) };
        unsafe { raw::fetch_add::<Brand>(word, bits, SeqCst) };
        let written = Written {
            marker: PhantomData,
        };
        (written, offer)
    }

    // Adds what makes the cell broken. The caller's update runs in that step.
    #[inline(always)]
    pub(crate) fn break_for<'b, X, K: Book<X>>(
        self,
        bits: u64,
        offer: Offer<'b, X, K>,
    ) -> (RawBroken, Offer<'b, X, K>)
        requires { (self.found ≡ self.sought) × (bits ≡ break_added self.first * 16 ^ self.index)
            × (self.of.tied ≡ Some offer.tie) × (offer.step ≡ breaks) × (offer.made ≡ None) }
        ensures { (result.0.of ≡ self.entry.of.broken_name) × (result.1.tie ≡ offer.entry.tie)
            × (result.1.about ≡ offer.entry.about) × (result.1.step ≡ offer.entry.step)
            × (result.1.made ≡ Some (writer_stage self.entry.first, Broken)) }
    {
        let RawPen {
            word,
            room: _,
            marker: _,
        } = self;
        unsafe { raw::fetch_add::<Brand>(word, bits, SeqCst) };
        let broken = RawBroken {
            marker: PhantomData,
        };
        (broken, offer)
    }

    // The token of what a lost step found.
    pub(crate) fn written(self) -> Written<T>
        requires { (self.found ≡ filled_state) × (self.found ≢ self.sought) }
        ensures { result.of ≡ self.entry.of.value_name }
    {
        let RawPen {
            word: _,
            room: _,
            marker: _,
        } = self;
        Written {
            marker: PhantomData,
        }
    }

    pub(crate) fn broken(self) -> RawBroken
        requires { ((busy_state < self.found) × (self.found ≢ filled_state))
            × (self.found ≢ self.sought) }
        ensures { result.of ≡ self.entry.of.broken_name }
    {
        let RawPen {
            word: _,
            room: _,
            marker: _,
        } = self;
        RawBroken {
            marker: PhantomData,
        }
    }

    // What a lost step shows of a cell that another call began.
    pub(crate) fn begun(self) -> RawBegun
        requires { (self.found ≡ busy_state) × (self.found ≢ self.sought) }
        ensures { result.of ≡ self.entry.of }
    {
        let RawPen {
            word: _,
            room: _,
            marker: _,
        } = self;
        RawBegun {
            marker: PhantomData,
        }
    }

    pub(crate) fn unused(self)
        requires { self.found ≢ self.sought }
    {
        let RawPen {
            word: _,
            room: _,
            marker: _,
        } = self;
    }
}

impl<T> RawSight<T> {
    pub(crate) fn written(self) -> Written<T>
        requires { self.found ≡ filled_state }
        ensures { result.of ≡ self.of.value_name }
    {
        let RawSight { marker: _ } = self;
        Written {
            marker: PhantomData,
        }
    }

    pub(crate) fn broken(self) -> RawBroken
        requires { (busy_state < self.found) × (self.found ≢ filled_state) }
        ensures { result.of ≡ self.of.broken_name }
    {
        let RawSight { marker: _ } = self;
        RawBroken {
            marker: PhantomData,
        }
    }

    pub(crate) fn unused(self) {
        let RawSight { marker: _ } = self;
    }
}

impl<T> Written<T> {
    pub(crate) fn again(&self) -> Written<T>
        ensures { (result.of ≡ self.now.of) × (result.value ≡ self.now.value)
            × (result.found ≡ self.now.found) }
    {
        Written {
            marker: PhantomData,
        }
    }

    // Shows a proof that a cell holds one value.
    pub(crate) fn agrees(&self, other: &Written<T>)
        requires { self.now.of ≡ other.now.of }
        ensures { self.now.value ≡ other.now.value }
    {}
}

impl RawBroken {
    pub(crate) fn again(&self) -> RawBroken
        ensures { result.of ≡ self.now.of }
    {
        RawBroken {
            marker: PhantomData,
        }
    }
}

impl<T> Drop for Written<T> {
    fn drop(self) {
        let Self { marker: _ } = self;
    }
}

impl Drop for RawBroken {
    fn drop(self) {
        let Self { marker: _ } = self;
    }
}

impl Drop for RawBegun {
    fn drop(self) {
        let Self { marker: _ } = self;
    }
}

unsafe impl<'a, T: Send + Sync> Send for RawPen<'a, T> {}

unsafe impl<T> Send for Written<T> {}

unsafe impl<T> Sync for Written<T> {}

unsafe impl Send for RawBroken {}

unsafe impl Sync for RawBroken {}

unsafe impl Send for RawBegun {}

unsafe impl Sync for RawBegun {}
