// The raw steps on an entry that is tied to a table. In each the update of a visit runs, and the entry's seat goes
// along.
ghost use Rattle.std.specs.Prelude.{◌≡◌, ℕ, List, MatchOption, IfSome};
ghost use denote.RawPtr.{null_ptr};
ghost use Rattle.std.specs.Sync.Atomic.Pointer.{atomic_ptr_value};
ghost use Rattle.std.specs.declared.option.Option.{Option};
ghost use Rattle.std.specs.declared.option.Option.TheVariants.{None, Some};
ghost use Rattle.tie_core.specs.Tie.{Tie, row_of, tie_numbered};
ghost use Rattle.table_core.specs.Entry.{Agrees, length_of, name_of, tie_of, mould_at};

use crate::entry::loose::Loose;
use crate::entry::steps::{Entry, EntrySight, Measured};
use std::alloc::Global;
use std::marker::{Brand, PhantomData};
use std::ptr::null_mut;
use std::sync::atomic::AtomicPtr;
use std::sync::atomic::Ordering::SeqCst;
use tie_core::{EntryBook, EntrySeat, PlacedSeat, Staged, Tag, Visit};

// Says how the cells of a block with this many are tied, by numbers that begin at the first cell's seat.
pub(crate) trait Moulded {
    ghost mould: { Self → ℕ → List (Option Tie) };
}

// Seats with numbers in a row, of which the tag is one.
impl<V, P: Staged<V>> Moulded for Tag<V, P> {
    ghost mould = { λ tag n. row_of (tie_numbered tag.tie 0) n };
}

impl<B: Measured> Entry<B> {
    // An entry for blocks of this length that are tied as `of` says. It is tied by this seat, and nothing is installed.
    pub(crate) fn new_for<M: Moulded>(
        alloc: Global,
        length: u64,
        seat: EntrySeat,
        of: &M,
    ) -> Entry<B>
        ensures { (length_of result ≡ length) × (tie_of result ≡ Some seat.tie)
            × (mould_at result ≡ M.mould of.now length) }
    {
        Entry::empty_for(AtomicPtr::new(null_mut()), alloc, length, seat, of)
    }

    fn empty_for<M: Moulded>(
        word: AtomicPtr<B>,
        alloc: Global,
        length: u64,
        seat: EntrySeat,
        of: &M,
    ) -> Entry<B>
        requires { atomic_ptr_value word ≡ null_ptr }
        ensures { (length_of result ≡ length) × (tie_of result ≡ Some seat.tie)
            × (mould_at result ≡ M.mould of.now length) }
    {
        let EntrySeat { marker: _ } = seat;
        Entry { word, alloc }
    }

    // An entry that is set to the block, which the sight knows. It is tied by the block's seat, and has the block's
    // mould.
    fn full_placed(
        word: AtomicPtr<B>,
        block: Loose<B, Global>,
        seat: PlacedSeat,
    ) -> (Entry<B>, EntrySight<B>)
        requires { (atomic_ptr_value word ≡ block.at) × (seat.number ≡ B.seat block.value) }
        ensures length { length_of result.0 ≡ B.measure block.value }
        ensures tie { (tie_of result.0 ≡ Some seat.tie)
            × (mould_at result.0 ≡ B.mould block.value) }
        ensures of { result.1.of ≡ name_of result.0 }
        ensures known { result.1.known ≡ Some block.value }
    {
        let PlacedSeat { marker: _ } = seat;
        let Loose { at: _, alloc } = block;
        let sight = EntrySight {
            marker: PhantomData,
        };
        (Entry { word, alloc }, sight)
    }

    // The look at a tied entry: one load, in which the visit's update runs. The visit then tells what the load
    // found: nothing, or the seat of the entry's block.
    pub(crate) fn look_for<'a, 'b, X, K: EntryBook<X>>(
        &'a self,
        sight: &mut EntrySight<B>,
        visit: Visit<'b, X, K>,
    ) -> (Option<&'a B>, Visit<'b, X, K>)
        requires of { sight.old.of ≡ name_of self.now }
        requires visit { (tie_of self.now ≡ Some visit.tie) × (visit.brought ≡ None)
            × (visit.made ≡ None) }
        ensures same { sight.new.of ≡ sight.old.of }
        ensures block { MatchOption result.0
            ((sight.old.known ≡ None) × (sight.new.known ≡ None))
            (λ b. (sight.new.known ≡ Some b.now) × Agrees sight.old.known b.now) }
        ensures cast { IfSome result.0 (λ b. (B.measure b.now ≡ length_of self.now)
            × (B.mould b.now ≡ mould_at self.now)) }
        ensures made { MatchOption result.0 (result.1.made ≡ Some None)
            (λ b. result.1.made ≡ Some (Some (B.seat b.now))) }
        ensures visit { (result.1.tie ≡ visit.entry.tie) × (result.1.about ≡ visit.entry.about) }
    {
        let at = unsafe { self.word.load::<Brand>(SeqCst) };
        if at.is_null() {
            (None, visit)
        } else {
            (Some(unsafe { &*at }), visit)
        }
    }

    // The setting once of a tied entry: one exchange of null, in which the visit's update runs. The visit brings
    // the block's seat. It gives the entry's block, and `block` back if another came first.
    pub(crate) fn offer_for<'a, 'b, X, K: EntryBook<X>>(
        &'a self,
        block: Loose<B, Global>,
        sight: &mut EntrySight<B>,
        visit: Visit<'b, X, K>,
    ) -> (&'a B, Option<Loose<B, Global>>, Visit<'b, X, K>)
        requires of { sight.old.of ≡ name_of self.now }
        requires cast { (B.measure block.value ≡ length_of self.now)
            × (B.mould block.value ≡ mould_at self.now) }
        requires visit { (tie_of self.now ≡ Some visit.tie)
            × (visit.brought ≡ Some (B.seat block.value)) × (visit.made ≡ None) }
        ensures same { sight.new.of ≡ sight.old.of }
        ensures block { (sight.new.known ≡ Some result.0.now)
            × Agrees sight.old.known result.0.now }
        ensures back { MatchOption result.1
            ((result.0.now ≡ block.value) × (sight.old.known ≡ None))
            (λ l. l.value ≡ block.value) }
        ensures cast { (B.measure result.0.now ≡ length_of self.now)
            × (B.mould result.0.now ≡ mould_at self.now) }
        ensures made { MatchOption result.1 (result.2.made ≡ Some None)
            (λ _. result.2.made ≡ Some (Some (B.seat result.0.now))) }
        ensures visit { (result.2.tie ≡ visit.entry.tie) × (result.2.about ≡ visit.entry.about) }
    {
        let at = block.at;
        match unsafe {
            self.word
                .compare_exchange::<Brand>(null_mut(), at, SeqCst, SeqCst)
        } {
            Ok(_) => {
                let Loose { at: _, alloc: _ } = block;
                (unsafe { &*at }, None, visit)
            }
            Err(first) => (unsafe { &*first }, Some(block), visit),
        }
    }
}

impl<B: Measured + Drop> Entry<B> {
    // An entry that is set to the block, which the sight knows. It is tied by the block's seat.
    pub(crate) fn filled_placed(block: Box<B>, seat: PlacedSeat) -> (Entry<B>, EntrySight<B>)
        requires { seat.number ≡ B.seat block.value }
        ensures length { length_of result.0 ≡ B.measure block.value }
        ensures tie { (tie_of result.0 ≡ Some seat.tie)
            × (mould_at result.0 ≡ B.mould block.value) }
        ensures of { result.1.of ≡ name_of result.0 }
        ensures known { result.1.known ≡ Some block.value }
    {
        let (at, block) = Entry::pointer(Loose::of(block));
        Entry::full_placed(AtomicPtr::new(at), block, seat)
    }

    // Sets a tied entry to the block, unless another came first. It gives the entry's block, and back the one that
    // came too late.
    pub(crate) fn set_for<'a, 'b, X, K: EntryBook<X>>(
        &'a self,
        block: Box<B>,
        sight: &mut EntrySight<B>,
        visit: Visit<'b, X, K>,
    ) -> (&'a B, Option<Box<B>>, Visit<'b, X, K>)
        requires of { sight.old.of ≡ name_of self.now }
        requires cast { (B.measure block.value ≡ length_of self.now)
            × (B.mould block.value ≡ mould_at self.now) }
        requires visit { (tie_of self.now ≡ Some visit.tie)
            × (visit.brought ≡ Some (B.seat block.value)) × (visit.made ≡ None) }
        ensures same { sight.new.of ≡ sight.old.of }
        ensures block { (sight.new.known ≡ Some result.0.now)
            × Agrees sight.old.known result.0.now }
        ensures back { MatchOption result.1
            ((result.0.now ≡ block.value) × (sight.old.known ≡ None))
            (λ b. b.value ≡ block.value) }
        ensures cast { (B.measure result.0.now ≡ length_of self.now)
            × (B.mould result.0.now ≡ mould_at self.now) }
        ensures made { MatchOption result.1 (result.2.made ≡ Some None)
            (λ _. result.2.made ≡ Some (Some (B.seat result.0.now))) }
        ensures visit { (result.2.tie ≡ visit.entry.tie) × (result.2.about ≡ visit.entry.about) }
    {
        let (first, back, visit) = self.offer_for(Loose::of(block), sight, visit);
        match back {
            Some(back) => (first, Some(back.into_box()), visit),
            None => (first, None, visit),
        }
    }
}
