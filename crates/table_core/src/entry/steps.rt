// The raw steps on one entry, each a few lines around one atomic step. The word is null, or points to a block
// that the entry owns.
ghost use Rattle.std.specs.Prelude.{◌≡◌, ◌≢◌, ℕ, List, MatchOption, IfSome};
ghost use denote.RawPtr.{null_ptr};
ghost use denote.Sharing.{said};
ghost use Rattle.std.specs.Coded.{coded_option};
ghost use Rattle.std.specs.Sync.Atomic.Pointer.{atomic_ptr_value, atomic_ptr_holding};
ghost use Rattle.std.specs.declared.option.Option.{Option};
ghost use Rattle.std.specs.declared.option.Option.TheVariants.{None, Some};
ghost use Rattle.tie_core.specs.Tie.{Tie};
ghost use Rattle.table_core.specs.Entry.{EntryView, FitsEntry, IsCast, IsPlainEntry, entry_coded, noted, Agrees, bond_of, length_of, name_of, tie_of, mould_at};
ghost use Rattle.table_core.specs.TiedEntry.{entry_owned, entry_shared};

mod tied;

use crate::entry::loose::Loose;
use cell_core::block::{Block, Kind};
use std::alloc::Global;
use std::marker::{Brand, Model, Move, Owns, PhantomData};
use std::ptr::null_mut;
use std::sync::atomic::AtomicPtr;
use std::sync::atomic::Ordering::SeqCst;

// How long a block is, and how it is tied.
pub(crate) trait Measured {
    ghost measure: { Self → ℕ };
    // How its cells are tied, by numbers that begin at the first cell's seat.
    ghost mould: { Self → List (Option Tie) };
    // The number of the block's own seat.
    ghost seat: { Self → ℕ };
}

// A word that is set at most once, to a block of the entry's length. It may be tied to a table, by a seat that
// shows whether it is set (`specs/TiedEntry.antt`).
pub(crate) struct Entry<B: Measured> {
    word: AtomicPtr<B>,
    alloc: Global,
}

impl<B: Measured> Owns for Entry<B> {
    ghost Value = { EntryView };

    ghost coded = { entry_coded };

    ghost shr_at = { λ e p κ. entry_shared B.row B.measure B.mould B.seat e p κ };
}

impl<B: Measured> Move for Entry<B> {
    ghost own_val = { λ e vs. entry_owned B.row B.measure B.mould B.seat e
        (λ p. Fields.own_val (record { word = atomic_ptr_holding p; alloc = e.0 }) vs) };
}

// What was seen of an entry: nothing yet, or the block that it always has from then on. It has no bytes.
pub(crate) struct EntrySight<B> {
    marker: PhantomData<B>,
    pub(crate) ghost of: { ℕ },
    pub(crate) ghost known: { Option B } by { coded_option B.code },
}

impl<B> Model for EntrySight<B> {
    ghost also_owns = { λ s. noted B.row s.of s.known };

    ghost also_shares = { λ s _ κ. said (noted B.row s.of s.known) κ };
}

impl<B: Measured> Entry<B> {
    // An entry for blocks of this length, which only proofs read. It is not tied, and nothing is installed.
    pub(crate) fn new(alloc: Global, length: u64) -> Entry<B>
        ensures { (length_of result ≡ length) × (bond_of result ≡ None) }
    {
        Entry::empty(AtomicPtr::new(null_mut()), alloc, length)
    }

    fn empty(word: AtomicPtr<B>, alloc: Global, length: u64) -> Entry<B>
        requires { atomic_ptr_value word ≡ null_ptr }
        ensures { (length_of result ≡ length) × (bond_of result ≡ None) }
    {
        Entry { word, alloc }
    }

    // The same, for blocks whose cells are not tied.
    pub(crate) fn new_plain(alloc: Global, length: u64) -> Entry<B>
        ensures { (length_of result ≡ length) × IsPlainEntry result }
    {
        Entry::empty_plain(AtomicPtr::new(null_mut()), alloc, length)
    }

    fn empty_plain(word: AtomicPtr<B>, alloc: Global, length: u64) -> Entry<B>
        requires { atomic_ptr_value word ≡ null_ptr }
        ensures { (length_of result ≡ length) × IsPlainEntry result }
    {
        Entry { word, alloc }
    }

    // A sight that knows nothing yet.
    pub(crate) fn sight(&self) -> EntrySight<B>
        ensures { (result.of ≡ name_of self.now) × (result.known ≡ None) }
    {
        EntrySight {
            marker: PhantomData,
        }
    }

    // The look: one load. It shows nothing only to a sight that knows nothing, otherwise it shows the one
    // block ever seen.
    pub(crate) fn look<'a>(&'a self, sight: &mut EntrySight<B>) -> Option<&'a B>
        requires { sight.old.of ≡ name_of self.now }
        ensures same { sight.new.of ≡ sight.old.of }
        ensures block { MatchOption result ((sight.old.known ≡ None) × (sight.new.known ≡ None))
            (λ b. (sight.new.known ≡ Some b.now) × Agrees sight.old.known b.now) }
        ensures length { IfSome result (λ b. B.measure b.now ≡ length_of self.now) }
        ensures mould { IfSome result (λ b. FitsEntry self.now (B.mould b.now)) }
        ensures cast { IfSome result (λ b. IsCast B.measure B.mould self.now b.now) }
    {
        let at = unsafe { self.word.load::<Brand>(SeqCst) };
        if at.is_null() {
            None
        } else {
            Some(unsafe { &*at })
        }
    }

    // The setting once of an entry that is not tied: one exchange of null. It gives the entry's block, and
    // `block` back if another came first.
    fn offer<'a>(
        &'a self,
        block: Loose<B, Global>,
        sight: &mut EntrySight<B>,
    ) -> (&'a B, Option<Loose<B, Global>>)
        requires of { sight.old.of ≡ name_of self.now }
        requires cast { IsCast B.measure B.mould self.now block.value }
        requires plain { tie_of self.now ≡ None }
        ensures same { sight.new.of ≡ sight.old.of }
        ensures block { (sight.new.known ≡ Some result.0.now)
            × Agrees sight.old.known result.0.now }
        ensures back { MatchOption result.1
            ((result.0.now ≡ block.value) × (sight.old.known ≡ None))
            (λ l. l.value ≡ block.value) }
        ensures length { B.measure result.0.now ≡ length_of self.now }
        ensures cast { IsCast B.measure B.mould self.now result.0.now }
    {
        let at = block.at;
        match unsafe {
            self.word
                .compare_exchange::<Brand>(null_mut(), at, SeqCst, SeqCst)
        } {
            Ok(_) => {
                let Loose { at: _, alloc: _ } = block;
                (unsafe { &*at }, None)
            }
            Err(first) => (unsafe { &*first }, Some(block)),
        }
    }

    // Gives an entry that is owned a name that the other has not.
    pub(crate) fn rename(&mut self, other: &mut Entry<B>)
        ensures { (name_of self.new ≢ name_of other.old) × (length_of self.new ≡ length_of self.old)
            × (tie_of self.new ≡ tie_of self.old) × (mould_at self.new ≡ mould_at self.old)
            × (bond_of self.new ≡ bond_of self.old) × (other.new ≡ other.old) }
    {}

    // Takes the pointer of a box out.
    fn pointer(block: Loose<B, Global>) -> (*mut B, Loose<B, Global>)
        ensures { (result.0 ≡ block.at) × (result.1.at ≡ block.at)
            × (result.1.value ≡ block.value) }
    {
        let Loose { at, alloc } = block;
        (at, Loose { at, alloc })
    }

    // An entry that is set to the block, which the sight knows.
    fn full(word: AtomicPtr<B>, block: Loose<B, Global>) -> (Entry<B>, EntrySight<B>)
        requires { atomic_ptr_value word ≡ block.at }
        ensures length { length_of result.0 ≡ B.measure block.value }
        ensures loose { bond_of result.0 ≡ None }
        ensures of { result.1.of ≡ name_of result.0 }
        ensures known { result.1.known ≡ Some block.value }
    {
        let Loose { at: _, alloc } = block;
        let sight = EntrySight {
            marker: PhantomData,
        };
        (Entry { word, alloc }, sight)
    }

    // The block of an entry that is owned whole, if it is set: for a sight that knows a block, that one.
    fn into_loose(self, sight: &EntrySight<B>) -> Option<Loose<B, Global>>
        requires { sight.now.of ≡ name_of self }
        ensures length { IfSome result (λ l. B.measure l.value ≡ length_of self) }
        ensures cast { IfSome result (λ l. IsCast B.measure B.mould self l.value) }
        ensures block { MatchOption result (sight.now.known ≡ None)
            (λ l. Agrees sight.now.known l.value) }
    {
        let Entry { word, alloc } = self;
        let at = word.into_inner();
        if at.is_null() {
            None
        } else {
            Some(Loose { at, alloc })
        }
    }
}

impl<B: Measured + Drop> Entry<B> {
    // Sets the entry to the block, unless another came first. It gives the entry's block, and back the one
    // that came too late.
    pub(crate) fn set<'a>(
        &'a self,
        block: Box<B>,
        sight: &mut EntrySight<B>,
    ) -> (&'a B, Option<Box<B>>)
        requires of { sight.old.of ≡ name_of self.now }
        requires cast { IsCast B.measure B.mould self.now block.value }
        requires plain { tie_of self.now ≡ None }
        ensures same { sight.new.of ≡ sight.old.of }
        ensures block { (sight.new.known ≡ Some result.0.now)
            × Agrees sight.old.known result.0.now }
        ensures back { MatchOption result.1
            ((result.0.now ≡ block.value) × (sight.old.known ≡ None))
            (λ b. b.value ≡ block.value) }
        ensures length { B.measure result.0.now ≡ length_of self.now }
        ensures cast { IsCast B.measure B.mould self.now result.0.now }
    {
        let (first, back) = self.offer(Loose::of(block), sight);
        match back {
            Some(back) => (first, Some(back.into_box())),
            None => (first, None),
        }
    }

    // An entry that is set to the block, which the sight knows.
    pub(crate) fn filled(block: Box<B>) -> (Entry<B>, EntrySight<B>)
        ensures length { length_of result.0 ≡ B.measure block.value }
        ensures loose { bond_of result.0 ≡ None }
        ensures of { result.1.of ≡ name_of result.0 }
        ensures known { result.1.known ≡ Some block.value }
    {
        let (at, block) = Entry::pointer(Loose::of(block));
        Entry::full(AtomicPtr::new(at), block)
    }

    // Takes the block out of an entry that the caller has whole: the sight's block, if it knows one.
    pub(crate) fn into_box(self, sight: &EntrySight<B>) -> Option<Box<B>>
        requires { sight.now.of ≡ name_of self }
        ensures length { IfSome result (λ b. B.measure b.value ≡ length_of self) }
        ensures cast { IfSome result (λ b. IsCast B.measure B.mould self b.value) }
        ensures block { MatchOption result (sight.now.known ≡ None)
            (λ b. Agrees sight.now.known b.value) }
    {
        match self.into_loose(sight) {
            Some(block) => Some(block.into_box()),
            None => None,
        }
    }
}

impl<T, B: Kind> Entry<Block<T, Global, B>> {
    // Frees the block of an entry that the caller has whole, if it is set. No value of it is dropped.
    pub(crate) fn free(self) {
        let sight = self.sight();
        match self.into_loose(&sight) {
            Some(block) => Box::into_inner(block.into_box()).free(),
            None => {}
        }
    }
}

impl<B: Measured + Drop> Drop for Entry<B> {
    fn drop(self) {
        let sight = self.sight();
        drop(self.into_box(&sight));
    }
}

impl<B> EntrySight<B> {
    // Two sights of one entry that know a block know the same one.
    pub(crate) fn agrees(&self, other: &EntrySight<B>)
        requires { self.now.of ≡ other.now.of }
        ensures { IfSome other.now.known (Agrees self.now.known) }
    {}
}

impl<T, B: Kind> EntrySight<Block<T, Global, B>> {
    // Duplicates the sight. What is known of an entry says nothing of the type of the values, or of the kind of
    // the block.
    pub(crate) fn again<U, C: Kind>(&self) -> EntrySight<Block<U, Global, C>>
        ensures { (result.of ≡ self.now.of) × (result.known ≡ self.now.known) }
    {
        EntrySight {
            marker: PhantomData,
        }
    }
}

impl<B> Drop for EntrySight<B> {
    fn drop(self) {
        let EntrySight { marker: _ } = self;
    }
}

unsafe impl<B: Measured + Send> Send for Entry<B> {}

unsafe impl<B: Measured + Send + Sync> Sync for Entry<B> {}

unsafe impl<B> Send for EntrySight<B> {}

unsafe impl<B> Sync for EntrySight<B> {}
