// An update of a caller's table that a step on a tied entry runs.
ghost use Rattle.std.specs.Prelude.{◌≡◌, ℕ, [], Option, Some, None};
ghost use base.Fml.{Lft, Fml};
ghost use denote.Sharing.{said};
ghost use Rattle.atomic_table.specs.Seated.{age as age_of};
ghost use Rattle.tie_core.specs.Desk.{content, gone};
ghost use Rattle.tie_core.specs.Visit.{EntryTie, entry_tie_coded, Content, brought_coded, content_coded, visit_owns, entry_seat, entry_tagged, HasVisited, IsBackFrom};

use crate::play::Moving;
use atomic_table::{Badge, TableRule};
use std::marker::{Model, PhantomData};

/// Says which views the seats of an entry have, by the entry's first place and its number of places.
pub trait Entered<V> {
    // Of the entry's own seat, while the entry is empty.
    ghost empty: { ℕ → ℕ → V };
    // Of the seat of a block that is published there.
    ghost placed: { ℕ → ℕ → V };
    // Of the entry's own seat, once a block is published.
    ghost spent: { V };
}

/// Says what a step on an entry tells its caller.
pub trait EntryPlay<V> {
    // Of the number told, the view before the step, the content that the step found, and the view after it.
    ghost then: { ℕ → V → Content → V → Type 0 };
}

/// Says what a caller's table is, and what the caller gains once its update of an entry has run, by data of its own.
pub trait EntryBook<X> {
    ghost age: { X → Lft };

    ghost inner: { X → Fml };
    // The gain of the caller, by the content that the step found.
    ghost gain: { X → Content → Fml };
}

/// Marks a visit from a seat of a table with this rule, for this play.
#[derive(Drop)]
pub struct SeatVisit<S, V, K, P, M> {
    marker: PhantomData<(S, V, K, P, M)>,
}

impl<S, V, K, P: TableRule<S, V, K>, M: EntryPlay<V>> EntryBook<Moving<V, K>>
    for SeatVisit<S, V, K, P, M> {
    ghost age = { λ a. age_of a.table_id };

    ghost inner = { λ a. content S.row V.row.coded.code (P.holds a.key) a.words a.table_id };

    ghost gain = { λ a found. gone V.row.coded.code a.table_id a.id (M.then a.told a.view found) };
}

/// An update of a caller's table, which one step on a tied entry runs. `brought` is the seat of the block that the step
/// publishes, if it publishes one, and `made` is what the step found, once it has run. It has no bytes.
pub struct Visit<'a, X, K: EntryBook<X>> {
    pub marker: PhantomData<(&'a (), X, K)>,
    pub ghost tie: { EntryTie } by { entry_tie_coded },
    pub ghost about: { X },
    pub ghost brought: { Content } by { brought_coded },
    pub ghost made: { Option Content } by { content_coded },
}

impl<'a, X, K: EntryBook<X>> Model for Visit<'a, X, K> {
    ghost also_owns = { λ o.
        visit_owns (K.age o.about) (K.inner o.about) (K.gain o.about) o.tie o.brought 'a o.made };
}

impl<'a, S, V, K, P: TableRule<S, V, K>, M: EntryPlay<V>> Visit<
    'a,
    Moving<V, K>,
    SeatVisit<S, V, K, P, M>,
> {
    /// Gives the seat back into a blank badge, with the view that the step gave it, once the step has run.
    #[inline(always)]
    pub fn back(self, badge: &mut Badge<V>)
        requires made { HasVisited self.made }
        requires blank { badge.old.views ≡ [] }
        ensures seat { (badge.new.table_id ≡ self.entry.about.table_id)
            × (badge.new.id ≡ self.entry.about.id) }
        ensures view { IsBackFrom (M.then self.entry.about.told self.entry.about.view)
            self.entry.made badge.new.views }
    {
        let Visit { marker: _ } = self;
    }
}

impl<'a, X, K: EntryBook<X>> Drop for Visit<'a, X, K> {
    fn drop(self) {
        let Self { marker: _ } = self;
    }
}

/// Evidence that an entry's tie has the codes of the views of these places. It has no bytes.
pub struct EntryTag<V, P: Entered<V>> {
    pub(crate) marker: PhantomData<(V, P)>,
    pub ghost tie: { EntryTie } by { entry_tie_coded },
    pub ghost from: { ℕ },
    pub ghost n: { ℕ },
}

impl<V, P: Entered<V>> Model for EntryTag<V, P> {
    ghost also_owns = { λ t.
        entry_tagged V.row.coded.code (P.empty t.from t.n) (P.placed t.from t.n) t.tie };

    ghost also_shares = { λ t _ κ.
        said (entry_tagged V.row.coded.code (P.empty t.from t.n) (P.placed t.from t.n) t.tie) κ };
}

impl<V, P: Entered<V>> Drop for EntryTag<V, P> {
    fn drop(self) {
        let Self { marker: _ } = self;
    }
}

unsafe impl<V, P: Entered<V>> Send for EntryTag<V, P> {}

unsafe impl<V, P: Entered<V>> Sync for EntryTag<V, P> {}

/// The own seat of an entry that is empty. An entry takes it when it is made. It must be spent.
pub struct EntrySeat {
    pub marker: PhantomData<()>,
    pub ghost tie: { EntryTie } by { entry_tie_coded },
}

impl Model for EntrySeat {
    ghost also_owns = { λ s. entry_seat (Some s.tie) None };
}

impl EntrySeat {
    /// Gives the seat up.
    pub fn lose(self) {
        let Self { marker: _ } = self;
    }
}

/// The seat of a block that an entry is set to when it is made. The entry takes it. It must be spent.
pub struct PlacedSeat {
    pub marker: PhantomData<()>,
    pub ghost tie: { EntryTie } by { entry_tie_coded },
    // The number of the seat.
    pub ghost number: { ℕ },
}

impl Model for PlacedSeat {
    ghost also_owns = { λ s. entry_seat (Some s.tie) (Some s.number) };
}

impl PlacedSeat {
    /// Gives the seat up.
    pub fn lose(self) {
        let Self { marker: _ } = self;
    }
}
