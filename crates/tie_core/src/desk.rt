// The right to name the invariant of a table, and what is made by it: offers and visits from a seat, and the seats of
// new cells.
ghost use Rattle.std.specs.Prelude.{◌≡◌, ℕ, ◌+◌, ◌<◌, [], ◌∷◌, Some, None, length};
ghost use denote.RawPtr.{Ptr, coded_ptr};
ghost use denote.Sharing.{said};
ghost use Rattle.atomic_table.specs.Seated.{TableId, table_id_coded};
ghost use Rattle.tie_core.specs.Tie.{row_of, stages_from};
ghost use Rattle.tie_core.specs.Desk.{desk_owns, IsTieOf};
ghost use Rattle.tie_core.specs.Permits.{PermitsAdoption, PermitsCell, PermitsRow};
ghost use Rattle.tie_core.specs.Run.{run_of, PermitsRun};
ghost use Rattle.tie_core.specs.Visit.{IsEntryOf, PermitsEntry, PermitsVisit, PermitsPublish};

use crate::offer::Offer;
use crate::play::{CellPlay, Moving, Opened, RowPlay, SeatMove, Staged};
use crate::run::{RunOffer, RunPlay, SeatRun};
use crate::seats::{Seats, StagedSeats};
use crate::tag::Tag;
use crate::visit::{Entered, EntryPlay, EntrySeat, EntryTag, PlacedSeat, SeatVisit, Visit};
use atomic_table::{Badge, Shared, TableRule};
use std::marker::{Model, PhantomData};

/// The right to name the invariant of a table by one number, `floor`. It has no bytes. All that takes part in one step
/// must come from one desk or from its duplicates.
pub struct Desk<S, V, K, P: TableRule<S, V, K>> {
    marker: PhantomData<(S, V, K, P)>,
    pub ghost table_id: { TableId } by { table_id_coded },
    pub ghost key: { K },
    pub ghost words: { Ptr } by { coded_ptr },
    pub ghost floor: { ℕ },
}

impl<S, V, K, P: TableRule<S, V, K>> Model for Desk<S, V, K, P> {
    ghost also_owns = { λ d.
        desk_owns S.row V.row.coded.code (P.holds d.key) d.words d.table_id d.floor };

    ghost also_shares = { λ d _ κ.
        said (desk_owns S.row V.row.coded.code (P.holds d.key) d.words d.table_id d.floor) κ };
}

impl<S, V, K, P: TableRule<S, V, K>> Desk<S, V, K, P> {
    /// Makes a desk of a table. Two calls may name the table's invariant by two numbers.
    pub fn of(table: &Shared<S, V, K, P>) -> Desk<S, V, K, P>
        ensures { (result.table_id ≡ table.now.table_id) × (result.key ≡ table.now.key) }
    {
        Desk {
            marker: PhantomData,
        }
    }

    /// Duplicates the desk, with the same number.
    pub fn again(&self) -> Desk<S, V, K, P>
        ensures { (result.table_id ≡ self.now.table_id) × (result.key ≡ self.now.key)
            × (result.words ≡ self.now.words) × (result.floor ≡ self.now.floor) }
    {
        Desk {
            marker: PhantomData,
        }
    }
}

impl<S, V, K, P: TableRule<S, V, K> + Staged<V>> Desk<S, V, K, P> {
    /// Returns a tag of the table, of no seat in particular: its codes are those of all the desk's tags.
    pub fn tag(&self) -> Tag<V, P>
        ensures { IsTieOf self.now.table_id self.now.floor result.tie }
    {
        Tag {
            marker: PhantomData,
        }
    }

    /// Takes the caller's seat out of its badge and makes an offer of it, for one step on the cell that has the tag.
    /// The rule must allow the step for the view that the seat has, and for the number `told`. `Offer::back` gives the
    /// seat back after the step; if the offer is dropped, the seat is lost.
    #[inline(always)]
    pub fn offer<'a, M: CellPlay<V>>(
        table: &'a Shared<S, V, K, P>,
        desk: &Desk<S, V, K, P>,
        badge: &mut Badge<V>,
        tag: &Tag<V, P>,
        told: u64,
    ) -> Offer<'a, Moving<V, K>, SeatMove<S, V, K, P, M>>
        requires table { (desk.now.table_id ≡ table.now.table_id)
            × (badge.old.table_id ≡ table.now.table_id) }
        requires tie { IsTieOf table.now.table_id desk.now.floor tag.now.tie }
        requires permits { (v : V) × (badge.old.views ≡ v ∷ [])
            × PermitsCell (P.holds desk.now.key) P.shows M.step badge.old.id v tag.now.tie.id
            (M.then told v) }
        ensures blank { badge.new.views ≡ [] }
        ensures seat { (result.about.table_id ≡ badge.old.table_id)
            × (result.about.id ≡ badge.old.id)
            × (badge.old.views ≡ result.about.view ∷ []) × (result.about.told ≡ told) }
        ensures offer { (result.tie ≡ tag.now.tie) × (result.step ≡ M.step) × (result.made ≡ None) }
    {
        // In the proof, the offer's update gets the badge's seat.
        Offer {
            marker: PhantomData,
        }
    }

    /// Makes an offer like `offer`, for one step on `n` cells whose seats have numbers in a row. The tag is of the
    /// first cell. The cells' seats go along one after the other, and the rule must allow each of these steps.
    #[inline(always)]
    pub fn offer_run<'a, M: RunPlay<V>>(
        table: &'a Shared<S, V, K, P>,
        desk: &Desk<S, V, K, P>,
        badge: &mut Badge<V>,
        tag: &Tag<V, P>,
        n: u64,
        told: u64,
    ) -> RunOffer<'a, Moving<V, K>, SeatRun<S, V, K, P, M>>
        requires table { (desk.now.table_id ≡ table.now.table_id)
            × (badge.old.table_id ≡ table.now.table_id) }
        requires tie { IsTieOf table.now.table_id desk.now.floor tag.now.tie }
        requires some { 0 < n }
        requires permits { (v : V) × (badge.old.views ≡ v ∷ [])
            × PermitsRun (P.holds desk.now.key) P.shows M.step badge.old.id v tag.now.tie.id n
            (M.then told v) }
        ensures blank { badge.new.views ≡ [] }
        ensures seat { (result.about.table_id ≡ badge.old.table_id)
            × (result.about.id ≡ badge.old.id)
            × (badge.old.views ≡ result.about.view ∷ []) × (result.about.told ≡ told) }
        ensures offer { (result.ties ≡ run_of tag.now.tie n) × (length result.ties ≡ n)
            × (result.step ≡ M.step) × (result.made ≡ None) }
    {
        // In the proof, the updates get the badge's seat.
        RunOffer {
            marker: PhantomData,
        }
    }

    /// Makes the seats of `n` new cells, with numbers in a row, and one more behind them, which goes into a blank
    /// badge. The tag is of the first cell. No step is taken.
    pub fn lay<O: RowPlay<V>>(
        table: &Shared<S, V, K, P>,
        desk: &Desk<S, V, K, P>,
        badge: &mut Badge<V>,
        n: u64,
    ) -> (Seats, Tag<V, P>)
        requires table { desk.now.table_id ≡ table.now.table_id }
        requires blank { badge.old.views ≡ [] }
        requires permits { PermitsRow (P.holds desk.now.key) P.shows O.owner n }
        ensures seats { (result.0.ties ≡ row_of result.1.tie n) × (length result.0.ties ≡ n) }
        ensures tie { IsTieOf table.now.table_id desk.now.floor result.1.tie }
        ensures seat { (badge.new.table_id ≡ table.now.table_id)
            × (badge.new.id ≡ result.1.tie.id + n)
            × (badge.new.views ≡ O.owner result.1.tie.id n ∷ []) }
    {
        // In the proof, the seats come out of the table's invariant.
        (
            Seats {
                marker: PhantomData,
            },
            Tag {
                marker: PhantomData,
            },
        )
    }
}

impl<S, V, K, P: TableRule<S, V, K> + Entered<V>> Desk<S, V, K, P> {
    /// Makes the own seat of a new entry for `n` places from `from` on, and the entry's tag. The caller's seat goes
    /// along. No step is taken.
    pub fn enter<M: EntryPlay<V>>(
        table: &Shared<S, V, K, P>,
        desk: &Desk<S, V, K, P>,
        badge: &mut Badge<V>,
        from: u64,
        n: u64,
    ) -> (EntrySeat, EntryTag<V, P>)
        requires table { (desk.now.table_id ≡ table.now.table_id)
            × (badge.old.table_id ≡ table.now.table_id) }
        requires permits { (v : V) × (badge.old.views ≡ v ∷ [])
            × PermitsEntry (P.holds desk.now.key) badge.old.id v (P.empty from n)
            (M.then from v None) }
        ensures entry { IsEntryOf table.now.table_id desk.now.floor result.1.tie
            × (result.0.tie ≡ result.1.tie)
            × (result.1.from ≡ from) × (result.1.n ≡ n) }
        ensures seat { (badge.new.table_id ≡ badge.old.table_id) × (badge.new.id ≡ badge.old.id)
            × ((v : V) × (u : V) × (badge.old.views ≡ v ∷ []) × (badge.new.views ≡ u ∷ [])
            × M.then from v None u) }
    {
        // In the proof, the entry's seat comes out of the table's invariant, and the badge's moves along.
        (
            EntrySeat {
                marker: PhantomData,
            },
            EntryTag {
                marker: PhantomData,
            },
        )
    }

    /// Takes the caller's seat out of its badge and makes a visit of it, for one look at the entry that has the tag.
    /// `Visit::back` gives the seat back after the step.
    #[inline(always)]
    pub fn visit<'a, M: EntryPlay<V>>(
        table: &'a Shared<S, V, K, P>,
        desk: &Desk<S, V, K, P>,
        badge: &mut Badge<V>,
        tag: &EntryTag<V, P>,
        told: u64,
    ) -> Visit<'a, Moving<V, K>, SeatVisit<S, V, K, P, M>>
        requires table { (desk.now.table_id ≡ table.now.table_id)
            × (badge.old.table_id ≡ table.now.table_id) }
        requires tie { IsEntryOf table.now.table_id desk.now.floor tag.now.tie }
        requires permits { (v : V) × (badge.old.views ≡ v ∷ [])
            × PermitsVisit (P.holds desk.now.key) badge.old.id v tag.now.tie
            (P.empty tag.now.from tag.now.n)
            (P.placed tag.now.from tag.now.n) (M.then told v) }
        ensures blank { badge.new.views ≡ [] }
        ensures seat { (result.about.table_id ≡ badge.old.table_id)
            × (result.about.id ≡ badge.old.id)
            × (badge.old.views ≡ result.about.view ∷ []) × (result.about.told ≡ told) }
        ensures visit { (result.tie ≡ tag.now.tie) × (result.brought ≡ None)
            × (result.made ≡ None) }
    {
        // In the proof, the visit's update gets the badge's seat.
        Visit {
            marker: PhantomData,
        }
    }

    /// Makes a visit like `visit`, for the exchange that publishes a block. The block's seat goes along too: the entry
    /// takes it if it is empty, and otherwise it is lost.
    #[inline(always)]
    pub fn publish<'a, M: EntryPlay<V>>(
        table: &'a Shared<S, V, K, P>,
        desk: &Desk<S, V, K, P>,
        badge: &mut Badge<V>,
        block: &mut Badge<V>,
        tag: &EntryTag<V, P>,
        told: u64,
    ) -> Visit<'a, Moving<V, K>, SeatVisit<S, V, K, P, M>>
        requires table { (desk.now.table_id ≡ table.now.table_id)
            × (badge.old.table_id ≡ table.now.table_id)
            × (block.old.table_id ≡ table.now.table_id) }
        requires tie { IsEntryOf table.now.table_id desk.now.floor tag.now.tie }
        requires permits { (v : V) × (y : V)
            × (badge.old.views ≡ v ∷ []) × (block.old.views ≡ y ∷ [])
            × PermitsPublish (P.holds desk.now.key) badge.old.id v tag.now.tie
            (P.empty tag.now.from tag.now.n) P.spent
            (P.placed tag.now.from tag.now.n) block.old.id y (M.then told v) }
        ensures blank { (badge.new.views ≡ []) × (block.new.views ≡ []) }
        ensures seat { (result.about.table_id ≡ badge.old.table_id)
            × (result.about.id ≡ badge.old.id)
            × (badge.old.views ≡ result.about.view ∷ []) × (result.about.told ≡ told) }
        ensures visit { (result.tie ≡ tag.now.tie) × (result.brought ≡ Some block.old.id)
            × (result.made ≡ None) }
    {
        // In the proof, the visit's update gets the seats of both badges.
        Visit {
            marker: PhantomData,
        }
    }
}

impl<S, V, K, P: TableRule<S, V, K> + Staged<V> + Entered<V> + Opened<K>> Desk<S, V, K, P> {
    /// Makes the seats of the `n` cells of a block that is there already, from the place `from` on, with numbers in a
    /// row. Each shows the stage at which the table's data says that the place begins. One more seat lies behind them:
    /// that of the block, for the entry that is set to it. The first tag is of the first cell, and the second one is
    /// the entry's. The caller's seat goes along. No step is taken.
    pub fn adopt<M: EntryPlay<V>>(
        table: &Shared<S, V, K, P>,
        desk: &Desk<S, V, K, P>,
        badge: &mut Badge<V>,
        from: u64,
        n: u64,
    ) -> (StagedSeats, Tag<V, P>, PlacedSeat, EntryTag<V, P>)
        requires table { (desk.now.table_id ≡ table.now.table_id)
            × (badge.old.table_id ≡ table.now.table_id) }
        requires permits { (v : V) × (badge.old.views ≡ v ∷ [])
            × PermitsAdoption (P.holds desk.now.key) badge.old.id v P.shows
            (stages_from (P.opened_at desk.now.key) from n) (P.placed from n)
            (M.then from v None) }
        ensures seats { (result.0.ties ≡ row_of result.1.tie n) × (length result.0.ties ≡ n)
            × (result.0.stages ≡ stages_from (P.opened_at desk.now.key) from n)
            × (length result.0.stages ≡ n) }
        ensures tie { IsTieOf table.now.table_id desk.now.floor result.1.tie }
        ensures placed { IsEntryOf table.now.table_id desk.now.floor result.3.tie
            × (result.2.tie ≡ result.3.tie)
            × (result.3.from ≡ from) × (result.3.n ≡ n)
            × (result.2.number ≡ result.1.tie.id + n) }
        ensures seat { (badge.new.table_id ≡ badge.old.table_id) × (badge.new.id ≡ badge.old.id)
            × ((v : V) × (u : V) × (badge.old.views ≡ v ∷ []) × (badge.new.views ≡ u ∷ [])
            × M.then from v None u) }
    {
        // In the proof, the seats of the cells and of their block come out of the table's invariant.
        (
            StagedSeats {
                marker: PhantomData,
            },
            Tag {
                marker: PhantomData,
            },
            PlacedSeat {
                marker: PhantomData,
            },
            EntryTag {
                marker: PhantomData,
            },
        )
    }
}

impl<S, V, K, P: TableRule<S, V, K>> Drop for Desk<S, V, K, P> {
    fn drop(self) {
        let Self { marker: _ } = self;
    }
}

unsafe impl<S: Send, V, K, P: TableRule<S, V, K>> Send for Desk<S, V, K, P> {}

unsafe impl<S: Send, V, K, P: TableRule<S, V, K>> Sync for Desk<S, V, K, P> {}
