//! How a hand lends its seat to a visit, for one step on an entry that is tied to its word; and how seats of
//! new blocks and entries are made.
ghost use Rattle.std.specs.Prelude.{◌≡◌, ℕ, ◌+◌, ◌<◌, ◌≤◌, [], ◌∷◌, Some, None, length};
ghost use Rattle.tie_core.specs.Tie.{row_of};
ghost use Rattle.tie_core.specs.Visit.{HasVisited};
ghost use Rattle.claim_core.specs.Hand.{HandView, IsHandOf, IsWholeHand, seen_size};
ghost use Rattle.claim_core.specs.Gain.{EndsAt, GainsFrom, HasLent, IsEntryTo, IsLent, IsTiedTo};
ghost use Rattle.claim_core.specs.Plays.{block_view};
ghost use Rattle.claim_core.specs.Ties.{first_stages};

use crate::hand::Hand;
use crate::offers::CellTag;
use crate::plays::{
    EntryAt, EntryGain, FindRow, NewBlock, NewEntry, ScoutRow, SetRow, Unseen, VisitPlay,
};
use crate::rule::OneList;
use crate::seat_view::SeatView;
use crate::terms::Terms;
use crate::word::Word;
use atomic_table::Badge;
use std::alloc::Allocator;
use std::marker::Brand;
use tie_core::{
    Desk, EntrySeat, EntryTag, Moving, PlacedSeat, SeatVisit, Seats, StagedSeats, Visit,
};

/// The seat of a block, or a blank in its place.
pub type BlockSeat = Badge<SeatView>;

/// The tag of an entry that is tied to a word.
pub type RowTag = EntryTag<SeatView, OneList>;

/// A visit that has a hand's seat, for this play.
pub type HandVisit<'a, M> = Visit<
    'a,
    Moving<SeatView, Terms>,
    SeatVisit<(), SeatView, Terms, OneList, EntryGain<M>>,
>;

/// A visit that has a hand's seat, for an exchange that teaches the hand nothing.
pub type UnseenVisit<'a> = Visit<
    'a,
    Moving<SeatView, Terms>,
    SeatVisit<(), SeatView, Terms, OneList, Unseen>,
>;

impl<A: Allocator> Word<A> {
    /// Makes the seats of `n` new cells, and that of their block, which goes into a blank badge. The tag is of
    /// the first cell. No step is taken.
    pub fn lay(&self, block: &mut BlockSeat, n: u64) -> (Seats, CellTag)
        requires blank { block.old.views ≡ [] }
        ensures seats { (result.0.ties ≡ row_of result.1.tie n) × (length result.0.ties ≡ n) }
        ensures tied { IsTiedTo self.now result.1.tie }
        ensures block { (block.new.table_id ≡ self.now.table)
            × (block.new.id ≡ result.1.tie.id + n)
            × (block.new.views ≡ block_view result.1.tie.id n ∷ []) }
    {
        let shared = &self.table.shared;
        Desk::lay::<NewBlock>(shared, &self.desk, block, n)
    }

    /// Makes the seat of a new entry for the `n` places from `from` on, and its tag. Only a whole hand may, past
    /// all entries that it knows, and past the places that the word began with. No step is taken.
    pub fn enter(&self, hand: &mut Hand, from: u64, n: u64) -> (EntrySeat, RowTag)
        requires ours { IsHandOf self.now hand.old }
        requires whole { IsWholeHand hand.old }
        requires unlaid { hand.old.laid ≤ from }
        requires past { self.now.base ≤ from }
        ensures entry { IsEntryTo self.now result.1.tie × (result.0.tie ≡ result.1.tie)
            × (result.1.from ≡ from) × (result.1.n ≡ n) }
        ensures ends { EndsAt (from + n) hand.old hand.new }
    {
        self.enter_at::<Brand>(hand, from, n)
    }

    // The same, by the number of places as the caller picks it.
    fn enter_at<R: EntryAt>(&self, hand: &mut Hand, from: u64, n: u64) -> (EntrySeat, RowTag)
        requires ours { IsHandOf self.now hand.old }
        requires whole { IsWholeHand hand.old }
        requires unlaid { hand.old.laid ≤ from }
        requires past { self.now.base ≤ from }
        requires places { R.n ≡ n }
        ensures entry { IsEntryTo self.now result.1.tie × (result.0.tie ≡ result.1.tie)
            × (result.1.from ≡ from) × (result.1.n ≡ n) }
        ensures ends { EndsAt (from + n) hand.old hand.new }
    {
        let shared = &self.table.shared;
        Desk::enter::<NewEntry<R>>(shared, &self.desk, &mut hand.badge, from, n)
    }

    /// Makes the seats of the `n` cells of a block that is there already, for the places from `from` on, and that of
    /// the block, for an entry that is set to it. The first tag is of the first cell, and the second one is the
    /// entry's. Each cell is as it was when the word was opened. Only a whole hand may do this, past all entries
    /// that it knows. No step is taken.
    pub fn adopt(
        &self,
        hand: &mut Hand,
        from: u64,
        n: u64,
    ) -> (StagedSeats, CellTag, PlacedSeat, RowTag)
        requires ours { IsHandOf self.now hand.old }
        requires whole { IsWholeHand hand.old }
        requires unlaid { hand.old.laid ≤ from }
        ensures seats { (result.0.ties ≡ row_of result.1.tie n) × (length result.0.ties ≡ n) }
        ensures stages { (result.0.stages ≡ first_stages self.now.base self.now.filled from n)
            × (length result.0.stages ≡ n) }
        ensures tied { IsTiedTo self.now result.1.tie }
        ensures entry { IsEntryTo self.now result.3.tie × (result.2.tie ≡ result.3.tie)
            × (result.3.from ≡ from) × (result.3.n ≡ n)
            × (result.2.number ≡ result.1.tie.id + n) }
        ensures ends { EndsAt (from + n) hand.old hand.new }
    {
        self.adopt_at::<Brand>(hand, from, n)
    }

    // The same, by the number of places as the caller picks it.
    fn adopt_at<R: EntryAt>(
        &self,
        hand: &mut Hand,
        from: u64,
        n: u64,
    ) -> (StagedSeats, CellTag, PlacedSeat, RowTag)
        requires ours { IsHandOf self.now hand.old }
        requires whole { IsWholeHand hand.old }
        requires unlaid { hand.old.laid ≤ from }
        requires places { R.n ≡ n }
        ensures seats { (result.0.ties ≡ row_of result.1.tie n) × (length result.0.ties ≡ n) }
        ensures stages { (result.0.stages ≡ first_stages self.now.base self.now.filled from n)
            × (length result.0.stages ≡ n) }
        ensures tied { IsTiedTo self.now result.1.tie }
        ensures entry { IsEntryTo self.now result.3.tie × (result.2.tie ≡ result.3.tie)
            × (result.3.from ≡ from) × (result.3.n ≡ n)
            × (result.2.number ≡ result.1.tie.id + n) }
        ensures ends { EndsAt (from + n) hand.old hand.new }
    {
        let shared = &self.table.shared;
        Desk::adopt::<NewEntry<R>>(shared, &self.desk, &mut hand.badge, from, n)
    }
}

impl Hand {
    /// Lends the seat for a look at the entry of a place that the hand has seen. Callers pass a type parameter of
    /// their own for the entry's places.
    #[inline(always)]
    pub fn visit_look<'a, R: EntryAt, A: Allocator>(
        &mut self,
        word: &'a Word<A>,
        tag: &RowTag,
        place: u64,
    ) -> HandVisit<'a, FindRow<R>>
        requires ours { IsHandOf word.now self.old }
        requires tied { IsEntryTo word.now tag.now.tie }
        requires places { (R.from ≡ tag.now.from) × (R.n ≡ tag.now.n) }
        requires there { (R.from ≤ place) × (place < R.from + R.n) }
        requires seen { place < seen_size self.old }
        ensures lent { IsLent result.about.table_id result.about.view self.old self.new }
        ensures visit { (result.tie ≡ tag.now.tie) × (result.brought ≡ None)
            × (result.made ≡ None) × (result.about.told ≡ place) }
    {
        let shared = &word.table.shared;
        Desk::visit::<EntryGain<FindRow<R>>>(shared, &word.desk, &mut self.badge, tag, place)
    }

    /// Lends the seat for a look at an entry that names no place: if the entry is not set, nothing is logged.
    /// Callers pass a type parameter of their own for the entry's places.
    #[inline(always)]
    pub fn visit_scout<'a, R: EntryAt, A: Allocator>(
        &mut self,
        word: &'a Word<A>,
        tag: &RowTag,
    ) -> HandVisit<'a, ScoutRow<R>>
        requires ours { IsHandOf word.now self.old }
        requires tied { IsEntryTo word.now tag.now.tie }
        requires places { (R.from ≡ tag.now.from) × (R.n ≡ tag.now.n) }
        ensures lent { IsLent result.about.table_id result.about.view self.old self.new }
        ensures visit { (result.tie ≡ tag.now.tie) × (result.brought ≡ None)
            × (result.made ≡ None) }
    {
        let shared = &word.table.shared;
        Desk::visit::<EntryGain<ScoutRow<R>>>(shared, &word.desk, &mut self.badge, tag, 0)
    }

    /// Lends the seat for an exchange that sets an entry to a block, whose seat goes along.
    #[inline(always)]
    pub fn visit_publish<'a, R: EntryAt, A: Allocator>(
        &mut self,
        word: &'a Word<A>,
        tag: &RowTag,
        block: &mut BlockSeat,
    ) -> HandVisit<'a, SetRow<R>>
        requires ours { IsHandOf word.now self.old }
        requires tied { IsEntryTo word.now tag.now.tie }
        requires places { (R.from ≡ tag.now.from) × (R.n ≡ tag.now.n) }
        requires block { (block.old.table_id ≡ word.now.table)
            × (block.old.views ≡ block_view R.first R.n ∷ []) }
        ensures lent { IsLent result.about.table_id result.about.view self.old self.new }
        ensures visit { (result.tie ≡ tag.now.tie) × (result.brought ≡ Some block.old.id)
            × (result.made ≡ None) }
        ensures blank { block.new.views ≡ [] }
    {
        let shared = &word.table.shared;
        Desk::publish::<EntryGain<SetRow<R>>>(shared, &word.desk, &mut self.badge, block, tag, 0)
    }

    /// Takes the seat back from a visit whose step has run. The hand is then what it was when it lent the seat,
    /// and has gained what the step says of what it found.
    #[inline(always)]
    pub fn take_back_visit<'a, M: VisitPlay>(&mut self, visit: HandVisit<'a, M>)
        requires made { HasVisited visit.made }
        requires lent { HasLent visit.about.table_id visit.about.view self.old }
        ensures gained { (hand : HandView)
            → IsLent visit.entry.about.table_id visit.entry.about.view hand self.old
            → GainsFrom (M.gain visit.entry.about.told) visit.entry.made hand self.new }
    {
        let mut badge = Badge::blank();
        visit.back(&mut badge);
        self.badge = badge;
    }
    /// Lends the seat for an exchange like `visit_publish` that teaches the hand nothing.
    #[inline(always)]
    pub fn visit_publish_unseen<'a, A: Allocator>(
        &mut self,
        word: &'a Word<A>,
        tag: &RowTag,
        block: &mut BlockSeat,
    ) -> UnseenVisit<'a>
        requires ours { IsHandOf word.now self.old }
        requires tied { IsEntryTo word.now tag.now.tie }
        requires block { (block.old.table_id ≡ word.now.table)
            × ((first : ℕ) × (block.old.views ≡ block_view first tag.now.n ∷ [])) }
        ensures lent { IsLent result.about.table_id result.about.view self.old self.new }
        ensures visit { (result.tie ≡ tag.now.tie) × (result.brought ≡ Some block.old.id)
            × (result.made ≡ None) }
        ensures blank { block.new.views ≡ [] }
    {
        let shared = &word.table.shared;
        Desk::publish::<Unseen>(shared, &word.desk, &mut self.badge, block, tag, 0)
    }

    /// Takes the seat back from such a visit, whose step has run. The hand is then what it was when it lent the
    /// seat.
    #[inline(always)]
    pub fn take_back_unseen<'a>(&mut self, visit: UnseenVisit<'a>)
        requires made { HasVisited visit.made }
        requires lent { HasLent visit.about.table_id visit.about.view self.old }
        ensures same { (hand : HandView)
            → IsLent visit.entry.about.table_id visit.entry.about.view hand self.old
            → self.new ≡ hand }
    {
        let mut seat = Badge::blank();
        visit.back(&mut seat);
        self.badge = seat;
    }
}
