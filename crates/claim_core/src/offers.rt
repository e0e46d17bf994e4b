//! How a hand lends its seat to an offer, for one step on a cell that is tied to its word, and takes it back.
ghost use Rattle.std.specs.Prelude.{◌≡◌, ◌<◌, None};
ghost use Rattle.std.specs.List.{Contains};
ghost use Rattle.tie_core.specs.Tie.{IsMade, looks, begins, fills, breaks, mends};
ghost use Rattle.claim_core.specs.Hand.{HandView, IsHandOf, OwnsPlace, seen_size};
ghost use Rattle.claim_core.specs.Gain.{GainsBy, HasLent, HasSeenPlace, IsLent, IsTiedTo};
ghost use Rattle.claim_core.specs.Plays.{MayStep, told_by};
ghost use Rattle.claim_core.specs.Ties.{Finds};

use crate::hand::Hand;
use crate::plays::{
    BeginAt, CellGain, FillAt, FillMended, HandPlay, LookAt, MendAt, SpoilAt, SpoilMended,
};
use crate::rule::OneList;
use crate::seat_view::SeatView;
use crate::terms::Terms;
use crate::word::Word;
use atomic_table::Badge;
use std::alloc::Allocator;
use tie_core::{Desk, Moving, Offer, SeatMove, Tag};

/// The tag of a cell that is tied to a word.
pub type CellTag = Tag<SeatView, OneList>;

/// An offer that has a hand's seat, for this play.
pub type HandOffer<'a, M> = Offer<
    'a,
    Moving<SeatView, Terms>,
    SeatMove<(), SeatView, Terms, OneList, CellGain<M>>,
>;

impl Hand {
    // Lends the seat for a step that the rule allows.
    #[inline(always)]
    pub(crate) fn lend<'a, M: HandPlay, A: Allocator>(
        &mut self,
        word: &'a Word<A>,
        tag: &CellTag,
        place: u64,
    ) -> HandOffer<'a, M>
        requires ours { IsHandOf word.now self.old }
        requires tied { IsTiedTo word.now tag.now.tie }
        requires may { MayStep M.step (told_by M.gains place) self.old tag.now.tie.id }
        ensures lent { IsLent result.about.table_id result.about.view self.old self.new }
        ensures offer { (result.tie ≡ tag.now.tie) × (result.step ≡ M.step)
            × (result.made ≡ None) × (result.about.told ≡ place) }
    {
        let shared = &word.table.shared;
        Desk::offer::<CellGain<M>>(shared, &word.desk, &mut self.badge, tag, place)
    }

    /// Lends the seat for a look at the cell of a place.
    #[inline(always)]
    pub fn offer_look<'a, A: Allocator>(
        &mut self,
        word: &'a Word<A>,
        tag: &CellTag,
        place: u64,
    ) -> HandOffer<'a, LookAt>
        requires ours { IsHandOf word.now self.old }
        requires tied { IsTiedTo word.now tag.now.tie }
        requires found { Finds self.old.rows place tag.now.tie.id }
        requires seen { place < seen_size self.old }
        ensures lent { IsLent result.about.table_id result.about.view self.old self.new }
        ensures offer { (result.tie ≡ tag.now.tie) × (result.step ≡ looks) × (result.made ≡ None)
            × (result.about.told ≡ place) }
    {
        self.lend::<LookAt, A>(word, tag, place)
    }

    /// Lends the seat for a begin of the cell of an own place that the hand does not know begun. Nobody else
    /// has begun it.
    #[inline(always)]
    pub fn offer_begin<'a, A: Allocator>(
        &mut self,
        word: &'a Word<A>,
        tag: &CellTag,
        place: u64,
    ) -> HandOffer<'a, BeginAt>
        requires ours { IsHandOf word.now self.old }
        requires tied { IsTiedTo word.now tag.now.tie }
        requires found { Finds self.old.rows place tag.now.tie.id }
        requires own { OwnsPlace self.old place }
        requires unknown { Contains self.old.begun place → ⊥ }
        ensures lent { IsLent result.about.table_id result.about.view self.old self.new }
        ensures offer { (result.tie ≡ tag.now.tie) × (result.step ≡ begins) × (result.made ≡ None)
            × (result.about.told ≡ place) }
    {
        self.lend::<BeginAt, A>(word, tag, place)
    }

    /// Lends the seat for a fill of the cell of a place in a run that the hand has seen.
    #[inline(always)]
    pub fn offer_fill<'a, A: Allocator>(
        &mut self,
        word: &'a Word<A>,
        tag: &CellTag,
        place: u64,
    ) -> HandOffer<'a, FillAt>
        requires ours { IsHandOf word.now self.old }
        requires tied { IsTiedTo word.now tag.now.tie }
        requires found { Finds self.old.rows place tag.now.tie.id }
        requires seen { HasSeenPlace self.old place }
        ensures lent { IsLent result.about.table_id result.about.view self.old self.new }
        ensures offer { (result.tie ≡ tag.now.tie) × (result.step ≡ fills) × (result.made ≡ None)
            × (result.about.told ≡ place) }
    {
        self.lend::<FillAt, A>(word, tag, place)
    }

    /// Lends the seat for a break of the cell of a place in a run that the hand has seen.
    #[inline(always)]
    pub fn offer_spoil<'a, A: Allocator>(
        &mut self,
        word: &'a Word<A>,
        tag: &CellTag,
        place: u64,
    ) -> HandOffer<'a, SpoilAt>
        requires ours { IsHandOf word.now self.old }
        requires tied { IsTiedTo word.now tag.now.tie }
        requires found { Finds self.old.rows place tag.now.tie.id }
        requires seen { HasSeenPlace self.old place }
        ensures lent { IsLent result.about.table_id result.about.view self.old self.new }
        ensures offer { (result.tie ≡ tag.now.tie) × (result.step ≡ breaks) × (result.made ≡ None)
            × (result.about.told ≡ place) }
    {
        self.lend::<SpoilAt, A>(word, tag, place)
    }

    /// Lends the seat for a try to mend the cell of a place.
    #[inline(always)]
    pub fn offer_mend<'a, A: Allocator>(
        &mut self,
        word: &'a Word<A>,
        tag: &CellTag,
        place: u64,
    ) -> HandOffer<'a, MendAt>
        requires ours { IsHandOf word.now self.old }
        requires tied { IsTiedTo word.now tag.now.tie }
        requires found { Finds self.old.rows place tag.now.tie.id }
        requires seen { place < seen_size self.old }
        ensures lent { IsLent result.about.table_id result.about.view self.old self.new }
        ensures offer { (result.tie ≡ tag.now.tie) × (result.step ≡ mends) × (result.made ≡ None)
            × (result.about.told ≡ place) }
    {
        self.lend::<MendAt, A>(word, tag, place)
    }

    /// Lends the seat for a fill by the mender of the cell.
    #[inline(always)]
    pub fn offer_fill_mended<'a, A: Allocator>(
        &mut self,
        word: &'a Word<A>,
        tag: &CellTag,
        place: u64,
    ) -> HandOffer<'a, FillMended>
        requires ours { IsHandOf word.now self.old }
        requires tied { IsTiedTo word.now tag.now.tie }
        requires found { Finds self.old.rows place tag.now.tie.id }
        requires seen { place < seen_size self.old }
        ensures lent { IsLent result.about.table_id result.about.view self.old self.new }
        ensures offer { (result.tie ≡ tag.now.tie) × (result.step ≡ fills) × (result.made ≡ None)
            × (result.about.told ≡ place) }
    {
        self.lend::<FillMended, A>(word, tag, place)
    }

    /// Lends the seat for a break by the mender of the cell.
    #[inline(always)]
    pub fn offer_spoil_mended<'a, A: Allocator>(
        &mut self,
        word: &'a Word<A>,
        tag: &CellTag,
        place: u64,
    ) -> HandOffer<'a, SpoilMended>
        requires ours { IsHandOf word.now self.old }
        requires tied { IsTiedTo word.now tag.now.tie }
        requires found { Finds self.old.rows place tag.now.tie.id }
        requires seen { place < seen_size self.old }
        ensures lent { IsLent result.about.table_id result.about.view self.old self.new }
        ensures offer { (result.tie ≡ tag.now.tie) × (result.step ≡ breaks) × (result.made ≡ None)
            × (result.about.told ≡ place) }
    {
        self.lend::<SpoilMended, A>(word, tag, place)
    }

    /// Takes the seat back from an offer whose step has run. The hand is then what it was when it lent the
    /// seat, and has gained what the step says of the stages before and after it.
    #[inline(always)]
    pub fn take_back<'a, M: HandPlay>(&mut self, offer: HandOffer<'a, M>)
        requires made { IsMade offer.made }
        requires lent { HasLent offer.about.table_id offer.about.view self.old }
        ensures gained { (hand : HandView)
            → IsLent offer.entry.about.table_id offer.entry.about.view hand self.old
            → GainsBy (M.gains offer.entry.about.told offer.entry.about.view) offer.entry.made
            hand self.new }
    {
        let mut badge = Badge::blank();
        offer.back(&mut badge);
        self.badge = badge;
    }
}
