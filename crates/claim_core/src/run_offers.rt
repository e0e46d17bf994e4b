//! How a hand lends its seat to an offer for a run of cells: one step begins or fills them all.
ghost use Rattle.std.specs.Prelude.{◌≡◌, ◌+◌, ◌<◌, ◌≤◌, None, length};
ghost use Rattle.tie_core.specs.Tie.{begins, fills};
ghost use Rattle.tie_core.specs.Run.{IsRunMade, run_of};
ghost use Rattle.claim_core.specs.Hand.{HandView, IsHandOf, seen_size};
ghost use Rattle.claim_core.specs.Gain.{GainsAlong, HasLent, IsLent, IsTiedTo, KnowsNoneBegun, OwnsPlaces};
ghost use Rattle.claim_core.specs.Plays.{MayStepAlong, told_along};
ghost use Rattle.claim_core.specs.Ties.{FindsRun};

use crate::hand::Hand;
use crate::offers::CellTag;
use crate::rule::OneList;
use crate::seat_view::SeatView;
use crate::terms::Terms;
use crate::word::Word;
use atomic_table::Badge;
use std::alloc::Allocator;
use std::marker::PhantomData;
use tie_core::{Desk, Moving, RunOffer, RunPlay, SeatRun};

/// Says what a hand gains by one step on a run of cells.
pub trait RunHandPlay {
    ghost use Rattle.std.specs.Prelude.{ℕ, List};
    ghost use Rattle.tie_core.specs.Tie.{Step, Made};
    ghost use Rattle.claim_core.specs.declared.seat_view.SeatView.{SeatView};
    ghost use Rattle.claim_core.specs.Gain.{ChainGain};

    // The step on each cell.
    ghost step: { Step };
    // Of the first place, the view of the hand's seat, and the stages of each cell before and after the step.
    ghost gains: { ℕ → SeatView → List Made → ChainGain → Type 0 };
}

/// Marks an offer of a hand's seat for this play.
pub struct RunGain<M> {
    play: PhantomData<M>,
}

impl<M: RunHandPlay> RunPlay<SeatView> for RunGain<M> {
    ghost use Rattle.claim_core.specs.Plays.{told_along};

    ghost step = { M.step };

    ghost then = { told_along M.gains };
}

/// A begin of a run of cells, which changes no word.
pub struct BeginRun;

impl RunHandPlay for BeginRun {
    ghost use Rattle.tie_core.specs.Tie.{begins};
    ghost use Rattle.claim_core.specs.Plays.{begin_run_gains};

    ghost step = { begins };

    ghost gains = { begin_run_gains };
}

/// A fill of a run of cells, by the claim whose run has the places.
pub struct FillRun;

impl RunHandPlay for FillRun {
    ghost use Rattle.tie_core.specs.Tie.{fills};
    ghost use Rattle.claim_core.specs.Plays.{fill_run_gains};

    ghost step = { fills };

    ghost gains = { fill_run_gains };
}

/// An offer for a run of cells that has a hand's seat, for this play.
pub type HandRunOffer<'a, M> = RunOffer<
    'a,
    Moving<SeatView, Terms>,
    SeatRun<(), SeatView, Terms, OneList, RunGain<M>>,
>;

impl Hand {
    // Lends the seat for a step on a run that the rule allows.
    #[inline(always)]
    fn lend_run<'a, M: RunHandPlay, A: Allocator>(
        &mut self,
        word: &'a Word<A>,
        tag: &CellTag,
        place: u64,
        n: u64,
    ) -> HandRunOffer<'a, M>
        requires ours { IsHandOf word.now self.old }
        requires tied { IsTiedTo word.now tag.now.tie }
        requires some { 0 < n }
        requires may { MayStepAlong M.step (told_along M.gains place) self.old tag.now.tie.id n }
        ensures lent { IsLent result.about.table_id result.about.view self.old self.new }
        ensures offer { (result.ties ≡ run_of tag.now.tie n) × (length result.ties ≡ n)
            × (result.step ≡ M.step) × (result.made ≡ None) × (result.about.told ≡ place) }
    {
        let shared = &word.table.shared;
        Desk::offer_run::<RunGain<M>>(shared, &word.desk, &mut self.badge, tag, n, place)
    }

    /// Lends the seat for a begin of the cells of `n` own places from `place` on. The hand must know none of them
    /// begun, and nobody else has begun any. The tag is of the first cell.
    #[inline(always)]
    pub fn offer_begin_run<'a, A: Allocator>(
        &mut self,
        word: &'a Word<A>,
        tag: &CellTag,
        place: u64,
        n: u64,
    ) -> HandRunOffer<'a, BeginRun>
        requires ours { IsHandOf word.now self.old }
        requires tied { IsTiedTo word.now tag.now.tie }
        requires some { 0 < n }
        requires found { FindsRun self.old.rows place n tag.now.tie.id }
        requires own { OwnsPlaces self.old place n }
        requires unknown { KnowsNoneBegun self.old place n }
        ensures lent { IsLent result.about.table_id result.about.view self.old self.new }
        ensures offer { (result.ties ≡ run_of tag.now.tie n) × (length result.ties ≡ n)
            × (result.step ≡ begins) × (result.made ≡ None) × (result.about.told ≡ place) }
    {
        self.lend_run::<BeginRun, A>(word, tag, place, n)
    }

    /// Lends the seat for a fill of the cells of `n` places from `place` on that were claimed since the word was
    /// opened. The tag is of the first cell.
    #[inline(always)]
    pub fn offer_fill_run<'a, A: Allocator>(
        &mut self,
        word: &'a Word<A>,
        tag: &CellTag,
        place: u64,
        n: u64,
    ) -> HandRunOffer<'a, FillRun>
        requires ours { IsHandOf word.now self.old }
        requires tied { IsTiedTo word.now tag.now.tie }
        requires some { 0 < n }
        requires found { FindsRun self.old.rows place n tag.now.tie.id }
        requires claimed { (self.old.of.base ≤ place) × (place + n ≤ seen_size self.old) }
        ensures lent { IsLent result.about.table_id result.about.view self.old self.new }
        ensures offer { (result.ties ≡ run_of tag.now.tie n) × (length result.ties ≡ n)
            × (result.step ≡ fills) × (result.made ≡ None) × (result.about.told ≡ place) }
    {
        self.lend_run::<FillRun, A>(word, tag, place, n)
    }

    /// Takes the seat back from an offer for a run whose step has run. The hand is then what it was when it lent
    /// the seat, and has gained what the step says of the stages of each cell.
    #[inline(always)]
    pub fn take_back_run<'a, M: RunHandPlay>(&mut self, offer: HandRunOffer<'a, M>)
        requires made { IsRunMade offer.made }
        requires lent { HasLent offer.about.table_id offer.about.view self.old }
        ensures gained { (hand : HandView)
            → IsLent offer.entry.about.table_id offer.entry.about.view hand self.old
            → GainsAlong (M.gains offer.entry.about.told offer.entry.about.view) offer.entry.made
            hand self.new }
    {
        let mut badge = Badge::blank();
        offer.back(&mut badge);
        self.badge = badge;
    }
}
