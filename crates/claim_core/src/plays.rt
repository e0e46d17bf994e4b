//! What steps on cells and entries that are tied to the word tell the hand whose seat goes along.
use crate::rule::OneList;
use crate::seat_view::SeatView;
use crate::terms::Terms;
use std::marker::{Brand, PhantomData};
use tie_core::{CellPlay, Entered, EntryPlay, Opened, RowPlay, Staged};

impl Staged<SeatView> for OneList {
    ghost use Rattle.claim_core.specs.Plays.{stage_view};

    ghost shows = { stage_view };
}

impl Entered<SeatView> for OneList {
    ghost use Rattle.claim_core.specs.Plays.{empty_view, placed_view};
    ghost use Rattle.claim_core.specs.SeatView.{spent_view};

    ghost empty = { empty_view };

    ghost placed = { placed_view };

    ghost spent = { spent_view };
}

impl Opened<Terms> for OneList {
    ghost use Rattle.claim_core.specs.Ties.{opened_by};

    ghost opened_at = { opened_by };
}

/// The seats of a new block.
pub struct NewBlock;

impl RowPlay<SeatView> for NewBlock {
    ghost use Rattle.claim_core.specs.Plays.{block_view};

    ghost owner = { block_view };
}

/// Says what a hand gains by one step on a cell.
pub trait HandPlay {
    ghost use Rattle.std.specs.Prelude.{ℕ};
    ghost use Rattle.tie_core.specs.Tie.{Stage, Step};
    ghost use Rattle.claim_core.specs.declared.seat_view.SeatView.{SeatView};
    ghost use Rattle.claim_core.specs.Gain.{Gain};

    // The step.
    ghost step: { Step };
    // Of the place, the view of the hand's seat, and the stages before and after the step.
    ghost gains: { ℕ → SeatView → Stage → Stage → Gain → Type 0 };
}

/// Marks an offer of a hand's seat for this play.
pub struct CellGain<M> {
    play: PhantomData<M>,
}

impl<M: HandPlay> CellPlay<SeatView> for CellGain<M> {
    ghost use Rattle.claim_core.specs.Plays.{told_by};

    ghost step = { M.step };

    ghost then = { told_by M.gains };
}

/// A look at a cell.
pub struct LookAt;

impl HandPlay for LookAt {
    ghost use Rattle.tie_core.specs.Tie.{looks};
    ghost use Rattle.claim_core.specs.Plays.{look_gains};

    ghost step = { looks };

    ghost gains = { look_gains };
}

/// A begin of a cell, which changes no word.
pub struct BeginAt;

impl HandPlay for BeginAt {
    ghost use Rattle.tie_core.specs.Tie.{begins};
    ghost use Rattle.claim_core.specs.Plays.{begin_gains};

    ghost step = { begins };

    ghost gains = { begin_gains };
}

/// A fill of a cell, by the claim whose run has the place.
pub struct FillAt;

impl HandPlay for FillAt {
    ghost use Rattle.tie_core.specs.Tie.{fills};
    ghost use Rattle.claim_core.specs.Plays.{fill_gains};

    ghost step = { fills };

    ghost gains = { fill_gains };
}

/// A break of a cell, by the claim whose run has the place.
pub struct SpoilAt;

impl HandPlay for SpoilAt {
    ghost use Rattle.tie_core.specs.Tie.{breaks};
    ghost use Rattle.claim_core.specs.Plays.{spoil_gains};

    ghost step = { breaks };

    ghost gains = { spoil_gains };
}

/// A try to mend a cell.
pub struct MendAt;

impl HandPlay for MendAt {
    ghost use Rattle.tie_core.specs.Tie.{mends};
    ghost use Rattle.claim_core.specs.Plays.{mend_gains};

    ghost step = { mends };

    ghost gains = { mend_gains };
}

/// A fill of a cell, by its mender.
pub struct FillMended;

impl HandPlay for FillMended {
    ghost use Rattle.tie_core.specs.Tie.{fills};
    ghost use Rattle.claim_core.specs.Plays.{fill_mended_gains};

    ghost step = { fills };

    ghost gains = { fill_mended_gains };
}

/// A break of a cell, by its mender.
pub struct SpoilMended;

impl HandPlay for SpoilMended {
    ghost use Rattle.tie_core.specs.Tie.{breaks};
    ghost use Rattle.claim_core.specs.Plays.{spoil_mended_gains};

    ghost step = { breaks };

    ghost gains = { spoil_mended_gains };
}

/// The places of an entry, and the seat of the first cell of a block that it may be set to. A call of a
/// caller's own function that passes `Brand` chooses them.
pub trait EntryAt {
    ghost use Rattle.std.specs.Prelude.{ℕ};

    ghost from: { ℕ };

    ghost n: { ℕ };

    ghost first: { ℕ };
}

impl EntryAt for Brand {
    ghost from = { 0 };

    ghost n = { 0 };

    ghost first = { 0 };
}

/// Says what a hand gains by one step on an entry.
pub trait VisitPlay {
    ghost use Rattle.std.specs.Prelude.{ℕ};
    ghost use Rattle.tie_core.specs.Visit.{Content};
    ghost use Rattle.claim_core.specs.Gain.{Gain};

    // Of the place, and what the step found.
    ghost gain: { ℕ → Content → Gain };
}

/// Marks a visit of a hand's seat for this play.
pub struct EntryGain<M> {
    play: PhantomData<M>,
}

impl<M: VisitPlay> EntryPlay<SeatView> for EntryGain<M> {
    ghost use Rattle.claim_core.specs.Plays.{told_of};

    ghost then = { told_of M.gain };
}

/// A look at an entry.
pub struct FindRow<R> {
    entry: PhantomData<R>,
}

impl<R: EntryAt> VisitPlay for FindRow<R> {
    ghost use Rattle.claim_core.specs.Plays.{found_gain};

    ghost gain = { found_gain R.from R.n };
}

/// A look at an entry that names no place.
pub struct ScoutRow<R> {
    entry: PhantomData<R>,
}

impl<R: EntryAt> VisitPlay for ScoutRow<R> {
    ghost use Rattle.claim_core.specs.Plays.{scout_gain};

    ghost gain = { scout_gain R.from R.n };
}

/// An exchange that sets an entry to a block.
pub struct SetRow<R> {
    entry: PhantomData<R>,
}

impl<R: EntryAt> VisitPlay for SetRow<R> {
    ghost use Rattle.claim_core.specs.Plays.{set_gain};

    ghost gain = { set_gain R.from R.n R.first };
}

/// An exchange that sets an entry to a block and teaches the hand nothing.
pub struct Unseen;

impl EntryPlay<SeatView> for Unseen {
    ghost use Rattle.claim_core.specs.Plays.{unseen};

    ghost then = { unseen };
}

/// The making of an entry.
pub struct NewEntry<R> {
    entry: PhantomData<R>,
}

impl<R: EntryAt> EntryPlay<SeatView> for NewEntry<R> {
    ghost use Rattle.claim_core.specs.Plays.{entered};

    ghost then = { entered R.n };
}
