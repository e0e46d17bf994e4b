// Steps of a hand on places. Each runs an offer of the hand's seat in its one atomic step, which logs its event in that
// step.
ghost use Rattle.std.specs.Prelude.{◌≡◌, ◌+◌, ◌-◌, ◌%◌, ◌<◌, ◌≤◌, ℕ, IfOk, IfErr, Some, length};
ghost use Rattle.std.specs.Vec.Iter.{into_iter_len};
ghost use Rattle.tie_core.specs.Run.{run_of};
ghost use Rattle.claim_core.specs.Hand.{HandView, OwnsPlace, seen_size};
ghost use Rattle.claim_core.specs.Gain.{IsTiedTo};
ghost use Rattle.claim_core.specs.History.{break_event, fill_event, mender_of};
ghost use Rattle.claim_core.specs.Ties.{Finds, FindsRun, IsInRow};
ghost use Rattle.cell_core.specs.Block.{IsPenAt, IsFresh, IsMending, IsPlacedAt, IsSpoiltAt, block_len, cell_at};
ghost use Rattle.cell_core.specs.Laid.{word_cells};
ghost use Rattle.cell_core.specs.Run.{AreTiedTo, IsRunPenAt, cells_from, members_of};
ghost use Rattle.cell_core.specs.Shown.{IsFoundIn, IsLookAt, IsNotBroken};
ghost use Rattle.grow_core.specs.Keys.{OwnsPlacesOf};
ghost use Rattle.grow_core.specs.Logs.{fill_steps, step_of};
ghost use Rattle.grow_core.specs.Segment.{IsSegmentOf, KnowsSegment};
ghost use Rattle.grow_core.specs.Shown.{look_steps, try_steps};
ghost use Rattle.grow_core.specs.Steps.{AddsAlong, AddsAt, AreFresh, LooksAt, WorksIn};
ghost use Rattle.grow_core.specs.Stretch.{IsCounted, Takes};
ghost use Rattle.grow_core.specs.Ties.{IsCellOf, KnowsRow, row_at};
ghost use Rattle.grow_core.specs.Vector.{IsHandOf, layout_of, limit_of};

use crate::fill::Segment;
use crate::stretch::{Stretch, write_values};
use crate::ties::CellBlock;
use crate::vector::Shared;
use cell_core::block::{First, Found, Look, Pen, Placed, Row, RunPen, Spoilt, Tied};
use claim_core::{CellTag, Hand as ClaimHand, laws};
use std::vec::IntoIter;
use table_core::Key;

impl<T> Shared<T> {
    // The tag of the cell at an offset of a block. It has no bytes.
    #[inline(always)]
    fn cell_tag(&self, block: &CellBlock<T>, key: &Key, place: u64, offset: u64) -> CellTag
        requires cell { IsCellOf self.now.segments key.now block.now place offset }
        ensures tie { (cell_at block.now offset).tied ≡ Some result.tie }
        ensures of { IsTiedTo self.now.word result.tie }
        ensures row { IsInRow (row_at (layout_of self.now) key.now.segment block.now) place
            result.tie.id }
        ensures found { (hand : HandView) → IsHandOf self.now hand
            → KnowsRow hand key.now.segment block.now → Finds hand.rows place result.tie.id }
        ensures found_run { (hand : HandView) (n : ℕ) → IsHandOf self.now hand
            → KnowsRow hand key.now.segment block.now → offset + n ≤ block_len block.now
            → FindsRun hand.rows place n result.tie.id }
        ensures run { (n : ℕ) → offset + n ≤ block_len block.now
            → AreTiedTo (run_of result.tie n) (cells_from n offset block.now.cells) }
    {
        // For the proof: the cells of a block have seats with numbers in a row.
        block.ties_laws();
        self.cells.numbered(block).further(offset)
    }

    // Looks at a place, by one load.
    #[inline(always)]
    pub(crate) fn look_tied<'a>(
        &'a self,
        claims: &mut ClaimHand,
        block: &'a CellBlock<T>,
        key: &Key,
        place: u64,
        offset: u64,
    ) -> Look<'a, T>
        requires ours { IsHandOf self.now claims.old }
        requires seen { place < seen_size claims.old }
        requires cell { IsCellOf self.now.segments key.now block.now place offset }
        requires row { KnowsRow claims.old key.now.segment block.now }
        ensures look { IsLookAt block.now offset result }
        ensures logs { LooksAt claims.old claims.new (look_steps place result) }
    {
        let tag = self.cell_tag(block, key, place, offset);
        let offer = claims.offer_look(&self.word, &tag, place);
        let (look, offer) = block.look_for(offset, offer);
        claims.take_back(offer);
        look
    }

    // Begins a place of the hand's own that the hand does not know begun. It reads no state.
    #[inline(always)]
    fn begin_tied<'a>(
        &'a self,
        claims: &mut ClaimHand,
        tag: &CellTag,
        block: &'a CellBlock<T>,
        place: u64,
        offset: u64,
    ) -> Pen<'a, T, First>
        requires ours { IsHandOf self.now claims.old }
        requires owned { OwnsPlace claims.old place }
        requires fresh { AreFresh claims.old place 1 }
        requires within { offset < length block.now.cells }
        requires tie { (cell_at block.now offset).tied ≡ Some tag.now.tie }
        requires of { IsTiedTo self.now.word tag.now.tie }
        requires row { Finds claims.old.rows place tag.now.tie.id }
        ensures pen { IsPenAt block.now offset result }
        ensures fresh { IsFresh result }
        ensures works { WorksIn claims.old claims.new place 1 }
    {
        let offer = claims.offer_begin(&self.word, tag, place);
        let (pen, offer) = block.begin_for(offset, offer);
        claims.take_back(offer);
        pen
    }

    // Fills a place of the hand's own that the hand does not know begun. No other call can have taken it.
    #[inline(always)]
    pub(crate) fn fill_tied(
        &self,
        claims: &mut ClaimHand,
        block: &CellBlock<T>,
        key: &Key,
        place: u64,
        offset: u64,
        value: T,
    ) -> Placed<T>
        requires ours { IsHandOf self.now claims.old }
        requires owned { OwnsPlace claims.old place }
        requires fresh { AreFresh claims.old place 1 }
        requires cell { IsCellOf self.now.segments key.now block.now place offset }
        requires row { KnowsRow claims.old key.now.segment block.now }
        ensures placed { IsPlacedAt block.now offset result }
        ensures value { result.value ≡ value }
        ensures works { WorksIn claims.old claims.new place 1 }
        ensures adds { AddsAt claims.old claims.new place (λ index. fill_event index place) }
    {
        // For the proof: a place is of one run.
        laws::runs_are_apart();
        let tag = self.cell_tag(block, key, place, offset);
        let pen = self.begin_tied(claims, &tag, block, place, offset);
        let offer = claims.offer_fill(&self.word, &tag, place);
        let (placed, offer) = pen.fill_for(value, offer);
        claims.take_back(offer);
        placed
    }

    // Breaks such a place.
    pub(crate) fn break_tied(
        &self,
        claims: &mut ClaimHand,
        block: &CellBlock<T>,
        key: &Key,
        place: u64,
        offset: u64,
    ) -> Spoilt
        requires ours { IsHandOf self.now claims.old }
        requires owned { OwnsPlace claims.old place }
        requires fresh { AreFresh claims.old place 1 }
        requires cell { IsCellOf self.now.segments key.now block.now place offset }
        requires row { KnowsRow claims.old key.now.segment block.now }
        ensures spoilt { IsSpoiltAt block.now offset result }
        ensures works { WorksIn claims.old claims.new place 1 }
        ensures adds { AddsAt claims.old claims.new place (λ index. break_event index place) }
    {
        // For the proof: a place is of one run.
        laws::runs_are_apart();
        let tag = self.cell_tag(block, key, place, offset);
        let pen = self.begin_tied(claims, &tag, block, place, offset);
        let offer = claims.offer_spoil(&self.word, &tag, place);
        let (spoilt, offer) = pen.spoil_for(offer);
        claims.take_back(offer);
        spoilt
    }

    // Takes a broken place for mending, by one step.
    pub(crate) fn take_tied<'a>(
        &'a self,
        claims: &mut ClaimHand,
        block: &'a CellBlock<T>,
        key: &Key,
        place: u64,
        offset: u64,
    ) -> Result<Pen<'a, T, Tied>, Found<T>>
        requires ours { IsHandOf self.now claims.old }
        requires seen { place < seen_size claims.old }
        requires cell { IsCellOf self.now.segments key.now block.now place offset }
        requires row { KnowsRow claims.old key.now.segment block.now }
        ensures pen { IfOk result (IsPenAt block.now offset) }
        ensures broken { IfOk result IsMending }
        ensures found { IfErr result (IsFoundIn block.now offset) }
        ensures not_broken { IfErr result IsNotBroken }
        ensures logs { LooksAt claims.old claims.new (try_steps (limit_of self.now) place result) }
    {
        let tag = self.cell_tag(block, key, place, offset);
        let offer = claims.offer_mend(&self.word, &tag, place);
        let (taken, offer) = block.mend_for(offset, offer);
        claims.take_back(offer);
        taken
    }

    // Fills a place that was taken for mending.
    pub(crate) fn fill_taken(
        &self,
        claims: &mut ClaimHand,
        block: &CellBlock<T>,
        key: &Key,
        place: u64,
        offset: u64,
        pen: Pen<'_, T, Tied>,
        value: T,
    ) -> Placed<T>
        requires ours { IsHandOf self.now claims.old }
        requires seen { place < seen_size claims.old }
        requires cell { IsCellOf self.now.segments key.now block.now place offset }
        requires row { KnowsRow claims.old key.now.segment block.now }
        requires pen { IsPenAt block.now offset pen }
        ensures placed { IsPlacedAt block.now offset result }
        ensures value { result.value ≡ value }
        ensures found { result.found ≡ pen.entry.found }
        ensures logs { LooksAt claims.old claims.new
            (step_of (fill_event (mender_of (limit_of self.now) place) place)) }
    {
        let tag = self.cell_tag(block, key, place, offset);
        let offer = claims.offer_fill_mended(&self.word, &tag, place);
        let (placed, offer) = pen.fill_for(value, offer);
        claims.take_back(offer);
        placed
    }
}

impl<T: Drop> Shared<T> {
    // Begins `n` places of the segment, which are the hand's own and whose states are in one word. It reads no state.
    #[inline(always)]
    pub(crate) fn begin_run_tied<'a>(
        &'a self,
        claims: &mut ClaimHand,
        segment: &Segment<'a, T>,
        place: u64,
        n: u64,
    ) -> RunPen<'a, T, First>
        requires ours { IsHandOf self.now claims.old }
        requires owned { OwnsPlacesOf claims.old record { from = place; n = n } }
        requires fresh { AreFresh claims.old place n }
        requires segment { IsSegmentOf self.now segment.now }
        requires row { KnowsSegment claims.old segment.now }
        requires from { segment.now.from ≤ place }
        requires within { place + n ≤ segment.now.end }
        requires word { (place - segment.now.from) % word_cells + n ≤ word_cells }
        requires some { 0 < n }
        ensures pen { IsRunPenAt segment.now.block.now (place - segment.now.from) n result }
        ensures works { WorksIn claims.old claims.new place n }
    {
        // For the proof: a step on the cells of a run takes its places in order.
        laws::runs_go_in_order();
        let offset = place - segment.from;
        let tag = self.cell_tag(segment.block, &segment.key, place, offset);
        let offer = claims.offer_begin_run(&self.word, &tag, place, n);
        let (pen, offer) = segment.block.begin_run_for(offset, n, offer);
        claims.take_back_run(offer);
        pen
    }

    // Publishes such places, which all have their values, by one addition.
    #[inline(always)]
    pub(crate) fn publish_tied<'a>(
        &'a self,
        claims: &mut ClaimHand,
        segment: &Segment<'a, T>,
        place: u64,
        n: u64,
        pen: RunPen<'a, T, First>,
    ) -> Row<T>
        requires ours { IsHandOf self.now claims.old }
        requires segment { IsSegmentOf self.now segment.now }
        requires row { KnowsSegment claims.old segment.now }
        requires from { segment.now.from ≤ place }
        requires within { place + n ≤ segment.now.end }
        requires some { 0 < n }
        requires claimed { (claims.old.of.base ≤ place) × (place + n ≤ seen_size claims.old) }
        requires run { (pen.offset ≡ place - segment.now.from)
            × (pen.cells ≡ cells_from n pen.offset segment.now.block.now.cells) }
        requires written { length pen.values ≡ n }
        ensures row { result ≡ members_of pen.entry.cells pen.entry.values }
        ensures works { WorksIn claims.old claims.new place n }
        ensures adds { AddsAlong claims.old claims.new place n (λ index. fill_steps index place n) }
    {
        // For the proof: a step on the cells of a run takes its places in order.
        laws::runs_go_in_order();
        let tag = self.cell_tag(segment.block, &segment.key, place, place - segment.from);
        let offer = claims.offer_fill_run(&self.word, &tag, place, n);
        let (row, offer) = pen.publish_for(offer);
        claims.take_back_run(offer);
        row
    }

    // Fills `n` such places with the next values, and returns the values that are left.
    #[inline(always)]
    pub(crate) fn fill_run_tied(
        &self,
        claims: &mut ClaimHand,
        segment: &Segment<'_, T>,
        place: u64,
        n: u64,
        values: IntoIter<T>,
    ) -> (Stretch<T>, IntoIter<T>)
        requires ours { IsHandOf self.now claims.old }
        requires owned { OwnsPlacesOf claims.old record { from = place; n = n } }
        requires fresh { AreFresh claims.old place n }
        requires segment { IsSegmentOf self.now segment.now }
        requires row { KnowsSegment claims.old segment.now }
        requires from { segment.now.from ≤ place }
        requires within { place + n ≤ segment.now.end }
        requires word { (place - segment.now.from) % word_cells + n ≤ word_cells }
        requires some { 0 < n }
        requires enough { n ≤ into_iter_len values }
        requires counted { IsCounted values }
        ensures filled { Takes self.now place values result.1 result.0 }
        ensures n { result.0.n ≡ n }
        ensures works { WorksIn claims.old claims.new place result.0.n }
        ensures adds { AddsAlong claims.old claims.new place result.0.n
            (λ index. fill_steps index place result.0.n) }
    {
        // For the proof: the hand has seen the runs that it owns.
        laws::seen_runs_are_within();
        let pen = self.begin_run_tied(claims, segment, place, n);
        let (pen, rest) = write_values(pen, n, values);
        let row = self.publish_tied(claims, segment, place, n, pen);
        let stretch = Stretch {
            key: segment.key.again(),
            offset: place - segment.from,
            n,
            row,
        };
        (stretch, rest)
    }
}
