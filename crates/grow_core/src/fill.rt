// How a growth fills and breaks the places that it won, segment by segment.
ghost use Rattle.std.specs.Prelude.{◌≡◌, ◌+◌, ◌<◌, ◌≤◌};
ghost use Rattle.std.specs.Vec.Iter.{into_iter_len};
ghost use Rattle.claim_core.specs.Hand.{OwnsPlace};
ghost use Rattle.claim_core.specs.History.{break_event, fill_event};
ghost use Rattle.grow_core.specs.Vector.{IsHandOf, IsPlacedOf, IsSpoiltOf, limit_of};
ghost use Rattle.grow_core.specs.Segment.{IsSegmentOf, KnowsSegment};
ghost use Rattle.grow_core.specs.Logs.{fill_steps};
ghost use Rattle.grow_core.specs.Steps.{AddsAlong, AddsAt, AreFresh, WorksIn};
ghost use Rattle.grow_core.specs.Stretch.{IsCounted, Takes};
ghost use Rattle.grow_core.specs.Keys.{OwnsPlacesOf};
ghost use Rattle.grow_core.specs.Ties.{IsCellOf, KnowsRow};

use crate::hand::Hand;
use crate::stretch::Stretch;
use crate::ties::CellBlock;
use crate::token::{Placed, Spoilt};
use crate::vector::Shared;
use claim_core::Hand as ClaimHand;
use std::vec::IntoIter;
use table_core::Key;

// A segment of the vector: its block with its key, its first place, and the place after its last.
#[derive(Drop)]
pub(crate) struct Segment<'a, T> {
    pub(crate) block: &'a CellBlock<T>,
    pub(crate) key: Key,
    pub(crate) from: u64,
    pub(crate) end: u64,
}

impl<T: Drop> Shared<T> {
    // The segment of a place of the hand's own.
    pub(crate) fn find_segment(&self, hand: &Hand<T>, place: u64) -> Segment<'_, T>
        requires ours { IsHandOf self.now hand.now }
        requires owned { OwnsPlace hand.now place }
        requires within { place < limit_of self.now }
        ensures segment { IsSegmentOf self.now result }
        ensures row { KnowsSegment hand.now result }
        ensures from { result.from ≤ place }
        ensures before { place < result.end }
    {
        // For the proof: the vector's base is within its limit.
        self.laws();
        let layout = self.table.layout();
        let (segment, _) = layout.locate(place);
        let key = hand.key(segment, place);
        let from = layout.first(segment);
        Segment {
            block: self.known_block(&key),
            key,
            from,
            end: from + layout.len(segment),
        }
    }

    // Goes on to the segment of a place of the hand's own: to this one, unless it ends there.
    #[inline(always)]
    pub(crate) fn next_segment<'a>(
        &'a self,
        hand: &Hand<T>,
        segment: &mut Segment<'a, T>,
        place: u64,
    )
        requires ours { IsHandOf self.now hand.now }
        requires owned { OwnsPlace hand.now place }
        requires within { place < limit_of self.now }
        requires segment { IsSegmentOf self.now segment.old }
        requires row { KnowsSegment hand.now segment.old }
        requires from { segment.old.from ≤ place }
        requires not_past { place ≤ segment.old.end }
        ensures segment { IsSegmentOf self.now segment.new }
        ensures row { KnowsSegment hand.now segment.new }
        ensures from { segment.new.from ≤ place }
        ensures before { place < segment.new.end }
        ensures same { place < segment.old.end → segment.new ≡ segment.old }
    {
        if place < segment.end {
            return;
        }
        *segment = self.find_segment(hand, place);
    }

    // Fills a place of the segment, which is the hand's own, with the value.
    pub(crate) fn fill(
        &self,
        claims: &mut ClaimHand,
        segment: &Segment<'_, T>,
        place: u64,
        value: T,
    ) -> Placed<T>
        requires ours { IsHandOf self.now claims.old }
        requires owned { OwnsPlace claims.old place }
        requires fresh { AreFresh claims.old place 1 }
        requires segment { IsSegmentOf self.now segment.now }
        requires row { KnowsSegment claims.old segment.now }
        requires from { segment.now.from ≤ place }
        requires before { place < segment.now.end }
        ensures token { IsPlacedOf self.now result }
        ensures here { result.place ≡ place }
        ensures value { result.value ≡ value }
        ensures works { WorksIn claims.old claims.new place 1 }
        ensures adds { AddsAt claims.old claims.new place (λ index. fill_event index place) }
    {
        let key = segment.key.again();
        let offset = place - segment.from;
        self.fill_cell(claims, segment.block, key, place, offset, value)
    }

    // Fills places of the segment, which are the hand's own, with the next values: a run that begins at this place. Returns
    // the values that are left.
    #[inline(always)]
    pub(crate) fn fill_next(
        &self,
        claims: &mut ClaimHand,
        segment: &Segment<'_, T>,
        place: u64,
        values: IntoIter<T>,
    ) -> (Stretch<T>, IntoIter<T>)
        requires ours { IsHandOf self.now claims.old }
        requires owned { OwnsPlacesOf claims.old record { from = place; n = into_iter_len values } }
        requires fresh { AreFresh claims.old place (into_iter_len values) }
        requires segment { IsSegmentOf self.now segment.now }
        requires row { KnowsSegment claims.old segment.now }
        requires from { segment.now.from ≤ place }
        requires before { place < segment.now.end }
        requires some { 0 < into_iter_len values }
        requires counted { IsCounted values }
        ensures filled { Takes self.now place values result.1 result.0 }
        ensures within { place + result.0.n ≤ segment.now.end }
        ensures works { WorksIn claims.old claims.new place result.0.n }
        ensures adds { AddsAlong claims.old claims.new place result.0.n
            (λ index. fill_steps index place result.0.n) }
    {
        let offset = place - segment.from;
        let n = segment.block.longest_run(offset).min(values.len() as u64);
        self.fill_run_tied(claims, segment, place, n, values)
    }

    // Breaks a place of the segment, which is the hand's own.
    #[tactic(auto, using(crate::proofs::Cells::small_cell))]
    pub(crate) fn break_place(
        &self,
        claims: &mut ClaimHand,
        segment: &Segment<'_, T>,
        place: u64,
    ) -> Spoilt
        requires ours { IsHandOf self.now claims.old }
        requires owned { OwnsPlace claims.old place }
        requires fresh { AreFresh claims.old place 1 }
        requires segment { IsSegmentOf self.now segment.now }
        requires row { KnowsSegment claims.old segment.now }
        requires from { segment.now.from ≤ place }
        requires before { place < segment.now.end }
        ensures token { IsSpoiltOf self.now result }
        ensures here { result.place ≡ place }
        ensures works { WorksIn claims.old claims.new place 1 }
        ensures adds { AddsAt claims.old claims.new place (λ index. break_event index place) }
    {
        let key = segment.key.again();
        let offset = place - segment.from;
        let cell = self.break_tied(claims, segment.block, &key, place, offset);
        Spoilt { key, cell }
    }

    // Fills a cell of the segment that has this key, which is a place of the hand's own, with the value.
    #[inline(always)]
    #[tactic(auto, using(crate::proofs::Cells::small_cell))]
    pub(crate) fn fill_cell(
        &self,
        claims: &mut ClaimHand,
        block: &CellBlock<T>,
        key: Key,
        place: u64,
        offset: u64,
        value: T,
    ) -> Placed<T>
        requires ours { IsHandOf self.now claims.old }
        requires owned { OwnsPlace claims.old place }
        requires fresh { AreFresh claims.old place 1 }
        requires cell { IsCellOf self.now.segments key block.now place offset }
        requires row { KnowsRow claims.old key.segment block.now }
        ensures token { IsPlacedOf self.now result }
        ensures here { result.place ≡ place }
        ensures value { result.value ≡ value }
        ensures works { WorksIn claims.old claims.new place 1 }
        ensures adds { AddsAt claims.old claims.new place (λ index. fill_event index place) }
    {
        let cell = self.fill_tied(claims, block, &key, place, offset, value);
        Placed { key, cell }
    }
}
