// How a growth fills the places that it won with the values of a source.
//
// The values of up to 128 places are all written before the first of these places is shown. Then the words of their
// states, which are 64 bytes or less, are changed one right after the other, so that a thread that fills the places next
// to them takes a cache line of states once, and not once for each word.
ghost use Rattle.std.specs.Prelude.{◌≡◌, ◌+◌, ◌-◌, ◌<◌, ◌≤◌, [], length};
ghost use Rattle.seg_core.specs.Segment.{most_places};
ghost use Rattle.cell_core.specs.Run.{cells_from, members_of};
ghost use Rattle.grow_core.specs.Vector.{IsHandOf, limit_of};
ghost use Rattle.grow_core.specs.Grown.{IsGrownOf, values_of};
ghost use Rattle.grow_core.specs.Keys.{OwnsPlacesOf};
ghost use Rattle.grow_core.specs.Segment.{IsSegmentOf, KnowsSegment};
ghost use Rattle.grow_core.specs.Stretch.{TakesFrom, values_from};
ghost use Rattle.grow_core.specs.Logs.{fill_steps};
ghost use Rattle.grow_core.specs.Steps.{AddsAlong, AddsOn, AreFresh, WorksIn};

use crate::fill::Segment;
use crate::grown::Grown;
use crate::hand::Hand;
use crate::source::Source;
use crate::stretch::Stretch;
use crate::vector::Shared;
use cell_core::block::{Kind, Row, RunPen};
use claim_core::{Hand as ClaimHand, Run, laws};

// The places whose states take 64 bytes, which is a cache line.
const LINE_PLACES: u64 = 128;

impl<T: Drop> Shared<T> {
    // Fills the places of a run of the hand's with the values of the source.
    pub(crate) fn copy_run<S: Source<T>>(
        &self,
        hand: &mut Hand<T>,
        run: Run,
        source: &S,
    ) -> Grown<T>
        requires ours { IsHandOf self.now hand.old }
        requires owned { OwnsPlacesOf hand.old run }
        requires fresh { AreFresh hand.old run.from run.n }
        requires within { run.from + run.n ≤ limit_of self.now }
        requires values { length (S.values source.now) ≡ run.n }
        ensures run { result.run ≡ run }
        ensures tokens { IsGrownOf self.now result }
        ensures values { values_of result ≡ S.values source.now }
        ensures works { WorksIn hand.old hand.new run.from run.n }
        ensures adds { AddsOn hand.old hand.new run (λ index. fill_steps index run.from run.n) }
    {
        // For the proof: the vector's base is within its limit, and a run's places are those of its index.
        self.laws();
        laws::seen_runs_have_places();
        let mut filled = self.no_places();
        if run.n == 0 {
            return self.grown(run, filled);
        }
        let mut segment = self.find_segment(hand, run.from);
        let mut done = 0;
        while done < run.n {
            let place = run.from + done;
            self.next_segment(hand, &mut segment, place);
            let stretch = self.copy_next(
                &mut hand.claims,
                &segment,
                place,
                done,
                run.n - done,
                source,
            );
            done += stretch.n;
            filled = self.know(filled, stretch);
        }
        self.grown(run, filled)
    }

    // Fills places of the segment from this one on with values of the source from this number on, `left` of them at
    // most: those whose states are in one cache line.
    #[inline(always)]
    fn copy_next<S: Source<T>>(
        &self,
        claims: &mut ClaimHand,
        segment: &Segment<'_, T>,
        place: u64,
        first: u64,
        left: u64,
        source: &S,
    ) -> Stretch<T>
        requires ours { IsHandOf self.now claims.old }
        requires owned { OwnsPlacesOf claims.old record { from = place; n = left } }
        requires fresh { AreFresh claims.old place left }
        requires segment { IsSegmentOf self.now segment.now }
        requires row { KnowsSegment claims.old segment.now }
        requires from { segment.now.from ≤ place }
        requires before { place < segment.now.end }
        requires some { 0 < left }
        requires values { first + left ≤ length (S.values source.now) }
        requires small { first + left ≤ most_places }
        ensures filled { TakesFrom self.now place (S.values source.now) first left result }
        ensures within { place + result.n ≤ segment.now.end }
        ensures works { WorksIn claims.old claims.new place result.n }
        ensures adds { AddsAlong claims.old claims.new place result.n
            (λ index. fill_steps index place result.n) }
    {
        let offset = place - segment.from;
        let in_line = LINE_PLACES - offset % LINE_PLACES;
        let n = left.min(segment.end - place).min(in_line);
        let row = self.copy_line(claims, segment, place, n, first, source);
        Stretch {
            key: segment.key.again(),
            offset,
            n,
            row,
        }
    }

    // Fills `n` such places with values of the source from this number on. The values in the last word come first, and
    // then those in the words before it, so that all are written when the first word is published.
    fn copy_line<'a, S: Source<T>>(
        &'a self,
        claims: &mut ClaimHand,
        segment: &Segment<'a, T>,
        place: u64,
        n: u64,
        first: u64,
        source: &S,
    ) -> Row<T>
        requires ours { IsHandOf self.now claims.old }
        requires owned { OwnsPlacesOf claims.old record { from = place; n = n } }
        requires fresh { AreFresh claims.old place n }
        requires segment { IsSegmentOf self.now segment.now }
        requires row { KnowsSegment claims.old segment.now }
        requires from { segment.now.from ≤ place }
        requires within { place + n ≤ segment.now.end }
        requires some { 0 < n }
        requires values { first + n ≤ length (S.values source.now) }
        requires small { first + n ≤ most_places }
        ensures row { result ≡ members_of (cells_from n (place - segment.now.from) segment.now.block.now.cells)
            (values_from (S.values source.now) first n) }
        ensures works { WorksIn claims.old claims.new place n }
        ensures adds { AddsAlong claims.old claims.new place n (λ index. fill_steps index place n) }
    {
        // For the proof: the hand has seen the runs that it owns.
        laws::seen_runs_are_within();
        let last = segment.block.last_run(place - segment.from, n);
        let before = n - last;
        let pen = self.begin_run_tied(claims, segment, place + before, last);
        let pen = write_from(pen, last, first + before, source);
        if before == 0 {
            return self.publish_tied(claims, segment, place, n, pen);
        }
        let mut row = self.copy_line(claims, &*segment, place, before, first, &*source);
        let last_row = self.publish_tied(claims, segment, place + before, last, pen);
        row.append(last_row);
        row
    }
}

// Writes the `n` values of the source from this number on into the cells of the run.
#[inline(always)]
fn write_from<'a, T: Drop, B: Kind, S: Source<T>>(
    pen: RunPen<'a, T, B>,
    n: u64,
    first: u64,
    source: &S,
) -> RunPen<'a, T, B>
    requires cells { length pen.cells ≡ n }
    requires unwritten { pen.values ≡ [] }
    requires enough { first + n ≤ length (S.values source.now) }
    requires small { first + n ≤ most_places }
    ensures run { (result.offset ≡ pen.entry.offset) × (result.cells ≡ pen.entry.cells) }
    ensures values { result.values ≡ values_from (S.values source.now) first n }
{
    let mut pen = pen;
    for i in 0..n {
        pen = pen.write(source.value(first + i));
    }
    pen
}
