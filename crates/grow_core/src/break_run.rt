//! Growths whose places are broken on purpose, and how the rest of a run is broken.
ghost use Rattle.std.specs.Prelude.{◌+◌, ◌-◌, ◌<◌, ◌≤◌, IfOk, IfErr, IsErrAnd};
ghost use Rattle.grow_core.specs.Vector.{IsHandOf, limit_of};
ghost use Rattle.grow_core.specs.Keys.{OwnsPlacesOf};
ghost use Rattle.grow_core.specs.BrokenRun.{AreKeptBroken};
ghost use Rattle.grow_core.specs.Growth.{WonPlaces, Refuses, HasNoRoom, SaysFull, IsNotMoved};
ghost use Rattle.grow_core.specs.Logs.{LogsGrowth, LogsRefusal, AllBroken, break_steps};
ghost use Rattle.grow_core.specs.Steps.{AddsOn, AreFresh, WorksIn};

use crate::errors::{GrowError, Never};
use crate::hand::Hand;
use crate::token::Spoilt;
use crate::vector::Shared;
use claim_core::{Run, laws};
use std::sync::Wait;

impl<T: Drop> Shared<T> {
    /// Claims `n` places in one run, and breaks each of them: they have no value, and can be mended. It tries once, and
    /// waits for nobody. The exchange that wins the run is its linearization point, or, if n is 0, the load of the
    /// size. It takes no memory except that of the segments, and two steps for each place.
    pub fn try_break_run(&self, hand: &mut Hand<T>, n: u64) -> Result<Run, GrowError<T, (), Never>>
        requires ours { IsHandOf self.now hand.old }
        ensures won { IfOk result (WonPlaces n hand.old hand.new) }
        ensures refused { IfErr result (Refuses self.now n tt hand.old hand.new) }
        // Room that is missing by what the hand has seen is reported before memory is asked for.
        ensures full { HasNoRoom self.now n hand.old → IsErrAnd result SaysFull }
        // The history gets the claim of the run and the break of each place, or the event whose reply the refusal is.
        ensures logs { IfOk result (LogsGrowth AllBroken hand.old hand.new) }
        ensures logs_refusal { IfErr result (LogsRefusal n hand.old hand.new) }
    {
        let (run, ()) = self.claim_run(hand, n, ())?;
        self.break_places(hand, run, &mut |_spoilt: Spoilt| {});
        Ok(run)
    }

    /// Claims and breaks `n` places like `try_break_run`, and retries if another caller was first.
    pub fn break_run<R: Wait>(
        &self,
        rt: &R,
        hand: &mut Hand<T>,
        n: u64,
    ) -> Result<Run, GrowError<T, (), Never>>
        requires ours { IsHandOf self.now hand.old }
        ensures won { IfOk result (WonPlaces n hand.old hand.new) }
        ensures refused { IfErr result (Refuses self.now n tt hand.old hand.new) }
        ensures full { HasNoRoom self.now n hand.old → IsErrAnd result SaysFull }
        ensures not_moved { IfErr result IsNotMoved }
        // The history gets the claim of the run and the break of each place, or the event whose reply the refusal is.
        ensures logs { IfOk result (LogsGrowth AllBroken hand.old hand.new) }
        ensures logs_refusal { IfErr result (LogsRefusal n hand.old hand.new) }
    {
        let (run, ()) = self.claim_again(rt, hand, n, ())?;
        self.break_places(hand, run, &mut |_spoilt: Spoilt| {});
        Ok(run)
    }

    // Breaks the places of a run of the hand's. The token of each goes to `keep`, in order.
    fn break_places<K: FnMut(Spoilt)>(&self, hand: &mut Hand<T>, run: Run, keep: &mut K)
        requires ours { IsHandOf self.now hand.old }
        requires owned { OwnsPlacesOf hand.old run }
        requires fresh { AreFresh hand.old run.from run.n }
        requires within { run.from + run.n ≤ limit_of self.now }
        requires callable { K.IsAlwaysCallable keep.old }
        ensures kept { AreKeptBroken K.step keep.old keep.new self.now run.from run.n }
        ensures works { WorksIn hand.old hand.new run.from run.n }
        ensures adds { AddsOn hand.old hand.new run (λ index. break_steps index run.from run.n) }
    {
        self.break_rest(hand, run, 0, keep);
    }

    // Breaks the places of a run of the hand's from the one with this number on. The token of each goes to `keep`, in
    // order.
    pub(crate) fn break_rest<K: FnMut(Spoilt)>(
        &self,
        hand: &mut Hand<T>,
        run: Run,
        first: u64,
        keep: &mut K,
    )
        requires ours { IsHandOf self.now hand.old }
        requires owned { OwnsPlacesOf hand.old run }
        requires fresh { AreFresh hand.old (run.from + first) (run.n - first) }
        requires within { run.from + run.n ≤ limit_of self.now }
        requires not_past { first ≤ run.n }
        requires callable { K.IsAlwaysCallable keep.old }
        ensures kept { AreKeptBroken K.step keep.old keep.new self.now (run.from + first) (run.n - first) }
        ensures works { WorksIn hand.old hand.new (run.from + first) (run.n - first) }
        ensures adds { AddsOn hand.old hand.new run
            (λ index. break_steps index (run.from + first) (run.n - first)) }
    {
        // For the proof: the vector's base is within its limit, and a run's places are those of its index.
        self.laws();
        laws::seen_runs_have_places();
        if first == run.n {
            return;
        }
        let end = run.from + run.n;
        let mut segment = self.find_segment(hand, run.from + first);
        for place in run.from + first..end {
            self.next_segment(hand, &mut segment, place);
            keep(self.break_place(&mut hand.claims, &segment, place));
        }
    }
}
