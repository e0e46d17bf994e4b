//! How many values are appended at once.
ghost use Rattle.std.specs.Prelude.{◌≡◌, ◌+◌, ◌≤◌, IfOk, IfErr, IsErrAnd, vec_len};
ghost use Rattle.grow_core.specs.Vector.{IsHandOf, limit_of};
ghost use Rattle.grow_core.specs.Grown.{IsGrownOf, AreKeptFrom, values_of};
ghost use Rattle.grow_core.specs.Keys.{OwnsPlacesOf};
ghost use Rattle.grow_core.specs.Growth.{WonRun, WonPlaces, Refuses, HasNoRoom, SaysFull, IsNotMoved};
ghost use Rattle.grow_core.specs.Logs.{LogsGrowth, LogsRefusal, AllFilled, fill_steps};
ghost use Rattle.grow_core.specs.Steps.{AddsOn, AreFresh, WorksIn};

use crate::errors::{GrowError, Never};
use crate::grown::Grown;
use crate::hand::Hand;
use crate::token::Placed;
use crate::vector::Shared;
use claim_core::{Run, laws};
use std::sync::Wait;

impl<T: Drop> Shared<T> {
    /// Appends the values in one run. It tries once, and waits for nobody. The exchange that wins the run is
    /// its linearization point, or, if there is no value, the load of the size. Up to sixteen values next to
    /// each other are published by one step.
    pub fn try_grow_vec(
        &self,
        hand: &mut Hand<T>,
        values: Vec<T>,
    ) -> Result<Grown<T>, GrowError<T, Vec<T>, Never>>
        requires ours { IsHandOf self.now hand.old }
        ensures won { IfOk result (WonRun self.now values.items hand.old hand.new) }
        ensures refused { IfErr result
            (Refuses self.now (vec_len values) values hand.old hand.new) }
        // Room that is missing by what the hand has seen is reported before memory is asked for.
        ensures full { HasNoRoom self.now (vec_len values) hand.old → IsErrAnd result SaysFull }
        // The history gets the claim of the run and the fill of each place, or the event whose reply the refusal is.
        ensures logs { IfOk result
            (λ grown. LogsGrowth AllFilled hand.old hand.new grown.run) }
        ensures logs_refusal { IfErr result
            (LogsRefusal (vec_len values) hand.old hand.new) }
    {
        let n = values.len() as u64;
        let (run, values) = self.claim_run(hand, n, values)?;
        Ok(self.fill_run(hand, run, values))
    }

    /// Appends the values like `try_grow_vec`, and retries if another caller was first.
    pub fn grow_vec<R: Wait>(
        &self,
        rt: &R,
        hand: &mut Hand<T>,
        values: Vec<T>,
    ) -> Result<Grown<T>, GrowError<T, Vec<T>, Never>>
        requires ours { IsHandOf self.now hand.old }
        ensures won { IfOk result (WonRun self.now values.items hand.old hand.new) }
        ensures refused { IfErr result
            (Refuses self.now (vec_len values) values hand.old hand.new) }
        // Room that is missing by what the hand has seen is reported before memory is asked for.
        ensures full { HasNoRoom self.now (vec_len values) hand.old → IsErrAnd result SaysFull }
        ensures not_moved { IfErr result IsNotMoved }
        // The history gets the claim of the run and the fill of each place, or the event whose reply the refusal is.
        ensures logs { IfOk result
            (λ grown. LogsGrowth AllFilled hand.old hand.new grown.run) }
        ensures logs_refusal { IfErr result
            (LogsRefusal (vec_len values) hand.old hand.new) }
    {
        let n = values.len() as u64;
        let (run, values) = self.claim_again(rt, hand, n, values)?;
        Ok(self.fill_run(hand, run, values))
    }

    /// Appends the values like `grow_vec`, without tokens. A look shows the values, and the closed list has
    /// them.
    pub fn append<R: Wait>(
        &self,
        rt: &R,
        hand: &mut Hand<T>,
        values: Vec<T>,
    ) -> Result<Run, GrowError<T, Vec<T>, Never>>
        requires ours { IsHandOf self.now hand.old }
        ensures won { IfOk result (WonPlaces (vec_len values) hand.old hand.new) }
        ensures refused { IfErr result
            (Refuses self.now (vec_len values) values hand.old hand.new) }
        // Room that is missing by what the hand has seen is reported before memory is asked for.
        ensures full { HasNoRoom self.now (vec_len values) hand.old → IsErrAnd result SaysFull }
        ensures not_moved { IfErr result IsNotMoved }
        // The history gets the claim of the run and the fill of each place, or the event whose reply the refusal is.
        ensures logs { IfOk result (LogsGrowth AllFilled hand.old hand.new) }
        ensures logs_refusal { IfErr result
            (LogsRefusal (vec_len values) hand.old hand.new) }
    {
        self.append_by(rt, hand, values, &mut |_placed: Placed<T>| {})
    }

    // Like `append`. The token of each place goes to `keep` as the place is filled: the places have the
    // values in order.
    fn append_by<R: Wait, K: FnMut(Placed<T>)>(
        &self,
        rt: &R,
        hand: &mut Hand<T>,
        values: Vec<T>,
        keep: &mut K,
    ) -> Result<Run, GrowError<T, Vec<T>, Never>>
        requires ours { IsHandOf self.now hand.old }
        requires callable { K.IsAlwaysCallable keep.old }
        ensures won { IfOk result (WonPlaces (vec_len values) hand.old hand.new) }
        ensures kept { IfOk result
            (λ run. AreKeptFrom K.step keep.old keep.new self.now run.from values.items) }
        ensures refused { IfErr result
            (Refuses self.now (vec_len values) values hand.old hand.new) }
        ensures full { HasNoRoom self.now (vec_len values) hand.old → IsErrAnd result SaysFull }
        ensures not_moved { IfErr result IsNotMoved }
        ensures logs { IfOk result (LogsGrowth AllFilled hand.old hand.new) }
        ensures logs_refusal { IfErr result
            (LogsRefusal (vec_len values) hand.old hand.new) }
    {
        let n = values.len() as u64;
        let (won, values) = self.claim_again(rt, hand, n, values)?;
        self.place_run(hand, won, values, keep);
        Ok(won)
    }

    // Fills the places of a run of the hand's with the values.
    fn fill_run(&self, hand: &mut Hand<T>, run: Run, values: Vec<T>) -> Grown<T>
        requires ours { IsHandOf self.now hand.old }
        requires owned { OwnsPlacesOf hand.old run }
        requires fresh { AreFresh hand.old run.from run.n }
        requires within { run.from + run.n ≤ limit_of self.now }
        requires values { vec_len values ≡ run.n }
        ensures run { result.run ≡ run }
        ensures tokens { IsGrownOf self.now result }
        ensures values { values_of result ≡ values.items }
        ensures works { WorksIn hand.old hand.new run.from run.n }
        ensures adds { AddsOn hand.old hand.new run (λ index. fill_steps index run.from run.n) }
    {
        // For the proof: the vector's base is within its limit, and a run's places are those of its index.
        self.laws();
        laws::seen_runs_have_places();
        let mut filled = self.no_places();
        if run.n == 0 {
            return self.grown(run, filled);
        }
        let mut segment = self.find_segment(hand, run.from);
        let mut left = values.into_iter();
        let mut place = run.from;
        while place < run.from + run.n {
            self.next_segment(hand, &mut segment, place);
            let (stretch, rest) = self.fill_next(&mut hand.claims, &segment, place, left);
            place += stretch.n;
            filled = self.know(filled, stretch);
            left = rest;
        }
        self.grown(run, filled)
    }

    // Like `fill_run`, with each token given to `keep`.
    fn place_run<K: FnMut(Placed<T>)>(
        &self,
        hand: &mut Hand<T>,
        run: Run,
        values: Vec<T>,
        keep: &mut K,
    )
        requires ours { IsHandOf self.now hand.old }
        requires owned { OwnsPlacesOf hand.old run }
        requires fresh { AreFresh hand.old run.from run.n }
        requires within { run.from + run.n ≤ limit_of self.now }
        requires values { vec_len values ≡ run.n }
        requires callable { K.IsAlwaysCallable keep.old }
        ensures kept { AreKeptFrom K.step keep.old keep.new self.now run.from values.items }
        ensures works { WorksIn hand.old hand.new run.from run.n }
        ensures adds { AddsOn hand.old hand.new run (λ index. fill_steps index run.from run.n) }
    {
        // For the proof: the vector's base is within its limit, and a run's places are those of its index.
        self.laws();
        laws::seen_runs_have_places();
        if run.n == 0 {
            return;
        }
        let mut segment = self.find_segment(hand, run.from);
        let mut left = values.into_iter();
        let mut place = run.from;
        while place < run.from + run.n {
            self.next_segment(hand, &mut segment, place);
            let (stretch, rest) = self.fill_next(&mut hand.claims, &segment, place, left);
            self.keep_tokens(&stretch, keep);
            place += stretch.n;
            left = rest;
        }
    }
}
