//! Growths whose values are made in place, by a function that may refuse, or by clones.
ghost use Rattle.std.specs.Prelude.{◌≡◌, ◌+◌, ◌-◌, ◌<◌, ◌≤◌, List, All, IfOk, IfErr, IsErrAnd, length};
ghost use Rattle.grow_core.specs.Vector.{IsHandOf, limit_of};
ghost use Rattle.grow_core.specs.Grown.{IsGrownOf, values_of};
ghost use Rattle.grow_core.specs.Filled.{IsFilledOf};
ghost use Rattle.grow_core.specs.Keys.{OwnsPlacesOf};
ghost use Rattle.grow_core.specs.Growth.{Refuses, HasNoRoom, SaysFull, IsNotMoved};
ghost use Rattle.grow_core.specs.Making.{Makes, StopsAfter, StopsIn, LeavesMaker, IsRefusedBy};
ghost use Rattle.grow_core.specs.Making.{WonMade, WonClones, IsRefusedAfter};
ghost use Rattle.grow_core.specs.Logs.{LogsGrowth, LogsRefusal, AllFilled, break_steps, fill_steps};
ghost use Rattle.grow_core.specs.Steps.{AddsOn, AreFresh, StopsWith, WorksIn};

use crate::errors::GrowError;
use crate::filled::Filled;
use crate::grown::Grown;
use crate::hand::Hand;
use crate::token::Spoilt;
use crate::vector::Shared;
use claim_core::{Run, laws};
use std::alloc::AllocError;
use std::sync::Wait;

impl<T: Drop> Shared<T> {
    /// Appends `n` values that `make` makes, in one run. `make` is called with 0, 1, 2 and so on once the run
    /// is won, outside every step, so it may look at the vector and grow it by another hand. After its first
    /// refusal it is not called again, and the places from there on are broken. It tries once, and waits for
    /// nobody. The exchange that wins the run is its linearization point, or, if n is 0, the load of the
    /// size.
    pub fn try_grow_with<E: Drop, F: FnMut(u64) -> Result<T, E>>(
        &self,
        hand: &mut Hand<T>,
        n: u64,
        mut make: F,
    ) -> Result<Grown<T>, GrowError<T, (), E>>
        requires ours { IsHandOf self.now hand.old }
        requires callable { F.IsAlwaysCallable make }
        ensures won { IfOk result (WonMade F.step make self.now n hand.old hand.new) }
        ensures refused { IfErr result (Refuses self.now n tt hand.old hand.new) }
        // The cause of a refused construction is what the maker returned after the values of `made`.
        ensures cause { IfErr result (IsRefusedBy (StopsAfter F.step make)) }
        // Room that is missing by what the hand has seen is reported before memory is asked for.
        ensures full { HasNoRoom self.now n hand.old → IsErrAnd result SaysFull }
        // The history gets the claim of the run and what became of each place, or the event whose reply the refusal
        // is.
        ensures logs { IfOk result
            (λ grown. LogsGrowth AllFilled hand.old hand.new grown.run) }
        ensures logs_refusal { IfErr result (LogsRefusal n hand.old hand.new) }
    {
        self.try_make(hand, n, &mut make)
    }

    // Like `try_grow_with`. What the maker is afterwards says that it was asked for these values alone.
    fn try_make<E: Drop, F: FnMut(u64) -> Result<T, E>>(
        &self,
        hand: &mut Hand<T>,
        n: u64,
        make: &mut F,
    ) -> Result<Grown<T>, GrowError<T, (), E>>
        requires ours { IsHandOf self.now hand.old }
        requires callable { F.IsAlwaysCallable make.old }
        ensures won { IfOk result (WonMade F.step make.old self.now n hand.old hand.new) }
        ensures made { IfOk result (λ grown. Makes F.step make.old (values_of grown) make.new) }
        ensures refused { IfErr result (Refuses self.now n tt hand.old hand.new) }
        ensures asked { IfErr result (LeavesMaker F.step make.old make.new) }
        ensures full { HasNoRoom self.now n hand.old → IsErrAnd result SaysFull }
        ensures logs { IfOk result
            (λ grown. LogsGrowth AllFilled hand.old hand.new grown.run) }
        ensures logs_refusal { IfErr result (LogsRefusal n hand.old hand.new) }
    {
        let (run, ()) = self.claim_run(hand, n, ())?;
        self.make_run(hand, run, make)
    }

    /// Appends values like `try_grow_with`, and retries if another caller was first. The maker is called once
    /// the run is won.
    pub fn grow_with<R: Wait, E: Drop, F: FnMut(u64) -> Result<T, E>>(
        &self,
        rt: &R,
        hand: &mut Hand<T>,
        n: u64,
        mut make: F,
    ) -> Result<Grown<T>, GrowError<T, (), E>>
        requires ours { IsHandOf self.now hand.old }
        requires callable { F.IsAlwaysCallable make }
        ensures won { IfOk result (WonMade F.step make self.now n hand.old hand.new) }
        ensures refused { IfErr result (Refuses self.now n tt hand.old hand.new) }
        ensures cause { IfErr result (IsRefusedBy (StopsAfter F.step make)) }
        ensures full { HasNoRoom self.now n hand.old → IsErrAnd result SaysFull }
        ensures not_moved { IfErr result IsNotMoved }
        // The history gets the claim of the run and what became of each place, or the event whose reply the refusal
        // is.
        ensures logs { IfOk result
            (λ grown. LogsGrowth AllFilled hand.old hand.new grown.run) }
        ensures logs_refusal { IfErr result (LogsRefusal n hand.old hand.new) }
    {
        self.make_again(rt, hand, n, &mut make)
    }

    // Like `try_make`, and it retries if another caller was first.
    fn make_again<R: Wait, E: Drop, F: FnMut(u64) -> Result<T, E>>(
        &self,
        rt: &R,
        hand: &mut Hand<T>,
        n: u64,
        make: &mut F,
    ) -> Result<Grown<T>, GrowError<T, (), E>>
        requires ours { IsHandOf self.now hand.old }
        requires callable { F.IsAlwaysCallable make.old }
        ensures won { IfOk result (WonMade F.step make.old self.now n hand.old hand.new) }
        ensures made { IfOk result (λ grown. Makes F.step make.old (values_of grown) make.new) }
        ensures refused { IfErr result (Refuses self.now n tt hand.old hand.new) }
        ensures asked { IfErr result (LeavesMaker F.step make.old make.new) }
        ensures full { HasNoRoom self.now n hand.old → IsErrAnd result SaysFull }
        ensures not_moved { IfErr result IsNotMoved }
        ensures logs { IfOk result
            (λ grown. LogsGrowth AllFilled hand.old hand.new grown.run) }
        ensures logs_refusal { IfErr result (LogsRefusal n hand.old hand.new) }
    {
        let (run, ()) = self.claim_again(rt, hand, n, ())?;
        self.make_run(hand, run, make)
    }

    // Fills the places of a run of the hand's with what the maker makes. After a refusal it breaks the places that are
    // left.
    pub(crate) fn make_run<E: Drop, F: FnMut(u64) -> Result<T, E>>(
        &self,
        hand: &mut Hand<T>,
        run: Run,
        make: &mut F,
    ) -> Result<Grown<T>, GrowError<T, (), E>>
        requires ours { IsHandOf self.now hand.old }
        requires owned { OwnsPlacesOf hand.old run }
        requires fresh { AreFresh hand.old run.from run.n }
        requires within { run.from + run.n ≤ limit_of self.now }
        requires callable { F.IsAlwaysCallable make.old }
        ensures run { IfOk result (λ grown. grown.run ≡ run) }
        ensures n { IfOk result (λ grown. length (values_of grown) ≡ run.n) }
        ensures tokens { IfOk result (IsGrownOf self.now) }
        ensures made { IfOk result (λ grown. Makes F.step make.old (values_of grown) make.new) }
        ensures stopped { IfErr result (StopsIn self.now run) }
        ensures asked { IfErr result (LeavesMaker F.step make.old make.new) }
        ensures works { WorksIn hand.old hand.new run.from run.n }
        ensures adds { IfOk result (λ _. AddsOn hand.old hand.new run
            (λ index. fill_steps index run.from run.n)) }
        ensures leaves { IfErr result (StopsWith hand.old hand.new run) }
    {
        // For the proof: the vector's base is within its limit, and a run's places are those of its index.
        self.laws();
        laws::seen_runs_have_places();
        let mut filled = self.no_places();
        if run.n == 0 {
            return Ok(self.grown(run, filled));
        }
        let mut segment = self.find_segment(hand, run.from);
        for i in 0..run.n {
            let value = match make(i) {
                Ok(value) => value,
                Err(cause) => return Err(self.stop(hand, run, i, filled, cause)),
            };
            let place = run.from + i;
            self.next_segment(hand, &mut segment, place);
            let placed = self.fill(&mut hand.claims, &segment, place, value);
            filled = self.know(filled, self.stretch_of(placed));
        }
        Ok(self.grown(run, filled))
    }

    // A construction was refused after this number of values: the places from there on are broken.
    #[cold]
    fn stop<E: Drop>(
        &self,
        hand: &mut Hand<T>,
        run: Run,
        n: u64,
        filled: Filled<T>,
        cause: E,
    ) -> GrowError<T, (), E>
        requires ours { IsHandOf self.now hand.old }
        requires owned { OwnsPlacesOf hand.old run }
        requires fresh { AreFresh hand.old (run.from + n) (run.n - n) }
        requires within { run.from + run.n ≤ limit_of self.now }
        requires filled { (values : List T) × (length values ≡ n)
            × IsFilledOf self.now run.from values filled }
        requires fewer { n < run.n }
        ensures stopped { StopsIn self.now run result }
        ensures cause { (values : List T) → IsFilledOf self.now run.from values filled
            → IsRefusedBy (λ made why. (made ≡ values) × (why ≡ cause)) result }
        ensures made { IsRefusedAfter n result }
        ensures works { WorksIn hand.old hand.new (run.from + n) (run.n - n) }
        ensures adds { AddsOn hand.old hand.new run
            (λ index. break_steps index (run.from + n) (run.n - n)) }
    {
        let made = Run { from: run.from, n };
        self.break_rest(hand, run, n, &mut |_spoilt: Spoilt| {});
        GrowError::Refused {
            run,
            made: self.grown(made, filled),
            cause,
        }
    }
}

impl<T: Clone> Shared<T> {
    /// Appends `n` clones of the value in one run, each made once the run is won. A clone that finds no
    /// memory is a refused construction: the places from there on are broken. It tries once, and waits for
    /// nobody.
    pub fn try_grow_by(
        &self,
        hand: &mut Hand<T>,
        n: u64,
        value: &T,
    ) -> Result<Grown<T>, GrowError<T, (), AllocError>>
        requires ours { IsHandOf self.now hand.old }
        ensures won { IfOk result (WonClones T.is_clone value.now self.now n hand.old hand.new) }
        ensures refused { IfErr result (Refuses self.now n tt hand.old hand.new) }
        ensures made { IfErr result (IsRefusedBy (λ values _. All (T.is_clone value.now) values)) }
        ensures full { HasNoRoom self.now n hand.old → IsErrAnd result SaysFull }
        // The history gets the claim of the run and what became of each place, or the event whose reply the refusal
        // is.
        ensures logs { IfOk result
            (λ grown. LogsGrowth AllFilled hand.old hand.new grown.run) }
        ensures logs_refusal { IfErr result (LogsRefusal n hand.old hand.new) }
    {
        let make = |_: u64| -> Result<T, AllocError>
            ensures { IfOk result (T.is_clone value.entry.now) }
        { value.clone() };
        self.try_grow_with(hand, n, make)
    }

    /// Appends clones like `try_grow_by`, and retries if another caller was first.
    pub fn grow_by<R: Wait>(
        &self,
        rt: &R,
        hand: &mut Hand<T>,
        n: u64,
        value: &T,
    ) -> Result<Grown<T>, GrowError<T, (), AllocError>>
        requires ours { IsHandOf self.now hand.old }
        ensures won { IfOk result (WonClones T.is_clone value.now self.now n hand.old hand.new) }
        ensures refused { IfErr result (Refuses self.now n tt hand.old hand.new) }
        ensures made { IfErr result (IsRefusedBy (λ values _. All (T.is_clone value.now) values)) }
        ensures full { HasNoRoom self.now n hand.old → IsErrAnd result SaysFull }
        ensures not_moved { IfErr result IsNotMoved }
        // The history gets the claim of the run and what became of each place, or the event whose reply the refusal
        // is.
        ensures logs { IfOk result
            (λ grown. LogsGrowth AllFilled hand.old hand.new grown.run) }
        ensures logs_refusal { IfErr result (LogsRefusal n hand.old hand.new) }
    {
        let make = |_: u64| -> Result<T, AllocError>
            ensures { IfOk result (T.is_clone value.entry.now) }
        { value.clone() };
        self.grow_with(rt, hand, n, make)
    }
}
