// How every growth claims its run, once it has its memory.
ghost use Rattle.std.specs.Prelude.{◌≡◌, ◌+◌, ◌<◌, ◌≤◌, IfOk, IfErr, IsErrAnd};
ghost use Rattle.claim_core.specs.Hand.{AddsRun, LogsRun, seen_size};
ghost use Rattle.grow_core.specs.Steps.{IsNewRun};
ghost use Rattle.grow_core.specs.Vector.{IsHandOf, limit_of};
ghost use Rattle.grow_core.specs.Keys.{OwnsPlacesOf};
ghost use Rattle.grow_core.specs.Growth.{Refuses, HasNoRoom, SaysFull, IsNotMoved, ClaimsNothing};
ghost use Rattle.grow_core.specs.Making.{IsClaimed};
ghost use Rattle.grow_core.specs.Logs.{LogsClaimed, LogsRefusal};

use crate::errors::GrowError;
use crate::hand::{Hand, claiming_laws};
use crate::vector::Shared;
use claim_core::{Moved, Run, laws};
use std::marker::Brand;
use std::sync::Wait;

impl<T: Drop> Shared<T> {
    // Tries once to win `n` places at the size now. `value` is passed through. A claim of no places is an empty run at
    // that size.
    pub(crate) fn claim_run<V, E>(
        &self,
        hand: &mut Hand<T>,
        n: u64,
        value: V,
    ) -> Result<(Run, V), GrowError<T, V, E>>
        requires ours { IsHandOf self.now hand.old }
        ensures claimed { IfOk result (λ (run, _). IsClaimed self.now n hand.old hand.new run) }
        ensures value { IfOk result (λ (_, on). on ≡ value) }
        ensures refused { IfErr result (Refuses self.now n value hand.old hand.new) }
        ensures unclaimed { IfErr result ClaimsNothing }
        ensures full { HasNoRoom self.now n hand.old → IsErrAnd result SaysFull }
        // The run is the last that the hand has seen, and no place of it is known begun.
        ensures new_run { IfOk result (λ (run, _). IsNewRun hand.new run) }
        ensures logs { IfOk result (λ (run, _). LogsClaimed hand.old hand.new run) }
        ensures logs_refusal { IfErr result (LogsRefusal n hand.old hand.new) }
    {
        // For the proof: the hand owns the run that it gains.
        laws::added_runs_are_owned();
        let from = self.size_for(hand, n);
        let run = Run { from, n };
        if n == 0 {
            return Ok((run, value));
        }
        if self.limit() - from < n {
            return Err(GrowError::Full {
                size: from,
                back: value,
            });
        }
        let value = self.claim(hand, from, n, value)?;
        Ok((run, value))
    }

    // Like `claim_run`, and it retries if another caller was first.
    pub(crate) fn claim_again<R: Wait, V, E>(
        &self,
        rt: &R,
        hand: &mut Hand<T>,
        n: u64,
        mut value: V,
    ) -> Result<(Run, V), GrowError<T, V, E>>
        requires ours { IsHandOf self.now hand.old }
        ensures claimed { IfOk result (λ (run, _). IsClaimed self.now n hand.old hand.new run) }
        ensures value { IfOk result (λ (_, on). on ≡ value) }
        ensures refused { IfErr result (Refuses self.now n value hand.old hand.new) }
        ensures unclaimed { IfErr result ClaimsNothing }
        ensures full { HasNoRoom self.now n hand.old → IsErrAnd result SaysFull }
        // The run is the last that the hand has seen, and no place of it is known begun.
        ensures new_run { IfOk result (λ (run, _). IsNewRun hand.new run) }
        ensures logs { IfOk result (λ (run, _). LogsClaimed hand.old hand.new run) }
        ensures logs_refusal { IfErr result (LogsRefusal n hand.old hand.new) }
        ensures not_moved { IfErr result IsNotMoved }
    {
        for _try in rt.forever() {
            match self.claim_run(hand, n, value) {
                Ok(claimed) => return Ok(claimed),
                Err(GrowError::Moved { size: _, back }) => value = back,
                Err(refused) => return Err(refused),
            }
        }
        unreachable!()
    }

    // One try to win `n` places from the size that the hand has seen, whose segments it installs first.
    // `value` is passed through.
    pub(crate) fn claim<V, E>(
        &self,
        hand: &mut Hand<T>,
        from: u64,
        n: u64,
        value: V,
    ) -> Result<V, GrowError<T, V, E>>
        requires ours { IsHandOf self.now hand.old }
        requires some_places { 0 < n }
        requires within_limit { from + n ≤ limit_of self.now }
        requires seen { from ≡ seen_size hand.old }
        ensures run { IfOk result (λ _. AddsRun hand.old hand.new record { from = from; n = n }) }
        ensures owned { IfOk result (λ _. OwnsPlacesOf hand.new record { from = from; n = n }) }
        ensures value { IfOk result (λ on. on ≡ value) }
        ensures refused { IfErr result (Refuses self.now n value hand.old hand.new) }
        ensures unclaimed { IfErr result ClaimsNothing }
        ensures new_run { IfOk result (λ _. IsNewRun hand.new record { from = from; n = n }) }
        ensures logs { IfOk result (λ _. LogsRun hand.old hand.new record { from = from; n = n }) }
        ensures logs_refusal { IfErr result (LogsRefusal n hand.old hand.new) }
    {
        // For the proof: the hand keeps its places, and owns those of the run that it gains.
        self.laws();
        claiming_laws(&hand.claims);
        // And its keys are those of the vector's segments.
        let _table = &self.table;
        let Ok(()) = self.install(&mut hand.claims, &mut hand.keys, from, n) else {
            self.word.log_no_memory(&mut hand.claims);
            return Err(GrowError::NoMemory { back: value });
        };
        match self.word.exchange_as::<Brand>(&mut hand.claims, from, n) {
            Ok(_run) => Ok(value),
            Err(Moved { size }) if self.limit() - size < n => Err(GrowError::Full {
                size,
                back: value,
            }),
            Err(Moved { size }) => Err(GrowError::Moved { size, back: value }),
        }
    }
}
