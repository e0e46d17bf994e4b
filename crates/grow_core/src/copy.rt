//! Growths by copies: of the values of a slice, or of one value.
ghost use Rattle.std.specs.Prelude.{IfOk, IfErr, IsErrAnd, length, replicate};
ghost use Rattle.grow_core.specs.Vector.{IsHandOf};
ghost use Rattle.grow_core.specs.Growth.{WonRun, Refuses, HasNoRoom, SaysFull, IsNotMoved};
ghost use Rattle.grow_core.specs.Logs.{LogsGrowth, LogsRefusal, AllFilled};

use crate::errors::{GrowError, Never};
use crate::grown::Grown;
use crate::hand::Hand;
use crate::source::{Copies, FromSlice, Source};
use crate::vector::Shared;
use std::sync::Wait;

impl<T: Copy> Shared<T> {
    /// Appends copies of the values in one run. It tries once, and waits for nobody. The exchange that wins the run is
    /// its linearization point, or, if there is no value, the load of the size. It takes no memory except that of the
    /// segments, and up to sixteen values next to each other are published by one step.
    pub fn try_grow_from(
        &self,
        hand: &mut Hand<T>,
        values: &[T],
    ) -> Result<Grown<T>, GrowError<T, (), Never>>
        requires ours { IsHandOf self.now hand.old }
        ensures won { IfOk result (WonRun self.now values.now hand.old hand.new) }
        ensures refused { IfErr result
            (Refuses self.now (length values.now) tt hand.old hand.new) }
        // Room that is missing by what the hand has seen is reported before memory is asked for.
        ensures full { HasNoRoom self.now (length values.now) hand.old → IsErrAnd result SaysFull }
        // The history gets the claim of the run and the fill of each place, or the event whose reply the refusal is.
        ensures logs { IfOk result
            (λ grown. LogsGrowth AllFilled hand.old hand.new grown.run) }
        ensures logs_refusal { IfErr result
            (LogsRefusal (length values.now) hand.old hand.new) }
    {
        let n = values.len() as u64;
        let (run, ()) = self.claim_run(hand, n, ())?;
        Ok(self.copy_run(hand, run, &FromSlice { slice: values }))
    }

    /// Appends copies of the values like `try_grow_from`, and retries if another caller was first.
    pub fn grow_from<R: Wait>(
        &self,
        rt: &R,
        hand: &mut Hand<T>,
        values: &[T],
    ) -> Result<Grown<T>, GrowError<T, (), Never>>
        requires ours { IsHandOf self.now hand.old }
        ensures won { IfOk result (WonRun self.now values.now hand.old hand.new) }
        ensures refused { IfErr result
            (Refuses self.now (length values.now) tt hand.old hand.new) }
        ensures full { HasNoRoom self.now (length values.now) hand.old → IsErrAnd result SaysFull }
        ensures not_moved { IfErr result IsNotMoved }
        // The history gets the claim of the run and the fill of each place, or the event whose reply the refusal is.
        ensures logs { IfOk result
            (λ grown. LogsGrowth AllFilled hand.old hand.new grown.run) }
        ensures logs_refusal { IfErr result
            (LogsRefusal (length values.now) hand.old hand.new) }
    {
        let n = values.len() as u64;
        let (run, ()) = self.claim_again(rt, hand, n, ())?;
        Ok(self.copy_run(hand, run, &FromSlice { slice: values }))
    }

    /// Appends `n` copies of the value in one run, like `try_grow_from`.
    pub fn try_grow_copies(
        &self,
        hand: &mut Hand<T>,
        n: u64,
        value: T,
    ) -> Result<Grown<T>, GrowError<T, (), Never>>
        requires ours { IsHandOf self.now hand.old }
        ensures won { IfOk result (WonRun self.now (replicate n value) hand.old hand.new) }
        ensures refused { IfErr result (Refuses self.now n tt hand.old hand.new) }
        // Room that is missing by what the hand has seen is reported before memory is asked for.
        ensures full { HasNoRoom self.now n hand.old → IsErrAnd result SaysFull }
        // The history gets the claim of the run and the fill of each place, or the event whose reply the refusal is.
        ensures logs { IfOk result
            (λ grown. LogsGrowth AllFilled hand.old hand.new grown.run) }
        ensures logs_refusal { IfErr result (LogsRefusal n hand.old hand.new) }
    {
        let (run, ()) = self.claim_run(hand, n, ())?;
        Ok(self.copy_run(hand, run, &Copies { n, value }))
    }

    /// Appends `n` copies of the value like `try_grow_copies`, and retries if another caller was first.
    pub fn grow_copies<R: Wait>(
        &self,
        rt: &R,
        hand: &mut Hand<T>,
        n: u64,
        value: T,
    ) -> Result<Grown<T>, GrowError<T, (), Never>>
        requires ours { IsHandOf self.now hand.old }
        ensures won { IfOk result (WonRun self.now (replicate n value) hand.old hand.new) }
        ensures refused { IfErr result (Refuses self.now n tt hand.old hand.new) }
        ensures full { HasNoRoom self.now n hand.old → IsErrAnd result SaysFull }
        ensures not_moved { IfErr result IsNotMoved }
        // The history gets the claim of the run and the fill of each place, or the event whose reply the refusal is.
        ensures logs { IfOk result
            (λ grown. LogsGrowth AllFilled hand.old hand.new grown.run) }
        ensures logs_refusal { IfErr result (LogsRefusal n hand.old hand.new) }
    {
        let (run, ()) = self.claim_again(rt, hand, n, ())?;
        Ok(self.copy_run(hand, run, &Copies { n, value }))
    }
}

impl<T: Drop> Shared<T> {
    /// Appends the values of the source in one run, like `try_grow_from`.
    #[inline(always)]
    pub fn try_grow_source<S: Source<T>>(
        &self,
        hand: &mut Hand<T>,
        source: &S,
    ) -> Result<Grown<T>, GrowError<T, (), Never>>
        requires ours { IsHandOf self.now hand.old }
        ensures won { IfOk result (WonRun self.now (S.values source.now) hand.old hand.new) }
        ensures refused { IfErr result
            (Refuses self.now (length (S.values source.now)) tt hand.old hand.new) }
        // Room that is missing by what the hand has seen is reported before memory is asked for.
        ensures full { HasNoRoom self.now (length (S.values source.now)) hand.old
            → IsErrAnd result SaysFull }
        // The history gets the claim of the run and the fill of each place, or the event whose reply the refusal is.
        ensures logs { IfOk result
            (λ grown. LogsGrowth AllFilled hand.old hand.new grown.run) }
        ensures logs_refusal { IfErr result
            (LogsRefusal (length (S.values source.now)) hand.old hand.new) }
    {
        let (run, ()) = self.claim_run(hand, source.len(), ())?;
        Ok(self.copy_run(hand, run, source))
    }
}
