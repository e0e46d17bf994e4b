//! How a writer that shares its vector appends copies, and places without values.
ghost use Rattle.std.specs.Prelude.{◌≡◌, IfOk, IfErr, IsErrAnd, length, replicate};
ghost use Rattle.grow_core.specs.Growth.{WonRun, WonPlaces, Refuses, HasNoRoom, SaysFull, IsNotMoved};
ghost use Rattle.grow_core.specs.Logs.{AllBroken, AllFilled, LogsGrowth, LogsRefusal};

use crate::shared_writer::SharedWriter;
use grow_core::{GrowError, Grown, Never, Run, Source};
use std::sync::Wait;

impl<T: Copy> SharedWriter<T> {
    /// Appends copies of the values in one run. It tries once, and waits for nobody. The exchange that wins the run is
    /// its linearization point, or, if there is no value, the load of the size. It takes no memory except that of the
    /// segments, and up to sixteen values next to each other are published by one step.
    pub fn try_grow_from(&mut self, values: &[T]) -> Result<Grown<T>, GrowError<T, (), Never>>
        ensures won { IfOk result (WonRun self.old.vector values.now self.old.hand self.new.hand) }
        ensures refused { IfErr result
            (Refuses self.old.vector (length values.now) tt self.old.hand self.new.hand) }
        // Room that is missing by what the hand has seen is reported before memory is asked for.
        ensures full { HasNoRoom self.old.vector (length values.now) self.old.hand
            → IsErrAnd result SaysFull }
        // The history gets the claim of the run and what became of its places, or the event whose reply the
        // refusal is.
        ensures logs { IfOk result
            (λ grown. LogsGrowth AllFilled self.old.hand self.new.hand grown.run) }
        ensures logs_refusal { IfErr result
            (LogsRefusal (length values.now) self.old.hand self.new.hand) }
        ensures vector { self.new.vector ≡ self.old.vector }
    {
        self.vector.try_grow_from(&mut self.hand, values)
    }

    /// Appends copies of the values like `try_grow_from`, and retries if another caller was first.
    pub fn grow_from<R: Wait>(
        &mut self,
        rt: &R,
        values: &[T],
    ) -> Result<Grown<T>, GrowError<T, (), Never>>
        ensures won { IfOk result (WonRun self.old.vector values.now self.old.hand self.new.hand) }
        ensures refused { IfErr result
            (Refuses self.old.vector (length values.now) tt self.old.hand self.new.hand) }
        ensures full { HasNoRoom self.old.vector (length values.now) self.old.hand
            → IsErrAnd result SaysFull }
        ensures not_moved { IfErr result IsNotMoved }
        // The history gets the claim of the run and what became of its places, or the event whose reply the
        // refusal is.
        ensures logs { IfOk result
            (λ grown. LogsGrowth AllFilled self.old.hand self.new.hand grown.run) }
        ensures logs_refusal { IfErr result
            (LogsRefusal (length values.now) self.old.hand self.new.hand) }
        ensures vector { self.new.vector ≡ self.old.vector }
    {
        self.vector.grow_from(rt, &mut self.hand, values)
    }

    /// Appends `n` copies of the value in one run, like `try_grow_from`.
    pub fn try_grow_copies(&mut self, n: u64, value: T) -> Result<Grown<T>, GrowError<T, (), Never>>
        ensures won { IfOk result
            (WonRun self.old.vector (replicate n value) self.old.hand self.new.hand) }
        ensures refused { IfErr result (Refuses self.old.vector n tt self.old.hand self.new.hand) }
        // Room that is missing by what the hand has seen is reported before memory is asked for.
        ensures full { HasNoRoom self.old.vector n self.old.hand → IsErrAnd result SaysFull }
        // The history gets the claim of the run and what became of its places, or the event whose reply the
        // refusal is.
        ensures logs { IfOk result
            (λ grown. LogsGrowth AllFilled self.old.hand self.new.hand grown.run) }
        ensures logs_refusal { IfErr result
            (LogsRefusal n self.old.hand self.new.hand) }
        ensures vector { self.new.vector ≡ self.old.vector }
    {
        self.vector.try_grow_copies(&mut self.hand, n, value)
    }

    /// Appends `n` copies of the value like `try_grow_copies`, and retries if another caller was first.
    pub fn grow_copies<R: Wait>(
        &mut self,
        rt: &R,
        n: u64,
        value: T,
    ) -> Result<Grown<T>, GrowError<T, (), Never>>
        ensures won { IfOk result
            (WonRun self.old.vector (replicate n value) self.old.hand self.new.hand) }
        ensures refused { IfErr result (Refuses self.old.vector n tt self.old.hand self.new.hand) }
        ensures full { HasNoRoom self.old.vector n self.old.hand → IsErrAnd result SaysFull }
        ensures not_moved { IfErr result IsNotMoved }
        // The history gets the claim of the run and what became of its places, or the event whose reply the
        // refusal is.
        ensures logs { IfOk result
            (λ grown. LogsGrowth AllFilled self.old.hand self.new.hand grown.run) }
        ensures logs_refusal { IfErr result
            (LogsRefusal n self.old.hand self.new.hand) }
        ensures vector { self.new.vector ≡ self.old.vector }
    {
        self.vector.grow_copies(rt, &mut self.hand, n, value)
    }
}

impl<T: Drop> SharedWriter<T> {
    /// Appends the values of the source in one run, like `try_grow_from`.
    #[inline(always)]
    pub fn try_grow_source<S: Source<T>>(
        &mut self,
        source: &S,
    ) -> Result<Grown<T>, GrowError<T, (), Never>>
        ensures won { IfOk result
            (WonRun self.old.vector (S.values source.now) self.old.hand self.new.hand) }
        ensures refused { IfErr result
            (Refuses self.old.vector (length (S.values source.now)) tt self.old.hand self.new.hand) }
        // Room that is missing by what the hand has seen is reported before memory is asked for.
        ensures full { HasNoRoom self.old.vector (length (S.values source.now)) self.old.hand
            → IsErrAnd result SaysFull }
        // The history gets the claim of the run and what became of its places, or the event whose reply the
        // refusal is.
        ensures logs { IfOk result
            (λ grown. LogsGrowth AllFilled self.old.hand self.new.hand grown.run) }
        ensures logs_refusal { IfErr result
            (LogsRefusal (length (S.values source.now)) self.old.hand self.new.hand) }
        ensures vector { self.new.vector ≡ self.old.vector }
    {
        self.vector.try_grow_source(&mut self.hand, source)
    }

    /// Claims `n` places in one run, and breaks each of them: they have no value, and can be mended. It tries once, and
    /// waits for nobody. The exchange that wins the run is its linearization point, or, if n is 0, the load of the
    /// size. It takes no memory except that of the segments, and two steps for each place.
    pub fn try_break_run(&mut self, n: u64) -> Result<Run, GrowError<T, (), Never>>
        ensures won { IfOk result (WonPlaces n self.old.hand self.new.hand) }
        ensures refused { IfErr result (Refuses self.old.vector n tt self.old.hand self.new.hand) }
        // Room that is missing by what the hand has seen is reported before memory is asked for.
        ensures full { HasNoRoom self.old.vector n self.old.hand → IsErrAnd result SaysFull }
        // The history gets the claim of the run and what became of its places, or the event whose reply the
        // refusal is.
        ensures logs { IfOk result
            (λ run. LogsGrowth AllBroken self.old.hand self.new.hand run) }
        ensures logs_refusal { IfErr result
            (LogsRefusal n self.old.hand self.new.hand) }
        ensures vector { self.new.vector ≡ self.old.vector }
    {
        self.vector.try_break_run(&mut self.hand, n)
    }

    /// Claims and breaks `n` places like `try_break_run`, and retries if another caller was first.
    pub fn break_run<R: Wait>(&mut self, rt: &R, n: u64) -> Result<Run, GrowError<T, (), Never>>
        ensures won { IfOk result (WonPlaces n self.old.hand self.new.hand) }
        ensures refused { IfErr result (Refuses self.old.vector n tt self.old.hand self.new.hand) }
        ensures full { HasNoRoom self.old.vector n self.old.hand → IsErrAnd result SaysFull }
        ensures not_moved { IfErr result IsNotMoved }
        // The history gets the claim of the run and what became of its places, or the event whose reply the
        // refusal is.
        ensures logs { IfOk result
            (λ run. LogsGrowth AllBroken self.old.hand self.new.hand run) }
        ensures logs_refusal { IfErr result
            (LogsRefusal n self.old.hand self.new.hand) }
        ensures vector { self.new.vector ≡ self.old.vector }
    {
        self.vector.break_run(rt, &mut self.hand, n)
    }
}
