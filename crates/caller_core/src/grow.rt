//! How a caller appends several values, or claims places and breaks them.
ghost use Rattle.std.specs.Prelude.{◌≡◌, ◌<◌, ◌≤◌, IfOk, IfErr, OnErr, IsErrAnd, IsOkAnd, length, replicate};
ghost use Rattle.claim_core.specs.Hand.{seen_size};
ghost use Rattle.grow_core.specs.Vector.{VectorView, limit_of};
ghost use Rattle.grow_core.specs.Grown.{IsGrownOf};
ghost use Rattle.grow_core.specs.Growth.{Refuses, HasNoRoom, SaysFull};
ghost use Rattle.grow_core.specs.AtLeast.{RefusesAtLeast};
ghost use Rattle.grow_core.specs.Logs.{AllBroken, AllFilled, LogsRefusal, LogsRefusalUpTo};
ghost use Rattle.caller_core.specs.Caller.{KeepsCaller, IsLastOf};
ghost use Rattle.caller_core.specs.Grows.{GrowsBy, GrowsMade, GrowsUpTo, LogsRunFrom, LogsUpTo, TellsLast, WinsPlaces, IsNoPlace};

use crate::caller::Caller;
use grow_core::{AtLeast, GrowError, Grown, Never, Placed, Source};

// Keeps the token of the last place of a run, if the run has a place, and returns the first place.
#[tactic(auto, using(crate::proofs::LastTokens::tells_none, crate::proofs::LastTokens::tells_some))]
fn keep_last<T: Drop>(last: &mut Option<Placed<T>>, grown: Grown<T>) -> u64
    ensures place { result ≡ grown.run.from }
    ensures last { TellsLast grown last.old last.new }
    ensures of { (v : VectorView T) → IsGrownOf v grown → IsLastOf v last.old
        → IsLastOf v last.new }
{
    // For the proof: a run has a token of each of its places.
    grown.laws();
    let run = grown.run();
    if run.n == 0 {
        drop(grown);
        return run.from;
    }
    *last = Some(grown.placed(run.n - 1));
    drop(grown);
    run.from
}

impl<T: Copy> Caller<T> {
    /// Appends copies of the values side by side, and returns the place of the first one. It tries once.
    #[tactic(auto, using(crate::proofs::Kept::grows_shares, crate::proofs::Kept::grows_of))]
    pub fn grow(&mut self, values: &[T]) -> Result<u64, GrowError<T, (), Never>>
        ensures grown { IfOk result (GrowsBy values.now self.old self.new) }
        ensures refused { IfErr result
            (Refuses self.old.vector (length values.now) tt self.old.hand self.new.hand) }
        ensures full { HasNoRoom self.old.vector (length values.now) self.old.hand
            → IsErrAnd result SaysFull }
        // The history gets the claim of the run and what became of its places, or the event whose reply the refusal
        // is.
        ensures logs { IfOk result (LogsRunFrom AllFilled
            (length values.now) self.old.hand self.new.hand) }
        ensures logs_refusal { IfErr result
            (LogsRefusal (length values.now) self.old.hand self.new.hand) }
        ensures kept { KeepsCaller self.old self.new }
        ensures last { OnErr result (self.new.last ≡ self.old.last) }
    {
        let grown = self.hub.vector.try_grow_from(&mut self.hand, values)?;
        Ok(keep_last(&mut self.last, grown))
    }

    /// Appends `n` copies of the value side by side, and returns the place of the first one. It tries once.
    #[tactic(auto, using(crate::proofs::Kept::grows_shares, crate::proofs::Kept::grows_of))]
    pub fn fill(&mut self, n: u64, value: T) -> Result<u64, GrowError<T, (), Never>>
        ensures grown { IfOk result (GrowsBy (replicate n value) self.old self.new) }
        ensures refused { IfErr result
            (Refuses self.old.vector n tt self.old.hand self.new.hand) }
        ensures full { HasNoRoom self.old.vector n self.old.hand → IsErrAnd result SaysFull }
        // The history gets the claim of the run and what became of its places, or the event whose reply the refusal
        // is.
        ensures logs { IfOk result
            (LogsRunFrom AllFilled n self.old.hand self.new.hand) }
        ensures logs_refusal { IfErr result
            (LogsRefusal n self.old.hand self.new.hand) }
        ensures kept { KeepsCaller self.old self.new }
        ensures last { OnErr result (self.new.last ≡ self.old.last) }
    {
        let grown = self.hub.vector.try_grow_copies(&mut self.hand, n, value)?;
        Ok(keep_last(&mut self.last, grown))
    }
}

impl<T: Drop> Caller<T> {
    /// Appends the values of the source side by side, and returns the place of the first one. It tries once.
    #[inline(always)]
    #[tactic(auto, using(crate::proofs::Kept::grows_shares, crate::proofs::Kept::grows_of))]
    pub fn grow_source<S: Source<T>>(&mut self, source: &S) -> Result<u64, GrowError<T, (), Never>>
        ensures grown { IfOk result (GrowsBy (S.values source.now) self.old self.new) }
        ensures refused { IfErr result (Refuses self.old.vector
            (length (S.values source.now)) tt self.old.hand self.new.hand) }
        ensures full { HasNoRoom self.old.vector (length (S.values source.now)) self.old.hand
            → IsErrAnd result SaysFull }
        // The history gets the claim of the run and what became of its places, or the event whose reply the refusal
        // is.
        ensures logs { IfOk result (LogsRunFrom AllFilled
            (length (S.values source.now)) self.old.hand self.new.hand) }
        ensures logs_refusal { IfErr result (LogsRefusal
            (length (S.values source.now)) self.old.hand self.new.hand) }
        ensures kept { KeepsCaller self.old self.new }
        ensures last { OnErr result (self.new.last ≡ self.old.last) }
    {
        let grown = self.hub.vector.try_grow_source(&mut self.hand, source)?;
        Ok(keep_last(&mut self.last, grown))
    }

    /// Appends `n` values that `make` makes, side by side, and returns the place of the first one. It tries once.
    #[tactic(auto, using(crate::proofs::Kept::grows_shares, crate::proofs::Kept::grows_of))]
    pub fn grow_made<F: FnMut(u64) -> Result<T, Never>>(
        &mut self,
        n: u64,
        make: F,
    ) -> Result<u64, GrowError<T, (), Never>>
        requires callable { F.IsAlwaysCallable make }
        ensures grown { IfOk result (GrowsMade F.step make n self.old self.new) }
        ensures refused { IfErr result
            (Refuses self.old.vector n tt self.old.hand self.new.hand) }
        ensures full { HasNoRoom self.old.vector n self.old.hand → IsErrAnd result SaysFull }
        // The history gets the claim of the run and what became of its places, or the event whose reply the refusal
        // is.
        ensures logs { IfOk result
            (LogsRunFrom AllFilled n self.old.hand self.new.hand) }
        ensures logs_refusal { IfErr result
            (LogsRefusal n self.old.hand self.new.hand) }
        ensures kept { KeepsCaller self.old self.new }
        ensures last { OnErr result (self.new.last ≡ self.old.last) }
    {
        let grown = self.hub.vector.try_grow_with(&mut self.hand, n, make)?;
        Ok(keep_last(&mut self.last, grown))
    }

    /// Appends the values that are missing up to this size, which `make` makes. Returns the place of the first one
    /// and their number, or, if none is missing, the size and 0. It never says `Moved`.
    #[tactic(auto, using(crate::proofs::Kept::grows_shares, crate::proofs::Kept::grows_of))]
    pub fn grow_to_at_least<F: FnMut(u64) -> Result<T, Never>>(
        &mut self,
        size: u64,
        make: F,
    ) -> Result<(u64, u64), GrowError<T, (), Never>>
        requires callable { F.IsAlwaysCallable make }
        ensures grown { IfOk result
            (λ (place, n). GrowsUpTo F.step make size self.old self.new place n) }
        ensures refused { IfErr result
            (RefusesAtLeast self.old.vector size self.old.hand self.new.hand) }
        ensures enough { size ≤ seen_size self.old.hand → IsOkAnd result (λ (_, n). IsNoPlace n) }
        ensures full { limit_of self.old.vector < size → IsErrAnd result SaysFull }
        // The history gets the claim of the run and what became of its places, or the event whose reply the refusal
        // is.
        ensures logs { IfOk result
            (λ (place, n). LogsUpTo size self.old.hand self.new.hand place n) }
        ensures logs_refusal { IfErr result
            (LogsRefusalUpTo size self.old.hand self.new.hand) }
        ensures kept { KeepsCaller self.old self.new }
        ensures last { OnErr result (self.new.last ≡ self.old.last) }
    {
        let reached = self.hub.vector.grow_to_at_least(&mut self.hand, size, make);
        match reached {
            Ok(AtLeast::Enough { size }) => Ok((size, 0)),
            Ok(AtLeast::Ran(grown)) => {
                let n = grown.run().n;
                Ok((keep_last(&mut self.last, grown), n))
            }
            Err(refused) => Err(refused),
        }
    }

    /// Claims `n` places side by side, breaks them, and returns the first one. It tries once.
    #[tactic(auto, using(crate::proofs::Kept::grows_shares, crate::proofs::Kept::grows_of))]
    pub fn break_run(&mut self, n: u64) -> Result<u64, GrowError<T, (), Never>>
        ensures broken { IfOk result (WinsPlaces n self.old self.new) }
        ensures refused { IfErr result
            (Refuses self.old.vector n tt self.old.hand self.new.hand) }
        ensures full { HasNoRoom self.old.vector n self.old.hand → IsErrAnd result SaysFull }
        // The history gets the claim of the run and what became of its places, or the event whose reply the refusal
        // is.
        ensures logs { IfOk result
            (LogsRunFrom AllBroken n self.old.hand self.new.hand) }
        ensures logs_refusal { IfErr result
            (LogsRefusal n self.old.hand self.new.hand) }
        ensures kept { KeepsCaller self.old self.new }
        ensures last { self.new.last ≡ self.old.last }
    {
        match self.hub.vector.try_break_run(&mut self.hand, n) {
            Ok(run) => Ok(run.from),
            Err(refused) => Err(refused),
        }
    }
}
