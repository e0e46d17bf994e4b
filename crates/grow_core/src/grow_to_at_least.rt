//! How the vector is grown up to a size.
ghost use Rattle.std.specs.Prelude.{◌<◌, ◌≤◌, IfOk, IfErr, IsOkAnd, IsErrAnd};
ghost use Rattle.claim_core.specs.Hand.{seen_size};
ghost use Rattle.grow_core.specs.Vector.{IsHandOf, limit_of};
ghost use Rattle.grow_core.specs.Growth.{SaysFull, ClaimsNothing};
ghost use Rattle.grow_core.specs.Making.{StopsAfter, IsRefusedBy, LeavesMaker};
ghost use Rattle.grow_core.specs.AtLeast.{WonAtLeast, MadeUpTo, RefusesAtLeast, SaysEnough, ReachesSize, IsSpared, IsNewIn};
ghost use Rattle.grow_core.specs.Logs.{LogsAtLeast, LogsReached, LogsRefusalUpTo};

use crate::errors::GrowError;
use crate::grown::Grown;
use crate::hand::{Hand, claiming_laws};
use crate::vector::Shared;
use claim_core::{Enough, Run};

/// The result of a growth up to a size.
#[derive(Debug, Drop)]
pub enum AtLeast<T> {
    /// It appended this run, which ends at the size that was asked for.
    Ran(Grown<T>),
    /// The size was large enough already. Nothing was appended.
    Enough { size: u64 },
}

// What a claim up to a size came to.
#[derive(Drop)]
pub(crate) enum Reached {
    Won(Run),
    Enough { size: u64 },
}

impl<T: Drop> Shared<T> {
    /// Appends the fewest values that make the size at least `size`, in one run that `make` makes as in
    /// `try_grow_with`: it is called with 0, 1, 2 and so on once the run is won. If the size is large enough,
    /// nothing is appended and that size is returned. It claims by one greatest-value step, its linearization
    /// point, waits for nobody, and never returns `Moved`.
    pub fn grow_to_at_least<E: Drop, F: FnMut(u64) -> Result<T, E>>(
        &self,
        hand: &mut Hand<T>,
        size: u64,
        mut make: F,
    ) -> Result<AtLeast<T>, GrowError<T, (), E>>
        requires ours { IsHandOf self.now hand.old }
        requires callable { F.IsAlwaysCallable make }
        ensures won { IfOk result (WonAtLeast F.step make self.now size hand.old hand.new) }
        ensures refused { IfErr result (RefusesAtLeast self.now size hand.old hand.new) }
        ensures cause { IfErr result (IsRefusedBy (StopsAfter F.step make)) }
        // The hand's size or the limit decides before memory is asked for.
        ensures enough { size ≤ seen_size hand.old → IsOkAnd result SaysEnough }
        ensures full { limit_of self.now < size → IsErrAnd result SaysFull }
        // The history gets the claim of the run up to the size and what became of each place, or the event whose reply
        // the refusal is.
        ensures logs { IfOk result (LogsAtLeast size hand.old hand.new) }
        ensures logs_refusal { IfErr result (LogsRefusalUpTo size hand.old hand.new) }
    {
        self.make_up_to(hand, size, &mut make)
    }

    // Like `grow_to_at_least`. What the maker is afterwards says that it was asked for these values alone.
    fn make_up_to<E: Drop, F: FnMut(u64) -> Result<T, E>>(
        &self,
        hand: &mut Hand<T>,
        size: u64,
        make: &mut F,
    ) -> Result<AtLeast<T>, GrowError<T, (), E>>
        requires ours { IsHandOf self.now hand.old }
        requires callable { F.IsAlwaysCallable make.old }
        ensures won { IfOk result (WonAtLeast F.step make.old self.now size hand.old hand.new) }
        ensures made { IfOk result (MadeUpTo F.step make.old make.new) }
        ensures refused { IfErr result (RefusesAtLeast self.now size hand.old hand.new) }
        ensures asked { IfErr result (LeavesMaker F.step make.old make.new) }
        ensures enough { size ≤ seen_size hand.old → IsOkAnd result SaysEnough }
        ensures full { limit_of self.now < size → IsErrAnd result SaysFull }
        ensures logs { IfOk result (LogsAtLeast size hand.old hand.new) }
        ensures logs_refusal { IfErr result (LogsRefusalUpTo size hand.old hand.new) }
    {
        match self.claim_up_to(hand, size)? {
            Reached::Enough { size } => Ok(AtLeast::Enough { size }),
            Reached::Won(run) => match self.make_run(hand, run, make) {
                Ok(grown) => Ok(AtLeast::Ran(grown)),
                Err(refused) => Err(refused),
            },
        }
    }

    // A claim of the places from the size now up to this one.
    fn claim_up_to<E>(&self, hand: &mut Hand<T>, size: u64) -> Result<Reached, GrowError<T, (), E>>
        requires ours { IsHandOf self.now hand.old }
        ensures reached { IfOk result (ReachesSize self.now size hand.old hand.new) }
        ensures refused { IfErr result (RefusesAtLeast self.now size hand.old hand.new) }
        ensures unclaimed { IfErr result ClaimsNothing }
        ensures enough { size ≤ seen_size hand.old → IsOkAnd result IsSpared }
        ensures full { limit_of self.now < size → IsErrAnd result SaysFull }
        // The run is the last that the hand has seen, and no place of it is known begun.
        ensures new_run { IfOk result (IsNewIn hand.new) }
        ensures logs { IfOk result (LogsReached size hand.old hand.new) }
        ensures logs_refusal { IfErr result (LogsRefusalUpTo size hand.old hand.new) }
    {
        let from = self.size_up_to(hand, size);
        if size <= from {
            return Ok(Reached::Enough { size: from });
        }
        if size > self.limit() {
            return Err(GrowError::Full {
                size: from,
                back: (),
            });
        }
        self.raise(hand, size)
    }

    // One step that makes the size at least this one, with the segments up to there installed first. A run
    // that it wins begins at or above what the hand had seen, so the segments are enough.
    fn raise<E>(&self, hand: &mut Hand<T>, size: u64) -> Result<Reached, GrowError<T, (), E>>
        requires ours { IsHandOf self.now hand.old }
        requires further { seen_size hand.old < size }
        requires within_limit { size ≤ limit_of self.now }
        ensures reached { IfOk result (ReachesSize self.now size hand.old hand.new) }
        ensures refused { IfErr result (RefusesAtLeast self.now size hand.old hand.new) }
        ensures unclaimed { IfErr result ClaimsNothing }
        // The run is the last that the hand has seen, and no place of it is known begun.
        ensures new_run { IfOk result (IsNewIn hand.new) }
        ensures logs { IfOk result (LogsReached size hand.old hand.new) }
        ensures logs_refusal { IfErr result (LogsRefusalUpTo size hand.old hand.new) }
    {
        // For the proof: the hand keeps its places, and owns those of the run that it gains.
        self.laws();
        claiming_laws(&hand.claims);
        // And its keys are those of the vector's segments.
        let _table = &self.table;
        let from = hand.seen();
        let Ok(()) = self.install(&mut hand.claims, &mut hand.keys, from, size - from) else {
            self.word.log_no_memory(&mut hand.claims);
            return Err(GrowError::NoMemory { back: () });
        };
        match self.word.raise(&mut hand.claims, size) {
            Ok(run) => Ok(Reached::Won(run)),
            Err(Enough { size }) => Ok(Reached::Enough { size }),
        }
    }
}
