//! How one value is appended.
ghost use Rattle.std.specs.Prelude.{◌≡◌, ◌<◌, IfOk, IfErr, IsErrAnd, IsTrue};
ghost use Rattle.claim_core.specs.Hand.{seen_size};
ghost use Rattle.grow_core.specs.Vector.{IsHandOf, limit_of};
ghost use Rattle.grow_core.specs.Growth.{WonPlace, Refuses, HasNoRoom, SaysFull, IsNotMoved};
ghost use Rattle.grow_core.specs.Logs.{LogsPush, LogsRefusal};

use crate::errors::{GrowError, Never};
use crate::hand::{Hand, claiming_laws};
use crate::keys::key_of;
use crate::token::Placed;
use crate::vector::Shared;
use claim_core::{Moved, laws};
use seg_core::laws::places;
use std::marker::Brand;
use std::sync::Wait;

impl<T: Drop> Shared<T> {
    /// Appends a value. It tries once, and waits for nobody. The exchange that wins the place is its
    /// linearization point.
    #[inline(always)]
    pub fn try_push_back(
        &self,
        hand: &mut Hand<T>,
        value: T,
    ) -> Result<Placed<T>, GrowError<T, T, Never>>
        requires ours { IsHandOf self.now hand.old }
        ensures won { IfOk result (WonPlace self.now value hand.old hand.new) }
        ensures refused { IfErr result (Refuses self.now 1 value hand.old hand.new) }
        // Room that is missing by what the hand has seen is reported before memory is asked for.
        ensures full { HasNoRoom self.now 1 hand.old → IsErrAnd result SaysFull }
        // The history gets the claim of the place and its fill, or the event whose reply the refusal is.
        ensures logs { IfOk result (λ placed. LogsPush hand.old hand.new placed.place) }
        ensures logs_refusal { IfErr result (LogsRefusal 1 hand.old hand.new) }
    {
        let from = self.look_at_size(hand);
        self.push_at(hand, from, value)
    }

    /// Appends a value like `try_push_back`, but begins at the size that the hand has seen: it loads the size only if
    /// that leaves no room. So it wins the place that follows what the hand has seen, or none. After `Moved` the hand
    /// has seen the size that the exchange found, and the next try begins there.
    #[inline(always)]
    pub fn try_push_seen(
        &self,
        hand: &mut Hand<T>,
        value: T,
    ) -> Result<Placed<T>, GrowError<T, T, Never>>
        requires ours { IsHandOf self.now hand.old }
        ensures won { IfOk result (WonPlace self.now value hand.old hand.new) }
        ensures here { IfOk result (λ placed. placed.place ≡ seen_size hand.old) }
        ensures refused { IfErr result (Refuses self.now 1 value hand.old hand.new) }
        // Room that is missing by what the hand has seen is reported before memory is asked for.
        ensures full { HasNoRoom self.now 1 hand.old → IsErrAnd result SaysFull }
        // The history gets the claim of the place and its fill, or the event whose reply the refusal is.
        ensures logs { IfOk result (λ placed. LogsPush hand.old hand.new placed.place) }
        ensures logs_refusal { IfErr result (LogsRefusal 1 hand.old hand.new) }
    {
        let seen = hand.seen();
        self.push_at(hand, seen, value)
    }

    /// Tests whether there is room at the size that the hand has seen, and the hand has the key of the segment there.
    /// Then `try_push_seen` requests no memory.
    /// The hand does not learn the segments that `reserve` installs; a push there requests no memory either.
    #[inline(always)]
    pub fn knows_next(&self, hand: &Hand<T>) -> bool
        ensures room { IsTrue result → seen_size hand.now < limit_of self.now }
    {
        // For the proof: a place below the limit is in a segment.
        self.laws();
        places();
        let seen = hand.seen();
        if seen >= self.limit() {
            return false;
        }
        let (segment, _) = self.table.layout().locate(seen);
        key_of(&hand.keys, segment).is_some()
    }

    // One try to append a value at the size that the hand has seen. All that it reads of the segment it reads
    // before the exchange: what comes after a locked step waits for it.
    #[inline(always)]
    fn push_at(
        &self,
        hand: &mut Hand<T>,
        from: u64,
        value: T,
    ) -> Result<Placed<T>, GrowError<T, T, Never>>
        requires ours { IsHandOf self.now hand.old }
        requires seen { from ≡ seen_size hand.old }
        ensures won { IfOk result (WonPlace self.now value hand.old hand.new) }
        ensures here { IfOk result (λ placed. placed.place ≡ from) }
        ensures refused { IfErr result (Refuses self.now 1 value hand.old hand.new) }
        ensures full { HasNoRoom self.now 1 hand.old → IsErrAnd result SaysFull }
        ensures logs { IfOk result (λ placed. LogsPush hand.old hand.new placed.place) }
        ensures logs_refusal { IfErr result (LogsRefusal 1 hand.old hand.new) }
    {
        // For the proof: the hand keeps its places, and owns the one that it gains.
        self.laws();
        claiming_laws(&hand.claims);
        places();
        let limit = self.limit();
        if from >= limit {
            // The limit was reached before: a load logs the refusal in the history.
            let size = self.size_for(hand, 1);
            return Err(GrowError::Full { size, back: value });
        }
        let (segment, offset) = self.table.layout().locate(from);
        let Ok(key) = self.key_for(&mut hand.claims, &mut hand.keys, segment) else {
            self.word.log_no_memory(&mut hand.claims);
            return Err(GrowError::NoMemory { back: value });
        };
        let block = self.known_block(&key);
        match self.word.exchange_as::<Brand>(&mut hand.claims, from, 1) {
            Ok(_run) => Ok(self.fill_cell(&mut hand.claims, block, key, from, offset, value)),
            Err(Moved { size }) if size >= limit => Err(GrowError::Full { size, back: value }),
            Err(Moved { size }) => Err(GrowError::Moved { size, back: value }),
        }
    }

    /// Appends a value like `try_push_back`, if the size now lies in the segment of the size that the hand has seen.
    /// Otherwise it returns `Moved`; the hand has then seen the size now, and the next try is in its segment. The
    /// segment is found before the size is loaded. So next to nothing lies between that load and the exchange, and of
    /// several threads fewer lose their exchange.
    #[inline(always)]
    pub fn try_push_near(
        &self,
        hand: &mut Hand<T>,
        value: T,
    ) -> Result<Placed<T>, GrowError<T, T, Never>>
        requires ours { IsHandOf self.now hand.old }
        ensures won { IfOk result (WonPlace self.now value hand.old hand.new) }
        ensures refused { IfErr result (Refuses self.now 1 value hand.old hand.new) }
        // Room that is missing by what the hand has seen is reported before memory is asked for.
        ensures full { HasNoRoom self.now 1 hand.old → IsErrAnd result SaysFull }
        // The history gets the claim of the place and its fill, or the event whose reply the refusal is.
        ensures logs { IfOk result (λ placed. LogsPush hand.old hand.new placed.place) }
        ensures logs_refusal { IfErr result (LogsRefusal 1 hand.old hand.new) }
    {
        // For the proof: the hand keeps its places, and owns the one that it gains; a refusal is legal at the size.
        self.laws();
        claiming_laws(&hand.claims);
        places();
        laws::refusals_are_notes();
        let limit = self.limit();
        let seen = hand.seen();
        if seen >= limit {
            return self.push_at(hand, seen, value);
        }
        let layout = self.table.layout();
        let (segment, _) = layout.locate(seen);
        let Ok(key) = self.key_for(&mut hand.claims, &mut hand.keys, segment) else {
            self.word.log_no_memory(&mut hand.claims);
            return Err(GrowError::NoMemory { back: value });
        };
        let block = self.known_block(&key);
        let first = layout.first(segment);
        let from = self.word.size_as::<Brand>(&mut hand.claims);
        if from >= limit {
            return Err(GrowError::Full {
                size: from,
                back: value,
            });
        }
        let offset = from - first;
        if offset >= block.len() {
            return Err(GrowError::Moved {
                size: from,
                back: value,
            });
        }
        match self.word.exchange_as::<Brand>(&mut hand.claims, from, 1) {
            Ok(_run) => Ok(self.fill_cell(&mut hand.claims, block, key, from, offset, value)),
            Err(Moved { size }) if size >= limit => Err(GrowError::Full { size, back: value }),
            Err(Moved { size }) => Err(GrowError::Moved { size, back: value }),
        }
    }

    /// Appends a value like `try_push_back`, and retries if another caller was first.
    #[inline(always)]
    pub fn push_back<R: Wait>(
        &self,
        rt: &R,
        hand: &mut Hand<T>,
        mut value: T,
    ) -> Result<Placed<T>, GrowError<T, T, Never>>
        requires ours { IsHandOf self.now hand.old }
        ensures won { IfOk result (WonPlace self.now value hand.old hand.new) }
        ensures refused { IfErr result (Refuses self.now 1 value hand.old hand.new) }
        ensures full { HasNoRoom self.now 1 hand.old → IsErrAnd result SaysFull }
        ensures not_moved { IfErr result IsNotMoved }
        // The history gets the claim of the place and its fill, or the event whose reply the refusal is.
        ensures logs { IfOk result (λ placed. LogsPush hand.old hand.new placed.place) }
        ensures logs_refusal { IfErr result (LogsRefusal 1 hand.old hand.new) }
    {
        for _try in rt.forever() {
            match self.try_push_near(hand, value) {
                Ok(placed) => return Ok(placed),
                Err(GrowError::Moved { size: _, back }) => value = back,
                Err(refused) => return Err(refused),
            }
        }
        unreachable!()
    }
}
