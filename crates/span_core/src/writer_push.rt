//! How a writer appends values one by one, and gets room for growths to come.
ghost use Rattle.std.specs.Prelude.{◌≡◌, ◌<◌, ◌↔◌, IfOk, IfErr, IsErrAnd, IsErrOf, IsTrue};
ghost use Rattle.std.specs.Iterator.{IsFinite};
ghost use Rattle.claim_core.specs.Hand.{seen_size};
ghost use Rattle.grow_core.specs.Vector.{limit_of};
ghost use Rattle.grow_core.specs.Growth.{WonPlace, Refuses, HasNoRoom, SaysFull, IsNotMoved};
ghost use Rattle.grow_core.specs.Logs.{LogsPush, LogsRefusal};
ghost use Rattle.span_core.specs.Writer.{AppendsAll, StopsAppending, LogsPushes, StopsPushing};

use crate::tie::Tie;
use crate::writer::Writer;
use grow_core::{GrowError, Never, Placed, ReserveError, laws};
use std::sync::Wait;

impl<'a, T: Drop, B: Tie> Writer<'a, T, B> {
    /// Appends a value. It begins at the size that the hand has seen, and retries if another caller was first.
    #[inline(always)]
    pub fn push_back<R: Wait>(
        &mut self,
        rt: &R,
        value: T,
    ) -> Result<Placed<T>, GrowError<T, T, Never>>
        ensures won { IfOk result (WonPlace self.old.vector value self.old.hand self.new.hand) }
        ensures refused { IfErr result
            (Refuses self.old.vector 1 value self.old.hand self.new.hand) }
        // Room that is missing by what the hand has seen is reported before memory is asked for.
        ensures full { HasNoRoom self.old.vector 1 self.old.hand → IsErrAnd result SaysFull }
        ensures not_moved { IfErr result IsNotMoved }
        // The history gets the claim of the place and its fill, or the event whose reply the refusal is.
        ensures logs { IfOk result
            (λ placed. LogsPush self.old.hand self.new.hand placed.place) }
        ensures logs_refusal { IfErr result
            (LogsRefusal 1 self.old.hand self.new.hand) }
        ensures vector { self.new.vector ≡ self.old.vector }
    {
        let vector = self.vector;
        vector.push_back(rt, &mut self.hand, value)
    }

    /// Appends a value. It tries once, and waits for nobody.
    #[inline(always)]
    pub fn try_push_back(&mut self, value: T) -> Result<Placed<T>, GrowError<T, T, Never>>
        ensures won { IfOk result (WonPlace self.old.vector value self.old.hand self.new.hand) }
        ensures refused { IfErr result
            (Refuses self.old.vector 1 value self.old.hand self.new.hand) }
        // Room that is missing by what the hand has seen is reported before memory is asked for.
        ensures full { HasNoRoom self.old.vector 1 self.old.hand → IsErrAnd result SaysFull }
        // The history gets the claim of the place and its fill, or the event whose reply the refusal is.
        ensures logs { IfOk result
            (λ placed. LogsPush self.old.hand self.new.hand placed.place) }
        ensures logs_refusal { IfErr result
            (LogsRefusal 1 self.old.hand self.new.hand) }
        ensures vector { self.new.vector ≡ self.old.vector }
    {
        let vector = self.vector;
        vector.try_push_back(&mut self.hand, value)
    }

    /// Appends a value like `try_push_back`, but begins at the size that the hand has seen: it loads the size only if
    /// that leaves no room. So it wins the place that follows what the hand has seen, or none.
    #[inline(always)]
    pub fn try_push_seen(&mut self, value: T) -> Result<Placed<T>, GrowError<T, T, Never>>
        ensures won { IfOk result (WonPlace self.old.vector value self.old.hand self.new.hand) }
        ensures here { IfOk result (λ placed. placed.place ≡ seen_size self.old.hand) }
        ensures refused { IfErr result
            (Refuses self.old.vector 1 value self.old.hand self.new.hand) }
        // Room that is missing by what the hand has seen is reported before memory is asked for.
        ensures full { HasNoRoom self.old.vector 1 self.old.hand → IsErrAnd result SaysFull }
        // The history gets the claim of the place and its fill, or the event whose reply the refusal is.
        ensures logs { IfOk result
            (λ placed. LogsPush self.old.hand self.new.hand placed.place) }
        ensures logs_refusal { IfErr result
            (LogsRefusal 1 self.old.hand self.new.hand) }
        ensures vector { self.new.vector ≡ self.old.vector }
    {
        let vector = self.vector;
        vector.try_push_seen(&mut self.hand, value)
    }

    /// Appends a value like `try_push_back`, if the size now lies in the segment of the size that the hand has seen.
    /// Otherwise it returns `Moved`, and the next try is in the segment of the size now. Of several threads fewer lose
    /// their exchange.
    #[inline(always)]
    pub fn try_push_near(&mut self, value: T) -> Result<Placed<T>, GrowError<T, T, Never>>
        ensures won { IfOk result (WonPlace self.old.vector value self.old.hand self.new.hand) }
        ensures refused { IfErr result
            (Refuses self.old.vector 1 value self.old.hand self.new.hand) }
        // Room that is missing by what the hand has seen is reported before memory is asked for.
        ensures full { HasNoRoom self.old.vector 1 self.old.hand → IsErrAnd result SaysFull }
        // The history gets the claim of the place and its fill, or the event whose reply the refusal is.
        ensures logs { IfOk result
            (λ placed. LogsPush self.old.hand self.new.hand placed.place) }
        ensures logs_refusal { IfErr result
            (LogsRefusal 1 self.old.hand self.new.hand) }
        ensures vector { self.new.vector ≡ self.old.vector }
    {
        let vector = self.vector;
        vector.try_push_near(&mut self.hand, value)
    }

    /// Tests whether there is room at the size that the hand has seen, and the hand has the key of the segment there.
    /// Then `try_push_seen` requests no memory.
    /// The hand does not learn the segments that `reserve` installs; a push there requests no memory either.
    #[inline(always)]
    pub fn knows_next(&self) -> bool
        ensures room { IsTrue result → seen_size self.now.hand < limit_of self.now.vector }
    {
        let vector = self.vector;
        vector.knows_next(&self.hand)
    }

    /// Installs the segments of the first `n` places, in all, unless they are there: growths up to that size then ask
    /// for no memory. It claims nothing, and looks at no size. If memory is refused, the segments that it has installed
    /// stay.
    pub fn reserve(&mut self, n: u64) -> Result<(), ReserveError>
        // The limit is looked at before memory is asked for.
        ensures too_long { IsErrOf result ReserveError.TooLong ↔ (limit_of self.old.vector < n) }
        // It logs nothing, and the hand has seen what it had seen.
        ensures unchanged { self.new ≡ self.old }
    {
        let vector = self.vector;
        vector.reserve(&mut self.hand, n)
    }

    /// Appends the items of an iterator one by one, like `push_back`, and returns their number. If one is
    /// refused, the iterator is not asked again, and the number of the items before that one comes back with
    /// the refusal.
    pub fn push_all<R: Wait, I: Iterator<Item = T> + Drop>(
        &mut self,
        rt: &R,
        items: I,
    ) -> Result<u64, (u64, GrowError<T, T, Never>)>
        requires can { I.can_next items }
        requires ends { IsFinite (I.remaining items) }
        ensures appended { IfOk result (AppendsAll I.next_gives items self.old.hand self.new.hand) }
        ensures stopped { IfErr result
            (StopsAppending I.next_gives items self.old.vector self.old.hand self.new.hand) }
        ensures not_moved { IfErr result (λ (_, refused). IsNotMoved refused) }
        // The history gets the claim and the fill of each place, in order; and then the event of the refusal.
        ensures logs { IfOk result (LogsPushes self.old.hand self.new.hand) }
        ensures logs_refusal { IfErr result
            (StopsPushing self.old.vector self.old.hand self.new.hand) }
        ensures vector { self.new.vector ≡ self.old.vector }
    {
        // For the proof: a hand that wins a place owns one more.
        laws::added_places_add_up();
        let mut n = 0;
        for item in items {
            // For the proof: the hand owns no more places than the vector may have.
            self.vector().laws();
            self.hand().laws();
            match self.push_back(rt, item) {
                Ok(_placed) => n += 1,
                Err(refused) => return Err((n, refused)),
            }
        }
        Ok(n)
    }
}
