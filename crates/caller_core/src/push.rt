//! How a caller appends one value.
ghost use Rattle.std.specs.Prelude.{◌≡◌, ◌<◌, IfOk, IfErr, OnErr, IsErrAnd, IsTrue};
ghost use Rattle.claim_core.specs.Hand.{seen_size};
ghost use Rattle.grow_core.specs.Vector.{limit_of};
ghost use Rattle.grow_core.specs.Growth.{Refuses, HasNoRoom, SaysFull};
ghost use Rattle.grow_core.specs.Logs.{LogsPush, LogsRefusal};
ghost use Rattle.caller_core.specs.Caller.{KeepsCaller, Pushes};

use crate::caller::Caller;
use grow_core::{GrowError, Never};

impl<T: Drop> Caller<T> {
    /// Appends a value and returns its place. It tries once, at the size now, and returns `Moved` if that lies in another
    /// segment than the size that the hand has seen.
    #[inline(always)]
    pub fn push(&mut self, value: T) -> Result<u64, GrowError<T, T, Never>>
        ensures pushed { IfOk result (Pushes value self.old self.new) }
        ensures refused { IfErr result
            (Refuses self.old.vector 1 value self.old.hand self.new.hand) }
        ensures full { HasNoRoom self.old.vector 1 self.old.hand → IsErrAnd result SaysFull }
        // The history gets the claim of the place and its fill, or the event whose reply the refusal is.
        ensures logs { IfOk result (LogsPush self.old.hand self.new.hand) }
        ensures logs_refusal { IfErr result (LogsRefusal 1 self.old.hand self.new.hand) }
        ensures kept { KeepsCaller self.old self.new }
        ensures last { OnErr result (self.new.last ≡ self.old.last) }
    {
        let placed = self.hub.vector.try_push_near(&mut self.hand, value)?;
        let place = placed.place();
        self.last = Some(placed);
        Ok(place)
    }

    /// Tests whether the next push has room and a segment, by what the hand has seen. Then it requests no memory.
    #[inline(always)]
    pub fn knows_next(&self) -> bool
        ensures room { IsTrue result → seen_size self.now.hand < limit_of self.now.vector }
    {
        self.hub.vector.knows_next(&self.hand)
    }
}
