//! How a caller fills a broken place, and makes room for growths to come.
ghost use Rattle.std.specs.Prelude.{◌≡◌, ◌<◌, ◌↔◌, IfErr, OnOk, OnErr, IsErrOf};
ghost use Rattle.claim_core.specs.Hand.{seen_size};
ghost use Rattle.grow_core.specs.Vector.{limit_of};
ghost use Rattle.claim_core.specs.History.{Adds};
ghost use Rattle.grow_core.specs.Logs.{LogsNoMend, mend_steps};
ghost use Rattle.grow_core.specs.Mend.{IsMendDue, IsSeen};
ghost use Rattle.caller_core.specs.Caller.{KeepsCaller};
ghost use Rattle.caller_core.specs.Grows.{Mends};

use crate::caller::Caller;
use grow_core::{MendError, ReserveError};

impl<T: Drop> Caller<T> {
    /// Fills a broken place.
    pub fn mend(&mut self, place: u64, value: T) -> Result<(), (MendError<T>, T)>
        ensures mended { OnOk result (Mends place value self.old self.new) }
        ensures refused { IfErr result
            (λ (error, _). IsMendDue self.old.vector place self.old.hand self.new.hand error) }
        ensures value_back { IfErr result (λ (_, back). back ≡ value) }
        ensures in_range { place < seen_size self.old.hand
            → IfErr result (λ (error, _). IsSeen error) }
        // The history gets the look at a place that is not below the size, the mend and its fill, or the look that found the
        // place pending or filled.
        ensures mends { OnOk result
            (Adds self.old.hand.log (mend_steps (limit_of self.old.vector) place) self.new.hand.log) }
        ensures mends_refusal { IfErr result (LogsNoMend place self.old.hand self.new.hand) }
        ensures kept { KeepsCaller self.old self.new }
        ensures last { OnErr result (self.new.last ≡ self.old.last) }
    {
        match self.hub.vector.mend(&mut self.hand, place, value) {
            Ok(placed) => {
                self.last = Some(placed);
                Ok(())
            }
            Err(refused) => Err(refused),
        }
    }

    /// Installs the segments of the first `n` places, in all.
    pub fn reserve(&mut self, n: u64) -> Result<(), ReserveError>
        ensures too_long { IsErrOf result ReserveError.TooLong ↔ (limit_of self.old.vector < n) }
        ensures unchanged { self.new ≡ self.old }
    {
        self.hub.vector.reserve(&mut self.hand, n)
    }
}
