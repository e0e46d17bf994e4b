//! The calls on a handle that read.
ghost use Rattle.std.specs.Prelude.{◌≡◌, ◌<◌, ℕ, List, IfOk, IfErr, OnErr, IsOkAnd, IsSomeAnd, length};
ghost use Rattle.claim_core.specs.Hand.{seen_size};
ghost use Rattle.grow_core.specs.Vector.{limit_of};
ghost use Rattle.caller_core.specs.Grows.{AreSideBySide};
ghost use Rattle.handle_core.specs.Held.{Keeps, OnHeld, OnHand};
ghost use Rattle.handle_core.specs.Calls.{HasLastValue, IsDueIn, IsDueOn, IsCopyDueOn, AtDue, LookDue, StatesDue};

use crate::contents;
use crate::handle::Handle;
use crate::status::Status;

impl Handle {
    /// Copies the value at a place. The hand's own last place has its value.
    #[inline(always)]
    #[tactic(auto, using(crate::proofs::Refused::due_in, crate::proofs::Refused::due_empty))]
    pub fn copy(&mut self, place: u64, value: &mut [u64]) -> Result<(), Status>
        ensures own { (x : List ℕ) → IsSomeAnd self.old.owned.held
            (HasLastValue (length value.old) place x) → IsOkAnd result (λ _. value.new ≡ x) }
        ensures refused { IfErr result
            (IsDueIn (IsCopyDueOn (AtDue place (length value.old))) self.new.owned.held) }
        ensures unchanged { OnErr result (value.new ≡ value.old) }
        ensures kept { Keeps self.old.owned.held self.new.owned.held }
    {
        if self.is_empty() {
            return Err(Status::BadHandle);
        }
        let held = self.owned.held_mut();
        contents::copy(held, place, value)
    }

    /// Returns the address of the value at a place.
    #[inline(always)]
    #[tactic(auto, using(crate::proofs::Refused::due_in, crate::proofs::Refused::due_empty))]
    pub fn look(&mut self, place: u64) -> Result<*mut u64, Status>
        ensures below { IfOk result (λ _. OnHeld
            (OnHand (λ T caller. place < seen_size caller.hand)) self.new.owned.held) }
        ensures refused { IfErr result (IsDueIn (IsDueOn (LookDue place)) self.new.owned.held) }
        ensures kept { Keeps self.old.owned.held self.new.owned.held }
    {
        if self.is_empty() {
            return Err(Status::BadHandle);
        }
        let held = self.owned.held_mut();
        contents::look(held, place)
    }

    /// Returns the address of the words with the states of a place's segment, if that is there: four bits a place.
    #[tactic(auto, using(crate::proofs::Refused::due_in, crate::proofs::Refused::due_empty))]
    pub fn states(&mut self, place: u64) -> Result<*mut u64, Status>
        ensures within { IfOk result (λ _. OnHeld
            (OnHand (λ T caller. place < limit_of caller.vector)) self.old.owned.held) }
        ensures refused { IfErr result (IsDueIn (IsDueOn StatesDue) self.old.owned.held) }
        ensures kept { self.new.owned.held ≡ self.old.owned.held }
    {
        if self.is_empty() {
            return Err(Status::BadHandle);
        }
        let held = self.owned.held_mut();
        contents::states(held, place)
    }

    /// Returns the address of the value at a place, and the number of filled ones that lie there side by side.
    #[tactic(auto, using(crate::proofs::Refused::due_in, crate::proofs::Refused::due_empty))]
    pub fn run(&mut self, place: u64) -> Result<(*mut u64, u64), Status>
        ensures run { IfOk result (λ (_, n). OnHeld
            (OnHand (λ T caller. AreSideBySide caller.vector place n)) self.old.owned.held) }
        ensures refused { IfErr result (IsDueIn (IsDueOn (LookDue place)) self.new.owned.held) }
        ensures kept { Keeps self.old.owned.held self.new.owned.held }
    {
        if self.is_empty() {
            return Err(Status::BadHandle);
        }
        let held = self.owned.held_mut();
        contents::run(held, place)
    }
}
