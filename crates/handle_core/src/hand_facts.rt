//! The calls on a handle that say what its hand knows, and the one that makes room.
ghost use Rattle.std.specs.Prelude.{◌≡◌, IfOk, IfErr, OnOk};
ghost use Rattle.claim_core.specs.Hand.{SeesSize, seen_size};
ghost use Rattle.grow_core.specs.Vector.{limit_of};
ghost use Rattle.handle_core.specs.Held.{Keeps, OnBoth, OnHeld, OnHand, OnHands, IsHand, width_of};
ghost use Rattle.handle_core.specs.Calls.{IsDueIn, IsDueOn, NeverDue, RoomDue};

use crate::contents;
use crate::facts::HandFacts;
use crate::handle::Handle;
use crate::status::Status;

impl Handle {
    /// Returns what a hand knows. It loads nothing.
    #[tactic(auto, using(crate::proofs::Refused::due_in, crate::proofs::Refused::due_empty))]
    pub fn hand_facts(&mut self) -> Result<HandFacts, Status>
        ensures shares { IfOk result (λ facts. OnHeld
            (OnHand (λ T caller. facts.shares ≡ caller.hand.shares)) self.old.owned.held) }
        ensures seen { IfOk result (λ facts. OnHeld
            (OnHand (λ T caller. facts.seen ≡ seen_size caller.hand)) self.old.owned.held) }
        ensures limit { IfOk result (λ facts. OnHeld
            (OnHand (λ T caller. facts.limit ≡ limit_of caller.vector)) self.old.owned.held) }
        ensures words { IfOk result (λ facts. OnHeld
            (λ held. facts.words ≡ width_of held) self.old.owned.held) }
        ensures refused { IfErr result (IsDueIn (IsDueOn NeverDue) self.old.owned.held) }
        ensures kept { self.new.owned.held ≡ self.old.owned.held }
    {
        if self.is_empty() {
            return Err(Status::BadHandle);
        }
        let held = self.owned.held_mut();
        contents::facts(held)
    }

    /// Loads the size.
    #[inline(always)]
    #[tactic(auto, using(crate::proofs::Refused::due_in, crate::proofs::Refused::due_empty))]
    pub fn size(&mut self) -> Result<u64, Status>
        ensures seen { IfOk result (λ size. OnBoth (OnHands
            (λ T old new. SeesSize old.hand new.hand size)) self.old.owned.held self.new.owned.held) }
        ensures refused { IfErr result (IsDueIn (IsDueOn NeverDue) self.new.owned.held) }
        ensures kept { Keeps self.old.owned.held self.new.owned.held }
    {
        if self.is_empty() {
            return Err(Status::BadHandle);
        }
        let held = self.owned.held_mut();
        contents::size(held)
    }

    /// Returns an address that is the same for all hands of a vector, and another for each other open vector.
    #[tactic(auto, using(crate::proofs::Refused::due_in, crate::proofs::Refused::due_empty))]
    pub fn address(&mut self) -> Result<*mut u64, Status>
        ensures hand { OnOk result (OnHeld IsHand self.old.owned.held) }
        ensures refused { IfErr result (IsDueIn (IsDueOn NeverDue) self.old.owned.held) }
        ensures kept { self.new.owned.held ≡ self.old.owned.held }
    {
        if self.is_empty() {
            return Err(Status::BadHandle);
        }
        let held = self.owned.held_mut();
        contents::address(held)
    }

    /// Makes room for a number of places in all.
    #[tactic(auto, using(crate::proofs::Refused::due_in, crate::proofs::Refused::due_empty))]
    pub fn reserve(&mut self, size: u64) -> Result<(), Status>
        ensures hand { OnOk result (OnHeld IsHand self.old.owned.held) }
        ensures refused { IfErr result (IsDueIn (IsDueOn (RoomDue size)) self.new.owned.held) }
        ensures kept { Keeps self.old.owned.held self.new.owned.held }
    {
        if self.is_empty() {
            return Err(Status::BadHandle);
        }
        let held = self.owned.held_mut();
        contents::reserve(held, size)
    }
}
