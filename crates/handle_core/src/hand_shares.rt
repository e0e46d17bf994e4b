//! The calls on handles that cut a hand in two, put hands together, close a vector and open a list.
ghost use Rattle.std.specs.Prelude.{◌≡◌, None, IfErr, OnOk, OnErr};
ghost use Rattle.handle_core.specs.Held.{OnBoth};
ghost use Rattle.handle_core.specs.Calls.{AreOfOneVector, SplitsFrom, JoinsInto};
ghost use Rattle.handle_core.specs.Calls.{IsDueOn, IsDueOrFull, IsJoinDue, SplitDue, CloseDue};
ghost use Rattle.handle_core.specs.Lists.{ClosesHeld, OpensHeld, KeepsList, IsDueOnList, MemoryDue};

use crate::handle::Handle;
use crate::moves;
use crate::status::Status;
use std::alloc::Global;

impl Handle {
    /// Moves shares of a hand, not all, into a new one, which another handle gets.
    #[tactic(auto, using(crate::proofs::Refused::due_split))]
    pub fn split(&mut self, alloc: Global, shares: u32, other: &mut Handle) -> Result<(), Status>
        ensures split { OnOk result (SplitsFrom shares
            self.old.owned.held self.new.owned.held other.new.owned.held) }
        ensures refused { IfErr result (IsDueOrFull (IsDueOn (SplitDue shares))
            other.old.owned.held self.old.owned.held) }
        ensures kept { OnErr result (self.new.owned.held ≡ self.old.owned.held) }
        ensures other_kept { OnErr result (other.new ≡ other.old) }
    {
        if other.is_full() {
            return Err(Status::BadHandle);
        }
        if self.is_empty() {
            return Err(Status::BadHandle);
        }
        let held = self.owned.held_mut();
        let answer = moves::split(alloc, held, shares);
        match answer {
            Ok(more) => {
                *other = Handle::of(more);
                Ok(())
            }
            Err(status) => Err(status),
        }
    }

    /// Joins another hand of the same vector into a hand.
    #[tactic(auto, using(crate::proofs::Refused::due_joined))]
    pub fn join(&mut self, alloc: Global, other: &mut Handle) -> Result<(), Status>
        requires same { AreOfOneVector self.old.owned.held other.old.owned.held }
        ensures joined { OnOk result
            (JoinsInto self.old.owned.held other.old.owned.held self.new.owned.held) }
        ensures ended { OnOk result (other.new.owned.held ≡ None) }
        ensures refused { IfErr result (IsJoinDue self.old.owned.held other.old.owned.held) }
        ensures kept { OnErr result (self.new.owned.held ≡ self.old.owned.held) }
        ensures other_kept { OnErr result (other.new.owned.held ≡ other.old.owned.held) }
    {
        if self.is_empty() {
            return Err(Status::BadHandle);
        }
        let held = self.owned.held_mut();
        let Some(mut more) = other.take(alloc) else {
            return Err(Status::BadHandle);
        };
        let answer = moves::join(held, &mut more);
        match answer {
            Ok(()) => Ok(()),
            Err(status) => {
                *other = Handle::of(more);
                Err(status)
            }
        }
    }

    /// Closes the vector of a hand into a list. The hand's box becomes the list's, so it takes no memory.
    #[tactic(auto, using(crate::proofs::Refused::due_split))]
    pub fn close(&mut self, alloc: Global, list: &mut Handle) -> Result<(), Status>
        ensures closed { OnOk result (OnBoth ClosesHeld self.old.owned.held list.new.owned.held) }
        ensures ended { OnOk result (self.new.owned.held ≡ None) }
        ensures refused { IfErr result (IsDueOrFull (IsDueOn CloseDue)
            list.old.owned.held self.old.owned.held) }
        ensures kept { OnErr result (self.new.owned.held ≡ self.old.owned.held) }
        ensures list_kept { OnErr result (list.new ≡ list.old) }
    {
        if list.is_full() {
            return Err(Status::BadHandle);
        }
        let Some(mut held) = self.take(alloc) else {
            return Err(Status::BadHandle);
        };
        match moves::close(&mut held) {
            Ok(()) => {
                *list = Handle::of(held);
                Ok(())
            }
            Err(status) => {
                *self = Handle::of(held);
                Err(status)
            }
        }
    }

    /// Opens a list into a vector again. Its first hand has all shares. Without memory the list keeps its values.
    #[tactic(auto, using(crate::proofs::Refused::due_split))]
    pub fn open_list(&mut self, alloc: Global, hand: &mut Handle) -> Result<(), Status>
        ensures opened { OnOk result (OnBoth OpensHeld self.old.owned.held hand.new.owned.held) }
        ensures ended { OnOk result (self.new.owned.held ≡ None) }
        ensures refused { IfErr result (IsDueOrFull (IsDueOnList MemoryDue)
            hand.old.owned.held self.old.owned.held) }
        ensures kept { OnErr result (KeepsList self.old.owned.held self.new.owned.held) }
        ensures hand_kept { OnErr result (hand.new ≡ hand.old) }
    {
        if hand.is_full() {
            return Err(Status::BadHandle);
        }
        let Some(mut held) = self.take(alloc) else {
            return Err(Status::BadHandle);
        };
        match moves::open_list(alloc, &mut held) {
            Ok(()) => {
                *hand = Handle::of(held);
                Ok(())
            }
            Err(status) => {
                *self = Handle::of(held);
                Err(status)
            }
        }
    }
}
