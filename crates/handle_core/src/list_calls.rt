//! The calls on the handle of a list.
ghost use Rattle.std.specs.Prelude.{◌≡◌, IfOk, IfErr, OnOk, OnErr, length};
ghost use Rattle.handle_core.specs.Held.{OnBoth, OnHeld, OnList, OnLists, width_of};
ghost use Rattle.handle_core.specs.Calls.{IsDueIn};
ghost use Rattle.handle_core.specs.Lists.{HasMember, HasValueAt, AreMembersOf, SetsWords, CutsList, ShrinksList};
ghost use Rattle.handle_core.specs.Lists.{IsDueOnList, IsCopyDueOnList, GetDue, ListCopyDue, ListSetDue, ListLookDue};
ghost use Rattle.handle_core.specs.Lists.{NeverDueOfList};

use crate::facts::ListFacts;
use crate::handle::Handle;
use crate::list_contents;
use crate::status::Status;

impl Handle {
    /// Returns how long a list is, and its limit.
    #[tactic(auto, using(crate::proofs::Refused::due_in, crate::proofs::Refused::due_empty))]
    pub fn list_facts(&mut self) -> Result<ListFacts, Status>
        ensures size { IfOk result (λ facts. OnHeld
            (OnList (λ T list. facts.size ≡ length list.members)) self.old.owned.held) }
        ensures limit { IfOk result (λ facts. OnHeld
            (OnList (λ T list. facts.limit ≡ list.limit)) self.old.owned.held) }
        ensures words { IfOk result (λ facts. OnHeld
            (λ held. facts.words ≡ width_of held) self.old.owned.held) }
        ensures refused { IfErr result (IsDueIn (IsDueOnList NeverDueOfList) self.old.owned.held) }
        ensures kept { self.new.owned.held ≡ self.old.owned.held }
    {
        if self.is_empty() {
            return Err(Status::BadHandle);
        }
        let held = self.owned.held_mut();
        list_contents::facts(held)
    }

    /// Copies the member at a place.
    #[tactic(auto, using(crate::proofs::Refused::due_in, crate::proofs::Refused::due_empty))]
    pub fn copy_member(&mut self, place: u64, value: &mut [u64]) -> Result<(), Status>
        ensures value { OnOk result (OnHeld (HasMember place value.new) self.old.owned.held) }
        ensures refused { IfErr result
            (IsDueIn (IsCopyDueOnList (GetDue place (length value.old))) self.old.owned.held) }
        ensures unchanged { OnErr result (value.new ≡ value.old) }
        ensures kept { self.new.owned.held ≡ self.old.owned.held }
    {
        if self.is_empty() {
            return Err(Status::BadHandle);
        }
        let held = self.owned.held_mut();
        list_contents::copy(held, place, value)
    }

    /// Replaces the member at a place, or mends it.
    #[tactic(auto, using(crate::proofs::Refused::due_in, crate::proofs::Refused::due_empty))]
    pub fn set_member(&mut self, place: u64, words: &[u64]) -> Result<(), Status>
        ensures set { OnOk result
            (OnBoth (SetsWords place words.now) self.old.owned.held self.new.owned.held) }
        ensures refused { IfErr result
            (IsDueIn (IsDueOnList (ListSetDue place (length words.now))) self.old.owned.held) }
        ensures kept { OnErr result (self.new.owned.held ≡ self.old.owned.held) }
    {
        if self.is_empty() {
            return Err(Status::BadHandle);
        }
        let held = self.owned.held_mut();
        list_contents::set(held, place, words)
    }

    /// Copies members side by side from a place on until the array is full, or copies none.
    #[tactic(auto, using(crate::proofs::Refused::due_in, crate::proofs::Refused::due_empty))]
    pub fn copy_members(&mut self, place: u64, values: &mut [u64]) -> Result<(), Status>
        ensures copied { OnOk result (OnHeld (AreMembersOf place values.new) self.old.owned.held) }
        ensures refused { IfErr result
            (IsDueIn (IsCopyDueOnList (ListCopyDue place (length values.old))) self.old.owned.held) }
        ensures unchanged { OnErr result (values.new ≡ values.old) }
        ensures kept { self.new.owned.held ≡ self.old.owned.held }
    {
        if self.is_empty() {
            return Err(Status::BadHandle);
        }
        let held = self.owned.held_mut();
        list_contents::copy_all(held, place, values)
    }

    /// Returns the address of the member at a place.
    #[tactic(auto, using(crate::proofs::Refused::due_in, crate::proofs::Refused::due_empty))]
    pub fn look_at_member(&mut self, place: u64) -> Result<*mut u64, Status>
        ensures there { OnOk result (OnHeld (HasValueAt place) self.old.owned.held) }
        ensures refused { IfErr result
            (IsDueIn (IsDueOnList (ListLookDue place)) self.old.owned.held) }
        ensures kept { self.new.owned.held ≡ self.old.owned.held }
    {
        if self.is_empty() {
            return Err(Status::BadHandle);
        }
        let held = self.owned.held_mut();
        list_contents::look(held, place)
    }

    /// Drops the members from a place on. Their memory stays.
    #[tactic(auto, using(crate::proofs::Refused::due_in, crate::proofs::Refused::due_empty))]
    pub fn cut(&mut self, size: u64) -> Result<(), Status>
        ensures cut { OnOk result (OnBoth
            (OnLists (λ T old new. CutsList size old new)) self.old.owned.held self.new.owned.held) }
        ensures refused { IfErr result (IsDueIn (IsDueOnList NeverDueOfList) self.old.owned.held) }
        ensures kept { OnErr result (self.new.owned.held ≡ self.old.owned.held) }
    {
        if self.is_empty() {
            return Err(Status::BadHandle);
        }
        let held = self.owned.held_mut();
        list_contents::cut(held, size)
    }

    /// Frees the segments that have no member.
    #[tactic(auto, using(crate::proofs::Refused::due_in, crate::proofs::Refused::due_empty))]
    pub fn shrink(&mut self) -> Result<(), Status>
        ensures shrunk { OnOk result (OnBoth
            (OnLists (λ T old new. ShrinksList old new)) self.old.owned.held self.new.owned.held) }
        ensures refused { IfErr result (IsDueIn (IsDueOnList NeverDueOfList) self.old.owned.held) }
        ensures kept { OnErr result (self.new.owned.held ≡ self.old.owned.held) }
    {
        if self.is_empty() {
            return Err(Status::BadHandle);
        }
        let held = self.owned.held_mut();
        list_contents::shrink(held)
    }
}
