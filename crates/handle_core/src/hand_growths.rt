//! The calls on a handle that append, break and mend.
ghost use Rattle.std.specs.Prelude.{IfOk, IfErr, OnOk, length};
ghost use Rattle.handle_core.specs.Held.{Keeps, OnBoth};
ghost use Rattle.handle_core.specs.Status.{IfDone, IfRefused};
ghost use Rattle.handle_core.specs.Calls.{PushesWords, GrowsByWords, GrowsByCopies, GrowsUpToWords, WinsPlacesOf, MendsWords};
ghost use Rattle.handle_core.specs.Calls.{IsDueIn, IsDueOn, PushDue, GrowDue, FillDue, AtLeastDue, LeaveDue, MendsDue};

use crate::contents;
use crate::handle::Handle;
use crate::status::Status;

impl Handle {
    /// Appends the element that these words make, and writes its place. It tries three times. It returns `DONE`, or the
    /// number of a status: what it passes on and returns goes through no memory.
    #[inline(always)]
    #[tactic(auto, using(crate::proofs::Refused::due_number, crate::proofs::Codes::refusals))]
    pub fn push(&mut self, words: &[u64], place: &mut u64) -> i32
        ensures pushed { IfDone result (OnBoth
            (PushesWords words.now place.new) self.old.owned.held self.new.owned.held) }
        ensures refused { IfRefused result
            (IsDueIn (IsDueOn (PushDue (length words.now))) self.new.owned.held) }
        ensures kept { Keeps self.old.owned.held self.new.owned.held }
    {
        if self.is_empty() {
            return Status::BadHandle.code();
        }
        let held = self.owned.held_mut();
        contents::push(held, words, place)
    }

    /// Appends the elements that these words make, and returns the place of the first one. It tries once.
    #[tactic(auto, using(crate::proofs::Refused::due_in, crate::proofs::Refused::due_empty))]
    pub fn grow(&mut self, words: &[u64]) -> Result<u64, Status>
        ensures grown { IfOk result (λ place.
            OnBoth (GrowsByWords words.now place) self.old.owned.held self.new.owned.held) }
        ensures refused { IfErr result
            (IsDueIn (IsDueOn (GrowDue (length words.now))) self.new.owned.held) }
        ensures kept { Keeps self.old.owned.held self.new.owned.held }
    {
        if self.is_empty() {
            return Err(Status::BadHandle);
        }
        let held = self.owned.held_mut();
        contents::grow(held, words)
    }

    /// Appends copies of the element that these words make, and returns the place of the first one. It tries once.
    #[tactic(auto, using(crate::proofs::Refused::due_in, crate::proofs::Refused::due_empty))]
    pub fn fill(&mut self, words: &[u64], count: u64) -> Result<u64, Status>
        ensures grown { IfOk result (λ place.
            OnBoth (GrowsByCopies count words.now place) self.old.owned.held self.new.owned.held) }
        ensures refused { IfErr result
            (IsDueIn (IsDueOn (FillDue count (length words.now))) self.new.owned.held) }
        ensures kept { Keeps self.old.owned.held self.new.owned.held }
    {
        if self.is_empty() {
            return Err(Status::BadHandle);
        }
        let held = self.owned.held_mut();
        contents::fill(held, words, count)
    }

    /// Appends what is missing up to a size, and returns the place of the first one and how many there are.
    #[tactic(auto, using(crate::proofs::Refused::due_in, crate::proofs::Refused::due_empty))]
    pub fn at_least(&mut self, size: u64, words: &[u64]) -> Result<(u64, u64), Status>
        ensures grown { IfOk result (λ (place, n).
            OnBoth (GrowsUpToWords size words.now place n) self.old.owned.held self.new.owned.held) }
        ensures refused { IfErr result
            (IsDueIn (IsDueOn (AtLeastDue size (length words.now))) self.new.owned.held) }
        ensures kept { Keeps self.old.owned.held self.new.owned.held }
    {
        if self.is_empty() {
            return Err(Status::BadHandle);
        }
        let held = self.owned.held_mut();
        contents::at_least(held, size, words)
    }

    /// Claims places and breaks them, and returns the first one. It tries once.
    #[tactic(auto, using(crate::proofs::Refused::due_in, crate::proofs::Refused::due_empty))]
    pub fn leave(&mut self, count: u64) -> Result<u64, Status>
        ensures broken { IfOk result (λ place.
            OnBoth (WinsPlacesOf count place) self.old.owned.held self.new.owned.held) }
        ensures refused { IfErr result (IsDueIn (IsDueOn (LeaveDue count)) self.new.owned.held) }
        ensures kept { Keeps self.old.owned.held self.new.owned.held }
    {
        if self.is_empty() {
            return Err(Status::BadHandle);
        }
        let held = self.owned.held_mut();
        contents::leave(held, count)
    }

    /// Fills a broken place.
    #[tactic(auto, using(crate::proofs::Refused::due_in, crate::proofs::Refused::due_empty))]
    pub fn mend(&mut self, place: u64, words: &[u64]) -> Result<(), Status>
        ensures mended { OnOk result
            (OnBoth (MendsWords place words.now) self.old.owned.held self.new.owned.held) }
        ensures refused { IfErr result
            (IsDueIn (IsDueOn (MendsDue place (length words.now))) self.new.owned.held) }
        ensures kept { Keeps self.old.owned.held self.new.owned.held }
    {
        if self.is_empty() {
            return Err(Status::BadHandle);
        }
        let held = self.owned.held_mut();
        contents::mend(held, place, words)
    }
}
