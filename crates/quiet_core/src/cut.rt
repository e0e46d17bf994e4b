//! How a list gets shorter, and gets another limit.
ghost use Rattle.std.specs.Prelude.{◌≡◌, ◌≤◌, ◌++◌, ◌∷◌, [], MatchOption, length, take, filter, is_some};
ghost use Rattle.seg_core.specs.Segment.{IsLimit};
ghost use Rattle.grow_core.specs.PopSegment.{IsUnbroken};

use crate::quiet::Quiet;
use crate::room::{close_up, cut_to};

impl<T: Drop> Quiet<T> {
    /// Moves the last member out. It is `None` if it was broken, and there is none if the list is empty. The capacity
    /// stays.
    pub fn pop(&mut self) -> Option<Option<T>>
        ensures last { MatchOption result (self.old.members ≡ [])
            (λ member. self.old.members ≡ self.new.members ++ member ∷ []) }
        ensures none { self.old.members ≡ [] → self.new ≡ self.old }
        ensures rest_kept { self.new ≡ record self.old
            { members = self.new.members; closed = self.new.closed } }
    {
        if self.parts.len() == 0 {
            return None;
        }
        Some(self.parts.pop())
    }

    /// Drops the members from place `n` on, the last one first, if there are more than `n`. The capacity stays.
    ///
    /// Its time is linear in the members that go.
    pub fn truncate(&mut self, n: u64)
        ensures members { self.new.members ≡ take n self.old.members }
        ensures rest_kept { self.new ≡ record self.old
            { members = self.new.members; closed = self.new.closed } }
    {
        if n < self.parts.len() {
            cut_to(&mut self.parts, n);
        }
    }

    /// Drops the broken members. The values close up, in order, and the capacity stays. A list without a broken member
    /// is not changed.
    ///
    /// Its time is linear in the members, and constant if none is broken. It takes no memory.
    pub fn compact(&mut self)
        ensures members { self.new.members ≡ filter is_some self.old.members }
        ensures unbroken { IsUnbroken self.new.members }
        ensures untouched { IsUnbroken self.old.members → self.new ≡ self.old }
        ensures rest_kept { self.new ≡ record self.old
            { members = self.new.members; closed = self.new.closed } }
    {
        if let Some(first) = self.first_broken() {
            let values = close_up(&mut self.parts, first);
            cut_to(&mut self.parts, values);
        }
    }
}

impl<T> Quiet<T> {
    /// Sets the greatest length that the list may reach. Nothing else changes.
    pub fn set_limit(&mut self, limit: u64)
        requires limit { IsLimit limit }
        requires within { length self.old.members ≤ limit }
        ensures { self.new ≡ record self.old { limit = limit } }
    {
        self.parts.set_limit(limit);
    }
}
