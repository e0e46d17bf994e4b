//! The list, and what its owner reads of it.
ghost use Rattle.std.specs.Prelude.{◌≡◌, ◌≤◌, [], length, slice_get, Some, IfOk, IfErr};
ghost use Rattle.quiet_core.specs.QuietAt.{IsRefusalAt};
ghost use Rattle.seg_core.specs.Segment.{IsLimit, most_places};
ghost use Rattle.quiet_core.specs.QuietList.{IsWhole, list_of};

use crate::errors::QuietAt;
use grow_core::Parts;
use seg_core::Layout;
use std::alloc::Global;
use std::fmt;
use std::marker::Model;

/// A list of values and broken members, with a limit and a capacity of whole segments.
pub struct Quiet<T> {
    pub(crate) parts: Parts<T>,
}

impl<T> Model for Quiet<T> {
    ghost use Rattle.quiet_core.specs.QuietList.{QuietList, quiet_code, list_of};

    ghost Value = { QuietList T };

    ghost coded = { quiet_code T.code };

    ghost view = { λ q. list_of q.parts };
}

// By hand, so that proofs of callers do not go into its fields.
impl<T: Drop> Drop for Quiet<T> {
    fn drop(self) {
        let Self { parts: _ } = self;
    }
}

impl<T> Quiet<T> {
    // Takes the list apart.
    pub(crate) fn into_parts(self) -> Parts<T>
        ensures { list_of result ≡ self }
    {
        let Quiet { parts } = self;
        parts
    }
}

impl<T: fmt::Debug> fmt::Debug for Quiet<T> {
    fn fmt<W: fmt::Write>(&self, f: &mut fmt::Formatter<W>) -> fmt::Result {
        f.debug_list().entries(self).finish()
    }
}

impl<T> Quiet<T> {
    /// Makes an empty list whose first segment has two places. It takes no memory yet.
    pub fn new(alloc: Global, limit: u64) -> Self
        requires { IsLimit limit }
        ensures members { result.members ≡ [] }
        ensures limit { result.limit ≡ limit }
        ensures layout { result.layout ≡ 1 }
        ensures capacity { result.capacity ≡ 0 }
    {
        Quiet::new_in(alloc, Layout::default(), limit)
    }

    /// Makes an empty list with the segments of the layout. It takes no memory yet.
    pub fn new_in(alloc: Global, layout: Layout, limit: u64) -> Self
        requires { IsLimit limit }
        ensures members { result.members ≡ [] }
        ensures limit { result.limit ≡ limit }
        ensures layout { result.layout ≡ layout }
        ensures capacity { result.capacity ≡ 0 }
    {
        Quiet {
            parts: Parts::new_in(alloc, layout, limit),
        }
    }

    /// Returns how the list's places are divided into segments.
    pub fn layout(&self) -> Layout
        ensures { result ≡ self.now.layout }
    {
        self.parts.layout()
    }

    /// Returns the number of members.
    pub fn len(&self) -> u64
        ensures value { result ≡ length self.now.members }
        ensures within { result ≤ self.now.limit }
        ensures small { result ≤ most_places }
    {
        // For the proof: the length is within the limit.
        let _limit = self.parts.limit();
        self.parts.len()
    }

    /// Returns the greatest length that the list may reach.
    pub fn limit(&self) -> u64
        ensures value { result ≡ self.now.limit }
        ensures range { IsLimit result }
        ensures bound { length self.now.members ≤ result }
    {
        // For the proof: the length is within the limit.
        let _len = self.parts.len();
        self.parts.limit()
    }

    /// Returns the places of the installed segments, also past the limit. Up to this capacity no call asks
    /// for memory.
    pub fn capacity(&self) -> u64
        ensures value { result ≡ self.now.capacity }
        ensures whole { IsWhole self.now.layout result }
        ensures bound { length self.now.members ≤ result }
    {
        self.parts.capacity()
    }

    /// Returns the value at a place, or says that the place is not below the length, or that its member is
    /// broken.
    pub fn get(&self, place: u64) -> Result<&T, QuietAt>
        ensures value { IfOk result (λ x. slice_get self.now.members place ≡ Some (Some x.now)) }
        ensures refused { IfErr result (IsRefusalAt self.now.members place) }
    {
        let size = self.len();
        if place >= size {
            return Err(QuietAt::OutOfRange { size });
        }
        self.parts.get(place).ok_or(QuietAt::Broken)
    }
}
