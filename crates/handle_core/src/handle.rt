//! What C has of a vector or a list: an address, and whether there is something.
ghost use Rattle.std.specs.Prelude.{◌≡◌, Option, Some, None, MatchOption, IsSome, IsTrue, IsFalse, is_some};

use crate::box_parts::BoxParts;
use crate::held::Held;
use crate::owned::Owned;
use std::alloc::Global;
use std::mem;
use std::ptr::null_mut;

/// A handle: empty, or full.
#[repr(C)]
#[derive(Drop)]
pub struct Handle {
    pub owned: Owned,
    full: bool,
    ghost tied: { is_some owned.held ≡ full },
}

// An address where nothing is.
fn no_address() -> *mut u64 {
    null_mut()
}

impl Handle {
    // A handle that has nothing.
    fn empty(alloc: Global) -> Handle
        ensures { result.owned.held ≡ None }
    {
        let at = no_address();
        let owned = Owned::empty(at, alloc);
        Handle { owned, full: false }
    }

    // Tests whether the handle has something.
    pub(crate) fn is_full(&self) -> bool
        ensures { result ≡ is_some self.now.owned.held }
    {
        self.full
    }

    // Tests whether the handle has nothing.
    #[inline(always)]
    pub(crate) fn is_empty(&self) -> bool
        ensures nothing { IsTrue result → self.now.owned.held ≡ None }
        ensures something { IsFalse result → IsSome self.now.owned.held }
    {
        !self.full
    }

    // A handle that has this.
    pub(crate) fn of(held: Box<Held>) -> Handle
        ensures { result.owned.held ≡ Some held.value }
    {
        Handle {
            owned: Owned::of_parts(BoxParts::of(held)),
            full: true,
        }
    }

    // What the handle had.
    fn into_held(self) -> Option<Box<Held>>
        ensures { MatchOption result (self.owned.held ≡ None)
            (λ held. self.owned.held ≡ Some held.value) }
    {
        let Handle { owned, full, .. } = self;
        if full {
            Some(owned.into_parts().into_box())
        } else {
            None
        }
    }

    // Takes out what the handle has. It is empty then.
    pub(crate) fn take(&mut self, alloc: Global) -> Option<Box<Held>>
        ensures held { MatchOption result (self.old.owned.held ≡ None)
            (λ held. self.old.owned.held ≡ Some held.value) }
        ensures empty { self.new.owned.held ≡ None }
    {
        mem::replace(self, Handle::empty(alloc)).into_held()
    }
}
