//! A box that may be there, as C sees it: an address.
ghost use Rattle.std.specs.Prelude.{◌≡◌, Option, Some, None, IsSome};
ghost use Rattle.handle_core.specs.declared.held.Held.{Held};
ghost use Rattle.handle_core.specs.Owned.{held_coded, held_owns};

use crate::box_parts::BoxParts;
use crate::held::Held;
use std::alloc::Global;
use std::marker::Model;

#[repr(C)]
#[derive(Drop)]
pub struct Owned {
    at: *mut u64,
    alloc: Global,
    pub ghost held: { Option Held } by { held_coded },
}

impl Model for Owned {
    ghost also_owns = { λ s. held_owns s.alloc s.at s.held };
}

impl Owned {
    pub(crate) fn empty(at: *mut u64, alloc: Global) -> Owned
        ensures { result.held ≡ None }
    {
        Owned { at, alloc }
    }

    pub(crate) fn of_parts(parts: BoxParts<Held, Global>) -> Owned
        ensures { result.held ≡ Some parts.value }
    {
        let BoxParts { ptr, alloc } = parts;
        Owned {
            at: ptr.cast::<u64>(),
            alloc,
        }
    }

    pub(crate) fn into_parts(self) -> BoxParts<Held, Global>
        requires { IsSome self.held }
        ensures { self.held ≡ Some result.value }
    {
        let Owned { at, alloc } = self;
        BoxParts {
            ptr: at.cast::<Held>(),
            alloc,
        }
    }
}

impl Owned {
    ghost use Rattle.std.specs.Borrow.{sem};
    ghost use Rattle.handle_core.specs.Lending.{LendsHeld};

    // Lends what is there. It stays where it is.
    #[inline(always)]
    pub(crate) fn held_mut(&mut self) -> &mut Held
        requires { IsSome self.old.held }
        ensures* writes_back { sem 𝓛 (LendsHeld self.entry result) }
        ensures value { self.old.held ≡ Some result.now }
    {
        unsafe { &mut *self.at.cast::<Held>() }
    }
}
