// A box as its pointer.
ghost use Rattle.std.specs.Prelude.{◌≡◌};
ghost use Rattle.std_alloc.specs.Box.Ownership.{box_owns};

use std::alloc::Allocator;
use std::marker::Model;

pub(crate) struct Loose<B, A: Allocator> {
    pub(crate) at: *mut B,
    pub(crate) alloc: A,
    pub(crate) ghost value: { B },
}

impl<B, A: Allocator> Model for Loose<B, A> {
    ghost also_owns = { λ l. box_owns (A.dealloc_token l.alloc) B.row l.at l.value };
}

impl<B: Drop, A: Allocator> Loose<B, A> {
    pub(crate) fn of(value: Box<B, A>) -> Loose<B, A>
        ensures { result.value ≡ value.value }
    {
        let (at, alloc) = Box::into_raw_with_allocator(value);
        Loose { at, alloc }
    }
}

impl<B, A: Allocator> Loose<B, A> {
    pub(crate) fn into_box(self) -> Box<B, A>
        ensures { result.value ≡ self.value }
    {
        let Loose { at, alloc } = self;
        unsafe { Box::from_raw(alloc, at) }
    }
}
