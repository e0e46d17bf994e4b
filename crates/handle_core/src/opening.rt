//! How a handle gets a hand of a new vector, and how it is emptied.
ghost use Rattle.std.specs.Prelude.{◌≡◌, None, true, false, IfOk, IfErr, IfSome, OnOk, OnErr};
ghost use Rattle.seg_core.specs.Segment.{IsLimit};
ghost use Rattle.handle_core.specs.Held.{OnHeld};
ghost use Rattle.handle_core.specs.Calls.{IsNewHand, OpenDue, IsOpenDueIn};

use crate::handle::Handle;
use crate::held::Held;
use crate::status::Status;
use crate::{hands, opaque_hands};
use seg_core::{Layout, MOST_PLACES};
use std::alloc::Global;

// Puts the content of a handle into a box, if there is memory.
fn boxed(alloc: Global, held: Held) -> Option<Box<Held>>
    ensures { IfSome result (λ boxed. boxed.value ≡ held) }
{
    Box::new(alloc, held).ok()
}

// A box with a hand of value elements, of a new vector.
fn new_values(alloc: Global, limit: u64, words: u64, layout: Layout) -> Result<Box<Held>, Status>
    requires { IsLimit limit }
    ensures new { IfOk result (λ held. IsNewHand limit words layout false held.value) }
    ensures refused { IfErr result (OpenDue limit words layout) }
{
    let any = hands::open(alloc, limit, words, layout)?;
    boxed(alloc, Held::Hand(any)).ok_or(Status::NoMemory)
}

// A box with a hand of opaque elements, of a new vector.
fn new_opaque(alloc: Global, limit: u64, words: u64, layout: Layout) -> Result<Box<Held>, Status>
    requires { IsLimit limit }
    ensures new { IfOk result (λ held. IsNewHand limit words layout true held.value) }
    ensures refused { IfErr result (OpenDue limit words layout) }
{
    let any = opaque_hands::open(alloc, limit, words, layout)?;
    boxed(alloc, Held::OpaqueHand(any)).ok_or(Status::NoMemory)
}

// A box with a hand of a new vector.
fn new_hand(
    alloc: Global,
    limit: u64,
    words: u64,
    first: u32,
    opaque: bool,
) -> Result<Box<Held>, Status>
    ensures new { IfOk result (λ held. IsNewHand limit words first opaque held.value) }
    ensures refused { IfErr result (OpenDue limit words first) }
{
    if limit == 0 || limit > MOST_PLACES {
        return Err(Status::BadLimit);
    }
    let Some(layout) = Layout::new(first) else {
        return Err(Status::BadNumber);
    };
    if opaque {
        new_opaque(alloc, limit, words, layout)
    } else {
        new_values(alloc, limit, words, layout)
    }
}

impl Handle {
    /// Opens a vector with elements of this many words and this kind. Its first hand has all shares.
    #[tactic(auto, using(crate::proofs::Refused::due_open, crate::proofs::Refused::due_open_full))]
    pub fn open(
        &mut self,
        alloc: Global,
        limit: u64,
        words: u64,
        first: u32,
        opaque: bool,
    ) -> Result<(), Status>
        ensures opened { OnOk result
            (OnHeld (IsNewHand limit words first opaque) self.new.owned.held) }
        ensures refused { IfErr result
            (IsOpenDueIn (OpenDue limit words first) self.old.owned.held) }
        ensures empty { OnOk result (self.old.owned.held ≡ None) }
        ensures kept { OnErr result (self.new ≡ self.old) }
    {
        if self.is_full() {
            return Err(Status::BadHandle);
        }
        match new_hand(alloc, limit, words, first, opaque) {
            Ok(held) => {
                *self = Handle::of(held);
                Ok(())
            }
            Err(status) => Err(status),
        }
    }

    /// Ends a hand, or a list.
    pub fn free(&mut self, alloc: Global) -> Result<(), Status>
        ensures ended { self.new.owned.held ≡ None }
        ensures full { OnErr result (self.old.owned.held ≡ None) }
    {
        match self.take(alloc) {
            Some(_held) => Ok(()),
            None => Err(Status::BadHandle),
        }
    }
}
