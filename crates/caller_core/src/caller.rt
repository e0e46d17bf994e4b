//! A hand with its vector.
ghost use Rattle.std.specs.Arc.{arc_value};
ghost use Rattle.std.specs.Prelude.{◌≡◌, ◌≤◌, ◌↔◌, IfOk, IsTrue};
ghost use Rattle.claim_core.specs.Hand.{IsWholeHand, SeesSize, seen_size};
ghost use Rattle.grow_core.specs.Vector.{limit_of};
ghost use Rattle.seg_core.specs.Segment.{IsLimit};
ghost use Rattle.caller_core.specs.Caller.{IsCaller, IsNewCaller, KeepsCaller};

use grow_core::{Hand, Placed, Shared};
use quiet_core::Quiet;
use seg_core::Layout;
use std::alloc::{AllocError, Global};
use std::marker::Model;
use std::ptr::NonNull;
use std::sync::Arc;

// What the callers of a vector share: the vector, and a word whose address tells it from others.
#[derive(Drop)]
pub(crate) struct Hub<T> {
    pub(crate) vector: Shared<T>,
    pub(crate) mark: u64,
}

/// One thread's hand of a vector, with the vector and the token of the last place that it filled.
///
/// If it is dropped, its hand's shares are lost. `join` and `close` keep them.
pub struct Caller<T> {
    pub(crate) hub: Arc<Hub<T>>,
    pub(crate) hand: Hand<T>,
    pub(crate) last: Option<Placed<T>>,
}

impl<T> Model for Caller<T> {
    ghost use Rattle.std.specs.Arc.{arc_value};
    ghost use Rattle.caller_core.specs.Caller.{CallerView, caller_coded, IsCaller};

    ghost Value = { CallerView T };

    ghost coded = { caller_coded T.code };

    ghost view = { λ c. record { vector = (arc_value c.hub).vector; hand = c.hand; last = c.last } };

    ghost invariant = { λ c. IsCaller (arc_value c.hub).vector c.hand c.last };
}

// By hand, so that proofs of callers do not go into its fields.
impl<T: Drop> Drop for Caller<T> {
    fn drop(self) {
        let Self {
            hub: _,
            hand: _,
            last: _,
        } = self;
    }
}

impl<T> Caller<T> {
    // Takes the caller apart.
    pub(crate) fn into_parts(self) -> (Arc<Hub<T>>, Hand<T>, Option<Placed<T>>)
        ensures parts { self ≡ record {
          vector = (arc_value result.0).vector;
          hand = result.1;
          last = result.2;
        } }
        ensures its { IsCaller (arc_value result.0).vector result.1 result.2 }
    {
        let Caller { hub, hand, last } = self;
        (hub, hand, last)
    }
}

impl<T: Drop> Caller<T> {
    /// Opens a new, empty vector. The caller has all its shares. The only refusal is out of memory.
    pub fn open(alloc: Global, limit: u64, layout: Layout) -> Result<Caller<T>, AllocError>
        requires { IsLimit limit }
        ensures { IfOk result (IsNewCaller limit layout) }
    {
        let list = Quiet::new_in(alloc, layout, limit);
        match Caller::of_list(alloc, list) {
            Ok(caller) => Ok(caller),
            Err(list) => {
                drop(list);
                Err(AllocError)
            }
        }
    }
}

impl<T> Caller<T> {
    /// Returns the size now, by one load.
    #[inline(always)]
    pub fn size(&mut self) -> u64
        ensures seen { SeesSize self.old.hand self.new.hand result }
        ensures grows { seen_size self.old.hand ≤ result }
        // Nobody else can append while one hand has all shares.
        ensures whole { IsWholeHand self.old.hand → result ≡ seen_size self.old.hand }
        ensures kept { KeepsCaller self.old self.new }
        ensures last { self.new.last ≡ self.old.last }
    {
        self.hub.vector.size(&mut self.hand)
    }

    /// Returns the hand's shares.
    pub fn shares(&self) -> u32
        ensures { result ≡ self.now.hand.shares }
    {
        self.hand.share()
    }

    /// Returns the size that the hand has seen.
    pub fn seen(&self) -> u64
        ensures { result ≡ seen_size self.now.hand }
    {
        self.hand.seen()
    }

    /// Returns the greatest size that the vector may have.
    pub fn limit(&self) -> u64
        ensures { result ≡ limit_of self.now.vector }
    {
        self.hub.vector.limit()
    }

    /// Tests whether the hand has all shares.
    pub fn is_whole(&self) -> bool
        ensures { IsTrue result ↔ IsWholeHand self.now.hand }
    {
        self.hand.is_whole()
    }

    /// Returns an address that is the same for all callers of the vector, and another for those of any other vector
    /// that is open.
    pub fn address(&self) -> *mut u64 {
        NonNull::from_ref(&self.hub.mark).as_ptr()
    }
}
