//! How a list becomes a vector that many callers share, and how that becomes a list again.
ghost use Rattle.std.specs.Prelude.{◌≡◌, ◌<◌, Some, length, slice_get, IsOk, IfOk, IfErr, OnErr};
ghost use Rattle.claim_core.specs.Hand.{IsWholeHand, IsNewHand, seen_size};
ghost use Rattle.grow_core.specs.Vector.{IsHandOf, limit_of, layout_of, base_of};
ghost use Rattle.grow_core.specs.Closing.{IsClosedFrom, IsListOfHistory, IsOfClosed, KeepsValues};

use crate::quiet::Quiet;
use grow_core::{Hand, OpenError, Placed, Shared};

impl<T> Quiet<T> {
    /// Returns the token's value, which is the list's member at its place. The list must have been closed
    /// from the token's vector and be unchanged since. A caller knows that the place is below the length if
    /// it has seen the place claimed.
    pub fn recall(&self, placed: &Placed<T>) -> &T
        requires { IsOfClosed self.now.closed placed.now }
        ensures value { result.now ≡ placed.now.value }
        ensures member { placed.now.place < length self.now.members
            → slice_get self.now.members placed.now.place ≡ Some (Some placed.now.value) }
    {
        self.parts.recall(placed)
    }
}

impl<T: Drop> Quiet<T> {
    /// Opens the list into a vector that begins with its members, with the hand that has all shares. It moves
    /// no member and looks at none: it takes two small allocations, at any length, and a time that depends
    /// on the number of segments alone. The only refusal is out of memory, and it gives the list back unchanged.
    pub fn open(self) -> Result<(Shared<T>, Hand<T>), (Quiet<T>, OpenError)>
        ensures opened { IfOk result (λ (vector, _). vector.opened ≡ self.members) }
        ensures limit { IfOk result (λ (vector, _). limit_of vector ≡ self.limit) }
        ensures layout { IfOk result (λ (vector, _). layout_of vector ≡ self.layout) }
        ensures base { IfOk result (λ (vector, _). base_of vector ≡ length self.members) }
        ensures hand { IfOk result (λ (vector, hand). IsNewHand vector.word hand) }
        ensures back { IfErr result (λ (back, _). back ≡ self) }
        ensures no_memory { IfErr result (λ (_, error). error ≡ OpenError.NoMemory) }
    {
        let parts = self.into_parts();
        match Shared::of_parts(parts) {
            Ok(opened) => Ok(opened),
            Err((parts, error)) => Err((Quiet { parts }, error)),
        }
    }

    /// Closes the vector into the list of its values, as long as its size. A place that was claimed but never
    /// filled is broken. It moves no value and takes no memory; its time is linear in the size. The capacity
    /// is that of the installed segments. A vector that lost a hand cannot be closed; it is dropped with its
    /// values.
    pub fn close(vector: Shared<T>, hand: Hand<T>) -> Quiet<T>
        requires ours { IsHandOf vector hand }
        requires whole { IsWholeHand hand }
        ensures length { length result.members ≡ seen_size hand }
        ensures limit { result.limit ≡ limit_of vector }
        ensures layout { result.layout ≡ layout_of vector }
        ensures opened { KeepsValues vector.opened result.members }
        ensures closed { IsClosedFrom vector result.closed }
        // It is the list of the history, where pending places are broken.
        ensures history { IsListOfHistory vector hand.log result.members }
    {
        Quiet {
            parts: vector.into_parts(hand),
        }
    }
    /// Closes the vector like `close` if the hand is whole, and otherwise gives both back: for a program that proves
    /// nothing about shares.
    pub fn try_close(vector: Shared<T>, hand: Hand<T>) -> Result<Quiet<T>, (Shared<T>, Hand<T>)>
        requires ours { IsHandOf vector hand }
        ensures length { IfOk result (λ list. length list.members ≡ seen_size hand) }
        ensures limit { IfOk result (λ list. list.limit ≡ limit_of vector) }
        ensures layout { IfOk result (λ list. list.layout ≡ layout_of vector) }
        ensures opened { IfOk result (λ list. KeepsValues vector.opened list.members) }
        ensures closed { IfOk result (λ list. IsClosedFrom vector list.closed) }
        ensures history { IfOk result (λ list. IsListOfHistory vector hand.log list.members) }
        ensures whole { IsWholeHand hand → IsOk result }
        ensures refused { OnErr result (¬ IsWholeHand hand) }
        ensures back { IfErr result (λ (same, own). (same ≡ vector) × (own ≡ hand)) }
    {
        if hand.is_whole() {
            Ok(Quiet::close(vector, hand))
        } else {
            Err((vector, hand))
        }
    }
}
