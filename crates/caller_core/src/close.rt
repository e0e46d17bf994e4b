//! How a vector is closed into a list.
ghost use Rattle.std.specs.Prelude.{◌≡◌, IfOk, IfErr, OnOk, length};
ghost use Rattle.claim_core.specs.Hand.{IsWholeHand, seen_size};
ghost use Rattle.grow_core.specs.Vector.{limit_of, layout_of};
ghost use Rattle.grow_core.specs.Closing.{KeepsValues, IsClosedFrom, IsListOfHistory};

use crate::caller::{Caller, Hub};
use quiet_core::Quiet;
use std::sync::Arc;

impl<T: Drop> Caller<T> {
    /// Closes the vector into a list, if this caller has all shares and nobody else owns the vector. Otherwise the
    /// caller comes back as it was. It takes no memory.
    pub fn close(self) -> Result<Quiet<T>, Caller<T>>
        ensures whole { OnOk result (IsWholeHand self.hand) }
        ensures length { IfOk result (λ list. length list.members ≡ seen_size self.hand) }
        ensures limit { IfOk result (λ list. list.limit ≡ limit_of self.vector) }
        ensures layout { IfOk result (λ list. list.layout ≡ layout_of self.vector) }
        ensures opened { IfOk result (λ list. KeepsValues self.vector.opened list.members) }
        ensures closed { IfOk result (λ list. IsClosedFrom self.vector list.closed) }
        ensures history { IfOk result (λ list.
            IsListOfHistory self.vector self.hand.log list.members) }
        ensures back { IfErr result (λ back. back ≡ self) }
    {
        let (hub, hand, last) = self.into_parts();
        if !hand.is_whole() {
            return Err(Caller { hub, hand, last });
        }
        match Arc::try_unwrap(hub) {
            Ok(hub) => {
                drop(last);
                let Hub { vector, mark: _ } = hub;
                Ok(Quiet::close(vector, hand))
            }
            Err(hub) => Err(Caller { hub, hand, last }),
        }
    }
}
