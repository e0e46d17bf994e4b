//! How a list becomes a vector again.
ghost use Rattle.std.specs.Prelude.{IfOk, IfErr};
ghost use Rattle.caller_core.specs.Grows.{OpensList, IsSameList};

use crate::caller::{Caller, Hub};
use quiet_core::Quiet;
use std::alloc::{AllocFailed, Global};
use std::sync::Arc;

impl<T: Drop> Caller<T> {
    /// Opens the list into a vector. The caller has all its shares. The only refusal is out of memory: then the list
    /// comes back with the same values. If it had opened by then it was closed again, which takes no memory.
    pub fn of_list(alloc: Global, list: Quiet<T>) -> Result<Caller<T>, Quiet<T>>
        ensures opened { IfOk result (OpensList list) }
        ensures back { IfErr result (IsSameList list) }
    {
        let (vector, hand) = match list.open() {
            Ok(opened) => opened,
            Err((back, _no_memory)) => return Err(back),
        };
        match Arc::new(alloc, Hub { vector, mark: 0 }) {
            Ok(hub) => Ok(Caller {
                hub,
                hand,
                last: None,
            }),
            Err(AllocFailed { value }) => {
                let Hub { vector, mark: _ } = value;
                Err(Quiet::close(vector, hand))
            }
        }
    }
}
