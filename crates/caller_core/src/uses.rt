//! What callers prove by the public clauses alone.
ghost use Rattle.std.specs.Prelude.{◌≡◌, ◌<◌, ℕ, Some, IfSome, length, slice_get};
ghost use Rattle.seg_core.specs.Segment.{IsLimit};
ghost use Rattle.caller_core.specs.Caller.{KeepsCaller};

use crate::caller::Caller;
use quiet_core::Quiet;
use seg_core::Layout;
use std::alloc::Global;

// Splits a caller off, which appends a value, and joins it: no share is lost.
fn joined_after_a_push(caller: &mut Caller<u64>, shares: u32, value: u64)
    requires some_shares { 0 < shares }
    requires not_all { shares < caller.old.hand.shares }
    ensures kept { KeepsCaller caller.old caller.new }
{
    if let Ok(mut other) = caller.split(shares) {
        drop(other.push(value));
        caller.join(other);
    }
}

// The list of a new vector that got one value, if there is memory.
fn list_of_one(alloc: Global, limit: u64, layout: Layout, value: u64) -> Option<Quiet<u64>>
    requires { IsLimit limit }
    ensures length { IfSome result (λ list. length list.members ≡ 1) }
    ensures limit { IfSome result (λ list. list.limit ≡ limit) }
{
    let mut caller = Caller::open(alloc, limit, layout).ok()?;
    caller.push(value).ok()?;
    caller.close().ok()
}

// The value at a place of a list that has become a vector, if there is memory.
fn read_reopened(alloc: Global, list: Quiet<u64>, place: u64) -> Option<u64>
    ensures { (x : ℕ) → slice_get list.members place ≡ Some (Some x)
        → IfSome result (λ read. read ≡ x) }
{
    let mut caller = Caller::of_list(alloc, list).ok()?;
    match caller.at(place) {
        Ok(read) => Some(read),
        Err(_refused) => None,
    }
}
