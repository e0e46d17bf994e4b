//! The room under a list, and how it is filled and emptied.
ghost use Rattle.std.specs.Prelude.{◌≡◌, ◌+◌, ◌-◌, ◌<◌, ◌≤◌, ◌++◌, Some, None, OnOk, IfErr, length, map, take, replicate, vec_len, slice_get, slice_set, filter, is_some};
ghost use Rattle.seg_core.specs.Segment.{most_places};
ghost use Rattle.grow_core.specs.Parts.{capacity_of};
ghost use Rattle.quiet_core.specs.IntoVec.{IsFirstBroken};
ghost use Rattle.quiet_core.specs.QuietList.{IsCapacityFor};
ghost use Rattle.quiet_core.specs.Resizing.{IsMade, IsStopped};

use grow_core::Parts;
use seg_core::Layout;

// The places of the fewest whole segments with room for n members.
pub(crate) fn places_for(layout: Layout, n: u64) -> u64
    requires { n ≤ most_places }
    ensures { IsCapacityFor layout n result }
{
    layout.capacity_for(n)
}

// Appends the values. There is room for them.
pub(crate) fn append<T: Drop>(parts: &mut Parts<T>, values: Vec<T>)
    requires limit { length parts.old.members + vec_len values ≤ parts.old.limit }
    requires room { length parts.old.members + vec_len values ≤ capacity_of parts.old }
    ensures members { parts.new.members ≡ parts.old.members ++ map Some values.items }
    ensures rest_kept { parts.new ≡ record parts.old
        { members = parts.new.members; closed = parts.new.closed } }
{
    for value in values {
        parts.append(Some(value));
    }
}

// Drops the members from place n on, the last one first.
pub(crate) fn cut_to<T: Drop>(parts: &mut Parts<T>, n: u64)
    requires { n ≤ length parts.old.members }
    ensures members { parts.new.members ≡ take n parts.old.members }
    ensures rest_kept { parts.new ≡ record parts.old
        { members = parts.new.members; closed = parts.new.closed } }
{
    while parts.len() > n {
        drop(parts.pop());
    }
}

// Appends n values that the maker makes, or, if it refuses, those before, and then returns how many. There is
// room for them.
pub(crate) fn append_made<T: Drop, E: Drop, F: FnMut(u64) -> Result<T, E>>(
    parts: &mut Parts<T>,
    n: u64,
    mut make: F,
) -> Result<(), u64>
    requires limit { length parts.old.members + n ≤ parts.old.limit }
    requires room { length parts.old.members + n ≤ capacity_of parts.old }
    requires callable { F.IsAlwaysCallable make }
    ensures made { OnOk result (IsMade F.step make n parts.old.members parts.new.members) }
    ensures stopped { IfErr result
        (λ made. (made < n) × IsStopped F.step make made parts.old.members parts.new.members) }
    ensures rest_kept { parts.new ≡ record parts.old
        { members = parts.new.members; closed = parts.new.closed } }
{
    for i in 0..n {
        match make(i) {
            Ok(value) => parts.append(Some(value)),
            Err(_cause) => return Err(i),
        }
    }
    Ok(())
}

// Appends broken members until there are n. There is room for them.
pub(crate) fn break_to<T: Drop>(parts: &mut Parts<T>, n: u64)
    requires more { length parts.old.members ≤ n }
    requires limit { n ≤ parts.old.limit }
    requires room { n ≤ capacity_of parts.old }
    ensures members { parts.new.members ≡ parts.old.members
        ++ replicate (n - length parts.old.members) None }
    ensures rest_kept { parts.new ≡ record parts.old
        { members = parts.new.members; closed = parts.new.closed } }
{
    while parts.len() < n {
        parts.append(None);
    }
}

// Moves a value from one place to another that is not after it, and returns the place after that one. A broken member
// is not moved.
fn move_down<T: Drop>(parts: &mut Parts<T>, from: u64, to: u64) -> u64
    requires order { to ≤ from }
    requires within { from < length parts.old.members }
    requires small { from < most_places }
    ensures moved { (x : T) → slice_get parts.old.members from ≡ Some (Some x) → (result ≡ to + 1)
        × (parts.new.members ≡ slice_set (slice_set parts.old.members from None) to (Some x)) }
    ensures broken { slice_get parts.old.members from ≡ Some None → (result ≡ to)
        × (parts.new.members ≡ slice_set parts.old.members from None) }
    ensures rest_kept { parts.new ≡ record parts.old
        { members = parts.new.members; closed = parts.new.closed } }
{
    match parts.replace(from, None) {
        Some(value) => {
            drop(parts.replace(to, Some(value)));
            to + 1
        }
        None => to,
    }
}

// Moves the values down over the broken members, and returns how many values there are. They come first then, in
// order. The first broken member is at a place.
pub(crate) fn close_up<T: Drop>(parts: &mut Parts<T>, first: u64) -> u64
    requires { IsFirstBroken parts.old.members first }
    ensures values { take result parts.new.members ≡ filter is_some parts.old.members }
    ensures within { result ≤ length parts.new.members }
    ensures rest_kept { parts.new ≡ record parts.old
        { members = parts.new.members; closed = parts.new.closed } }
{
    // For the proof: the length is within the limit.
    let _limit = parts.limit();
    let mut values = first;
    for place in first..parts.len() {
        values = move_down(parts, place, values);
    }
    values
}
