//! The arithmetic of segments whose first one has two places, for places below 2^32.
ghost use Rattle.std.specs.Prelude.{◌≡◌, ◌+◌, ◌-◌, ◌^◌, ◌<◌, ◌≤◌, ◌↔◌, ℕ};
ghost use Rattle.seg_core.specs.Segment.{segment_start, segment_end, HasPlace, segment_of, Touches};

use crate::layout::Layout;

/// Returns the segment of a place, and its offset there. It takes a few instructions.
pub fn locate(place: u64) -> (u32, u64)
    requires { place < 2 ^ 32 }
    ensures segment { HasPlace 1 result.0 place }
    ensures number { result.0 ≡ segment_of 1 place }
    ensures offset { segment_start 1 result.0 + result.1 ≡ place }
    ensures bound { result.0 < 32 }
{
    Layout::default().locate(place)
}

/// Returns the first place of a segment.
pub fn first(k: u32) -> u64
    requires { k < 32 }
    ensures { result ≡ segment_start 1 k }
{
    Layout::default().first(k)
}

/// Returns the number of places of a segment.
pub fn len(k: u32) -> u64
    requires { k < 32 }
    ensures { segment_start 1 k + result ≡ segment_end 1 k }
{
    Layout::default().len(k)
}

/// Returns the first segment that a run of places touches, and one past the last.
pub fn segments_of(from: u64, n: u64) -> (u32, u32)
    requires some { 0 < n }
    requires places { from + n ≤ 2 ^ 32 }
    ensures first { HasPlace 1 result.0 from }
    ensures last { (last : ℕ) × (last + 1 ≡ result.1) × HasPlace 1 last (from + n - 1) }
    ensures touched { (k : ℕ) → Touches 1 k from n ↔ (result.0 ≤ k) × (k < result.1) }
    ensures bound { result.1 ≤ 32 }
{
    Layout::default().segments_of(from, n)
}

/// Returns the number of places of the fewest whole segments, from the first on, that have room for `n`.
pub fn capacity_for(n: u64) -> u64
    requires { n ≤ 2 ^ 32 }
    ensures none { n ≡ 0 → result ≡ 0 }
    ensures whole { 0 < n → (k : ℕ) × (result ≡ segment_end 1 k) }
    ensures room { n ≤ result }
    ensures least { 0 < n → (k : ℕ) → n ≤ segment_end 1 k → result ≤ segment_end 1 k }
{
    Layout::default().capacity_for(n)
}
