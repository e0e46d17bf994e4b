//! How long the first segment is, and the arithmetic of the segments that follow from it.
ghost use Rattle.std.specs.Prelude.{◌≡◌, ◌+◌, ◌-◌, ◌^◌, ◌<◌, ◌≤◌, ◌↔◌, ℕ, Some, IsNone};
ghost use Rattle.seg_core.specs.Segment.{IsLayout, most_places, segment_count, segment_start, segment_end, HasPlace, segment_of, Touches};

use std::marker::Model;

/// The greatest number of places that a vector may have.
pub const MOST_PLACES: u64 = 1 << 40;

/// The greatest number of segments, which is that of the shortest first segment.
pub const MOST_SEGMENTS: usize = 40;

/// The division of places into segments: the first has 2^f places, with f from 1 to 8, and each other segment
/// as many as all those before it.
#[derive(Clone, Copy, Debug, PartialEq, Eq)]
pub struct Layout {
    f: u8,
}

impl Model for Layout {
    ghost use Rattle.std.specs.Prelude.{ℕ};
    ghost use Rattle.seg_core.specs.Segment.{IsLayout};

    ghost Value = { ℕ };

    ghost view = { λ l. l.f };

    ghost invariant = { λ l. IsLayout l.f };

    ghost inverse = { λ f. record { f = f } };
}

impl Default for Layout {
    /// Returns the layout whose first segment has two places.
    fn default() -> Layout
        ensures { result ≡ 1 }
    {
        Layout { f: 1 }
    }
}

impl Layout {
    /// Makes the layout whose first segment has 2^f places, or returns `None` if `f` is not from 1 to 8.
    pub fn new(f: u32) -> Option<Layout>
        ensures some { IsLayout f → result ≡ Some f }
        ensures none { IsNone result ↔ (IsLayout f → ⊥) }
    {
        if f < 1 || 8 < f {
            return None;
        }
        Some(Layout { f: f as u8 })
    }

    /// Returns the number f: the first segment has 2^f places.
    pub fn f(self) -> u32
        ensures value { result ≡ self }
        ensures layout { IsLayout self }
    {
        self.f as u32
    }

    /// Returns the number of segments of the places below 2^40.
    pub fn segments(self) -> u32
        ensures { result ≡ segment_count self }
    {
        41 - self.f()
    }

    /// Returns the segment of a place, and its offset there. It takes a few instructions.
    pub fn locate(self, place: u64) -> (u32, u64)
        requires { place < most_places }
        ensures segment { HasPlace self result.0 place }
        ensures number { result.0 ≡ segment_of self place }
        ensures offset { segment_start self result.0 + result.1 ≡ place }
        ensures bound { result.0 < segment_count self }
    {
        segment_at(self.f(), place)
    }

    /// Returns the first place of a segment.
    pub fn first(self, k: u32) -> u64
        requires { k < segment_count self }
        ensures { result ≡ segment_start self k }
    {
        if k == 0 { 0 } else { 1 << (k + self.f() - 1) }
    }

    /// Returns the number of places of a segment.
    pub fn len(self, k: u32) -> u64
        requires { k < segment_count self }
        ensures { segment_start self k + result ≡ segment_end self k }
    {
        let first = self.first(k);
        if k == 0 { 1 << self.f() } else { first }
    }

    /// Returns the first segment that a run of places touches, and one past the last.
    pub fn segments_of(self, from: u64, n: u64) -> (u32, u32)
        requires some { 0 < n }
        requires places { from + n ≤ most_places }
        ensures first { HasPlace self result.0 from }
        ensures last { (last : ℕ) × (last + 1 ≡ result.1) × HasPlace self last (from + n - 1) }
        ensures touched { (k : ℕ) → Touches self k from n ↔ (result.0 ≤ k) × (k < result.1) }
        ensures bound { result.1 ≤ segment_count self }
    {
        let (first, _) = self.locate(from);
        let (last, _) = self.locate(from + n - 1);
        (first, last + 1)
    }

    /// Returns the number of places of the fewest whole segments, from the first on, that have room for `n`.
    pub fn capacity_for(self, n: u64) -> u64
        requires { n ≤ most_places }
        ensures none { n ≡ 0 → result ≡ 0 }
        ensures whole { 0 < n → (k : ℕ) × (result ≡ segment_end self k) }
        ensures room { n ≤ result }
        ensures least { 0 < n → (k : ℕ) → n ≤ segment_end self k → result ≤ segment_end self k }
    {
        if n == 0 {
            return 0;
        }
        let (last, _) = self.locate(n - 1);
        self.first(last) + self.len(last)
    }
}

// The segment of a place, and its offset there. The places of a segment have one greatest bit, if those of the
// first one count as its second half.
fn segment_at(f: u32, place: u64) -> (u32, u64)
    requires layout { IsLayout f }
    requires small { place < most_places }
    ensures segment { HasPlace f result.0 place }
    ensures number { result.0 ≡ segment_of f place }
    ensures offset { segment_start f result.0 + result.1 ≡ place }
    ensures bound { result.0 < segment_count f }
{
    let half = f - 1;
    let top = (place | (1 << half)).ilog2();
    if top == half {
        (0, place)
    } else {
        (top - half, place ^ (1 << top))
    }
}
