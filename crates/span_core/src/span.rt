//! A span of places, and how it is cut.
ghost use Rattle.std.specs.Prelude.{◌≡◌, ◌+◌, ◌++◌, ◌<◌, ◌≤◌, ◌↔◌, List, IsTrue, IfOk};
ghost use Rattle.span_core.specs.Span.{IsDivisible, IsSpan, AreLeaves, size_of, lower_half, upper_half, first_part, lower_part, upper_part};

use std::alloc::{AllocError, Global};
use std::marker::Model;

/// The places from one on and before another, with a grain: a span of at most that many places is not
/// divided.
#[derive(Clone, Copy, Debug, PartialEq, Eq)]
pub struct Span {
    from: u64,
    to: u64,
    grain: u64,
}

impl Model for Span {
    ghost use Rattle.span_core.specs.Span.{Interval, IsSpan};

    ghost Value = { Interval };

    ghost view = { λ s. record { from = s.from; to = s.to; grain = s.grain } };

    ghost invariant = { λ s. IsSpan (record { from = s.from; to = s.to; grain = s.grain }) };

    ghost inverse = { λ s. record { from = s.from; to = s.to; grain = s.grain } };
}

impl Span {
    /// Makes the span of the places from `from` on and before `to`.
    pub fn new(from: u64, to: u64, grain: u64) -> Span
        requires ordered { from ≤ to }
        requires positive { 0 < grain }
        ensures { result ≡ record { from = from; to = to; grain = grain } }
    {
        Span { from, to, grain }
    }

    /// Returns the first place, if there is one.
    pub fn from(&self) -> u64
        ensures value { result ≡ self.now.from }
        ensures span { IsSpan self.now }
    {
        self.from
    }

    /// Returns the place after the last.
    pub fn to(&self) -> u64
        ensures value { result ≡ self.now.to }
        ensures ordered { self.now.from ≤ result }
    {
        self.to
    }

    /// Returns the number of places.
    pub fn size(&self) -> u64
        ensures { result ≡ size_of self.now }
    {
        self.to - self.from
    }

    /// Returns how many places a span has at most that is not divided.
    pub fn grain(&self) -> u64
        ensures value { result ≡ self.now.grain }
        ensures positive { 0 < result }
    {
        self.grain
    }

    /// Tests whether there are more places than the grain.
    pub fn is_divisible(&self) -> bool
        ensures { IsTrue result ↔ IsDivisible self.now }
    {
        self.size() > self.grain
    }

    /// Keeps the places before the middle, and returns those from the middle on.
    pub fn split(&mut self) -> Span
        requires { IsDivisible self.old }
        ensures kept { self.new ≡ lower_half self.old }
        ensures given { result ≡ upper_half self.old }
    {
        self.cut_at(self.from + self.size() / 2)
    }

    /// Keeps the first places, and returns the rest, in the ratio of `left` to `right`. The first part is rounded down,
    /// but neither part is empty.
    pub fn split_at_ratio(&mut self, left: u64, right: u64) -> Span
        requires divisible { IsDivisible self.old }
        requires ratio { 0 < left + right }
        ensures kept { self.new ≡ lower_part self.old left right }
        ensures given { result ≡ upper_part self.old left right }
    {
        self.cut_at(self.from + part_of(self.size(), left, right))
    }

    // Keeps the places before one of them, and returns the rest.
    fn cut_at(&mut self, place: u64) -> Span
        requires from { self.old.from ≤ place }
        requires to { place ≤ self.old.to }
        ensures kept { self.new ≡ record self.old { to = place } }
        ensures given { result ≡ record self.old { from = place } }
    {
        let rest = Span {
            from: place,
            to: self.to,
            grain: self.grain,
        };
        self.to = place;
        rest
    }

    /// Returns the span itself if it is not divisible, and otherwise the leaves of its two halves in order.
    ///
    /// Its time and memory are linear in the number of leaves.
    pub fn leaves(&self, alloc: Global) -> Result<Vec<Span>, AllocError>
        ensures { IfOk result (λ leaves. AreLeaves self.now leaves.items) }
    {
        let mut leaves = Vec::new(alloc);
        push_leaves(*self, &mut leaves)?;
        Ok(leaves)
    }
}

// The number of places of the first part in the ratio. Neither part is empty.
fn part_of(size: u64, left: u64, right: u64) -> u64
    requires some { 1 < size }
    requires ratio { 0 < left + right }
    ensures value { result ≡ first_part size left right }
    ensures some { 0 < result }
    ensures fewer { result < size }
{
    let (left, right) = (left as u128, right as u128);
    let part = size as u128 * left / (left + right);
    part.min(size as u128 - 1).max(1) as u64
}

// Appends the leaves of a span.
fn push_leaves(span: Span, leaves: &mut Vec<Span>) -> Result<(), AllocError>
    ensures { IfOk result (λ _. (made : List _) × (leaves.new.items ≡ leaves.old.items ++ made)
        × AreLeaves span made) }
{
    if !span.is_divisible() {
        leaves.push(span)?;
        return Ok(());
    }
    let mut lower = span;
    let upper = lower.split();
    push_leaves(lower, leaves)?;
    push_leaves(upper, leaves)?;
    Ok(())
}
