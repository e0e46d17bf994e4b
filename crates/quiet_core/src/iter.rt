//! The members of a list, one by one, from both ends.
ghost use Rattle.std.specs.Prelude.{◌≡◌, ⊤, ◌+◌, ◌<◌, ◌≤◌, Some, length, slice_get, IfSome};
ghost use Rattle.std.specs.Option.{option_copied};
ghost use Rattle.std.specs.Iterator.{YieldsFirstBy, YieldsLastBy, UpTo, at_most, item_count};
ghost use Rattle.std.specs.Iterator.SizeHint.{IsWithinCount};
ghost use Rattle.quiet_core.specs.Between.{AreValuesFrom, between};

use crate::quiet::Quiet;
use grow_core::Parts;
use std::alloc::AllocError;
use std::iter::FusedIterator;
use std::marker::Model;

/// The members that are left, in order. An item is `None` for a broken member.
#[derive(Drop)]
pub struct Members<'a, T> {
    parts: &'a Parts<T>,
    to: u64,
    // The values of members that lie side by side: those from this place on.
    from: u64,
    ahead: &'a [T],
    // How many of them were returned from the front. An item that is one of them changes this number alone.
    passed: usize,
    // Up to this place it is known whether there are such values.
    known_to: u64,
}

impl<'a, T> Model for Members<'a, T> {
    ghost use Rattle.std.specs.Prelude.{◌+◌, ◌≤◌, List, Option, length};
    ghost use Rattle.std.specs.Coded.{coded_option};
    ghost use base.Stored.{coded_list};
    ghost use Rattle.quiet_core.specs.Between.{between, AreValuesFrom};

    ghost Value = { List (Option T) };

    ghost coded = { coded_list (coded_option T.code) };

    ghost view = { λ m. between m.parts.now.members (m.from + m.passed) m.to };

    ghost invariant = { λ m. (m.passed ≤ length m.ahead.now) × (m.from + length m.ahead.now ≤ m.to)
        × (m.to ≤ length m.parts.now.members)
        × AreValuesFrom m.parts.now.members m.from m.ahead.now };
}

// The value with this number.
#[inline(always)]
fn value_at<T>(values: &[T], i: usize) -> &T
    requires { i < length values.now }
    ensures { slice_get values.now i ≡ Some result.now }
{
    &values[i]
}

// The values of the members from a place on that lie side by side, up to `to`, and the place after those members. There
// are no values if one of the members is broken, or if the place is below `known_to`: then this is known already.
#[cold]
#[inline(never)]
fn look_ahead<T>(parts: &Parts<T>, from: u64, to: u64, known_to: u64) -> (&[T], u64)
    requires some { from < to }
    requires within { to ≤ length parts.now.members }
    ensures values { AreValuesFrom parts.now.members from result.0.now }
    ensures few { from + length result.0.now ≤ to }
{
    let none: &[T] = &[];
    if from < known_to {
        return (none, known_to);
    }
    let n = parts.side_by_side(from).min(to - from);
    match parts.slice(from, n) {
        Some(values) => (values, from + n),
        None => (none, from + n),
    }
}

// Finds the values that lie side by side with the next member. Returns the place of the first of them, the values, and
// how many come before the next member: of those that were found before, if one is left, and otherwise of those that a
// look finds. Returns `None` if the member is broken or lies beside a broken one, and at the end. Also returns up to
// which place this is known.
#[inline(always)]
fn values_ahead<'a, T>(
    parts: &'a Parts<T>,
    at_hand: (u64, &'a [T], usize),
    to: u64,
    known_to: u64,
) -> (Option<(u64, &'a [T], usize)>, u64)
    requires passed { at_hand.2 ≤ length at_hand.1.now }
    requires order { at_hand.0 + length at_hand.1.now ≤ to }
    requires within { to ≤ length parts.now.members }
    requires values { AreValuesFrom parts.now.members at_hand.0 at_hand.1.now }
    ensures place { IfSome result.0
        (λ (from, _, passed). from + passed ≡ at_hand.entry.0 + at_hand.entry.2) }
    ensures more { IfSome result.0 (λ (_, ahead, passed). passed < length ahead.now) }
    ensures within { IfSome result.0 (λ (from, ahead, _). from + length ahead.now ≤ to) }
    ensures values { IfSome result.0
        (λ (from, ahead, _). AreValuesFrom parts.now.members from ahead.now) }
{
    let (from, ahead, passed) = at_hand;
    if passed < ahead.len() {
        return (Some((from, ahead, passed)), known_to);
    }
    let place = from + passed as u64;
    if place == to {
        return (None, known_to);
    }
    let (found, known_to) = look_ahead(parts, place, to, known_to);
    if 0 < found.len() {
        return (Some((place, found, 0)), known_to);
    }
    (None, known_to)
}

impl<T> Quiet<T> {
    /// Iterates over the members in order of place. Forwards it goes through each segment without a broken member as
    /// through a slice; if the list has a broken member, it first looks at the members of each segment. Backwards it
    /// looks at one member at a time.
    pub fn iter(&self) -> Members<'_, T>
        ensures { result ≡ self.now.members }
    {
        let none: &[T] = &[];
        Members {
            parts: &self.parts,
            to: self.parts.len(),
            from: 0,
            ahead: none,
            passed: 0,
            known_to: 0,
        }
    }

    /// Iterates over the members from one place up to another, in the same way. There are none from the length on.
    pub fn range(&self, from: u64, to: u64) -> Members<'_, T>
        ensures { result ≡ between self.now.members from to }
    {
        let none: &[T] = &[];
        let to = to.min(self.parts.len());
        Members {
            parts: &self.parts,
            to,
            from: from.min(to),
            ahead: none,
            passed: 0,
            known_to: 0,
        }
    }
}

impl<'a, T> IntoIterator for &'a Quiet<T> {
    type Item = Option<&'a T>;

    type IntoIter = Members<'a, T>;

    ghost into_iter_gives = { λ list it. it ≡ list.now.members };

    fn into_iter(self) -> Members<'a, T> {
        self.iter()
    }
}

impl<'a, T> Iterator for Members<'a, T> {
    type Item = Option<&'a T>;

    ghost next_gives = { YieldsFirstBy option_copied (λ rest. rest) };

    ghost remaining = { item_count (λ rest. rest) };

    // It is laid into the loop of a walk, and passes no `&mut` on, so that the fields of the walk can lie in registers.
    #[inline(always)]
    fn next(&mut self) -> Option<Option<&'a T>> {
        let at_hand = (self.from, self.ahead, self.passed);
        let (values, known_to) = values_ahead(self.parts, at_hand, self.to, self.known_to);
        self.known_to = known_to;
        if let Some((from, ahead, passed)) = values {
            self.from = from;
            self.ahead = ahead;
            self.passed = passed + 1;
            return Some(Some(value_at(ahead, passed)));
        }
        let place = self.from + self.passed as u64;
        if place == self.to {
            return None;
        }
        let none: &[T] = &[];
        self.from = place + 1;
        self.ahead = none;
        self.passed = 0;
        let first = self.parts.get(place);
        Some(first)
    }

    fn size_hint(&self) -> (usize, Option<usize>)
        ensures lower { IsWithinCount result.0 (at_most (length self.now)) }
        ensures upper { IfSome result.1 (UpTo (at_most (length self.now))) }
        ensures exact { (result.0 ≡ length self.now) × (result.1 ≡ Some (length self.now)) }
    {
        let left = self.len();
        (left, Some(left))
    }
}

impl<'a, T> DoubleEndedIterator for Members<'a, T> {
    ghost next_back_gives = { YieldsLastBy option_copied (λ rest. rest) };

    fn next_back(&mut self) -> Option<Option<&'a T>> {
        if self.from + self.passed as u64 == self.to {
            return None;
        }
        self.to -= 1;
        let ahead = self.ahead;
        let left = (self.to - self.from) as usize;
        self.ahead = &ahead[..ahead.len().min(left)];
        Some(self.parts.get(self.to))
    }
}

impl<'a, T> ExactSizeIterator for Members<'a, T> {
    fn len(&self) -> usize {
        (self.to - (self.from + self.passed as u64)) as usize
    }
}

impl<'a, T> FusedIterator for Members<'a, T> {}

impl<'a, T> Clone for Members<'a, T> {
    ghost is_clone = { λ it copy. copy ≡ it };

    ghost is_infallible = { λ _. ⊤ };

    fn clone(&self) -> Result<Self, AllocError> {
        Ok(Members {
            parts: self.parts,
            to: self.to,
            from: self.from,
            ahead: self.ahead,
            passed: self.passed,
            known_to: self.known_to,
        })
    }
}
