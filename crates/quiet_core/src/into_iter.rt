//! The members of a list, moved out of it one by one, from both ends.
ghost use Rattle.std.specs.Prelude.{◌≡◌, length, IfSome};
ghost use Rattle.std.specs.Iterator.{YieldsFirst, YieldsLast, UpTo, at_most, item_count};
ghost use Rattle.std.specs.Iterator.SizeHint.{IsWithinCount};

use crate::quiet::Quiet;
use grow_core::Parts;
use std::iter::FusedIterator;
use std::marker::Model;

/// The members that are left, in order of place. An item is `None` for a broken member. The iterator takes no
/// memory, and dropping it drops the members that are left.
#[derive(Drop)]
pub struct IntoMembers<T> {
    parts: Parts<T>,
    from: u64,
}

impl<T> Model for IntoMembers<T> {
    ghost use Rattle.std.specs.Prelude.{◌≤◌, List, Option, length, drop};
    ghost use Rattle.std.specs.Coded.{coded_option};
    ghost use base.Stored.{coded_list};

    ghost Value = { List (Option T) };

    ghost coded = { coded_list (coded_option T.code) };

    ghost view = { λ m. drop m.from m.parts.members };

    ghost invariant = { λ m. m.from ≤ length m.parts.members };
}

impl<T: Drop> IntoIterator for Quiet<T> {
    type Item = Option<T>;

    type IntoIter = IntoMembers<T>;

    ghost into_iter_gives = { λ list it. it ≡ list.members };

    fn into_iter(self) -> IntoMembers<T> {
        let parts = self.into_parts();
        IntoMembers { parts, from: 0 }
    }
}

impl<T: Drop> Iterator for IntoMembers<T> {
    type Item = Option<T>;

    ghost next_gives = { YieldsFirst (λ rest. rest) };

    ghost remaining = { item_count (λ rest. rest) };

    fn next(&mut self) -> Option<Option<T>> {
        if self.from == self.parts.len() {
            return None;
        }
        let first = self.parts.replace(self.from, None);
        self.from += 1;
        Some(first)
    }

    fn size_hint(&self) -> (usize, Option<usize>)
        ensures lower { IsWithinCount result.0 (at_most (length self.now)) }
        ensures upper { IfSome result.1 (UpTo (at_most (length self.now))) }
        ensures exact { (result.0 ≡ length self.now) × (result.1 ≡ Some (length self.now)) }
    {
        let left = self.len();
        (left, Some(left))
    }
}

impl<T: Drop> DoubleEndedIterator for IntoMembers<T> {
    ghost next_back_gives = { YieldsLast (λ rest. rest) };

    fn next_back(&mut self) -> Option<Option<T>> {
        if self.from == self.parts.len() {
            return None;
        }
        Some(self.parts.pop())
    }
}

impl<T: Drop> ExactSizeIterator for IntoMembers<T> {
    fn len(&self) -> usize {
        (self.parts.len() - self.from) as usize
    }
}

impl<T: Drop> FusedIterator for IntoMembers<T> {}
