//! Equality and order of lists, by their members alone.
ghost use Rattle.std.specs.Prelude.{◌≡◌};
ghost use Rattle.std.proofs.Common.{rules};
ghost use Rattle.std.specs.Cmp.{on_equiv, on_total, on_po, on_per};
ghost use Rattle.std.specs.Cmp.Lexicographic.{lists_per, lists_equiv, lists_po, lists_total, lists_agrees, lists_ties, pointwise, slice_cmp, slice_partial_cmp};
ghost use Rattle.std.specs.Option.{option_cmp, option_eq, option_partial_cmp};
ghost use Rattle.quiet_core.specs.QuietList.{same_members, partial_order, order};

use crate::iter::Members;
use crate::quiet::Quiet;
use std::cmp::Ordering;

// Tests whether both sides have equally many members, equal at each place.
fn are_same<T: PartialEq>(mut mine: Members<'_, T>, mut theirs: Members<'_, T>) -> bool
    ensures { result ≡ pointwise (option_eq T.eq) mine.entry theirs.entry }
{
    while let Some(a) = mine.next() {
        match theirs.next() {
            Some(b) if a == b => {}
            _ => return false,
        }
    }
    theirs.next().is_none()
}

// The order of the first two members at one place that differ.
fn partial_order_of<T: PartialOrd>(
    mut mine: Members<'_, T>,
    mut theirs: Members<'_, T>,
) -> Option<Ordering>
    ensures { result ≡ slice_partial_cmp
        (option_partial_cmp T.partial_cmp) mine.entry theirs.entry }
{
    while let Some(a) = mine.next() {
        let Some(b) = theirs.next() else {
            return Some(Ordering::Greater)
        };
        match a.partial_cmp(&b) {
            Some(Ordering::Equal) => {}
            other => return other,
        }
    }
    match theirs.next() {
        Some(_) => Some(Ordering::Less),
        None => Some(Ordering::Equal),
    }
}

// The same if any two values can be compared.
fn order_of<T: Ord>(mut mine: Members<'_, T>, mut theirs: Members<'_, T>) -> Ordering
    ensures { result ≡ slice_cmp (option_cmp T.cmp) mine.entry theirs.entry }
{
    while let Some(a) = mine.next() {
        let Some(b) = theirs.next() else {
            return Ordering::Greater
        };
        match a.cmp(&b) {
            Ordering::Equal => {}
            other => return other,
        }
    }
    match theirs.next() {
        Some(_) => Ordering::Less,
        None => Ordering::Equal,
    }
}

impl<T: PartialEq> PartialEq for Quiet<T> {
    ghost eq = { same_members T.eq };

    ghost laws = { on_per (λ q. q.members) (lists_per (Prim.search rules)) };

    fn eq(&self, other: &Self) -> bool {
        are_same(self.iter(), other.iter())
    }
}

impl<T: Eq> Eq for Quiet<T> {
    ghost laws = { on_equiv (λ q. q.members) (lists_equiv (Prim.search rules)) };
}

impl<T: PartialOrd> PartialOrd for Quiet<T> {
    ghost partial_cmp = { partial_order T.partial_cmp };

    ghost laws = { on_po (λ q. q.members) (lists_po (Prim.search rules)) };

    fn partial_cmp(&self, other: &Self) -> Option<Ordering> {
        partial_order_of(self.iter(), other.iter())
    }
}

impl<T: Ord> Ord for Quiet<T> {
    ghost cmp = { order T.cmp };

    ghost total = { on_total (λ q. q.members) (lists_total (Prim.search rules)) };

    ghost matches_partial_cmp = { λ a b. lists_agrees (Prim.search rules) a.members b.members };

    ghost matches_eq = { λ a b. lists_ties (option_cmp T.cmp)
        (Prim.search rules) a.members b.members };

    fn cmp(&self, other: &Self) -> Ordering {
        order_of(self.iter(), other.iter())
    }
}
