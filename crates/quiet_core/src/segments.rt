//! The members of a list that lie side by side, segment by segment.
ghost use Rattle.std.specs.Prelude.{◌≡◌, ◌-◌, length};
ghost use Rattle.std.specs.Iterator.{at_most};
ghost use Rattle.quiet_core.specs.Segments.{WalksBySegment};

use crate::quiet::Quiet;
use std::iter::FusedIterator;
use std::marker::Model;

/// The members of one segment, in order.
#[derive(Drop)]
pub enum MemberSegment<'a, T> {
    /// They are all values.
    Values(&'a [T]),
    /// One of them is broken: the place of the first one, and how many there are.
    Broken { from: u64, n: u64 },
}

/// The segments that are left, in order. An item has the members of a segment, of the last one those up to the length.
#[derive(Drop)]
pub struct MemberSegments<'a, T> {
    list: &'a Quiet<T>,
    from: u64,
}

impl<'a, T> Model for MemberSegments<'a, T> {
    ghost use Rattle.std.specs.Prelude.{◌≤◌, length};
    ghost use Rattle.quiet_core.specs.Segments.{SegmentsView, segments_coded};

    ghost Value = { SegmentsView T };

    ghost coded = { segments_coded T.code };

    ghost view = { λ s. record { list = s.list.now; from = s.from } };

    ghost invariant = { λ s. s.from ≤ length s.list.now.members };
}

impl<T> Quiet<T> {
    /// Iterates over the members by segments: each lends its members as a slice, unless one of them is broken. It looks
    /// at the state of each member if the list has a broken one, and otherwise at none.
    pub fn segments(&self) -> MemberSegments<'_, T>
        ensures list { result.list ≡ self.now }
        ensures from { result.from ≡ 0 }
    {
        MemberSegments {
            list: self,
            from: 0,
        }
    }
}

impl<'a, T> Iterator for MemberSegments<'a, T> {
    type Item = MemberSegment<'a, T>;

    ghost next_gives = { WalksBySegment };

    ghost remaining = { λ s. at_most (length s.list.members - s.from) };

    fn next(&mut self) -> Option<MemberSegment<'a, T>> {
        let (list, from) = (self.list, self.from);
        if from == list.len() {
            return None;
        }
        let n = list.parts.side_by_side(from);
        self.from += n;
        Some(match list.parts.slice(from, n) {
            Some(values) => MemberSegment::Values(values),
            None => MemberSegment::Broken { from, n },
        })
    }
}

impl<'a, T> FusedIterator for MemberSegments<'a, T> {}
