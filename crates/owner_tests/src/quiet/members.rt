// Members of lists over many segments, forwards, backwards and from both ends.
use super::layouts::layout_of;
use super::steps::{pushes_all, resized};
use quiet_core::{MemberSegment, Members, Quiet, QuietError};
use seg_core::Layout;
use std::alloc::Global;

const LEN: u64 = 1 << 17;

// Two members are broken, in the last segment but one.
const FIRST_BROKEN: u64 = 40_000;

const SECOND_BROKEN: u64 = 40_001;

// The member at a place.
fn wanted(place: u64) -> Option<u64> {
    if place == FIRST_BROKEN || place == SECOND_BROKEN {
        None
    } else {
        Some(place)
    }
}

// The list of these members.
fn broken_in_the_middle(alloc: Global, layout: Layout) -> Option<Quiet<u64>> {
    let mut list = Quiet::new_in(alloc, layout, 1 << 32);
    let refused = Err(QuietError::Refused { made: FIRST_BROKEN });
    let is_made = resized(&mut list, SECOND_BROKEN + 1, 0, FIRST_BROKEN)
        == (refused, Some(FIRST_BROKEN + 1))
        && pushes_all(&mut list, SECOND_BROKEN + 1, LEN);
    is_made.then_some(list)
}

fn come_forwards(list: &Quiet<u64>) -> bool {
    let mut place = 0u64;
    for member in list {
        if member.copied() != wanted(place) {
            return false;
        }
        place = place.wrapping_add(1);
    }
    place == LEN
}

// Ranges that begin and end in the middle of a segment, at a broken member, at the end, past it, and before their
// beginning.
static RANGES: [(u64, u64); 6] = [
    (1_000, 70_000),
    (40_000, 40_001),
    (LEN - 1, LEN),
    (LEN - 1, LEN + 5),
    (LEN + 1, LEN + 2),
    (5, 2),
];

// Tests whether a range has the members at its places, and none past the end.
fn come_between(list: &Quiet<u64>, from: u64, to: u64) -> bool {
    let mut place = from;
    for member in list.range(from, to) {
        if member.copied() != wanted(place) {
            return false;
        }
        place = place.wrapping_add(1);
    }
    place == to.min(LEN).max(from)
}

fn come_in_ranges(list: &Quiet<u64>) -> bool {
    for (from, to) in RANGES.as_slice() {
        if !come_between(list, *from, *to) {
            return false;
        }
    }
    true
}

// Tests whether the next member from the front, and then the last one, are those at these places.
fn come_next(members: &mut Members<'_, u64>, first: u64, last: u64) -> bool {
    let front = members.next().map(|member| member.copied());
    let back = members.next_back().map(|member| member.copied());
    front == Some(wanted(first)) && back == Some(wanted(last))
}

fn come_from_both_ends(list: &Quiet<u64>) -> bool {
    let mut members = list.iter();
    for place in 0..LEN / 2 {
        if !come_next(&mut members, place, LEN - 1 - place) {
            return false;
        }
    }
    members.len() == 0 && members.next().is_none() && members.next_back().is_none()
}

// Tests whether the last member comes from the back in the middle of a segment, and a copy goes on like the original.
fn copies_go_on(list: &Quiet<u64>) -> bool {
    let mut members = list.iter();
    for _place in 0..100_000 {
        if members.next().is_none() {
            return false;
        }
    }
    let Ok(mut copy) = members.clone() else {
        return false;
    };
    come_next(&mut members, 100_000, 131_071)
        && come_next(&mut copy, 100_000, 131_071)
        && come_next(&mut copy, 100_001, 131_070)
        && members.len() == 31_070
        && copy.len() == 31_068
}

// How many segments lend their members, and the first place and the number of members of the last one that lends none.
fn lent(list: &Quiet<u64>) -> (u64, Option<(u64, u64)>) {
    let (mut count, mut broken) = (0u64, None);
    for segment in list.segments() {
        match segment {
            MemberSegment::Values(_) => count = count.wrapping_add(1),
            MemberSegment::Broken { from, n } => broken = Some((from, n)),
        }
    }
    (count, broken)
}

fn are_in_order(list: &Quiet<u64>, segments: u64) -> bool {
    come_forwards(list)
        && come_in_ranges(list)
        && come_from_both_ends(list)
        && copies_go_on(list)
        && lent(list) == (segments.saturating_sub(1), Some((32_768, 32_768)))
        && list.first_broken() == Some(FIRST_BROKEN)
}

// Tests whether each place has its number.
fn are_places(values: &[u64]) -> bool {
    let mut place = 0u64;
    for value in values {
        if *value != place {
            return false;
        }
        place = place.wrapping_add(1);
    }
    place == LEN
}

// Mends the broken members, and tests whether the list knows which one is the first.
fn mends_both(list: &mut Quiet<u64>, segments: u64) -> bool {
    list.mend(FIRST_BROKEN, FIRST_BROKEN).is_ok()
        && list.first_broken() == Some(SECOND_BROKEN)
        && list.mend(SECOND_BROKEN, SECOND_BROKEN).is_ok()
        && list.first_broken().is_none()
        && lent(list) == (segments, None)
}

// The list again, once it was opened and closed.
fn after_a_life(list: Quiet<u64>) -> Option<Quiet<u64>> {
    let (vector, hand) = list.open().ok()?;
    Some(Quiet::close(vector, hand))
}

// Tests whether the members come in order before and after a life, and are a vector once all are mended.
fn come_in_order(alloc: Global, layout: Layout, segments: u64) -> Option<bool> {
    let list = broken_in_the_middle(alloc, layout)?;
    let before = are_in_order(&list, segments);
    let mut list = after_a_life(list)?;
    let after = are_in_order(&list, segments) && mends_both(&mut list, segments);
    let values = after_a_life(list)?.into_vec().ok()?;
    Some(before && after && are_places(&values))
}

#[test]
fn members_come_in_order_over_a_segment_with_broken_ones(rt: HostRuntime) {
    for (f, segments) in [(1, 17), (8, 10)].as_slice() {
        let layout = layout_of(&rt, *f);
        assert!(rt;
            come_in_order(rt.alloc(), layout, *segments) == Some(true),
            "{f}"
        );
    }
}
