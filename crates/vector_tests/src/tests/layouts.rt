// Lives of vectors whose first segment has from 2 to 256 places.
use super::callers::Callers;
use super::edits::Edit::{Append, Get, Room, Sizes};
use super::edits::Found::{Capacity, Done, Member};
use super::edits::{Found, edited};
use super::lives::{Life, Story, has_lives};
use super::parts::{append, member, room};
use super::steps::Call::{Clones, Mend, Read, TryPush};
use super::steps::Reply::{At, Broken, Is, OutOfRange, Ran};
use super::steps::Step::{B, Look};
use super::steps::{Call, Reply, by_hand};
use grow_core::{GrowError, Parts};
use seg_core::Layout;
use std::alloc::AllocGlobal;
use std::sync::Wait;

// Places 1 to 301 are appended, and place 0 is mended. Places 255 and 256 are on either side of the end of a
// segment.
static MENDED: [Story; 1] = [(
    &[
        (TryPush(5), At(1)),
        (Clones(300, 7), Ran(2, 300)),
        (Mend(0, 9), At(0)),
        (Read(0), Is(9)),
        (Read(1), Is(5)),
        (Read(255), Is(7)),
        (Read(256), Is(7)),
        (Read(301), Is(7)),
        (Read(302), OutOfRange(302)),
    ],
    &[
        (Sizes, Found::Sizes(302, 1_000, 512)),
        (Get(0), Member(Some(9))),
        (Get(1), Member(Some(5))),
        (Get(301), Member(Some(7))),
    ],
)];

#[test]
fn a_vector_of_each_layout_is_grown_mended_and_closed(rt: HostRuntime) {
    for f in 1..9u32 {
        let edits = [(Room(1), Capacity(1 << f)), (Append(None), Done)];
        assert!(rt; has_lives(&rt, f, 1_000, &edits, &MENDED), "{f}");
    }
}

// How many of the places from one on show that they are broken: to a look, and to a hand.
fn count_broken<R: AllocGlobal + Wait>(
    rt: &R,
    two: &mut Callers<u64>,
    from: u64,
    end: u64,
) -> (u64, u64) {
    let (mut looks, mut hands) = (0u64, 0u64);
    for place in from..end {
        if two.take(rt, Look(place)) == Broken {
            looks = looks.wrapping_add(1);
        }
        if two.take(rt, B(Read(place))) == Broken {
            hands = hands.wrapping_add(1);
        }
    }
    (looks, hands)
}

// Tests whether a construction of n places is refused at one of them.
fn is_refused(two: &mut Callers<u64>, n: u64, at: u64) -> bool {
    let make = |i: u64| -> Result<u64, u64> { if i == at { Err(9) } else { Ok(i) } };
    match two.vector.try_grow_with(&mut two.a, n, make) {
        Err(GrowError::Refused { made, cause, .. }) => (made.run().n, cause) == (at, 9),
        _ => false,
    }
}

// Tests whether each place from one on is mended with its number, and shows it.
fn mends_each<R: AllocGlobal + Wait>(rt: &R, two: &mut Callers<u64>, from: u64, end: u64) -> bool {
    for place in from..end {
        if two.take(rt, B(Mend(place, place))) != At(place)
            || two.take(rt, Look(place)) != Is(place)
        {
            return false;
        }
    }
    true
}

// Tests whether a refused construction of n places breaks those from one on, and all but the last are mended.
fn breaks_and_mends_on<R: AllocGlobal + Wait>(
    rt: &R,
    two: &mut Callers<u64>,
    n: u64,
    at: u64,
) -> bool {
    let (made, broken) = (at.wrapping_sub(1), n.wrapping_sub(at));
    is_refused(two, n, at)
        && two.take(rt, Look(made)) == Is(made)
        && count_broken(rt, two, at, n) == (broken, broken)
        && mends_each(rt, two, at, n.wrapping_sub(1))
        && count_broken(rt, two, 0, n) == (1, 1)
}

// The same on a vector whose first segment has 2^f places.
fn breaks_and_mends<R: AllocGlobal + Wait>(rt: &R, f: u32, n: u64, at: u64) -> bool {
    let Some(layout) = Layout::new(f) else {
        return false;
    };
    let mut made = Callers::try_new_in(rt.alloc(), layout, 1_001);
    let is_so = match &mut made {
        Ok(two) => breaks_and_mends_on(rt, two, n, at),
        Err(_refused) => false,
    };
    drop(made);
    is_so
}

// The first segment's exponent, the number of places of a construction, over three segments, and the one that
// is refused.
static BROKEN: [(u32, u64, u64); 5] = [
    (1, 7, 1),
    (3, 31, 1),
    (3, 31, 9),
    (8, 1_000, 2),
    (8, 1_000, 300),
];

#[test]
fn a_refused_construction_breaks_its_places_in_each_layout_and_each_is_mended(rt: HostRuntime) {
    for (f, n, at) in BROKEN.as_slice() {
        assert!(rt; breaks_and_mends(&rt, *f, *n, *at), "{f} {n} {at}");
    }
}

// How many members a list has before it is opened: more than the first segment of each layout.
const MEMBERS: u64 = 1_000;

// The member at a place of it: its number, or none.
fn member_of(place: u64) -> Option<u64> {
    if place % 7 == 3 { None } else { Some(place) }
}

// Tests whether members are appended to a list, each seventh of them broken.
fn appends_many(parts: &mut Parts<u64>) -> bool {
    for place in 0..MEMBERS {
        if !append(parts, member_of(place)) {
            return false;
        }
    }
    true
}

// Tests whether a vector of the list shows each member, and is then pushed to, and two broken members mended.
fn reads_all_and_goes_on<R: AllocGlobal + Wait>(rt: &R, life: &mut Life<u64>) -> bool {
    for place in 0..MEMBERS {
        let wanted = match member_of(place) {
            Some(value) => Is(value),
            None => Broken,
        };
        if by_hand(rt, &life.vector, &mut life.hand, Read(place)) != wanted {
            return false;
        }
    }
    life.first_wrong(rt, &GOES_ON) == None
}

static GOES_ON: [(Call, Reply); 4] = [
    (TryPush(5), At(MEMBERS)),
    (TryPush(6), At(MEMBERS + 1)),
    (Mend(3, 9), At(3)),
    (Mend(997, 9), At(997)),
];

// Tests whether the closed list has the members still, and what was appended and mended.
fn has_all(parts: &Parts<u64>) -> bool {
    for place in 0..MEMBERS {
        let is_mended = place == 3 || place == 997;
        let wanted = if is_mended { Some(9) } else { member_of(place) };
        if member(parts, place) != Some(wanted) {
            return false;
        }
    }
    (member(parts, MEMBERS), member(parts, MEMBERS + 1)) == (Some(Some(5)), Some(Some(6)))
        && parts.len() == MEMBERS + 2
}

// Tests whether a list of these members does so once it is opened, and then closed.
fn opens_and_has_all<R: AllocGlobal + Wait>(rt: &R, parts: Parts<u64>) -> bool {
    match Life::open(parts) {
        Some(mut life) => {
            let is_read = reads_all_and_goes_on(rt, &mut life);
            let closed = life.close();
            let has_them = match &closed {
                Some(parts) => has_all(parts),
                None => false,
            };
            drop(closed);
            is_read && has_them
        }
        None => false,
    }
}

// The same of a new list whose first segment has 2^f places.
fn lives_with_many<R: AllocGlobal + Wait>(rt: &R, f: u32) -> bool {
    match edited(rt.alloc(), f, 2_000, &[]) {
        Some(mut parts) => {
            let is_made = room(&mut parts, MEMBERS) == Ok(true) && appends_many(&mut parts);
            opens_and_has_all(rt, parts) && is_made
        }
        None => false,
    }
}

#[test]
fn a_list_of_a_thousand_members_is_opened_in_each_layout(rt: HostRuntime) {
    for f in [1u32, 3, 8].as_slice() {
        assert!(rt; lives_with_many(&rt, *f), "{f}");
    }
}
