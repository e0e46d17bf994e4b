// What a whole hand's keys are for: each place that was claimed is found, by whichever hand it was claimed.
use super::callers::Callers;
use super::steps::Call::{Read, TryGrow, TryPush};
use super::steps::Reply::{At, Is, OutOfRange, Ran};
use super::steps::Step::{A, B};
use super::steps::{Call, Reply, Step};

static BY_BOTH: [(Step, Reply); 2] = [
    (A(TryPush(5)), At(0)),
    (B(TryGrow(&[6, 7, 8, 9])), Ran(1, 4)),
];

static EACH_PLACE: [(Call, Reply); 16] = [
    (Read(0), Is(5)),
    (Read(1), Is(6)),
    (Read(2), Is(7)),
    (Read(3), Is(8)),
    (Read(4), Is(9)),
    (Read(5), OutOfRange(5)),
    (Read(6), OutOfRange(5)),
    (Read(7), OutOfRange(5)),
    (Read(8), OutOfRange(5)),
    (Read(9), OutOfRange(5)),
    (Read(10), OutOfRange(5)),
    (Read(11), OutOfRange(5)),
    (Read(12), OutOfRange(5)),
    (Read(13), OutOfRange(5)),
    (Read(14), OutOfRange(5)),
    (Read(15), OutOfRange(5)),
];

#[test]
fn a_joined_hand_finds_each_place(rt: HostRuntime) {
    let mut two = Callers::new(&rt, 16);
    let wrong = two.first_wrong(&rt, &BY_BOTH);
    let mut life = two.joined();
    let then_wrong = life.first_wrong(&rt, &EACH_PLACE);
    drop(life);
    assert!(rt; (wrong, then_wrong) == (None, None));
}

// Appends up to the limit. The segments have two places each, and the hand has the key of one only once it has a place
// there.
fn knows_second_places(two: &mut Callers<u64>) -> bool {
    !two.knows_next()
        && two.push_seen(5) == Some(0)
        && two.knows_next()
        && two.push_seen(6) == Some(1)
        && !two.knows_next()
        && two.push_seen(7) == Some(2)
        && two.knows_next()
        && two.push_seen(8) == Some(3)
        && !two.knows_next()
}

#[test]
fn a_hand_knows_the_segments_of_its_places(rt: HostRuntime) {
    let mut two = Callers::new(&rt, 4);
    assert!(rt; knows_second_places(&mut two));
}
