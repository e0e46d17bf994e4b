mod asked;
mod callers;
mod calls;
mod copies;
mod drops;
mod edits;
mod filled;
mod first;
mod growth_calls;
mod histories;
mod keys;
mod large;
mod layouts;
mod lives;
mod made;
mod memory;
mod mends;
mod mixed;
mod parts;
mod race;
mod refusals;
mod says;
mod segments;
mod shown;
mod slices;
mod steps;
mod tokens;
mod tries;
mod uses;
mod ways;
mod whole_life;

use callers::Callers;
use steps::Call::{Push, Read, Seen, Share, Size, TryGrow, TryPush};
use steps::Reply::{At, Done, Is, OutOfRange, Ran};
use steps::Step::{A, B, Meet};
use steps::{Reply, Step, first_wrong};

#[test]
fn what_one_hand_appends_another_reads(rt: HostRuntime) {
    let steps = [
        (A(Push(5)), At(0)),
        (B(Read(0)), Is(5)),
        (B(Read(1)), OutOfRange(1)),
    ];
    assert_eq!(rt; first_wrong(&rt, 8, &steps), None);
}

// A hand's first look at the size shows what another appended.
#[test]
fn a_look_at_the_size_is_a_new_one(rt: HostRuntime) {
    assert_eq!(rt;
        first_wrong(&rt, 8, &[(A(Push(5)), At(0)), (B(Size), Is(1))]),
        None
    );
}

// The second hand has not seen the first push when it tries.
static IN_TURN: [(Step, Reply); 4] = [
    (A(TryPush(5)), At(0)),
    (B(Seen), Is(0)),
    (B(TryPush(6)), At(1)),
    (A(TryGrow(&[7, 8])), Ran(2, 2)),
];

// No other caller is at work, so nothing was lost.
#[test]
fn a_try_looks_at_the_size_anew(rt: HostRuntime) {
    assert_eq!(rt; first_wrong(&rt, 8, &IN_TURN), None);
}

static MEETING: [(Step, Reply); 6] = [
    (A(Share), Is(65_436)),
    (B(Share), Is(100)),
    (B(TryPush(5)), At(0)),
    (Meet, Done),
    (A(Seen), Is(1)),
    (B(Seen), Is(1)),
];

#[test]
fn hands_meet_and_join(rt: HostRuntime) {
    let mut two = Callers::new(&rt, 8);
    let wrong = two.first_wrong(&rt, &MEETING);
    assert!(rt; two.end() == Some(1) && wrong == None);
}
