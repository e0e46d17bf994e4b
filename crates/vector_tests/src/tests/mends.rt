// Broken places that are mended.
ghost use Rattle.std.specs.Prelude.{◌≡◌};
ghost use Rattle.std.specs.Thread.{IsSync};
ghost use Rattle.grow_core.specs.Vector.{IsHandOf};

use super::callers::{Callers, on_two};
use super::drops::Counted;
use super::edits::Edit::Members;
use super::edits::Found::Done;
use super::edits::{Edit, Found, ends_as};
use super::lives::live;
use super::steps::Call::{Make, Mend, Read};
use super::steps::Reply::{At, Broken, Filled, Is, OutOfRange, Pending, Refused};
use super::steps::Step::{A, B};
use super::steps::{Call, Form, Reply, Step, closed_after, ends_after, mend, read};
use grow_core::{Hand, Shared};
use std::alloc::AllocGlobal;
use std::process::Abort;
use std::sync::atomic::{AtomicU64, Ordering};
use std::thread::{Threads, join};

// The last two of three places are broken. The hand that mends has not seen the size before.
static MENDS: [(Step, Reply); 9] = [
    (A(Make(Form::Try, 3, 1)), Refused(0, 3, 1)),
    (B(Read(1)), Broken),
    (B(Mend(1, 20)), At(1)),
    (B(Read(1)), Is(20)),
    (B(Read(2)), Broken),
    (A(Mend(1, 30)), Filled(20)),
    (A(Mend(0, 30)), Filled(7)),
    (B(Mend(3, 30)), OutOfRange(3)),
    (B(Mend(u64::MAX, 30)), OutOfRange(3)),
];

static MENDED: [(Edit, Found); 1] = [(Members(&[Some(7), Some(20), None]), Done)];

#[test]
fn a_broken_place_is_mended_once(rt: HostRuntime) {
    assert!(rt; ends_after(&rt, 8, &MENDS, &MENDED));
}

static BREAKS: [(Step, Reply); 1] = [(A(Make(Form::Try, 3, 1)), Refused(0, 3, 1))];

// Its neighbour stays broken.
static MENDS_ONE: [(Call, Reply); 7] = [
    (Read(1), Broken),
    (Read(2), Broken),
    (Mend(1, 20), At(1)),
    (Read(1), Is(20)),
    (Read(2), Broken),
    (Mend(1, 30), Filled(20)),
    (Mend(0, 30), Filled(7)),
];

#[test]
fn a_member_that_was_broken_is_mended_once_the_list_is_open(rt: HostRuntime) {
    let broken = closed_after(&rt, 8, &BREAKS);
    assert!(rt; ends_as(live(&rt, broken, &MENDS_ONE), &MENDED));
}

// Tests whether a construction is refused, so that the second of two places is broken.
fn breaks_second<'a>(two: &mut Callers<Counted<'a>>, drops: &'a AtomicU64) -> bool {
    let make = |i: u64| -> Result<Counted<'_>, u64> {
        if i == 0 { Ok(Counted(drops)) } else { Err(i) }
    };
    let grown = two.vector.try_grow_with(&mut two.a, 2, make);
    let is_refused = grown.is_err();
    drop(grown);
    is_refused
}

// Tests whether a value is placed by a mend. Otherwise it is dropped.
fn mends_at<'a>(two: &mut Callers<Counted<'a>>, place: u64, drops: &'a AtomicU64) -> bool {
    let mended = two.vector.mend(&mut two.b, place, Counted(drops));
    let is_mended = mended.is_ok();
    drop(mended);
    is_mended
}

// How many values were dropped: that which is given back, and at the end the two that the vector has.
fn mends_counted<'a>(two: &mut Callers<Counted<'a>>, drops: &'a AtomicU64) -> bool {
    breaks_second(two, drops)
        && mends_at(two, 1, drops)
        && drops.load(Ordering::SeqCst) == 0
        && !mends_at(two, 0, drops)
        && drops.load(Ordering::SeqCst) == 1
}

#[test]
fn a_mended_value_is_dropped_once(rt: HostRuntime) {
    let drops = AtomicU64::new(0);
    assert!(rt; on_two(&rt, 4, |two| mends_counted(two, &drops)));
    assert_eq!(rt; drops.load(Ordering::SeqCst), 3);
}

// How many places are broken before threads mend them.
const PLACES: u64 = 10_000;

// Mends all places with a value, and returns how many it won. If another value was first, the value comes
// back.
fn mend_each<R: Abort>(
    rt: &R,
    vector: &Shared<u64>,
    mut hand: Hand<u64>,
    value: u64,
) -> (Hand<u64>, u64)
    requires ours { IsHandOf vector.now hand }
    ensures { result.0.of ≡ vector.now.word }
{
    let mut won = 0u64;
    for place in 0..PLACES {
        match mend(vector, &mut hand, place, value) {
            At(at) if at == place => won = won.wrapping_add(1),
            Pending | Filled(_) => {}
            _ => panic!(rt; "place {place} is not mended"),
        }
    }
    (hand, won)
}

// Two threads mend all places, with 1 and with 2: how many each won.
fn mend_by_two<R: Threads + Abort + Sync>(
    rt: &R,
    vector: &Shared<u64>,
    a: Hand<u64>,
    b: Hand<u64>,
) -> (Hand<u64>, u64, u64)
    requires ours { IsHandOf vector.now a }
    requires also_ours { IsHandOf vector.now b }
    ensures { result.0.of ≡ vector.now.word }
{
    let ((mut all, ones), (other, twos)) = join(
        rt,
        || -> (Hand<u64>, u64)
            requires { IsSync R.row × IsHandOf vector.now a }
            ensures { result.0.of ≡ vector.entry.now.word }
        { mend_each(rt, vector, a, 1) },
        || -> (Hand<u64>, u64)
            requires { IsSync R.row × IsHandOf vector.now b }
            ensures { result.0.of ≡ vector.entry.now.word }
        { mend_each(rt, vector, b, 2) },
    );
    vector.join(&mut all, other);
    (all, ones, twos)
}

// How many places have the value.
fn count(vector: &Shared<u64>, hand: &mut Hand<u64>, value: u64) -> u64
    requires ours { IsHandOf vector.now hand.old }
    ensures { hand.new.of ≡ hand.old.of }
{
    let mut found = 0u64;
    for place in 0..PLACES {
        if read(vector, hand, place) == Is(value) {
            found = found.wrapping_add(1);
        }
    }
    found
}

// A third caller finds exactly what the two won.
#[test]
fn two_threads_that_mend_one_place_leave_one_value(rt: HostRuntime) {
    let mut two = Callers::new(&rt, PLACES);
    let broken = two.take(&rt, A(Make(Form::Try, PLACES, 0)));
    let Callers { vector, a, b } = two;
    let (mut all, ones, twos) = mend_by_two(&rt, &vector, a, b);
    let found = (count(&vector, &mut all, 1), count(&vector, &mut all, 2));
    drop(all);
    drop(vector);
    assert!(rt; broken == Refused(0, PLACES, 0) && ones.wrapping_add(twos) == PLACES);
    assert!(rt; found == (ones, twos));
}
