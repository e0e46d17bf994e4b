// Growths whose values are made in place, and constructions that are refused.
ghost use Rattle.std.specs.Prelude.{◌≡◌, ◌+◌, ◌≤◌, All, IfSome};
ghost use Rattle.grow_core.specs.Vector.{IsHandOf};
ghost use Rattle.grow_core.specs.Grown.{IsGrownOf, values_of};

use super::callers::{Callers, on_two, place_of};
use super::edits::Edit::{Members, Sizes};
use super::edits::Found::Done;
use super::edits::{Edit, Found};
use super::steps::Call::{Make, Push, Read, TryPush};
use super::steps::Reply::{At, Broken, Enough, Full, Is, Pending, Ran, Refused};
use super::steps::Step::{A, B};
use super::steps::{Form, NONE, Reply, Step, ends_after, first_wrong, mend, read};
use grow_core::{GrowError, Grown, Hand, Never, Run, Shared};
use std::alloc::{AllocError, AllocGlobal};
use std::process::Abort;
use std::sync::atomic::{AtomicU64, Ordering};

// The number that a maker of three values refuses, and what is left of a run in the closed list.
const REFUSED: [(u64, [(Edit, Found); 1]); 3] = [
    (0, [(Members(&[None, None, None, Some(5)]), Done)]),
    (1, [(Members(&[Some(7), None, None, Some(5)]), Done)]),
    (2, [(Members(&[Some(7), Some(7), None, Some(5)]), Done)]),
];

#[test]
fn a_refused_construction_breaks_its_own_places_alone(rt: HostRuntime) {
    for (at, left) in REFUSED.as_slice() {
        let steps = [
            (A(Make(Form::Try, 3, *at)), Refused(0, 3, *at)),
            (A(TryPush(5)), At(3)),
            (B(Read(3)), Is(5)),
        ];
        assert!(rt; ends_after(&rt, 8, &steps, left), "{at}");
    }
}

// Another caller looks at a broken place.
static BREAKS: [(Step, Reply); 2] = [
    (A(Make(Form::Try, 3, 1)), Refused(0, 3, 1)),
    (B(Read(2)), Broken),
];

static TWO_BROKEN: [(Edit, Found); 2] = [
    (Sizes, Found::Sizes(3, 8, 4)),
    (Members(&[Some(7), None, None]), Done),
];

#[test]
fn broken_places_are_broken_in_the_closed_list(rt: HostRuntime) {
    assert!(rt; ends_after(&rt, 8, &BREAKS, &TWO_BROKEN));
}

static TO_SIZES: [(Step, Reply); 8] = [
    (A(Push(4)), At(0)),
    (A(Make(Form::UpTo, 3, NONE)), Ran(1, 2)),
    (A(Make(Form::UpTo, 3, NONE)), Enough(3)),
    (A(Make(Form::UpTo, 9, NONE)), Full(3)),
    (B(TryPush(5)), At(3)),
    (A(Make(Form::UpTo, 2, NONE)), Enough(4)),
    (A(Make(Form::UpTo, 8, NONE)), Ran(4, 4)),
    (B(Read(7)), Is(7)),
];

#[test]
fn a_growth_up_to_a_size_appends_what_is_missing(rt: HostRuntime) {
    assert_eq!(rt; first_wrong(&rt, 8, &TO_SIZES), None);
}

// A value whose clones find memory only a given number of times.
#[derive(Drop)]
struct Scarce<'a>(&'a AtomicU64);

impl Clone for Scarce<'_> {
    fn clone(&self) -> Result<Self, AllocError> {
        let Scarce(left) = self;
        if left.load(Ordering::SeqCst) == 0 {
            return Err(AllocError);
        }
        left.fetch_sub(1, Ordering::SeqCst);
        Ok(Scarce(*left))
    }
}

// The number of clones made of four, if only some find memory.
fn clones<'a>(two: &mut Callers<Scarce<'a>>, value: &Scarce<'a>) -> Option<u64> {
    let grown = two.vector.try_grow_by(&mut two.a, 4, value);
    let n = match &grown {
        Ok(grown) => Some(grown.run().n),
        Err(
            GrowError::Refused {
                made,
                cause: AllocError,
                ..
            },
        ) => Some(made.run().n),
        Err(_other) => None,
    };
    drop(grown);
    n
}

// The number of clones made of four if only some find memory, and the size after it.
fn clones_with<R: AllocGlobal + Abort>(rt: &R, memory: u64) -> (Option<u64>, u64) {
    let left = AtomicU64::new(memory);
    let mut two = Callers::new(rt, 8);
    let made = clones(&mut two, &Scarce(&left));
    let size = two.size_b();
    drop(two);
    (made, size)
}

// All four places were claimed.
#[test]
fn a_clone_without_memory_is_a_refused_construction(rt: HostRuntime) {
    for memory in 0..5u64 {
        assert!(rt; clones_with(&rt, memory) == (Some(memory), 4), "{memory}");
    }
}

// Another caller of the vector, for a maker to call.
#[derive(Drop)]
struct Other<'a> {
    vector: &'a Shared<u64>,
    hand: Hand<u64>,
    ghost ours: { IsHandOf vector.now hand },
}

impl Other<'_> {
    fn read(&mut self, place: u64) -> Reply {
        read(self.vector, &mut self.hand, place)
    }

    fn push(&mut self, value: u64) -> Option<u64> {
        place_of(self.vector.try_push_back(&mut self.hand, value))
    }

    fn mend(&mut self, place: u64, value: u64) -> Reply {
        mend(self.vector, &mut self.hand, place, value)
    }

    // A value for the maker of a run: its own place is pending, and what is appended besides comes after the
    // run. The sum of the value before and of that place.
    fn append_beside(&mut self, i: u64) -> u64 {
        let before = match i.checked_sub(1) {
            Some(last) => self.read(last),
            None => Is(6),
        };
        if self.read(i) != Pending {
            return 0;
        }
        match (before, self.push(100 + i.min(8))) {
            (Is(value), Some(place)) => value.wrapping_add(place),
            _ => 0,
        }
    }

    // Tests whether a run's places from one on are pending to a mend, which gives the value back.
    fn mends_nothing(&mut self, i: u64) -> bool {
        for place in i..3 {
            if self.mend(place, 90) != Pending {
                return false;
            }
        }
        true
    }
}

// The run of a growth whose maker calls the vector by another hand: it tries to mend, or appends.
fn grow_beside(
    vector: &Shared<u64>,
    hand: &mut Hand<u64>,
    other: &mut Other<'_>,
    mends: bool,
) -> Option<Run>
    requires ours { IsHandOf vector.now hand.old }
    ensures of { hand.new.of ≡ hand.old.of }
{
    let make = |i: u64| -> Result<u64, u64> {
        if !mends {
            Ok(other.append_beside(i))
        } else if other.mends_nothing(i) {
            Ok(i.wrapping_add(70))
        } else {
            Err(i)
        }
    };
    let grown = vector.try_grow_with(hand, 3, make);
    let run = match &grown {
        Ok(grown) => Some(grown.run()),
        Err(_refused) => None,
    };
    drop(grown);
    run
}

// Such a run, and what its last place shows.
fn grow_and_call(two: Callers<u64>, mends: bool) -> (Option<Run>, Reply) {
    let Callers { vector, mut a, b } = two;
    let mut other = Other {
        vector: &vector,
        hand: b,
    };
    let run = grow_beside(&vector, &mut a, &mut other, mends);
    let last = read(&vector, &mut a, 2);
    drop(other);
    drop(a);
    drop(vector);
    (run, last)
}

const THREE: Option<Run> = Some(Run { from: 0, n: 3 });

// The first value is 6 + 3, the place that the maker appended at; then 9 + 4, and 13 + 5.
#[test]
fn a_maker_may_look_at_the_vector_and_append_to_it(rt: HostRuntime) {
    assert!(rt; grow_and_call(Callers::new(&rt, 8), false) == (THREE, Is(18)));
}

#[test]
fn a_maker_that_mends_its_own_place_finds_it_pending(rt: HostRuntime) {
    assert!(rt; grow_and_call(Callers::new(&rt, 8), true) == (THREE, Is(72)));
}

// The value at the first place of a run whose places all have the value, if it has a place.
fn first_read(vector: &Shared<u64>, grown: &Grown<u64>, value: u64) -> Option<u64>
    requires tokens { IsGrownOf vector.now grown.now }
    requires values { All (λ x. x ≡ value) (values_of grown.now) }
    ensures { IfSome result (λ read. read ≡ value) }
{
    if grown.run().n == 0 {
        return None;
    }
    let first = grown.placed(0);
    let read = *vector.get(&first);
    drop(first);
    Some(read)
}

// A clone that was made is read as the value, whether the growth won or was refused after it, by the clauses
// alone.
fn clone_read(vector: &Shared<u64>, hand: &mut Hand<u64>, value: u64) -> Option<u64>
    requires ours { IsHandOf vector.now hand.old }
    ensures of { hand.new.of ≡ hand.old.of }
    ensures read { IfSome result (λ read. read ≡ value) }
{
    let grown = vector.try_grow_by(hand, 3, &value);
    let read = match &grown {
        Ok(grown) => first_read(vector, grown, value),
        Err(GrowError::Refused { made, .. }) => first_read(vector, made, value),
        Err(_other) => None,
    };
    drop(grown);
    read
}

// What a refused construction leaves, by the clauses alone: the next growth of a caller alone goes on behind
// the whole run.
fn next_after(vector: &Shared<u64>, hand: &mut Hand<u64>) -> Option<(Run, u64)>
    requires ours { IsHandOf vector.now hand.old }
    ensures of { hand.new.of ≡ hand.old.of }
    ensures behind { IfSome result (λ (run, place). run.from + run.n ≤ place) }
{
    let make = |i: u64| -> Result<u64, u64> { if i == 1 { Err(9) } else { Ok(7) } };
    let grown = vector.try_grow_with(hand, 3, make);
    let broken = match &grown {
        Err(GrowError::Refused { run, .. }) => Some(*run),
        _ => None,
    };
    drop(grown);
    let run = broken?;
    let pushed = vector.try_push_back(hand, 5);
    let after = match &pushed {
        Ok(placed) => Some((run, placed.place())),
        Err(_refused) => None,
    };
    drop(pushed);
    after
}

fn reads_a_clone(two: &mut Callers<u64>) -> bool {
    clone_read(&two.vector, &mut two.a, 5) == Some(5)
}

#[test]
fn a_clone_is_read_as_the_value(rt: HostRuntime) {
    assert!(rt; on_two(&rt, 8, reads_a_clone));
}

fn goes_on_behind(two: &mut Callers<u64>) -> bool {
    next_after(&two.vector, &mut two.a) == Some((Run { from: 0, n: 3 }, 3))
}

#[test]
fn the_next_growth_begins_after_a_broken_run(rt: HostRuntime) {
    assert!(rt; on_two(&rt, 8, goes_on_behind));
}
