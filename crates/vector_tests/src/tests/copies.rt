// Pushes that begin at what their hand has seen, copies, and places that are broken on purpose.
ghost use Rattle.std.specs.Prelude.{◌≡◌, ◌<◌, Some, length, replicate, slice_get};

use super::callers::Callers;
use super::edits::Edit::Members;
use super::edits::Found::Done;
use super::steps::Call::{Break, Copies, Copy, Mend, PushNear, PushSeen, Seen, Size, TryPush};
use super::steps::Reply::{At, Broken, Full, Is, Moved, Ran};
use super::steps::Step::{A, B, Look, Walk};
use super::steps::{Form, Reply, Step, ends_after, first_wrong};
use grow_core::{Shared, Source};
use seg_core::Layout;
use std::alloc::AllocGlobal;
use std::sync::atomic::{AtomicU64, Ordering};

// The second hand has not seen the first two pushes: it learns the size, and wins at its next try.
static SEEN: [(Step, Reply); 10] = [
    (A(PushSeen(5)), At(0)),
    (A(PushSeen(6)), At(1)),
    (B(PushSeen(7)), Moved),
    (B(Seen), Is(2)),
    (B(PushSeen(7)), At(2)),
    (A(TryPush(8)), At(3)),
    // By the exchange, and then by a load.
    (B(PushSeen(9)), Full(4)),
    (B(Seen), Is(4)),
    (B(PushSeen(9)), Full(4)),
    (Walk(&[5, 6, 7, 8]), Reply::Done),
];

#[test]
fn a_push_at_a_size_that_has_moved_gives_its_value_back(rt: HostRuntime) {
    assert_eq!(rt; first_wrong(&rt, 4, &SEEN), None);
}

// Segments begin at places 0, 2 and 4. A hand that has not seen the other's push wins the next place of its segment, and
// none of the next segment.
static NEAR: [(Step, Reply); 11] = [
    (A(PushNear(5)), At(0)),
    (B(PushNear(6)), At(1)),
    (B(PushNear(7)), At(2)),
    (A(PushNear(8)), Moved),
    (A(Seen), Is(3)),
    (A(PushNear(8)), At(3)),
    (B(TryPush(9)), At(4)),
    (A(PushNear(1)), Full(5)),
    (A(Seen), Is(5)),
    (A(PushNear(1)), Full(5)),
    (Walk(&[5, 6, 7, 8, 9]), Reply::Done),
];

#[test]
fn a_push_in_a_segment_that_is_full_gives_its_value_back(rt: HostRuntime) {
    assert_eq!(rt; first_wrong(&rt, 5, &NEAR), None);
}

// Copies of values and of a value, none of either, and too many.
static COPIES: [(Step, Reply); 9] = [
    (A(Copy(Form::Try, &[5, 6, 7])), Ran(0, 3)),
    (B(Copies(Form::Try, 2, 9)), Ran(3, 2)),
    (A(Copy(Form::Again, &[])), Ran(5, 0)),
    (B(Copies(Form::Try, 0, 9)), Ran(5, 0)),
    (A(Copy(Form::Try, &[1, 2, 3, 4])), Full(5)),
    (B(Copy(Form::Again, &[1, 2, 3, 4])), Full(5)),
    (A(Copies(Form::Again, 4, 1)), Full(5)),
    (B(Size), Is(5)),
    (Walk(&[5, 6, 7, 9, 9]), Reply::Done),
];

#[test]
fn copies_fill_the_next_places_or_claim_nothing(rt: HostRuntime) {
    assert_eq!(rt; first_wrong(&rt, 7, &COPIES), None);
}

// A source's values in order over five segments, none, and too many.
static SOURCES: [(Step, Reply); 6] = [
    (
        A(Copy(
            Form::Source,
            &[3, 1, 4, 1, 5, 9, 2, 6, 5, 3, 5, 8, 9, 7, 9, 3, 2, 3, 8, 4],
        )),
        Ran(0, 20),
    ),
    (B(Copy(Form::Source, &[])), Ran(20, 0)),
    (B(Copy(Form::Source, &[1, 2, 3])), Full(20)),
    (B(Copy(Form::Source, &[6, 2])), Ran(20, 2)),
    (A(Size), Is(22)),
    (
        Walk(&[
            3, 1, 4, 1, 5, 9, 2, 6, 5, 3, 5, 8, 9, 7, 9, 3, 2, 3, 8, 4, 6, 2,
        ]),
        Reply::Done,
    ),
];

#[test]
fn the_values_of_a_source_fill_the_next_places_in_order(rt: HostRuntime) {
    assert_eq!(rt; first_wrong(&rt, 22, &SOURCES), None);
}

// `n` copies of a value. It counts those that are made while the vector shows another number of places than those before
// the last multiple of 128.
#[derive(Drop)]
struct Watching<'a> {
    vector: &'a Shared<u64>,
    n: u64,
    value: u64,
    early: &'a AtomicU64,
}

impl Source<u64> for Watching<'_> {
    ghost use Rattle.std.specs.Prelude.{replicate};

    ghost values = { λ w. replicate w.n w.value };

    fn len(&self) -> u64
        ensures { result ≡ length (replicate self.now.n self.now.value) }
    {
        self.n
    }

    fn value(&self, i: u64) -> u64
        requires { i < length (replicate self.now.n self.now.value) }
        ensures { slice_get (replicate self.now.n self.now.value) i ≡ Some result }
    {
        if self.vector.published_count() != i / 128 * 128 {
            self.early.fetch_add(1, Ordering::SeqCst);
        }
        self.value
    }
}

// How many of 500 values, in two segments, are made at another time than when the 128 before them are shown.
fn count_early<R: AllocGlobal>(rt: &R) -> Option<u64> {
    let layout = Layout::new(8)?;
    let mut made = Callers::try_new_in(rt.alloc(), layout, 500);
    let count = match &mut made {
        Ok(two) => {
            let early = AtomicU64::new(0);
            let source = Watching {
                vector: &two.vector,
                n: 500,
                value: 7,
                early: &early,
            };
            let grown = two.vector.try_grow_source(&mut two.a, &source);
            let is_so = grown.is_ok();
            drop(grown);
            if is_so {
                Some(early.load(Ordering::SeqCst))
            } else {
                None
            }
        }
        Err(_refused) => None,
    };
    drop(made);
    count
}

#[test]
fn copies_are_shown_when_128_of_them_are_written(rt: HostRuntime) {
    assert_eq!(rt; count_early(&rt), Some(0));
}

// Two runs are broken on purpose, and one of their places is mended.
static BREAKS: [(Step, Reply); 9] = [
    (A(TryPush(5)), At(0)),
    (A(Break(Form::Try, 3)), Ran(1, 3)),
    (B(Break(Form::Again, 2)), Ran(4, 2)),
    (B(Break(Form::Try, 0)), Ran(6, 0)),
    (A(Break(Form::Try, 3)), Full(6)),
    (Look(1), Broken),
    (B(Mend(3, 8)), At(3)),
    (A(Copy(Form::Try, &[9])), Ran(6, 1)),
    (Walk(&[5, 0, 0, 8, 0, 0, 9]), Reply::Done),
];

#[test]
fn the_closed_list_has_the_places_that_were_broken_on_purpose(rt: HostRuntime) {
    let members = Members(&[Some(5), None, None, Some(8), None, None, Some(9)]);
    assert!(rt; ends_after(&rt, 8, &BREAKS, &[(members, Done)]));
}
