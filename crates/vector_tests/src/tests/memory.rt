// Any one request for memory may be refused to a growth: then nothing is claimed, no maker is asked, what
// was moved in comes back, and the next growth goes on. `tests/refuse-memory` refuses each request in turn, and
// counts the requests.
use super::callers::Callers;
use super::edits::Edit::{Append, Cut, Get, Members, Pop, Replace};
use super::edits::Found::{Done, Member, Sizes};
use super::edits::{Edit, Found, ends_as};
use super::refusals::fresh_again;
use super::steps::Call::{Break, Copies, Copy, Make, Mend, PushSeen};
use super::steps::Reply::{At, Ran, Refused};
use super::steps::Step::{A, B, Walk};
use super::steps::{Form, Reply, Step};
use super::ways::{NO_MEMORY, OTHER, Way, append_again, look_at};
use grow_core::{GrowError, ReserveError, Run, Shared, Shown};
use std::alloc::{AllocError, AllocGlobal};
use std::process::Abort;
use std::sync::Wait;

// Each growth, the first value that it appends, and how often its maker is asked.
static GROWTHS: [(Way, u64, u64); 12] = [
    (Way::TryVec, 0, 0),
    (Way::Vec, 0, 0),
    (Way::Append, 0, 0),
    (Way::TryWith, 0, 3),
    (Way::With, 0, 3),
    (Way::TryBy, 2, 0),
    (Way::By, 2, 0),
    (Way::UpTo, 0, 3),
    (Way::TryFrom, 0, 0),
    (Way::From, 0, 0),
    (Way::TryCopies, 2, 0),
    (Way::Copies, 2, 0),
];

// Tests whether two runs are appended. Each wants a segment that is not there yet.
fn grows_twice<R: AllocGlobal + Wait>(
    rt: &R,
    two: &mut Callers<u64>,
    growth: &Way,
    first: u64,
    asked: u64,
) -> bool {
    for from in [0, 3].as_slice() {
        let run = Run { from: *from, n: 3 };
        let won = append_again(rt, two, growth, run, first);
        if won != (Ok(run), asked) || look_at(&two.vector, from.wrapping_add(2)) != Some(2) {
            return false;
        }
    }
    true
}

#[test]
fn each_growth_is_tried_again(rt: HostRuntime) {
    for (growth, first, asked) in GROWTHS.as_slice() {
        let mut two = fresh_again(&rt, 8);
        let is_so = grows_twice(&rt, &mut two, growth, *first, *asked);
        drop(two);
        assert!(rt; is_so, "{growth:?}");
    }
}

// A text, by a second call if memory was refused to the first.
fn text_again<R: AllocGlobal + Abort>(rt: &R) -> String {
    match format!(in rt.alloc(); "a text of {} bytes", 18) {
        Ok(made) => made,
        Err(_refused) => match format!(in rt.alloc(); "a text of {} bytes", 18) {
            Ok(made) => made,
            Err(_refused) => panic!(rt; "no text"),
        },
    }
}

// Tests whether a place shows the text if it is below `made`, and otherwise that it is broken.
fn shows_clone(vector: &Shared<String>, place: u64, text: &String, made: u64) -> bool {
    let shown = vector.look(place);
    let is_so = match &shown {
        Shown::Filled(at) => place < made && at.value == text,
        Shown::Broken(_) => place >= made,
        Shown::Pending => false,
    };
    drop(shown);
    is_so
}

// Tests whether the first `made` places of three show the text, and the others that they are broken.
fn shows_clones(vector: &Shared<String>, text: &String, made: u64) -> bool {
    for place in 0..3u64 {
        if !shows_clone(vector, place, text, made) {
            return false;
        }
    }
    true
}

// How many of three clones found memory, or why nothing was claimed.
fn clone_three<R: Wait>(
    rt: &R,
    two: &mut Callers<String>,
    text: &String,
) -> Result<u64, &'static str> {
    let cloned = two.vector.grow_by(rt, &mut two.a, 3, text);
    let made = match &cloned {
        Ok(_grown) => Ok(3),
        Err(
            GrowError::Refused {
                made,
                cause: AllocError,
                ..
            },
        ) => Ok(made.run().n),
        Err(GrowError::NoMemory { .. }) => Err(NO_MEMORY),
        Err(_other) => Err(OTHER),
    };
    drop(cloned);
    made
}

// The same, by a second call if the growth found no memory for its segments.
fn clone_again<R: Wait>(
    rt: &R,
    two: &mut Callers<String>,
    text: &String,
) -> Result<u64, &'static str> {
    let made = clone_three(rt, two, text);
    if made == Err(NO_MEMORY) && two.size_b() == 0 {
        clone_three(rt, two, text)
    } else {
        made
    }
}

// The place of a text, by a second call if memory was refused to the first.
fn push_again(two: &mut Callers<String>, text: String) -> Option<u64> {
    match two.vector.try_push_back(&mut two.a, text) {
        Ok(placed) => {
            let place = placed.place();
            drop(placed);
            Some(place)
        }
        Err(GrowError::NoMemory { back }) => two.push_a(back),
        Err(other) => {
            drop(other);
            None
        }
    }
}

// Tests whether clones that found no memory left their places broken, and a next value goes behind them.
fn clones_and_goes_on<R: Wait>(rt: &R, two: &mut Callers<String>, text: String) -> bool {
    let is_shown = match clone_again(rt, two, &text) {
        Ok(made) => shows_clones(&two.vector, &text, made),
        Err(_why) => false,
    };
    push_again(two, text) == Some(3) && is_shown
}

// The first clone of a text finds no memory, or the second, or the last.
#[test]
fn a_clone_that_finds_no_memory_breaks_the_places_from_there_on(rt: HostRuntime) {
    let mut two = fresh_again(&rt, 8);
    let goes_on = clones_and_goes_on(&rt, &mut two, text_again(&rt));
    drop(two);
    assert!(rt; goes_on);
}

static MENDS: [(Step, Reply); 2] = [(B(Mend(2, 6)), At(2)), (B(Mend(0, 5)), At(0))];

// A list of a value, a broken member and a value takes another, mends the broken one, and gives two back.
static CHANGES: [(Edit, Found); 7] = [
    (Append(Some(7)), Done),
    (Replace(1, Some(8)), Member(None)),
    (Get(0), Member(Some(5))),
    (Pop, Member(Some(7))),
    (Pop, Member(Some(6))),
    (Cut, Sizes(2, 8, 2)),
    (Members(&[Some(5), Some(8)]), Done),
];

// Tests whether three places are broken, at the second try if memory was refused to the first, and two mended.
fn breaks_and_mends<R: AllocGlobal + Wait>(rt: &R, two: &mut Callers<u64>) -> bool {
    let breaks_three = A(Make(Form::Try, 3, 0));
    let broken = Refused(0, 3, 0);
    let is_broken = two.take(rt, breaks_three) == broken || two.take(rt, breaks_three) == broken;
    is_broken && two.first_wrong(rt, &MENDS) == None
}

// The count of the requests shows that these take no memory: the vector's, and those of two segments.
#[test]
fn a_mend_a_close_and_changes_of_a_list_take_no_memory(rt: HostRuntime) {
    let mut two = fresh_again(&rt, 8);
    let is_mended = breaks_and_mends(&rt, &mut two);
    assert!(rt; ends_as(two.close(), &CHANGES) && is_mended);
}

// Room for the first n places, by a second call if memory was refused to the first, which changed nothing that is seen.
fn reserve_again(two: &mut Callers<u64>, n: u64) -> bool {
    match two.vector.reserve(&mut two.a, n) {
        Ok(()) => true,
        Err(ReserveError::NoMemory) => two.size_b() == 0
            && two.vector.reserve(&mut two.a, n) == Ok(()),
        Err(ReserveError::TooLong) => false,
    }
}

// The growths of both hands after it, up to the limit.
static IN_ROOM: [(Step, Reply); 5] = [
    (A(PushSeen(5)), At(0)),
    (B(Copy(Form::Try, &[6, 7, 8])), Ran(1, 3)),
    (A(Copies(Form::Again, 2, 9)), Ran(4, 2)),
    (B(Break(Form::Try, 2)), Ran(6, 2)),
    (Walk(&[5, 6, 7, 8, 9, 9, 0, 0]), Reply::Done),
];

// Tests whether they are, and whether more room than the limit is refused without a request for memory.
fn grows_in_room<R: AllocGlobal + Wait>(rt: &R, two: &mut Callers<u64>) -> bool {
    reserve_again(two, 8)
        && two.vector.reserve(&mut two.b, 8) == Ok(())
        && two.vector.reserve(&mut two.b, 9) == Err(ReserveError::TooLong)
        && two.first_wrong(rt, &IN_ROOM) == None
}

// The count of the requests shows that growths in reserved room take no memory: the vector's, and those of three
// segments.
#[test]
fn growths_in_reserved_room_take_no_memory(rt: HostRuntime) {
    let mut two = fresh_again(&rt, 8);
    let grows = grows_in_room(&rt, &mut two);
    drop(two);
    assert!(rt; grows);
}
