// Calls of a vector of numbers by one hand, and what each returns. Each keeps the hand the vector's own and
// returns plain values, so that a test is a table of calls and has nothing to prove of them.
ghost use Rattle.std.specs.Prelude.{◌≡◌};
ghost use Rattle.grow_core.specs.Vector.{IsHandOf};

use super::growth_calls::{
    break_places, copy_slice, copy_value, make_sevens, move_in, reply_of_clones, reply_of_push,
};
use grow_core::{AtError, Hand, MendError, Shared};
use std::alloc::{AllocError, AllocGlobal};
use std::sync::Wait;

// The forms of a growth: one that tries once, one that tries again, one up to a size, and one from a source.
#[derive(Clone, Copy)]
pub(super) enum Form {
    Try,
    Again,
    UpTo,
    Source,
}

// No number is refused.
pub(super) const NONE: u64 = u64::MAX;

// A call by one hand.
#[derive(Clone, Copy)]
pub(super) enum Call {
    TryPush(u64),
    Push(u64),
    TryGrow(&'static [u64]),
    Grow(&'static [u64]),
    Append(&'static [u64]),
    // Sevens, by a number of places or up to a size, from a maker that refuses this number of its own.
    Make(Form, u64, u64),
    // A number of clones of a value.
    Clones(u64, u64),
    // A push that begins at what the hand has seen, and one in the segment of that.
    PushSeen(u64),
    PushNear(u64),
    // Copies of these values, or a number of copies of one value.
    Copy(Form, &'static [u64]),
    Copies(Form, u64, u64),
    // A number of places that are broken on purpose.
    Break(Form, u64),
    // A place gets a value if it is broken.
    Mend(u64, u64),
    Read(u64),
    Size,
    Seen,
    Share,
}

// What a step returns. A call that moves values in and is refused has given the same values back.
#[derive(Clone, Copy, PartialEq, Eq)]
pub(super) enum Reply {
    Done,
    // A place.
    At(u64),
    // A run's first place and its length.
    Ran(u64, u64),
    // The same of a run with a refused construction, and how many values were made before it.
    Refused(u64, u64, u64),
    // A size that is large enough, or too large.
    Enough(u64),
    Full(u64),
    OutOfRange(u64),
    // A try lost its exchange.
    Moved,
    // A size, a share or a value.
    Is(u64),
    // The value of a place that was not mended.
    Filled(u64),
    Pending,
    Broken,
    // A maker was asked this often, which is wrong.
    Asked(u64),
    // It differs from what one caller at a time can get.
    Other,
}

// What the call of a hand returns.
pub(super) fn by_hand<R: AllocGlobal + Wait>(
    rt: &R,
    vector: &Shared<u64>,
    hand: &mut Hand<u64>,
    call: Call,
) -> Reply
    requires ours { IsHandOf vector.now hand.old }
    ensures of { hand.new.of ≡ hand.old.of }
{
    match call {
        Call::TryPush(value) => reply_of_push(vector.try_push_back(hand, value), value),
        Call::Push(value) => reply_of_push(vector.push_back(rt, hand, value), value),
        Call::TryGrow(values) | Call::Grow(values) | Call::Append(values) => {
            match Vec::from_slice(rt.alloc(), values) {
                Ok(moved) => move_in(rt, vector, hand, call, moved, values),
                Err(AllocError) => Reply::Other,
            }
        }
        Call::Make(form, n, refused) => make_sevens(rt, vector, hand, form, n, refused),
        Call::Clones(n, value) => reply_of_clones(vector.grow_by(rt, hand, n, &value)),
        Call::PushSeen(value) => reply_of_push(vector.try_push_seen(hand, value), value),
        Call::PushNear(value) => reply_of_push(vector.try_push_near(hand, value), value),
        Call::Copy(form, values) => copy_slice(rt, vector, hand, form, values),
        Call::Copies(form, n, value) => copy_value(rt, vector, hand, form, n, value),
        Call::Break(form, n) => break_places(rt, vector, hand, form, n),
        Call::Mend(place, value) => mend(vector, hand, place, value),
        Call::Read(place) => read(vector, hand, place),
        Call::Size => Reply::Is(vector.size(hand)),
        Call::Seen => Reply::Is(hand.seen()),
        Call::Share => Reply::Is(u64::from(hand.share())),
    }
}

pub(super) fn mend(vector: &Shared<u64>, hand: &mut Hand<u64>, place: u64, value: u64) -> Reply
    requires ours { IsHandOf vector.now hand.old }
    ensures of { hand.new.of ≡ hand.old.of }
{
    let mended = vector.mend(hand, place, value);
    let reply = match &mended {
        Ok(placed) => Reply::At(placed.place()),
        Err((_error, back)) if *back != value => Reply::Other,
        Err((MendError::OutOfRange { size }, _back)) => Reply::OutOfRange(*size),
        Err((MendError::Pending, _back)) => Reply::Pending,
        Err((MendError::Filled(placed), _back)) => Reply::Filled(*vector.get(placed)),
    };
    drop(mended);
    reply
}

// A read without a token.
pub(super) fn read(vector: &Shared<u64>, hand: &mut Hand<u64>, place: u64) -> Reply
    requires ours { IsHandOf vector.now hand.old }
    ensures of { hand.new.of ≡ hand.old.of }
{
    let at = vector.at(hand, place, None);
    let reply = match &at {
        Ok(at) => Reply::Is(*at.value),
        Err(AtError::OutOfRange { size }) => Reply::OutOfRange(*size),
        Err(AtError::Pending) => Reply::Pending,
        Err(AtError::Broken(_spoilt)) => Reply::Broken,
    };
    drop(at);
    reply
}
