// Growths of a vector of numbers by one hand, and what each returns.
ghost use Rattle.std.specs.Prelude.{◌≡◌, ◌<◌, Some, length, slice_get};
ghost use Rattle.grow_core.specs.Vector.{IsHandOf};

use super::calls::{Call, Form, Reply};
use grow_core::{AtLeast, GrowError, Grown, Hand, Never, Placed, Run, Shared, Source};
use std::alloc::AllocError;
use std::sync::Wait;

pub(super) fn reply_of_clones(grown: Result<Grown<u64>, GrowError<u64, (), AllocError>>) -> Reply {
    let reply = match &grown {
        Ok(grown) => reply_of_run(grown),
        Err(_refused) => Reply::Other,
    };
    drop(grown);
    reply
}

fn reply_of_run(grown: &Grown<u64>) -> Reply {
    let run = grown.run();
    Reply::Ran(run.from, run.n)
}

pub(super) fn reply_of_push(
    pushed: Result<Placed<u64>, GrowError<u64, u64, Never>>,
    value: u64,
) -> Reply {
    let reply = match &pushed {
        Ok(placed) => Reply::At(placed.place()),
        Err(GrowError::Full { size, back }) if *back == value => Reply::Full(*size),
        Err(GrowError::Moved { size: _, back }) if *back == value => Reply::Moved,
        Err(_refused) => Reply::Other,
    };
    drop(pushed);
    reply
}

// A source of a caller's own.
#[derive(Drop)]
struct Numbers<'a> {
    values: &'a [u64],
}

impl<'a> Source<u64> for Numbers<'a> {
    ghost values = { λ s. s.values.now };

    fn len(&self) -> u64
        ensures { result ≡ length self.now.values.now }
    {
        self.values.len() as u64
    }

    fn value(&self, i: u64) -> u64
        requires { i < length self.now.values.now }
        ensures { slice_get self.now.values.now i ≡ Some result }
    {
        self.values[i as usize]
    }
}

// A growth by copies of the values of a slice.
pub(super) fn copy_slice<R: Wait>(
    rt: &R,
    vector: &Shared<u64>,
    hand: &mut Hand<u64>,
    form: Form,
    values: &[u64],
) -> Reply
    requires ours { IsHandOf vector.now hand.old }
    ensures of { hand.new.of ≡ hand.old.of }
{
    match form {
        Form::Again => reply_of_copies(vector.grow_from(rt, hand, values)),
        Form::Source => reply_of_copies(vector.try_grow_source(hand, &Numbers { values })),
        _ => reply_of_copies(vector.try_grow_from(hand, values)),
    }
}

// A growth by copies of one value.
pub(super) fn copy_value<R: Wait>(
    rt: &R,
    vector: &Shared<u64>,
    hand: &mut Hand<u64>,
    form: Form,
    n: u64,
    value: u64,
) -> Reply
    requires ours { IsHandOf vector.now hand.old }
    ensures of { hand.new.of ≡ hand.old.of }
{
    match form {
        Form::Again => reply_of_copies(vector.grow_copies(rt, hand, n, value)),
        _ => reply_of_copies(vector.try_grow_copies(hand, n, value)),
    }
}

fn reply_of_copies(grown: Result<Grown<u64>, GrowError<u64, (), Never>>) -> Reply {
    let reply = match &grown {
        Ok(grown) => reply_of_run(grown),
        Err(refused) => reply_of_refused_copies(refused),
    };
    drop(grown);
    reply
}

fn reply_of_refused_copies(refused: &GrowError<u64, (), Never>) -> Reply {
    match refused {
        GrowError::Full { size, .. } => Reply::Full(*size),
        GrowError::Moved { .. } => Reply::Moved,
        _other => Reply::Other,
    }
}

// A growth whose places are broken on purpose.
pub(super) fn break_places<R: Wait>(
    rt: &R,
    vector: &Shared<u64>,
    hand: &mut Hand<u64>,
    form: Form,
    n: u64,
) -> Reply
    requires ours { IsHandOf vector.now hand.old }
    ensures of { hand.new.of ≡ hand.old.of }
{
    let broken = match form {
        Form::Again => vector.break_run(rt, hand, n),
        _ => vector.try_break_run(hand, n),
    };
    let reply = match &broken {
        Ok(run) => Reply::Ran(run.from, run.n),
        Err(refused) => reply_of_refused_copies(refused),
    };
    drop(broken);
    reply
}

// A growth by values that are the same as those of a slice.
pub(super) fn move_in<R: Wait>(
    rt: &R,
    vector: &Shared<u64>,
    hand: &mut Hand<u64>,
    call: Call,
    moved: Vec<u64>,
    values: &[u64],
) -> Reply
    requires ours { IsHandOf vector.now hand.old }
    ensures of { hand.new.of ≡ hand.old.of }
{
    match call {
        Call::TryGrow(_) => reply_of_values(vector.try_grow_vec(hand, moved), values),
        Call::Grow(_) => reply_of_values(vector.grow_vec(rt, hand, moved), values),
        _ => reply_of_append(vector.append(rt, hand, moved), values),
    }
}

fn reply_of_append(grown: Result<Run, GrowError<u64, Vec<u64>, Never>>, values: &[u64]) -> Reply {
    let reply = match &grown {
        Ok(run) => Reply::Ran(run.from, run.n),
        Err(error) => reply_of_refused_values(error, values),
    };
    drop(grown);
    reply
}

fn reply_of_values(
    grown: Result<Grown<u64>, GrowError<u64, Vec<u64>, Never>>,
    values: &[u64],
) -> Reply {
    let reply = match &grown {
        Ok(grown) => reply_of_run(grown),
        Err(error) => reply_of_refused_values(error, values),
    };
    drop(grown);
    reply
}

fn reply_of_refused_values(error: &GrowError<u64, Vec<u64>, Never>, values: &[u64]) -> Reply {
    match error {
        GrowError::Full { size, back } => {
            if back.as_slice() == values {
                Reply::Full(*size)
            } else {
                Reply::Other
            }
        }
        _other => Reply::Other,
    }
}

// A growth whose maker refuses one number for the cause 9, and each number that it is asked for out of turn.
// The maker has to be asked once for each value, and once for the refusal.
pub(super) fn make_sevens<R: Wait>(
    rt: &R,
    vector: &Shared<u64>,
    hand: &mut Hand<u64>,
    form: Form,
    n: u64,
    refused: u64,
) -> Reply
    requires ours { IsHandOf vector.now hand.old }
    ensures of { hand.new.of ≡ hand.old.of }
{
    let mut asked = 0u64;
    let make = |i: u64| -> Result<u64, u64> {
        let turn = asked;
        asked = asked.wrapping_add(1);
        if i != turn {
            Err(0)
        } else if i == refused {
            Err(9)
        } else {
            Ok(7)
        }
    };
    let reply = match form {
        Form::Try | Form::Source => reply_of_made(vector.try_grow_with(hand, n, make)),
        Form::Again => reply_of_made(vector.grow_with(rt, hand, n, make)),
        Form::UpTo => reply_of_raise(vector.grow_to_at_least(hand, n, make)),
    };
    let due = match reply {
        Reply::Ran(_, n) => n,
        Reply::Refused(_, _, made) => made.wrapping_add(1),
        _ => 0,
    };
    if asked == due {
        reply
    } else {
        Reply::Asked(asked)
    }
}

fn reply_of_made(grown: Result<Grown<u64>, GrowError<u64, (), u64>>) -> Reply {
    let reply = match &grown {
        Ok(grown) => reply_of_run(grown),
        Err(refused) => reply_of_refused_maker(refused),
    };
    drop(grown);
    reply
}

fn reply_of_raise(grown: Result<AtLeast<u64>, GrowError<u64, (), u64>>) -> Reply {
    let reply = match &grown {
        Ok(AtLeast::Ran(grown)) => reply_of_run(grown),
        Ok(AtLeast::Enough { size }) => Reply::Enough(*size),
        Err(refused) => reply_of_refused_maker(refused),
    };
    drop(grown);
    reply
}

fn reply_of_refused_maker(refused: &GrowError<u64, (), u64>) -> Reply {
    match refused {
        GrowError::Refused {
            run,
            made,
            cause: 9,
        } => Reply::Refused(run.from, run.n, made.run().n),
        GrowError::Full { size, .. } => Reply::Full(*size),
        GrowError::Moved { .. } => Reply::Moved,
        _other => Reply::Other,
    }
}
