// One growth by any way, and its outcome.
ghost use Rattle.std.specs.Prelude.{IfOk};
ghost use Rattle.grow_core.specs.Grown.{IsGrownOf};

use super::super::callers::Callers;
use super::Way;
use grow_core::{AtLeast, GrowError, Grown, Never, Run, Shared, Shown};
use std::alloc::{AllocError, AllocGlobal, Global};
use std::sync::Wait;

// The run that is appended, or why there is none.
pub(crate) type Outcome = Result<Run, &'static str>;

// Why not: memory was refused, and what was moved in came back, or anything else.
pub(crate) const NO_MEMORY: &'static str = "no memory";

pub(crate) const OTHER: &'static str = "other";

// The numbers from one on, in order.
pub(crate) fn numbers(alloc: Global, first: u64, n: u64) -> Option<Vec<u64>> {
    let mut made = Vec::with_capacity(alloc, n as usize).ok()?;
    match made.extend(first..first.saturating_add(n)) {
        Ok(()) => Some(made),
        Err(AllocError) => None,
    }
}

// The run, if its tokens are of its places in order, and have values that go up in these steps.
fn read_tokens(vector: &Shared<u64>, grown: &Grown<u64>, first: u64, step: u64) -> Outcome
    requires { IsGrownOf vector.now grown.now }
{
    let run = grown.run();
    for i in 0..run.n {
        let value = first.wrapping_add(i.wrapping_mul(step));
        let is_read = {
            let token = grown.placed(i);
            let is_so = token.place() == run.from.wrapping_add(i) && *vector.get(&token) == value;
            drop(token);
            is_so
        };
        if !is_read {
            return Err(OTHER);
        }
    }
    Ok(run)
}

// Why values were not made.
fn why<E: Drop>(refused: &GrowError<u64, (), E>) -> &'static str {
    match refused {
        GrowError::NoMemory { .. } => NO_MEMORY,
        _ => OTHER,
    }
}

// Why numbers were not moved in.
fn why_not_moved(refused: &GrowError<u64, Vec<u64>, Never>, first: u64, n: u64) -> &'static str {
    match refused {
        GrowError::NoMemory { back } => {
            if back.iter().copied().eq(first..first.saturating_add(n)) {
                NO_MEMORY
            } else {
                OTHER
            }
        }
        _other => OTHER,
    }
}

// The outcome of a growth by a maker or by clones.
fn outcome_of_making<E: Drop>(
    vector: &Shared<u64>,
    grown: Result<Grown<u64>, GrowError<u64, (), E>>,
    first: u64,
    step: u64,
) -> Outcome
    requires { IfOk grown (λ g. IsGrownOf vector.now g) }
{
    let outcome = match &grown {
        Ok(grown) => read_tokens(vector, grown, first, step),
        Err(refused) => Err(why(refused)),
    };
    drop(grown);
    outcome
}

// The outcome of a growth by n numbers that are moved in.
fn outcome_of_moving(
    vector: &Shared<u64>,
    grown: Result<Grown<u64>, GrowError<u64, Vec<u64>, Never>>,
    first: u64,
    n: u64,
) -> Outcome
    requires { IfOk grown (λ g. IsGrownOf vector.now g) }
{
    let outcome = match &grown {
        Ok(grown) => read_tokens(vector, grown, first, 1),
        Err(refused) => Err(why_not_moved(refused, first, n)),
    };
    drop(grown);
    outcome
}

// The same without tokens.
fn appended(grown: Result<Run, GrowError<u64, Vec<u64>, Never>>, first: u64, n: u64) -> Outcome {
    let outcome = match &grown {
        Ok(run) => Ok(*run),
        Err(refused) => Err(why_not_moved(refused, first, n)),
    };
    drop(grown);
    outcome
}

// Appends n single values, and stops at the first that is not at its place.
fn push<R: Wait>(rt: &R, two: &mut Callers<u64>, way: &Way, run: Run, first: u64) -> Outcome {
    for i in 0..run.n {
        let value = first.wrapping_add(i);
        let place = match way {
            Way::TryPush => two.push_a(value),
            Way::PushSeen => two.push_seen(value),
            _ => two.push_waiting(rt, value),
        };
        if place != Some(run.from.wrapping_add(i)) {
            return Err(OTHER);
        }
    }
    Ok(run)
}

// Appends values that are moved in, or copies of them.
fn move_in<R: Wait>(
    rt: &R,
    two: &mut Callers<u64>,
    way: &Way,
    first: u64,
    values: Vec<u64>,
) -> Outcome {
    let n = values.len() as u64;
    let grown = match way {
        Way::TryVec => two.vector.try_grow_vec(&mut two.a, values),
        Way::Vec => two.vector.grow_vec(rt, &mut two.a, values),
        Way::TryFrom | Way::From => return copy(rt, two, way, first, &values),
        _ => return appended(two.vector.append(rt, &mut two.a, values), first, n),
    };
    outcome_of_moving(&two.vector, grown, first, n)
}

// Appends values that are made, and counts how often the maker is asked.
fn make<R: Wait>(
    rt: &R,
    two: &mut Callers<u64>,
    way: &Way,
    run: Run,
    first: u64,
    asked: &mut u64,
) -> Outcome {
    let make = |i: u64| -> Result<u64, Never> {
        *asked = asked.wrapping_add(1);
        Ok(first.wrapping_add(i))
    };
    let end = run.from.wrapping_add(run.n);
    let grown = match way {
        Way::TryWith => two.vector.try_grow_with(&mut two.a, run.n, make),
        Way::With => two.vector.grow_with(rt, &mut two.a, run.n, make),
        _ => match two.vector.grow_to_at_least(&mut two.a, end, make) {
            Ok(AtLeast::Ran(grown)) => Ok(grown),
            Ok(AtLeast::Enough { .. }) => return Err(OTHER),
            Err(refused) => Err(refused),
        },
    };
    outcome_of_making(&two.vector, grown, first, 1)
}

// Appends copies of the values.
fn copy<R: Wait>(rt: &R, two: &mut Callers<u64>, way: &Way, first: u64, values: &[u64]) -> Outcome {
    let grown = match way {
        Way::TryFrom => two.vector.try_grow_from(&mut two.a, values),
        _ => two.vector.grow_from(rt, &mut two.a, values),
    };
    outcome_of_making(&two.vector, grown, first, 1)
}

// Appends copies of one value.
fn copy_one<R: Wait>(rt: &R, two: &mut Callers<u64>, way: &Way, n: u64, value: u64) -> Outcome {
    let grown = match way {
        Way::TryCopies => two.vector.try_grow_copies(&mut two.a, n, value),
        _ => two.vector.grow_copies(rt, &mut two.a, n, value),
    };
    outcome_of_making(&two.vector, grown, value, 0)
}

// Appends clones.
fn clone<R: Wait>(rt: &R, two: &mut Callers<u64>, way: &Way, n: u64, value: u64) -> Outcome {
    let grown = match way {
        Way::TryBy => two.vector.try_grow_by(&mut two.a, n, &value),
        _ => two.vector.grow_by(rt, &mut two.a, n, &value),
    };
    outcome_of_making(&two.vector, grown, value, 0)
}

// Appends this run by any way, and returns the outcome and how often a maker was asked. The values are the
// numbers from the first on, or clones or copies of the first. A `Vec` of them is asked for again if memory was refused
// to it.
pub(crate) fn append<R: AllocGlobal + Wait>(
    rt: &R,
    two: &mut Callers<u64>,
    way: &Way,
    run: Run,
    first: u64,
) -> (Outcome, u64) {
    let mut asked = 0u64;
    let outcome = match way {
        Way::TryPush | Way::PushSeen | Way::Push => push(rt, two, way, run, first),
        Way::TryVec | Way::Vec | Way::Append | Way::TryFrom | Way::From => {
            let values = numbers(rt.alloc(), first, run.n);
            match values.or_else(|| numbers(rt.alloc(), first, run.n)) {
                Some(values) => move_in(rt, two, way, first, values),
                None => Err(OTHER),
            }
        }
        Way::TryBy | Way::By => clone(rt, two, way, run.n, first),
        Way::TryCopies | Way::Copies => copy_one(rt, two, way, run.n, first),
        _ => make(rt, two, way, run, first, &mut asked),
    };
    (outcome, asked)
}

// Tests whether nothing was claimed or filled from a place on.
fn is_as_it_was(two: &mut Callers<u64>, from: u64) -> bool {
    two.a.seen() == from && two.size_b() == from && is_pending(&two.vector, from)
}

// Tests whether a look shows nothing yet at a place.
fn is_pending(vector: &Shared<u64>, place: u64) -> bool {
    let shown = vector.look(place);
    let is_pending = matches!(&shown, Shown::Pending);
    drop(shown);
    is_pending
}

// The same, by a second call if memory was refused to the first, which then left the vector as it was and
// asked no maker.
pub(crate) fn append_again<R: AllocGlobal + Wait>(
    rt: &R,
    two: &mut Callers<u64>,
    way: &Way,
    run: Run,
    first: u64,
) -> (Outcome, u64) {
    let came = append(rt, two, way, run, first);
    if came == (Err(NO_MEMORY), 0) && is_as_it_was(two, run.from) {
        append(rt, two, way, run, first)
    } else {
        came
    }
}
