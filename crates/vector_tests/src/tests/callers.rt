// A vector and two callers of it. Each call keeps both hands the vector's own and returns plain values, so
// that a test has nothing to prove of them and few values to drop.
ghost use Rattle.std.specs.Prelude.{◌≡◌, IfOk};
ghost use Rattle.seg_core.specs.Segment.{IsLimit};
ghost use Rattle.claim_core.specs.Hand.{IsNewHand};
ghost use Rattle.grow_core.specs.Vector.{IsHandOf, limit_of, base_of};

use super::lives::Life;
use grow_core::{GrowError, Hand, OpenError, Parts, Placed, Run, Shared};
use seg_core::Layout;
use std::alloc::{AllocGlobal, Global};
use std::process::Abort;
use std::sync::Wait;

// A vector that begins empty.
pub(super) fn empty<T: Drop>(alloc: Global, limit: u64) -> Result<(Shared<T>, Hand<T>), OpenError>
    requires { IsLimit limit }
    ensures limit { IfOk result (λ (vector, _). limit_of vector ≡ limit) }
    ensures base { IfOk result (λ (vector, _). base_of vector ≡ 0) }
    ensures hand { IfOk result (λ (vector, hand). IsNewHand vector.word hand) }
{
    empty_in(alloc, Layout::default(), limit)
}

// The same with the segments of a layout.
fn empty_in<T: Drop>(
    alloc: Global,
    layout: Layout,
    limit: u64,
) -> Result<(Shared<T>, Hand<T>), OpenError>
    requires { IsLimit limit }
    ensures limit { IfOk result (λ (vector, _). limit_of vector ≡ limit) }
    ensures base { IfOk result (λ (vector, _). base_of vector ≡ 0) }
    ensures hand { IfOk result (λ (vector, hand). IsNewHand vector.word hand) }
{
    match Shared::of_parts(Parts::new_in(alloc, layout, limit)) {
        Ok(opened) => Ok(opened),
        Err((back, error)) => {
            drop(back);
            Err(error)
        }
    }
}

#[derive(Drop)]
pub(super) struct Callers<T> {
    pub(super) vector: Shared<T>,
    pub(super) a: Hand<T>,
    pub(super) b: Hand<T>,
    ghost ours: { IsHandOf vector a },
    ghost also_ours: { IsHandOf vector b },
    ghost base: { base_of vector ≡ 0 },
}

impl<T: Drop> Callers<T> {
    // A new vector. Its second hand has 100 shares.
    pub(super) fn try_new(alloc: Global, limit: u64) -> Result<Callers<T>, OpenError>
        requires { IsLimit limit }
    {
        Callers::try_new_in(alloc, Layout::default(), limit)
    }

    // The same with the segments of a layout.
    pub(super) fn try_new_in(
        alloc: Global,
        layout: Layout,
        limit: u64,
    ) -> Result<Callers<T>, OpenError>
        requires { IsLimit limit }
    {
        let (vector, mut a) = empty_in(alloc, layout, limit)?;
        let b = vector.split(&mut a, 100);
        Ok(Callers { vector, a, b })
    }

    pub(super) fn new<R: AllocGlobal + Abort>(rt: &R, limit: u64) -> Callers<T>
        requires { IsLimit limit }
    {
        match Callers::try_new(rt.alloc(), limit) {
            Ok(made) => made,
            Err(error) => panic!(rt; "{error}"),
        }
    }

    // The place of a value that a try appends.
    pub(super) fn push_a(&mut self, value: T) -> Option<u64> {
        place_of(self.vector.try_push_back(&mut self.a, value))
    }

    pub(super) fn push_b(&mut self, value: T) -> Option<u64> {
        place_of(self.vector.try_push_back(&mut self.b, value))
    }

    // The same by a push that begins at what the hand has seen, or by a second one if the size had moved.
    pub(super) fn push_seen(&mut self, value: T) -> Option<u64> {
        match self.vector.try_push_seen(&mut self.a, value) {
            Err(GrowError::Moved { size: _, back }) => {
                place_of(self.vector.try_push_seen(&mut self.a, back))
            }
            other => place_of(other),
        }
    }

    // The same by a push that tries again.
    pub(super) fn push_waiting<R: Wait>(&mut self, rt: &R, value: T) -> Option<u64> {
        place_of(self.vector.push_back(rt, &mut self.a, value))
    }

    // Tests whether a's next push has room and a segment.
    pub(super) fn knows_next(&self) -> bool {
        self.vector.knows_next(&self.a)
    }

    // The run of values that a try appends.
    pub(super) fn grow_a(&mut self, values: Vec<T>) -> Option<Run> {
        let grown = self.vector.try_grow_vec(&mut self.a, values);
        let run = match &grown {
            Ok(grown) => Some(grown.run()),
            Err(_refused) => None,
        };
        drop(grown);
        run
    }

    // The size, by one load.
    pub(super) fn size_b(&mut self) -> u64 {
        self.vector.size(&mut self.b)
    }

    // Both hands have then seen the same.
    pub(super) fn meet(&mut self) {
        self.vector.meet(&mut self.a, &mut self.b);
    }

    // Both hands as one.
    pub(super) fn joined(self) -> Life<T> {
        let Callers { vector, mut a, b } = self;
        vector.join(&mut a, b);
        Life { vector, hand: a }
    }

    // The list that the vector is closed into by one hand with all shares.
    pub(super) fn close(self) -> Option<Parts<T>> {
        self.joined().close()
    }

    // Its length.
    pub(super) fn end(self) -> Option<u64> {
        let parts = self.close();
        let len = match &parts {
            Some(parts) => Some(parts.len()),
            None => None,
        };
        drop(parts);
        len
    }
}

// Tests whether the steps hold on a new vector with two callers. The steps have a loan of it, so that neither
// they nor the test have it to drop.
pub(super) fn on_two<T: Drop, R: AllocGlobal + Abort, F: FnOnce(&mut Callers<T>) -> bool>(
    rt: &R,
    limit: u64,
    steps: F,
) -> bool
    requires limit { IsLimit limit }
    requires callable { F.IsAlwaysCallable steps }
{
    let mut two = Callers::new(rt, limit);
    let is_right = steps(&mut two);
    drop(two);
    is_right
}

// Tests whether a call succeeded. It is generic, and drops the result, so that no caller's proof has to.
pub(super) fn succeeded<T: Drop, E: Drop>(outcome: Result<T, E>) -> bool {
    outcome.is_ok()
}

pub(super) fn place_of<T: Drop, V: Drop, E: Drop>(
    pushed: Result<Placed<T>, GrowError<T, V, E>>,
) -> Option<u64> {
    let place = match &pushed {
        Ok(placed) => Some(placed.place()),
        Err(_refused) => None,
    };
    drop(pushed);
    place
}

impl Callers<u64> {
    // The value at a place, by a look without a token.
    pub(super) fn at_b(&mut self, place: u64) -> Option<u64> {
        let at = self.vector.at(&mut self.b, place, None);
        let value = match &at {
            Ok(at) => Some(*at.value),
            Err(_refused) => None,
        };
        drop(at);
        value
    }
}

// The values in a `Vec`.
pub(super) fn list<R: AllocGlobal + Abort>(rt: &R, values: &[u64]) -> Vec<u64> {
    match Vec::from_slice(rt.alloc(), values) {
        Ok(made) => made,
        Err(error) => panic!(rt; "{error}"),
    }
}
