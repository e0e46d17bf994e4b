// Steps of two callers of a vector of numbers, and what each step returns. A test is a table of both.
ghost use Rattle.seg_core.specs.Segment.{IsLimit};

use super::callers::Callers;
pub(super) use super::calls::{Call, Form, NONE, Reply, by_hand, mend, read};
use super::edits::{Edit, Found, ends_as};
use grow_core::{Parts, Shared, Shown};
use std::alloc::AllocGlobal;
use std::process::Abort;
use std::sync::Wait;

// A call by the first or the second hand, or a step that needs no hand or both.
#[derive(Clone, Copy)]
pub(super) enum Step {
    A(Call),
    B(Call),
    Meet,
    Look(u64),
    // Tests whether a walk shows these places and no others, 0 for each without a value.
    Walk(&'static [u64]),
}

// The number of the first step on a new vector that does not return its reply.
pub(super) fn first_wrong<R: AllocGlobal + Wait + Abort>(
    rt: &R,
    limit: u64,
    steps: &[(Step, Reply)],
) -> Option<u64>
    requires { IsLimit limit }
{
    let mut two = Callers::new(rt, limit);
    let wrong = two.first_wrong(rt, steps);
    drop(two);
    wrong
}

// The list that a new vector is closed into after steps, if each of them returns its reply.
pub(super) fn closed_after<R: AllocGlobal + Wait + Abort>(
    rt: &R,
    limit: u64,
    steps: &[(Step, Reply)],
) -> Option<Parts<u64>>
    requires { IsLimit limit }
{
    let mut two = Callers::new(rt, limit);
    let wrong = two.first_wrong(rt, steps);
    let parts = two.close();
    if wrong == None {
        parts
    } else {
        drop(parts);
        None
    }
}

// Tests whether there is such a list, and each edit of it returns what it should.
pub(super) fn ends_after<R: AllocGlobal + Wait + Abort>(
    rt: &R,
    limit: u64,
    steps: &[(Step, Reply)],
    edits: &[(Edit, Found)],
) -> bool
    requires { IsLimit limit }
{
    ends_as(closed_after(rt, limit, steps), edits)
}

impl Callers<u64> {
    pub(super) fn first_wrong<R: AllocGlobal + Wait>(
        &mut self,
        rt: &R,
        steps: &[(Step, Reply)],
    ) -> Option<u64> {
        let mut number = 0u64;
        for (step, reply) in steps {
            if self.take(rt, *step) != *reply {
                return Some(number);
            }
            number = number.wrapping_add(1);
        }
        None
    }

    pub(super) fn take<R: AllocGlobal + Wait>(&mut self, rt: &R, step: Step) -> Reply {
        match step {
            Step::A(call) => by_hand(rt, &self.vector, &mut self.a, call),
            Step::B(call) => by_hand(rt, &self.vector, &mut self.b, call),
            Step::Meet => {
                self.meet();
                Reply::Done
            }
            Step::Look(place) => look(&self.vector, place),
            Step::Walk(wanted) => walk(&self.vector, wanted),
        }
    }
}

fn look(vector: &Shared<u64>, place: u64) -> Reply {
    let shown = vector.look(place);
    let reply = match &shown {
        Shown::Pending => Reply::Pending,
        Shown::Filled(at) => Reply::Is(*at.value),
        Shown::Broken(_spoilt) => Reply::Broken,
    };
    drop(shown);
    reply
}

fn walk(vector: &Shared<u64>, wanted: &[u64]) -> Reply {
    let mut left = wanted.iter();
    for item in vector.published() {
        let value = item.copied().unwrap_or(0);
        if left.next() != Some(&value) {
            return Reply::Other;
        }
    }
    if left.next().is_none() {
        Reply::Done
    } else {
        Reply::Other
    }
}
