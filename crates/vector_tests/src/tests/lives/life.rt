// One life of a vector with one caller.
ghost use Rattle.grow_core.specs.Vector.{IsHandOf};

use super::super::callers::place_of;
use super::super::steps::{Call, Reply, by_hand};
use grow_core::{Hand, Parts, Shared};
use std::alloc::AllocGlobal;
use std::sync::Wait;

// A vector in its life, and its only caller.
#[derive(Drop)]
pub(crate) struct Life<T> {
    pub(crate) vector: Shared<T>,
    pub(crate) hand: Hand<T>,
    pub(crate) ghost ours: { IsHandOf vector hand },
}

impl<T: Drop> Life<T> {
    pub(crate) fn open(parts: Parts<T>) -> Option<Life<T>> {
        let (vector, hand) = Shared::of_parts(parts).ok()?;
        Some(Life { vector, hand })
    }

    // The place of a value that a try appends.
    pub(crate) fn push(&mut self, value: T) -> Option<u64> {
        place_of(self.vector.try_push_back(&mut self.hand, value))
    }

    // The list that it is closed into, if the hand has all shares.
    pub(crate) fn close(self) -> Option<Parts<T>> {
        if self.hand.is_whole() {
            let Life { vector, hand } = self;
            Some(vector.into_parts(hand))
        } else {
            drop(self);
            None
        }
    }
}

impl Life<u64> {
    // The number of the first call that does not return its reply.
    pub(crate) fn first_wrong<R: AllocGlobal + Wait>(
        &mut self,
        rt: &R,
        calls: &[(Call, Reply)],
    ) -> Option<u64> {
        let mut number = 0u64;
        for (call, reply) in calls {
            if by_hand(rt, &self.vector, &mut self.hand, *call) != *reply {
                return Some(number);
            }
            number = number.wrapping_add(1);
        }
        None
    }

    // The list that it ends with, if each call returns its reply.
    pub(crate) fn close_after<R: AllocGlobal + Wait>(
        mut self,
        rt: &R,
        calls: &[(Call, Reply)],
    ) -> Option<Parts<u64>> {
        if self.first_wrong(rt, calls) == None {
            self.close()
        } else {
            drop(self);
            None
        }
    }
}

// The list that the life of a list ends with, if each call in it returns its reply.
pub(crate) fn live<R: AllocGlobal + Wait>(
    rt: &R,
    parts: Option<Parts<u64>>,
    calls: &[(Call, Reply)],
) -> Option<Parts<u64>> {
    match parts {
        Some(parts) => match Life::open(parts) {
            Some(life) => life.close_after(rt, calls),
            None => None,
        },
        None => None,
    }
}
