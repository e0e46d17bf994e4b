//! How a word and its hand are marked again.
ghost use Rattle.std.specs.Prelude.{◌≡◌};
ghost use Rattle.claim_core.specs.Hand.{IsHandOf};

use crate::hand::Hand;
use crate::mark::{Mark, Marks};
use crate::rule::{Labels, MarkAs};
use crate::word::{SIZE_AT, Word};
use std::alloc::Allocator;
use std::marker::Brand;

// Two marks, to make a mark of them: it has the numbers of the first, and tells of the values that the second tells of.
#[derive(Drop)]
pub struct Renumbered {
    numbers: Mark,
    filled: Mark,
}

pub struct OfBoth;

impl Marks<Renumbered> for OfBoth {
    ghost numbers = { λ both. both.numbers.numbers };

    ghost filled = { λ both. both.filled.filled };
}

impl<A: Allocator> Word<A> {
    /// Marks the word and its hand with other numbers. It takes one load of the word, which shows no size. Other
    /// hands keep the numbers that they had.
    pub fn mark_again(&mut self, hand: &mut Hand, mark: Mark)
        requires ours { IsHandOf self.old hand.old }
        ensures word { self.new ≡ record self.old { mark = mark.numbers } }
        ensures hand { hand.new ≡ record hand.old { of = self.new } }
    {
        self.label::<Brand>(hand, &mark);
        let both = Renumbered {
            numbers: mark,
            filled: self.terms.mark.again(),
        };
        self.terms.mark = Mark::of::<Renumbered, OfBoth>(&both);
    }

    // Marks the hand's seat with the numbers that the caller picks.
    fn label<P: Labels>(&self, hand: &mut Hand, mark: &Mark)
        requires ours { IsHandOf self.now hand.old }
        requires numbers { P.numbers ≡ mark.now.numbers }
        ensures { hand.new
            ≡ record hand.old { of = record hand.old.of { mark = mark.now.numbers } } }
    {
        // Only the contract speaks of the mark.
        let _ = mark;
        let shared = &self.table.shared;
        let mut seat = hand.take_seat();
        shared.load::<MarkAs<P>>(&mut seat, SIZE_AT);
        hand.put_back(seat);
    }
}
