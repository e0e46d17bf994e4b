// A word and up to two hands of it, which make steps. Each step keeps both hands the word's own and returns
// plain values, so that a test is a table of steps and has nothing to prove of them.
ghost use Rattle.std.specs.Prelude.{◌≡◌};
ghost use Rattle.std.specs.Option.{ForSome};
ghost use Rattle.claim_core.specs.Hand.{IsHandOf};

use claim_core::{Enough, Hand, Moved, OpenError, Run, Word};
use std::alloc::Global;

// A call by one hand.
#[derive(Clone, Copy)]
pub(super) enum Call {
    Exchange(u64, u64),
    Raise(u64),
    Size,
    Seen,
    Share,
    IsWhole,
}

// A call by the first or the second hand, or what changes the hands.
#[derive(Clone, Copy)]
pub(super) enum Step {
    A(Call),
    B(Call),
    // Splits the second hand off the first, with this number of shares.
    Split(u32),
    // The second hand is lost.
    Lose,
    Meet,
    // A third hand claims up to a size, and is lost.
    Third(u64),
    Limit,
    Base,
}

// The result of a step. A step whose conditions do not hold is not made.
#[derive(Clone, Copy, PartialEq, Eq)]
pub(super) enum Answer {
    Done,
    NotMade,
    Is(u64),
    Holds(bool),
    Claims(Run),
    Moves(Moved),
    Finds(Enough),
}

#[derive(Drop)]
pub(super) struct Hands {
    pub(super) word: Word<Global>,
    pub(super) a: Hand,
    b: Option<Hand>,
    ghost ours: { IsHandOf word a },
    ghost also_ours: { ForSome b (IsHandOf word) },
}

impl Hands {
    // A new word and its first hand.
    pub(super) fn new(alloc: Global, limit: u64, base: u64) -> Result<Hands, OpenError> {
        let (word, a) = Word::open(alloc, limit, base)?;
        Ok(Hands { word, a, b: None })
    }

    pub(super) fn make(&mut self, step: Step) -> Answer {
        match step {
            Step::A(call) => by_hand(&self.word, &mut self.a, call),
            Step::B(call) => self.by_second(call),
            Step::Split(shares) => self.split(shares),
            Step::Lose => self.lose(),
            Step::Meet => self.meet(),
            Step::Third(to) => self.raise_third(to),
            Step::Limit => Answer::Is(self.word.limit()),
            Step::Base => Answer::Is(self.word.base()),
        }
    }

    fn by_second(&mut self, call: Call) -> Answer {
        match &mut self.b {
            Some(b) => by_hand(&self.word, b, call),
            None => Answer::NotMade,
        }
    }

    fn split(&mut self, shares: u32) -> Answer {
        if shares == 0 || shares >= self.a.share() || self.b.is_some() {
            return Answer::NotMade;
        }
        self.b = Some(self.word.split(&mut self.a, shares));
        Answer::Done
    }

    fn lose(&mut self) -> Answer {
        self.b = None;
        Answer::Done
    }

    fn meet(&mut self) -> Answer {
        match &mut self.b {
            Some(b) => {
                self.word.meet(&mut self.a, b);
                Answer::Done
            }
            None => Answer::NotMade,
        }
    }

    fn raise_third(&mut self, to: u64) -> Answer {
        if self.a.share() <= 1 {
            return Answer::NotMade;
        }
        let mut third = self.word.split(&mut self.a, 1);
        let answer = by_hand(&self.word, &mut third, Call::Raise(to));
        drop(third);
        answer
    }

    // Joins the hands, and closes the word if one with all shares is left.
    pub(super) fn close(self) -> Option<u64> {
        let Hands { word, mut a, b } = self;
        if let Some(b) = b {
            word.join(&mut a, b);
        }
        if a.is_whole() {
            Some(word.close(a))
        } else {
            None
        }
    }
}

fn by_hand(word: &Word<Global>, hand: &mut Hand, call: Call) -> Answer
    requires ours { IsHandOf word.now hand.old }
    ensures of { hand.new.of ≡ hand.old.of }
{
    match call {
        Call::Exchange(from, n) => exchange(word, hand, from, n),
        Call::Raise(to) => raise(word, hand, to),
        Call::Size => Answer::Is(word.size(hand)),
        Call::Seen => Answer::Is(hand.seen()),
        Call::Share => Answer::Is(u64::from(hand.share())),
        Call::IsWhole => Answer::Holds(hand.is_whole()),
    }
}

fn exchange(word: &Word<Global>, hand: &mut Hand, from: u64, n: u64) -> Answer
    requires ours { IsHandOf word.now hand.old }
    ensures of { hand.new.of ≡ hand.old.of }
{
    if n == 0 || from > hand.seen() || from > word.limit() || n > word.limit() - from {
        return Answer::NotMade;
    }
    match word.exchange(hand, from, n) {
        Ok(run) => Answer::Claims(run),
        Err(lost) => Answer::Moves(lost),
    }
}

fn raise(word: &Word<Global>, hand: &mut Hand, to: u64) -> Answer
    requires ours { IsHandOf word.now hand.old }
    ensures of { hand.new.of ≡ hand.old.of }
{
    if to > word.limit() {
        return Answer::NotMade;
    }
    match word.raise(hand, to) {
        Ok(run) => Answer::Claims(run),
        Err(enough) => Answer::Finds(enough),
    }
}
