// Tables of steps: the results of each call, and that a call looks at the word. For the latter a third hand
// has claimed since, so that a body which returns what its hand had seen is found out.
use super::hands::{Answer, Call, Hands, Step};
use claim_core::{Enough, Moved, Run};
use std::alloc::AllocGlobal;
use std::process::Abort;

// A limit, a base, steps with their results, and the size at the end, if one hand then has all shares.
struct Story {
    name: &'static str,
    limit: u64,
    base: u64,
    steps: &'static [(Step, Answer)],
    size: Option<u64>,
}

#[rattlefmt::skip]
static STORIES: [Story; 9] = [
    Story {
        name: "a whole hand claims and stays whole",
        limit: 8, base: 0,
        steps: &[
            (Step::A(Call::Seen), Answer::Is(0)),
            (Step::A(Call::Exchange(0, 2)), Answer::Claims(Run { from: 0, n: 2 })),
            (Step::A(Call::IsWhole), Answer::Holds(true)),
        ],
        size: Some(2),
    },
    Story {
        name: "two hands claim in turn",
        limit: 8, base: 0,
        steps: &[
            (Step::A(Call::Exchange(0, 2)), Answer::Claims(Run { from: 0, n: 2 })),
            (Step::Split(1), Answer::Done),
            (Step::A(Call::Share), Answer::Is(65_535)),
            (Step::B(Call::Seen), Answer::Is(2)),
            (Step::B(Call::Exchange(2, 1)), Answer::Claims(Run { from: 2, n: 1 })),
            (Step::A(Call::Seen), Answer::Is(2)),
            (Step::A(Call::Exchange(2, 1)), Answer::Moves(Moved { size: 3 })),
            (Step::A(Call::Raise(5)), Answer::Claims(Run { from: 3, n: 2 })),
            (Step::B(Call::Size), Answer::Is(5)),
            (Step::B(Call::Raise(4)), Answer::Finds(Enough { size: 5 })),
        ],
        size: Some(5),
    },
    Story {
        name: "a hand is lost while others go on",
        limit: 8, base: 0,
        steps: &[
            (Step::A(Call::IsWhole), Answer::Holds(true)),
            (Step::Split(100), Answer::Done),
            (Step::B(Call::Raise(3)), Answer::Claims(Run { from: 0, n: 3 })),
            (Step::Lose, Answer::Done),
            (Step::A(Call::Size), Answer::Is(3)),
            (Step::A(Call::Exchange(3, 5)), Answer::Claims(Run { from: 3, n: 5 })),
            (Step::A(Call::IsWhole), Answer::Holds(false)),
        ],
        size: None,
    },
    Story {
        name: "a word may begin at its greatest limit",
        limit: 1 << 40, base: 1 << 40,
        steps: &[
            (Step::Limit, Answer::Is(1 << 40)),
            (Step::Base, Answer::Is(1 << 40)),
            (Step::A(Call::Seen), Answer::Is(1 << 40)),
        ],
        size: Some(1 << 40),
    },
    Story {
        name: "one exchange claims all places of the greatest limit",
        limit: 1 << 40, base: 0,
        steps: &[
            (
                Step::A(Call::Exchange(0, 1 << 40)),
                Answer::Claims(Run { from: 0, n: 1 << 40 }),
            ),
            (Step::A(Call::Size), Answer::Is(1 << 40)),
        ],
        size: Some(1 << 40),
    },
    Story {
        name: "a load shows what a third hand claimed",
        limit: 8, base: 0,
        steps: &[
            (Step::A(Call::Raise(2)), Answer::Claims(Run { from: 0, n: 2 })),
            (Step::Third(5), Answer::Claims(Run { from: 2, n: 3 })),
            (Step::A(Call::Seen), Answer::Is(2)),
            (Step::A(Call::Size), Answer::Is(5)),
            (Step::A(Call::Seen), Answer::Is(5)),
        ],
        size: None,
    },
    Story {
        name: "a meeting shows what a third hand claimed",
        limit: 8, base: 0,
        steps: &[
            (Step::A(Call::Raise(2)), Answer::Claims(Run { from: 0, n: 2 })),
            (Step::Split(1), Answer::Done),
            (Step::Third(5), Answer::Claims(Run { from: 2, n: 3 })),
            (Step::A(Call::Seen), Answer::Is(2)),
            (Step::B(Call::Seen), Answer::Is(2)),
            (Step::Meet, Answer::Done),
            (Step::A(Call::Seen), Answer::Is(5)),
            (Step::B(Call::Seen), Answer::Is(5)),
        ],
        size: None,
    },
    Story {
        name: "an exchange from below what was seen shows the new size",
        limit: 8, base: 0,
        steps: &[
            (Step::A(Call::Raise(2)), Answer::Claims(Run { from: 0, n: 2 })),
            (Step::Split(1), Answer::Done),
            (Step::Third(5), Answer::Claims(Run { from: 2, n: 3 })),
            (Step::A(Call::Seen), Answer::Is(2)),
            (Step::B(Call::Seen), Answer::Is(2)),
            (Step::A(Call::Exchange(1, 1)), Answer::Moves(Moved { size: 5 })),
            (Step::B(Call::Exchange(0, 2)), Answer::Moves(Moved { size: 5 })),
            (Step::A(Call::Seen), Answer::Is(5)),
            (Step::B(Call::Seen), Answer::Is(5)),
        ],
        size: None,
    },
    Story {
        name: "a raise to what was seen or less shows the new size",
        limit: 8, base: 0,
        steps: &[
            (Step::A(Call::Raise(2)), Answer::Claims(Run { from: 0, n: 2 })),
            (Step::Split(1), Answer::Done),
            (Step::Third(5), Answer::Claims(Run { from: 2, n: 3 })),
            (Step::A(Call::Seen), Answer::Is(2)),
            (Step::B(Call::Seen), Answer::Is(2)),
            (Step::A(Call::Raise(2)), Answer::Finds(Enough { size: 5 })),
            (Step::B(Call::Raise(1)), Answer::Finds(Enough { size: 5 })),
            (Step::A(Call::Seen), Answer::Is(5)),
            (Step::B(Call::Seen), Answer::Is(5)),
        ],
        size: None,
    },
];

// Tests whether steps have their stated results.
fn are_so(hands: &mut Hands, steps: &[(Step, Answer)]) -> bool {
    for (step, answer) in steps {
        if hands.make(*step) != *answer {
            return false;
        }
    }
    true
}

// The word is new at the story's begin, and is closed at its end.
fn tell<R: AllocGlobal + Abort>(rt: &R, story: &Story) {
    match Hands::new(rt.alloc(), story.limit, story.base) {
        Ok(mut hands) => {
            let is_so = are_so(&mut hands, story.steps);
            assert!(rt; hands.close() == story.size && is_so, "{}", story.name);
        }
        Err(error) => panic!(rt; "{error}"),
    }
}

#[test]
fn each_step_of_a_story_has_its_stated_result(rt: HostRuntime) {
    for story in STORIES.as_slice() {
        tell(&rt, story);
    }
}
