// Sampled schedules of whole calls, played on the running vector: each answer and the closed list are those
// that `play_calls` gives on the plain list of cells.
ghost use Rattle.std.specs.Prelude.{◌≡◌};
ghost use Rattle.seg_core.specs.Segment.{IsLimit};
ghost use Rattle.grow_core.specs.Vector.{IsHandOf};

use book_core::{Answer, Cell, Command, Ended, Item};
use grow_core::{At, AtError, AtLeast, GrowError, Grown, Hand, MendError, Never, Placed, Shared};
use quiet_core::{Quiet, QuietAt};
use rand_core::SeedableRng;
use rand_core::utils::NextWord;
use rand_pcg::Pcg32;
use script_core::{Script, read};
use std::alloc::{AllocError, Global};
use std::test::Fail;
use step_core::{Played, play_calls};

// The answer of a growth that was refused. With no other thread none is lost, and no place is taken.
fn refusal<V: Drop, E: Drop>(error: &GrowError<u64, V, E>) -> Option<Answer> {
    match error {
        GrowError::NoMemory { .. } => Some(Answer::NoMemory),
        GrowError::Full { size, .. } => Some(Answer::Full { size: *size }),
        GrowError::Refused { run, made, .. } => Some(Answer::BrokenRun {
            from: run.from,
            n: run.n,
            made: made.run().n,
        }),
        GrowError::Moved { .. } | GrowError::Taken { .. } => None,
    }
}

fn push_answer(pushed: Result<Placed<u64>, GrowError<u64, u64, Never>>) -> Option<Answer> {
    let answer = match &pushed {
        Ok(placed) => Some(Answer::At {
            place: placed.place(),
        }),
        Err(error) => refusal(error),
    };
    drop(pushed);
    answer
}

fn run_answer(grown: &Grown<u64>) -> Answer {
    let run = grown.run();
    Answer::Run {
        from: run.from,
        n: run.n,
    }
}

fn growth_answer<E: Drop>(grown: Result<Grown<u64>, GrowError<u64, (), E>>) -> Option<Answer> {
    let answer = match &grown {
        Ok(grown) => Some(run_answer(grown)),
        Err(error) => refusal(error),
    };
    drop(grown);
    answer
}

fn raise_answer(raised: Result<AtLeast<u64>, GrowError<u64, (), Never>>) -> Option<Answer> {
    let answer = match &raised {
        Ok(AtLeast::Ran(grown)) => Some(run_answer(grown)),
        Ok(AtLeast::Enough { size }) => Some(Answer::Enough { size: *size }),
        Err(error) => refusal(error),
    };
    drop(raised);
    answer
}

fn look_answer(looked: Result<At<'_, u64>, AtError>) -> Answer {
    let answer = match &looked {
        Ok(at) => Answer::Value { value: *at.value },
        Err(AtError::OutOfRange { size }) => Answer::OutOfRange { size: *size },
        Err(AtError::Pending) => Answer::Pending,
        Err(AtError::Broken(_)) => Answer::Broken,
    };
    drop(looked);
    answer
}

// The answer of a mend. The value at a place that is filled is read by the token that the refusal has.
fn mend(vector: &Shared<u64>, hand: &mut Hand<u64>, place: u64, value: u64) -> Answer
    requires ours { IsHandOf vector.now hand.old }
    ensures of { hand.new.of ≡ hand.old.of }
{
    match vector.mend(hand, place, value) {
        Ok(placed) => Answer::At {
            place: placed.place(),
        },
        Err((error, _back)) => match error {
            MendError::OutOfRange { size } => Answer::OutOfRange { size },
            MendError::Pending => Answer::Pending,
            MendError::Filled(placed) => Answer::Value {
                value: *vector.get(&placed),
            },
        },
    }
}

// The answer of a call by a hand.
fn answer_of(vector: &Shared<u64>, hand: &mut Hand<u64>, command: Command) -> Option<Answer>
    requires ours { IsHandOf vector.now hand.old }
    ensures of { hand.new.of ≡ hand.old.of }
{
    match command {
        Command::Push { value } => push_answer(vector.try_push_back(hand, value)),
        Command::Grow { n, value } => growth_answer(vector.try_grow_by(hand, n, &value)),
        Command::AtLeast { to, value } => {
            let make = |_: u64| -> Result<u64, Never> { Ok(value) };
            raise_answer(vector.grow_to_at_least(hand, to, make))
        }
        Command::Fail { n, value, at } => {
            let make = |i: u64| -> Result<u64, ()> { if i == at { Err(()) } else { Ok(value) } };
            growth_answer(vector.try_grow_with(hand, n, make))
        }
        Command::Mend { place, value } => Some(mend(vector, hand, place, value)),
        Command::Read { place } => Some(look_answer(vector.at(hand, place, None))),
        Command::Size => Some(Answer::Size {
            size: vector.size(hand),
        }),
    }
}

// A vector, and a hand for each of three actors.
#[derive(Drop)]
struct Actors {
    vector: Shared<u64>,
    first: Hand<u64>,
    second: Hand<u64>,
    third: Hand<u64>,
    ghost firsts: { IsHandOf vector first },
    ghost seconds: { IsHandOf vector second },
    ghost thirds: { IsHandOf vector third },
}

impl Actors {
    fn open(alloc: Global, limit: u64) -> Option<Actors>
        requires { IsLimit limit }
    {
        let (vector, mut first) = Quiet::new(alloc, limit).open().ok()?;
        let second = vector.split(&mut first, 100);
        let third = vector.split(&mut first, 100);
        Some(Actors {
            vector,
            first,
            second,
            third,
        })
    }

    fn call(&mut self, actor: u32, command: Command) -> Option<Answer> {
        match actor {
            0 => answer_of(&self.vector, &mut self.first, command),
            1 => answer_of(&self.vector, &mut self.second, command),
            _ => answer_of(&self.vector, &mut self.third, command),
        }
    }

    // Tests whether calls that ended elsewhere end alike here.
    fn answer_alike(&mut self, calls: &[Ended]) -> bool {
        for call in calls {
            if self.call(call.actor, call.command) != Some(call.answer) {
                return false;
            }
        }
        true
    }

    fn close(self) -> Option<Quiet<u64>> {
        let Actors {
            vector,
            mut first,
            second,
            third,
        } = self;
        vector.join(&mut first, second);
        vector.join(&mut first, third);
        if first.is_whole() {
            Some(Quiet::close(vector, first))
        } else {
            drop((vector, first));
            None
        }
    }
}

fn is_member(list: &Quiet<u64>, place: u64, cell: &Cell) -> bool {
    match (list.get(place), cell) {
        (Ok(value), Cell::Filled(filled)) => value == filled,
        (Err(QuietAt::Broken), Cell::Broken) => true,
        _ => false,
    }
}

// Tests whether a list has the members that the cells say.
fn has_cells(list: &Quiet<u64>, cells: &[Cell]) -> bool {
    let mut place = 0;
    for cell in cells {
        if !is_member(list, place, cell) {
            return false;
        }
        place = place.wrapping_add(1);
    }
    place == list.len()
}

// Tests whether the calls of a play end alike on a vector of this limit, and leave its cells.
fn plays_alike(alloc: Global, limit: u64, played: &Played) -> Option<bool>
    requires { IsLimit limit }
{
    let mut actors = Actors::open(alloc, limit)?;
    let alike = actors.answer_alike(played.ended.as_slice());
    let list = actors.close()?;
    let alike = alike && has_cells(&list, played.cells.as_slice());
    drop(list);
    Some(alike)
}

// The items of a seed, one for each of the first hundred words of its generator.
fn sampled(alloc: Global, seed: u64) -> Result<Vec<Item>, AllocError> {
    let mut words = Pcg32::seed_from_u64(seed);
    let mut items = Vec::with_capacity(alloc, 100)?;
    for _item in 0..100 {
        items.push(Item {
            actor: words.next_word() % 3,
            memory: true,
        })?;
    }
    Ok(items)
}

// What is counted in plays: the calls, and those that were full or left broken places.
#[derive(Clone, Copy, Debug, PartialEq, Eq)]
struct Counts {
    alike: u64,
    calls: u64,
    full: u64,
    broken: u64,
}

impl Counts {
    fn count(&mut self, call: &Ended) {
        self.calls = self.calls.wrapping_add(1);
        match call.answer {
            Answer::Full { .. } => self.full = self.full.wrapping_add(1),
            Answer::BrokenRun { .. } => self.broken = self.broken.wrapping_add(1),
            _ => {}
        }
    }

    fn count_all(&mut self, calls: &[Ended]) {
        for call in calls {
            self.count(call);
        }
    }

    // Plays a script's actors by the items of a seed, on the list and on the vector.
    fn play(&mut self, alloc: Global, script: &str, seed: u64) -> Result<(), Fail> {
        let Script {
            limit,
            programs,
            ..
        } = read(alloc, script.as_bytes())?;
        let items = sampled(alloc, seed)?;
        let played = play_calls(alloc, limit, programs, &items)?;
        self.count_all(played.ended.as_slice());
        let alike = plays_alike(alloc, limit, &played).ok_or("no memory")?;
        self.alike = self.alike.wrapping_add(u64::from(alike));
        Ok(())
    }
}

// The counts of a hundred plays of a script's actors.
fn counted(alloc: Global, script: &str) -> Result<Counts, Fail> {
    let mut counts = Counts {
        alike: 0,
        calls: 0,
        full: 0,
        broken: 0,
    };
    for seed in 1..101 {
        counts.play(alloc, script, seed)?;
    }
    Ok(counts)
}

// Three actors of three calls each, and whether a growth of theirs may be full.
type Row = (&'static str, bool);

#[rattlefmt::skip]
static ROWS: [Row; 7] = [
    ("limit 16\nactor a push 1, grow 3 2, atleast 9 3\nactor b fail 4 5 2, read 0, push 6\n\
        actor c atleast 5 7, size, grow 2 8\nsteps", false),
    ("limit 8\nactor a push 1, grow 3 2, atleast 9 3\nactor b fail 4 5 2, read 0, push 6\n\
        actor c atleast 5 7, size, grow 2 8\nsteps", true),
    // Every growth is refused its construction: at its first place, further on, or at its last.
    ("limit 16\nactor a fail 1 1 0, fail 3 2 0, read 3\nactor b fail 4 5 0, read 0, fail 2 6 0\n\
        actor c fail 5 7 0, size, fail 2 8 0\nsteps", true),
    ("limit 16\nactor a fail 1 1 0, fail 3 2 1, read 3\nactor b fail 4 5 2, read 0, fail 2 6 0\n\
        actor c fail 5 7 3, size, fail 2 8 1\nsteps", true),
    ("limit 16\nactor a fail 1 1 0, fail 3 2 2, read 3\nactor b fail 4 5 3, read 0, fail 2 6 1\n\
        actor c fail 5 7 4, size, fail 2 8 1\nsteps", true),
    ("limit 8\nactor a fail 1 1 0, fail 3 2 2, read 3\nactor b fail 4 5 1, read 0, fail 2 6 1\n\
        actor c fail 5 7 2, size, fail 2 8 0\nsteps", true),
    // Two actors mend what the first breaks, and what they break themselves.
    ("limit 8\nactor a fail 2 1 0, fail 3 2 1, mend 1 9\nactor b mend 0 5, fail 2 6 0, mend 2 6\n\
        actor c mend 0 7, mend 2 8, read 0\nsteps", false),
];

#[test]
fn sampled_calls_have_the_answers_and_cells_of_the_plain_list(rt: HostRuntime) -> Result<(), Fail> {
    for (script, may_be_full) in ROWS.as_slice() {
        let counts = counted(rt.alloc(), script)?;
        assert!(rt; counts.alike == 100 && counts.calls == 900, "{script}");
        assert!(rt;
            (counts.full > 0) == *may_be_full && counts.broken > 0,
            "{script}"
        );
    }
    Ok(())
}
