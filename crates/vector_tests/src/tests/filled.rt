// One legal history of three threads that push, grow, fail a construction and read; a token that a reader sends to another; and a
// refused construction beside another's place. All by the public clauses alone.
ghost use Rattle.std.specs.Prelude.{◌≡◌, ◌+◌, IfErr, IfOk, IfSome, IsOk, IsSome};
ghost use Rattle.std.specs.Thread.{IsSync};
ghost use Rattle.seg_core.specs.Segment.{IsLimit};
ghost use Rattle.claim_core.specs.Shares.{all_shares};
ghost use Rattle.claim_core.specs.History.{Log, IsHistoryOf};
ghost use Rattle.grow_core.specs.Closing.{IsListOfHistory};
ghost use Rattle.grow_core.specs.Hand.{OwnsRun};
ghost use Rattle.grow_core.specs.Growth.{single};
ghost use Rattle.grow_core.specs.Logs.{IsFinishedIn};
ghost use Rattle.grow_core.specs.Vector.{IsHandOf, IsPlacedOf, base_of, limit_of};
ghost use Rattle.vector_tests.specs.Filled.{IsBesidePlace, IsDoneIn, LogsFind, OwnsRefused};

use super::callers::empty;
use grow_core::{AtError, GrowError, Grown, Hand, Never, Parts, Placed, Shared, laws};
use std::alloc::{AllocError, Global};
use std::thread::{Threads, join};

// The cause of a construction that is refused on purpose.
#[derive(Drop)]
struct Stopped;

// What the calls of a thread returned.
#[derive(Drop)]
struct Answers {
    place: u64,
    pushed: Result<Placed<u64>, GrowError<u64, u64, Never>>,
    grown: Result<Grown<u64>, GrowError<u64, (), AllocError>>,
    failed: Result<Grown<u64>, GrowError<u64, (), Stopped>>,
    read: Result<Placed<u64>, AtError>,
    size: u64,
}

// Reads a place without a token, and keeps the token that the read finds.
fn find(vector: &Shared<u64>, hand: &mut Hand<u64>, place: u64) -> Result<Placed<u64>, AtError>
    requires ours { IsHandOf vector.now hand.old }
    ensures token { IfOk result (λ p. IsPlacedOf vector.now p × (p.place ≡ place)) }
    ensures looks { LogsFind place hand.old hand.new result }
    ensures finished { IsFinishedIn hand.old.log place → IsOk result }
    ensures kept { (hand.new.of ≡ hand.old.of) × (hand.new.shares ≡ hand.old.shares) }
{
    match vector.at(hand, place, None) {
        Ok(at) => Ok(at.placed),
        Err(error) => Err(error),
    }
}

// Pushes a value, grows by two clones of it, fails a construction of two at its second value, reads the first place, and
// asks for the size.
fn work_in_turn(vector: &Shared<u64>, mut hand: Hand<u64>, value: u64) -> (Hand<u64>, Answers)
    requires ours { IsHandOf vector.now hand }
    ensures of { result.0.of ≡ vector.now.word }
    ensures shares { result.0.shares ≡ hand.shares }
    ensures done { IsDoneIn hand.log 2 result.1.place result.1.pushed result.1.grown result.1.failed
        result.1.read result.1.size result.0.log }
{
    let pushed = vector.try_push_back(&mut hand, value);
    let grown = vector.try_grow_by(&mut hand, 2, &value);
    let failed = vector.try_grow_with(&mut hand, 2, |i: u64| -> Result<u64, Stopped> {
        if i == 0 { Ok(value) } else { Err(Stopped) }
    });
    let place = 0;
    let read = find(vector, &mut hand, place);
    let size = vector.size(&mut hand);
    let answers = Answers {
        place,
        pushed,
        grown,
        failed,
        read,
        size,
    };
    (hand, answers)
}

// Two threads do so, and their hands are joined.
fn work_by_two<R: Threads + Sync>(
    rt: &R,
    vector: &Shared<u64>,
    a: Hand<u64>,
    b: Hand<u64>,
) -> (Hand<u64>, Answers, Answers)
    requires ours { IsHandOf vector.now a }
    requires also_ours { IsHandOf vector.now b }
    ensures of { result.0.of ≡ vector.now.word }
    ensures shares { result.0.shares ≡ a.shares + b.shares }
    ensures first { IsDoneIn a.log 2 result.1.place result.1.pushed result.1.grown result.1.failed
        result.1.read result.1.size result.0.log }
    ensures second { IsDoneIn b.log 2 result.2.place result.2.pushed result.2.grown result.2.failed
        result.2.read result.2.size result.0.log }
{
    let ((mut all, first), (other, second)) = join(
        rt,
        || -> (Hand<u64>, Answers)
            requires { IsHandOf vector.now a }
            ensures of { result.0.of ≡ vector.entry.now.word }
            ensures shares { result.0.shares ≡ a.shares }
            ensures done { IsDoneIn a.log 2 result.1.place result.1.pushed result.1.grown
                result.1.failed result.1.read result.1.size result.0.log }
        { work_in_turn(vector, a, 5) },
        || -> (Hand<u64>, Answers)
            requires { IsHandOf vector.now b }
            ensures of { result.0.of ≡ vector.entry.now.word }
            ensures shares { result.0.shares ≡ b.shares }
            ensures done { IsDoneIn b.log 2 result.1.place result.1.pushed result.1.grown
                result.1.failed result.1.read result.1.size result.0.log }
        { work_in_turn(vector, b, 6) },
    );
    vector.join(&mut all, other);
    laws::steps_stay();
    (all, first, second)
}

// Three threads do so, and the vector is closed: one legal history has the results of each thread, in its order, and the
// list is that of this history: each place that is filled there has a value, and each other one is broken.
fn work_by_three<R: Threads + Sync>(
    rt: &R,
    vector: Shared<u64>,
    a: Hand<u64>,
    b: Hand<u64>,
    c: Hand<u64>,
) -> (Parts<u64>, Answers, Answers, Answers)
    requires ours { IsHandOf vector a }
    requires also_ours { IsHandOf vector b }
    requires third_ours { IsHandOf vector c }
    requires whole { a.shares + b.shares + c.shares ≡ all_shares }
    ensures { (log : Log)
        × IsHistoryOf (limit_of vector) (base_of vector) vector.word.filled log
        × IsDoneIn a.log 2 result.1.place result.1.pushed result.1.grown result.1.failed result.1.read result.1.size log
        × IsDoneIn b.log 2 result.2.place result.2.pushed result.2.grown result.2.failed result.2.read result.2.size log
        × IsDoneIn c.log 2 result.3.place result.3.pushed result.3.grown result.3.failed result.3.read result.3.size log
        × IsListOfHistory vector log result.0.members }
{
    let vector_ref = &vector;
    let ((mut all, first), (other, second, third)) = join(
        rt,
        || -> (Hand<u64>, Answers)
            requires { IsHandOf vector_ref.now a }
            ensures of { result.0.of ≡ vector_ref.entry.now.word }
            ensures shares { result.0.shares ≡ a.shares }
            ensures done { IsDoneIn a.log 2 result.1.place result.1.pushed result.1.grown
                result.1.failed result.1.read result.1.size result.0.log }
        { work_in_turn(vector_ref, a, 4) },
        || -> (Hand<u64>, Answers, Answers)
            requires { IsSync R.row × IsHandOf vector_ref.now b × IsHandOf vector_ref.now c }
            ensures of { result.0.of ≡ vector_ref.entry.now.word }
            ensures shares { result.0.shares ≡ b.shares + c.shares }
            ensures first { IsDoneIn b.log 2 result.1.place result.1.pushed result.1.grown
                result.1.failed result.1.read result.1.size result.0.log }
            ensures second { IsDoneIn c.log 2 result.2.place result.2.pushed result.2.grown
                result.2.failed result.2.read result.2.size result.0.log }
        { work_by_two(rt, vector_ref, b, c) },
    );
    vector.join(&mut all, other);
    laws::steps_stay();
    all.laws();
    all.whole_laws();
    (vector.into_parts(all), first, second, third)
}

// A reader that finds a place filled sends its token to another thread, which reads the same value there without a look.
fn find_here_read_there<R: Threads + Sync>(
    rt: &R,
    vector: &Shared<u64>,
    a: &mut Hand<u64>,
    place: u64,
) -> Option<(u64, u64)>
    requires ours { IsHandOf vector.now a.old }
    ensures same { IfSome result (λ (here, there). here ≡ there) }
{
    let token = find(vector, a, place).ok()?;
    let here = *vector.get(&token);
    let (there, ()) = join(
        rt,
        || -> u64
            requires { IsPlacedOf vector.now token }
            ensures { result ≡ token.value }
        { *vector.get(&token) },
        || (),
    );
    Some((here, there))
}

// Reads a place that the hand has seen filled, without a token: it has the value that a token of the place has.
fn find_again(vector: &Shared<u64>, hand: &mut Hand<u64>, token: &Placed<u64>) -> u64
    requires ours { IsHandOf vector.now hand.old }
    requires also_ours { IsPlacedOf vector.now token.now }
    requires finished { IsFinishedIn hand.old.log token.now.place }
    ensures { result ≡ token.now.value }
{
    let Ok(other) = find(vector, hand, token.place()) else {
        unreachable!()
    };
    vector.agree(token, &other);
    *vector.get(&other)
}

// Once the reader's hand has met another, that one finds the place filled too, without the token, and with the same value.
fn find_after_meeting(
    vector: &Shared<u64>,
    a: &mut Hand<u64>,
    b: &mut Hand<u64>,
    place: u64,
) -> Option<(u64, u64)>
    requires ours { IsHandOf vector.now a.old }
    requires also_ours { IsHandOf vector.now b.old }
    requires unopened { base_of vector.now ≡ 0 }
    // It is `None` only if the first reader has found no value.
    ensures found { IsFinishedIn a.old.log place → IsSome result }
    ensures same { IfSome result (λ (first, second). first ≡ second) }
{
    let Ok(token) = find(vector, a, place) else {
        return None
    };
    vector.meet(a, b);
    // For the proof: the history is a legal one, and a value is seen only where it was filled.
    b.laws();
    laws::shown_places_are_finished();
    let there = find_again(vector, b, &token);
    Some((*vector.get(&token), there))
}

// Pushes a value, in whatever thread it is called. Its hand's history then has the fill of the place.
fn push_one(
    vector: &Shared<u64>,
    mut hand: Hand<u64>,
    value: u64,
) -> (Hand<u64>, Option<Placed<u64>>)
    requires ours { IsHandOf vector.now hand }
    ensures of { result.0.of ≡ vector.now.word }
    ensures owned { IfSome result.1 (λ p. OwnsRun result.0 (single p.place)) }
    ensures filled { IfSome result.1 (λ p. IsFinishedIn result.0.log p.place) }
    ensures token { IfSome result.1 (λ p. IsPlacedOf vector.now p × (p.value ≡ value)) }
{
    match vector.try_push_back(&mut hand, value) {
        Ok(placed) => (hand, Some(placed)),
        Err(_) => (hand, None),
    }
}

// Fails a construction of two values at the second.
fn refuse_second(
    vector: &Shared<u64>,
    hand: &mut Hand<u64>,
) -> Result<Grown<u64>, GrowError<u64, (), Stopped>>
    requires ours { IsHandOf vector.now hand.old }
    ensures of { hand.new.of ≡ hand.old.of }
    ensures owned { IfErr result (OwnsRefused hand.new) }
{
    // For the proof: the hand owns the run that it has claimed.
    laws::added_runs_are_owned();
    vector.try_grow_with(hand, 2, |i: u64| -> Result<u64, Stopped> {
        if i == 0 { Ok(7) } else { Err(Stopped) }
    })
}

// The same of a hand that comes back.
fn fail_one(
    vector: &Shared<u64>,
    mut hand: Hand<u64>,
) -> (Hand<u64>, Option<GrowError<u64, (), Stopped>>)
    requires ours { IsHandOf vector.now hand }
    ensures of { result.0.of ≡ vector.now.word }
    ensures owned { IfSome result.1 (OwnsRefused result.0) }
{
    match refuse_second(vector, &mut hand) {
        Ok(_) => (hand, None),
        Err(error) => (hand, Some(error)),
    }
}

// One thread has pushed a value. Another one's construction is refused: no place of its run is the first one's, whose place
// is still filled in the history of both, and whose value is read by its token.
fn fail_beside<R: Threads + Sync>(
    rt: &R,
    vector: &Shared<u64>,
    mut a: Hand<u64>,
    mut b: Hand<u64>,
    value: u64,
) -> Option<(Hand<u64>, Placed<u64>, u64, GrowError<u64, (), Stopped>)>
    requires ours { IsHandOf vector.now a }
    requires also_ours { IsHandOf vector.now b }
    ensures filled { IfSome result (λ (hand, placed, _, _). IsFinishedIn hand.log placed.place) }
    ensures beside { IfSome result (λ (_, placed, _, refused). IsBesidePlace placed.place refused) }
    ensures value { IfSome result (λ (_, _, read, _). read ≡ value) }
{
    let (placed, failed) = join(
        rt,
        || -> (Hand<u64>, Option<Placed<u64>>)
            requires { IsHandOf vector.now a }
            ensures of { result.0.of ≡ vector.entry.now.word }
            ensures owned { IfSome result.1 (λ p. OwnsRun result.0 (single p.place)) }
            ensures filled { IfSome result.1 (λ p. IsFinishedIn result.0.log p.place) }
            ensures token { IfSome result.1 (λ p. IsPlacedOf vector.entry.now p × (p.value ≡ value)) }
        { push_one(vector, a, value) },
        || -> (Hand<u64>, Option<GrowError<u64, (), Stopped>>)
            requires { IsHandOf vector.now b }
            ensures of { result.0.of ≡ vector.entry.now.word }
            ensures owned { IfSome result.1 (OwnsRefused result.0) }
        { fail_one(vector, b) },
    );
    let ((mut a, placed), (mut b, failed)) = (placed, failed);
    vector.meet(&mut a, &mut b);
    // For the proof: the hands have no place in common.
    laws::own_runs_stay();
    laws::owners_are_apart();
    let Some(placed) = placed else { return None };
    let Some(refused) = failed else { return None };
    let read = *vector.get(&placed);
    Some((a, placed, read, refused))
}

// How many members of a list have a value.
fn count_values(parts: &Parts<u64>) -> u64 {
    let mut count = 0u64;
    for place in 0..parts.len() {
        if parts.get(place).is_some() {
            count = count.wrapping_add(1);
        }
    }
    count
}

// The length of the closed list, and how many of its members have a value, if there is memory for a vector.
fn counts_of_three<R: Threads + Sync>(rt: &R, alloc: Global, limit: u64) -> Option<(u64, u64)>
    requires { IsLimit limit }
{
    let (vector, mut a) = empty(alloc, limit).ok()?;
    let b = vector.split(&mut a, 100);
    let c = vector.split(&mut a, 100);
    let (parts, first, second, third) = work_by_three(rt, vector, a, b, c);
    let counts = (parts.len(), count_values(&parts));
    drop(parts);
    drop(first);
    drop(second);
    drop(third);
    Some(counts)
}

// Three threads ask for fifteen places. A try that loses an exchange claims nothing.
#[test]
fn three_threads_have_one_history_of_their_places(rt: HostRuntime) {
    let (len, values) = counts_of_three(&rt, rt.alloc(), 15).unwrap_or((0, 0));
    assert!(rt; len > 0 && len <= 15 && values <= len);
}
