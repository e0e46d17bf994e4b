//! Whole calls on the sequential vector.
ghost use Rattle.std.specs.Prelude.{◌≡◌, ◌+◌, ◌-◌, ◌≤◌, ◌<◌, ◌^◌, [], ◌∷◌, ◌++◌, length, IfOk, OnOk, Some};
ghost use Rattle.std.specs.Prelude.{None};
ghost use Rattle.seg_core.specs.Segment.{most_places};
ghost use Rattle.book_core.specs.Commands.{IsSound};
ghost use Rattle.step_core.specs.calls.WholeCall.{Is, refused, mended, call_on};
ghost use Rattle.book_core.specs.Events.{finishes, breaks};

use book_core::{Answer, Cell, CellVec, Command, Event};
use std::alloc::{AllocError, Global};

// A call with nothing in between: its events in order, and how it ends.
#[derive(Drop)]
pub(crate) struct WholeCall {
    pub(crate) events: Vec<Event>,
    pub(crate) answer: Answer,
}

fn push_finishes(
    events: &mut Vec<Event>,
    actor: u32,
    from: u64,
    n: u64,
    value: u64,
) -> Result<(), AllocError>
    requires { from + n < 2 ^ 64 }
    ensures { OnOk result (events.new.items ≡ events.old.items ++ finishes actor from n value) }
{
    for place in from..from + n {
        events.push(Event::Finish {
            actor,
            place,
            value,
        })?;
    }
    Ok(())
}

fn push_breaks(events: &mut Vec<Event>, actor: u32, from: u64, n: u64) -> Result<(), AllocError>
    requires { from + n < 2 ^ 64 }
    ensures { OnOk result (events.new.items ≡ events.old.items ++ breaks actor from n) }
{
    for place in from..from + n {
        events.push(Event::Break { actor, place })?;
    }
    Ok(())
}

fn call_of_one_event(alloc: Global, event: Event, answer: Answer) -> Result<WholeCall, AllocError>
    ensures events { IfOk result (λ call. call.events.items ≡ event ∷ []) }
    ensures answer { IfOk result (λ call. call.answer ≡ answer) }
{
    Ok(WholeCall {
        events: vec![in alloc; event]?,
        answer,
    })
}

// The growth doesn't fit.
fn refused_call(alloc: Global, list: &CellVec, actor: u32, n: u64) -> Result<WholeCall, AllocError>
    ensures { IfOk result (λ call. Is (refused list.now actor n) call) }
{
    let size = list.cells().len() as u64;
    call_of_one_event(
        alloc,
        Event::RefusedFull { actor, n },
        Answer::Full { size },
    )
}

// The places that a growth appends, and what becomes of them.
#[derive(Clone, Copy)]
struct Growth {
    actor: u32,
    from: u64,
    n: u64,
    value: u64,
    // How many of the places are filled; the others are broken.
    made: u64,
}

impl Growth {
    // All its places are filled.
    fn filled(actor: u32, from: u64, n: u64, value: u64) -> Self
        ensures { result ≡ record { actor = actor; from = from; n = n; value = value; made = n } }
    {
        Growth {
            actor,
            from,
            n,
            value,
            made: n,
        }
    }
}

// The claiming event, and then what the owner does at its places.
fn call_of_growth(
    alloc: Global,
    claim: Event,
    growth: Growth,
    answer: Answer,
) -> Result<WholeCall, AllocError>
    requires made { growth.made ≤ growth.n }
    requires fits { growth.from + growth.n < 2 ^ 64 }
    ensures events { IfOk result (λ call. call.events.items
        ≡ claim ∷ (finishes growth.actor growth.from growth.made growth.value
        ++ breaks growth.actor (growth.from + growth.made) (growth.n - growth.made))) }
    ensures answer { IfOk result (λ call. call.answer ≡ answer) }
{
    let Growth {
        actor,
        from,
        n,
        value,
        made,
    } = growth;
    let mut events = vec![in alloc; claim]?;
    push_finishes(&mut events, actor, from, made, value)?;
    push_breaks(&mut events, actor, from + made, n - made)?;
    Ok(WholeCall { events, answer })
}

fn room(list: &CellVec) -> u64
    ensures value { result ≡ list.now.limit - length list.now.cells }
    ensures bound { length list.now.cells ≤ list.now.limit }
    ensures range { list.now.limit ≤ most_places }
{
    list.limit() - list.cells().len() as u64
}

fn push_call(alloc: Global, list: &CellVec, actor: u32, value: u64) -> Result<WholeCall, AllocError>
    ensures { IfOk result (λ call. Is (call_on list.now actor (Command.Push value)) call) }
{
    if room(list) < 1 {
        return refused_call(alloc, list, actor, 1);
    }
    let from = list.cells().len() as u64;
    call_of_growth(
        alloc,
        Event::Claim { actor, n: 1 },
        Growth::filled(actor, from, 1, value),
        Answer::At { place: from },
    )
}

fn grow_call(
    alloc: Global,
    list: &CellVec,
    actor: u32,
    n: u64,
    value: u64,
) -> Result<WholeCall, AllocError>
    ensures { IfOk result (λ call. Is (call_on list.now actor (Command.Grow n value)) call) }
{
    if room(list) < n {
        return refused_call(alloc, list, actor, n);
    }
    let from = list.cells().len() as u64;
    call_of_growth(
        alloc,
        Event::Claim { actor, n },
        Growth::filled(actor, from, n, value),
        Answer::Run { from, n },
    )
}

fn at_least_call(
    alloc: Global,
    list: &CellVec,
    actor: u32,
    to: u64,
    value: u64,
) -> Result<WholeCall, AllocError>
    ensures { IfOk result (λ call. Is (call_on list.now actor (Command.AtLeast to value)) call) }
{
    let from = list.cells().len() as u64;
    let claim = Event::Raise { actor, to };
    if to <= from {
        return call_of_one_event(alloc, claim, Answer::Enough { size: from });
    }
    let n = to - from;
    if room(list) < n {
        return refused_call(alloc, list, actor, n);
    }
    let growth = Growth::filled(actor, from, n, value);
    call_of_growth(alloc, claim, growth, Answer::Run { from, n })
}

fn fail_call(alloc: Global, list: &CellVec, growth: Growth) -> Result<WholeCall, AllocError>
    requires from { growth.from ≡ length list.now.cells }
    requires made { growth.made ≤ growth.n }
    ensures { IfOk result (λ call.
        Is (call_on list.now growth.actor (Command.Fail growth.n growth.value growth.made)) call) }
{
    let Growth {
        actor,
        from,
        n,
        made,
        ..
    } = growth;
    if room(list) < n {
        return refused_call(alloc, list, actor, n);
    }
    call_of_growth(
        alloc,
        Event::Claim { actor, n },
        growth,
        Answer::BrokenRun { from, n, made },
    )
}

fn read_call(alloc: Global, list: &CellVec, actor: u32, place: u64) -> Result<WholeCall, AllocError>
    ensures { IfOk result (λ call. Is (call_on list.now actor (Command.Read place)) call) }
{
    let answer = match list.cells().get(place as usize) {
        Some(Cell::Pending(_)) => Answer::Pending,
        Some(Cell::Filled(value)) => Answer::Value { value: *value },
        Some(Cell::Broken) => Answer::Broken,
        None => Answer::OutOfRange {
            size: list.cells().len() as u64,
        },
    };
    call_of_one_event(alloc, Event::Look { actor, place }, answer)
}

fn mend_call(
    alloc: Global,
    list: &CellVec,
    actor: u32,
    place: u64,
    value: u64,
) -> Result<WholeCall, AllocError>
    ensures { IfOk result (λ call. Is (call_on list.now actor (Command.Mend place value)) call) }
{
    match list.cells().get(place as usize) {
        Some(Cell::Broken) => mended(alloc, actor, place, value),
        Some(Cell::Pending(_) | Cell::Filled(_)) | None => read_call(alloc, list, actor, place),
    }
}

// The actor takes the broken place, and fills it.
fn mended(alloc: Global, actor: u32, place: u64, value: u64) -> Result<WholeCall, AllocError>
    requires { place + 1 < 2 ^ 64 }
    ensures { IfOk result (λ call. Is (mended actor place value) call) }
{
    let mut events = vec![in alloc; Event::Mend { actor, place }]?;
    push_finishes(&mut events, actor, place, 1, value)?;
    Ok(WholeCall {
        events,
        answer: Answer::At { place },
    })
}

pub(crate) fn whole_call(
    alloc: Global,
    list: &CellVec,
    actor: u32,
    command: Command,
) -> Result<WholeCall, AllocError>
    requires { IsSound command }
    ensures { IfOk result (λ call. Is (call_on list.now actor command) call) }
{
    match command {
        Command::Push { value } => push_call(alloc, list, actor, value),
        Command::Grow { n, value } => grow_call(alloc, list, actor, n, value),
        Command::AtLeast { to, value } => at_least_call(alloc, list, actor, to, value),
        Command::Fail { n, value, at } => {
            let from = list.cells().len() as u64;
            let growth = Growth {
                actor,
                from,
                n,
                value,
                made: at,
            };
            fail_call(alloc, list, growth)
        }
        Command::Mend { place, value } => mend_call(alloc, list, actor, place, value),
        Command::Read { place } => read_call(alloc, list, actor, place),
        Command::Size => {
            let size = list.cells().len() as u64;
            call_of_one_event(alloc, Event::Size { actor }, Answer::Size { size })
        }
    }
}
