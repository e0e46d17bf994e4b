//! Traces: what each step of a play found or did.
ghost use Rattle.std.specs.Prelude.{◌≡◌, IfOk, OnOk, OnErr};
ghost use Rattle.std.specs.Option.{option_map};
ghost use Rattle.step_core.specs.machine.Step.{step_of};
ghost use Rattle.step_core.specs.machine.Trace.{finding_of, finding_of_done, finding_of_reply};
ghost use Rattle.step_core.specs.machine.Trace.{finding_of_scout, finding_of_begin};
ghost use Rattle.step_core.specs.machine.Trace.{finding_without_event, traced_step};

use crate::machine::phase::Phase;
use crate::machine::{Machine, Stepped};
use book_core::{Command, Event, Item, Reply};
use std::alloc::AllocError;

/// What a step found or did.
#[derive(Clone, Copy, Debug, PartialEq, Eq)]
pub enum Finding {
    /// It read the size.
    Loaded,
    /// The segment is installed: it was, or this step installed it.
    Installed,
    /// The segment is not installed.
    Missing,
    /// Memory for the segment was refused.
    Refused,
    /// The places of a run are the actor's.
    Won,
    /// The exchange found another size, and its call goes on from there.
    Lost,
    /// The growth would pass the limit.
    Full,
    /// The size was enough already.
    Enough,
    /// The place isn't below the size.
    OutOfRange,
    /// The slot of the place is the actor's to write.
    Taken,
    /// The slot holds a value: it did, or this step put it there.
    Filled,
    /// The slot is broken: it was, or this step broke it.
    Broken,
    /// Nobody has finished the place.
    Pending,
    /// It changed nothing.
    Nothing,
}

/// One step of a call: which call, its phase at that step, what the step found or did, and at most one event
/// with its reply.
#[derive(Clone, Copy, Debug, PartialEq, Eq)]
pub struct TracedStep {
    /// The call's number among its actor's calls, which begin at 1.
    pub number: u64,
    pub command: Command,
    pub phase: Phase,
    pub finding: Finding,
    pub event: Option<(Event, Reply)>,
}

/// One item of a schedule as it was played: the step of its actor, unless no call was left, and the size after
/// it.
#[derive(Clone, Copy, Debug, PartialEq, Eq)]
pub struct TracedItem {
    pub actor: u32,
    pub step: Option<TracedStep>,
    pub size: u64,
}

fn finding_of_done(phase: Phase) -> Finding
    ensures { result ≡ finding_of_done phase }
{
    match phase {
        Phase::Fill { .. } | Phase::FillMended { .. } => Finding::Filled,
        Phase::Spoil { .. } => Finding::Broken,
        Phase::Mend { .. } => Finding::Taken,
        _ => Finding::Nothing,
    }
}

fn finding_of_reply(phase: Phase, reply: Reply) -> Finding
    ensures { result ≡ finding_of_reply phase reply }
{
    match reply {
        Reply::Run { .. } => Finding::Won,
        Reply::Enough { .. } => Finding::Enough,
        Reply::Done => finding_of_done(phase),
        Reply::Value { .. } => Finding::Filled,
        Reply::Pending => Finding::Pending,
        Reply::Broken => Finding::Broken,
        Reply::OutOfRange { .. } => Finding::OutOfRange,
        Reply::Size { .. } => Finding::Loaded,
        Reply::Full { .. } => Finding::Full,
        Reply::NoMemory => Finding::Refused,
    }
}

fn finding_of_scout(after: Phase) -> Finding
    ensures { result ≡ finding_of_scout after }
{
    match after {
        Phase::Put { .. } => Finding::Missing,
        _ => Finding::Installed,
    }
}

fn finding_of_begin(after: Phase) -> Finding
    ensures { result ≡ finding_of_begin after }
{
    match after {
        Phase::Begin { .. } => Finding::Nothing,
        _ => Finding::Taken,
    }
}

fn finding_without_event(before: Phase, after: Phase) -> Finding
    ensures { result ≡ finding_without_event before after }
{
    match before {
        Phase::Load => Finding::Loaded,
        Phase::Scout { .. } => finding_of_scout(after),
        Phase::Put { .. } => Finding::Installed,
        Phase::Exchange { .. } => Finding::Lost,
        Phase::Begin { .. } => finding_of_begin(after),
        _ => Finding::Nothing,
    }
}

// What a step found or did that led from a phase to the one after it.
fn finding_of(before: Phase, event: Option<(Event, Reply)>, after: Phase) -> Finding
    ensures { result ≡ finding_of before event after }
{
    match event {
        None => finding_without_event(before, after),
        Some((_, reply)) => finding_of_reply(before, reply),
    }
}

// The step of a call, if there is a call, from a phase to the one after it.
fn trace_call(
    call: Option<(u64, Command)>,
    before: Phase,
    event: Option<(Event, Reply)>,
    after: Phase,
) -> Option<TracedStep>
    ensures { result ≡ option_map (traced_step before event after) call }
{
    let (number, command) = call?;
    Some(TracedStep {
        number,
        command,
        phase: before,
        finding: finding_of(before, event, after),
        event,
    })
}

impl Machine {
    ghost use Rattle.step_core.specs.machine.Installed.{MayRunOut};
    ghost use Rattle.step_core.specs.machine.Trace.{call_at, traced_item};
    ghost use Rattle.step_core.specs.machine.Work.{phase_at};

    /// Returns the call that an actor has under way or to begin: its number from 1, and its command.
    pub fn call(&self, actor: u32) -> Option<(u64, Command)>
        ensures { result ≡ call_at self.now actor }
    {
        let actors = &self.actors;
        let state = actors.get(actor as usize)?;
        let command = state.command()?;
        Some((state.ended + 1, command))
    }

    /// Returns the phase of that call: the atomic step that the actor takes next. It is `Load` if no call is
    /// left.
    pub fn phase(&self, actor: u32) -> Phase
        ensures { result ≡ phase_at self.now actor }
    {
        match self.actors.get(actor as usize) {
            Some(state) => state.call_phase(),
            None => Phase::Load,
        }
    }

    /// Takes the atomic step of an item, like [`Machine::step`], and returns what it found or did.
    pub fn trace_step(&mut self, item: &Item) -> Result<TracedItem, AllocError>
        ensures step { OnOk result
            (self.new ≡ (step_of self.old item.now.actor item.now.memory).to) }
        ensures traced { IfOk result (λ row. row ≡ traced_item self.old item.now) }
        // Real memory ran out, as in `step`.
        ensures err { OnErr result (self.new ≡ self.old) }
        ensures memory { OnErr result (MayRunOut self.old item.now.actor item.now.memory) }
    {
        let call = self.call(item.actor);
        let before = self.phase(item.actor);
        let Stepped { event, ended: _ } = self.step(item.actor, item.memory)?;
        let after = self.phase(item.actor);
        Ok(TracedItem {
            actor: item.actor,
            step: trace_call(call, before, event, after),
            size: self.size(),
        })
    }
}
