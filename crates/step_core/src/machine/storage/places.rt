//! Begin, Fill, Spoil, Mend and Look: what is done to the slot of one place.
ghost use Rattle.std.specs.Prelude.{◌≡◌, ◌+◌, ◌≤◌, ◌<◌};
ghost use Rattle.std.specs.FinMap as map;
ghost use Rattle.seg_core.specs.Segment.{most_places};
ghost use Rattle.step_core.specs.machine.Step.{is_refused, value_of, answer_of_run, after_place};

use crate::machine::phase::{CellSlot, Next, Phase};
use crate::machine::storage::{StepOutcome, Storage, end_call, go_on_to};
use book_core::{Answer, Command, Event, Reply};

impl Storage {
    ghost use Rattle.step_core.specs.machine.Step.{begin_at, fill, spoil, mend_at, fill_mended, look_at};
    ghost use Rattle.step_core.specs.machine.Bounds.{given};
    ghost use Rattle.step_core.specs.machine.Installed.{IsReady};

    pub(crate) fn begin(
        &mut self,
        actor: u32,
        command: &Command,
        from: u64,
        n: u64,
        place: u64,
    ) -> StepOutcome
        requires low { from ≤ place }
        requires place { place < most_places }
        requires there { IsReady self.old place }
        ensures gives { given self.new result
            ≡ begin_at self.old actor command.now from n place (map.get self.old.slots place) }
    {
        if self.blocks.get(place).is_some() {
            return go_on_to(Phase::Begin { from, n, place });
        }
        self.blocks.set(place, CellSlot::Busy(actor));
        if is_refused(command, from, place) {
            go_on_to(Phase::Spoil { from, n, place })
        } else {
            go_on_to(Phase::Fill { from, n, place })
        }
    }

    pub(crate) fn fill(
        &mut self,
        actor: u32,
        command: &Command,
        from: u64,
        n: u64,
        place: u64,
    ) -> StepOutcome
        requires place { place < from + n }
        requires places { from + n ≤ most_places }
        requires there { IsReady self.old place }
        ensures gives { given self.new result ≡ fill self.old actor command.now from n place }
    {
        let value = value_of(command);
        self.blocks.set(place, CellSlot::Filled(value));
        let event = Event::Finish {
            actor,
            place,
            value,
        };
        StepOutcome {
            event: Some((event, Reply::Done)),
            next: after_place(command, from, n, place),
        }
    }

    pub(crate) fn spoil(
        &mut self,
        actor: u32,
        command: &Command,
        from: u64,
        n: u64,
        place: u64,
    ) -> StepOutcome
        requires place { place < from + n }
        requires places { from + n ≤ most_places }
        requires there { IsReady self.old place }
        ensures gives { given self.new result ≡ spoil self.old actor command.now from n place }
    {
        self.blocks.set(place, CellSlot::Broken);
        StepOutcome {
            event: Some((Event::Break { actor, place }, Reply::Done)),
            next: after_place(command, from, n, place),
        }
    }

    pub(crate) fn mend(&mut self, actor: u32, place: u64) -> StepOutcome
        requires place { place < most_places }
        requires there { IsReady self.old place }
        ensures gives { given self.new result
            ≡ mend_at self.old actor place (map.get self.old.slots place) }
    {
        match self.blocks.get(place) {
            Some(CellSlot::Broken) => {
                self.blocks.set(place, CellSlot::Busy(actor));
                StepOutcome {
                    event: Some((Event::Mend { actor, place }, Reply::Done)),
                    next: Next::Goes(Phase::FillMended { place }),
                }
            }
            None | Some(CellSlot::Busy(_)) | Some(CellSlot::Filled(_)) => self.look(actor, place),
        }
    }

    pub(crate) fn fill_mended(&mut self, actor: u32, command: &Command, place: u64) -> StepOutcome
        requires place { place < most_places }
        requires there { IsReady self.old place }
        ensures gives { given self.new result ≡ fill_mended self.old actor command.now place }
    {
        let value = value_of(command);
        self.blocks.set(place, CellSlot::Filled(value));
        let event = Event::Finish {
            actor,
            place,
            value,
        };
        end_call(event, Reply::Done, Answer::At { place })
    }

    pub(crate) fn look(&self, actor: u32, place: u64) -> StepOutcome
        ensures gives { given self.now result
            ≡ look_at self.now actor place (map.get self.now.slots place) }
    {
        let event = Event::Look { actor, place };
        match self.blocks.get(place) {
            None | Some(CellSlot::Busy(_)) => end_call(event, Reply::Pending, Answer::Pending),
            Some(CellSlot::Filled(value)) => end_call(
                event,
                Reply::Value { value },
                Answer::Value { value },
            ),
            Some(CellSlot::Broken) => end_call(event, Reply::Broken, Answer::Broken),
        }
    }
}

// Tests whether the construction at this place of the run is refused.
fn is_refused(command: &Command, from: u64, place: u64) -> bool
    requires { from ≤ place }
    ensures { result ≡ is_refused command.now from place }
{
    match *command {
        Command::Fail { at, .. } => at <= place - from,
        _ => false,
    }
}

// What a growth or a mend constructs.
fn value_of(command: &Command) -> u64
    ensures { result ≡ value_of command.now }
{
    match *command {
        Command::Push { value }
        | Command::Grow { value, .. }
        | Command::AtLeast { value, .. }
        | Command::Fail { value, .. }
        | Command::Mend { value, .. } => value,
        Command::Read { .. } | Command::Size => 0,
    }
}

// How a growth ends that won these places.
fn answer_of_run(command: &Command, from: u64, n: u64) -> Answer
    ensures { result ≡ answer_of_run command.now from n }
{
    match *command {
        Command::Push { .. } => Answer::At { place: from },
        Command::Fail { at, .. } => Answer::BrokenRun { from, n, made: at },
        _ => Answer::Run { from, n },
    }
}

// The next place of the run, or the end of the call after the last.
fn after_place(command: &Command, from: u64, n: u64, place: u64) -> Next
    requires place { place < from + n }
    requires places { from + n ≤ most_places }
    ensures { result ≡ after_place command.now from n place }
{
    if place + 1 < from + n {
        Next::Goes(Phase::Begin {
            from,
            n,
            place: place + 1,
        })
    } else {
        Next::Ends(answer_of_run(command, from, n))
    }
}
