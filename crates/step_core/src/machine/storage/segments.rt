//! Scout and Put: a growth installs the segments of its places unless they are there.
ghost use Rattle.std.specs.Prelude.{◌≡◌, ◌+◌, ◌≤◌, ◌<◌, true, false, IfOk, OnErr};
ghost use Rattle.std.specs.FinSet as set;
ghost use Rattle.seg_core.specs.Segment.{IsLayout, most_places, segment_count};
ghost use Rattle.step_core.specs.machine.Step.{claiming, after_segment};

use crate::machine::phase::Phase;
use crate::machine::storage::{StepOutcome, Storage, end_call, go_on_to};
use book_core::{Answer, Command, Event, Reply};
use seg_core::Layout;
use std::alloc::AllocError;

impl Storage {
    ghost use Rattle.step_core.specs.machine.Step.{scout, put};
    ghost use Rattle.step_core.specs.machine.Bounds.{given};

    pub(crate) fn scout(&self, command: &Command, from: u64, n: u64, segment: u32) -> StepOutcome
        requires segment { segment < segment_count self.now.layout }
        requires places { from + n ≤ most_places }
        ensures gives { given self.now result ≡ scout self.now command.now from n segment }
    {
        if self.blocks.has(segment) {
            return go_on_to(after_segment(self.blocks.layout(), command, from, n, segment));
        }
        go_on_to(Phase::Put { from, n, segment })
    }

    pub(crate) fn put(
        &mut self,
        actor: u32,
        command: &Command,
        memory: bool,
        from: u64,
        n: u64,
        segment: u32,
    ) -> Result<StepOutcome, AllocError>
        requires segment { segment < segment_count self.old.layout }
        requires places { from + n ≤ most_places }
        ensures gives { IfOk result (λ outcome. given self.new outcome
            ≡ put self.old actor command.now memory from n segment) }
        ensures err { OnErr result (self.new ≡ self.old) }
        ensures granted { OnErr result (memory ≡ true) }
        ensures not_there { OnErr result (set.contains self.old.installed segment ≡ false) }
    {
        if !memory {
            let event = Event::RefusedMemory { actor };
            return Ok(end_call(event, Reply::NoMemory, Answer::NoMemory));
        }
        self.blocks.install(segment)?;
        Ok(go_on_to(after_segment(self.blocks.layout(), command, from, n, segment)))
    }
}

// The phase that claims the places.
fn claiming(command: &Command, from: u64, n: u64) -> Phase
    ensures { result ≡ claiming command.now from n }
{
    match *command {
        Command::AtLeast { to, .. } => Phase::Raise { to },
        _ => Phase::Exchange { from, n },
    }
}

// The next segment of the places, or their claim after the last.
fn after_segment(layout: Layout, command: &Command, from: u64, n: u64, segment: u32) -> Phase
    requires layout { IsLayout layout }
    requires segment { segment < segment_count layout }
    requires places { from + n ≤ most_places }
    ensures { result ≡ after_segment layout command.now from n segment }
{
    let end = layout.first(segment) + layout.len(segment);
    if end < from + n {
        Phase::Scout {
            from,
            n,
            segment: segment + 1,
        }
    } else {
        claiming(command, from, n)
    }
}
