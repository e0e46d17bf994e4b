//! The phases of an actor of the machine.
ghost use Rattle.std.specs.Prelude.{◌≡◌, ◌+◌, ◌<◌, ◌^◌, OnSome, slice_get};

use book_core::{Answer, Command, Ended, Sequence};

/// The state of a slot of the machine; a slot without an entry is empty.
#[derive(Clone, Copy, Debug, PartialEq, Eq)]
pub enum CellSlot {
    /// An actor has taken it, and constructs a value in it.
    Busy(u32),
    Filled(u64),
    Broken,
}

/// The atomic step that an actor takes next. A growth wants `n` places, from `from` on.
#[derive(Clone, Copy, Debug, PartialEq, Eq)]
pub enum Phase {
    /// It loads the size.
    Load,
    /// It looks whether a segment is installed.
    Scout { from: u64, n: u64, segment: u32 },
    /// It installs a segment.
    Put { from: u64, n: u64, segment: u32 },
    /// It tries to move the size from `from` by `n`.
    Exchange { from: u64, n: u64 },
    /// It raises the size to `to`, if it is less.
    Raise { to: u64 },
    /// It takes the empty slot of a place of its run.
    Begin { from: u64, n: u64, place: u64 },
    /// It fills that slot.
    Fill { from: u64, n: u64, place: u64 },
    /// It breaks that slot.
    Spoil { from: u64, n: u64, place: u64 },
    /// It takes the slot of a broken place.
    Mend { place: u64 },
    /// It fills the slot that it has mended.
    FillMended { place: u64 },
    /// It reads a place.
    Look { place: u64 },
}

/// The continuation after a step: the actor goes on to a phase, or its call ends.
#[derive(Clone, Copy, Debug, PartialEq, Eq)]
pub enum Next {
    Goes(Phase),
    Ends(Answer),
}

/// An actor: its program, how many of its calls have ended, and its phase in the one under way.
#[derive(Debug, Drop)]
pub struct Actor {
    pub program: Sequence<Command>,
    pub ended: u64,
    pub phase: Phase,
}

impl Actor {
    ghost use Rattle.step_core.specs.machine.Step.{actor_after, ended_by};
    ghost use Rattle.step_core.specs.machine.Work.{phase_in};

    // The call under way, or the one to begin, if one is left.
    pub(crate) fn command(&self) -> Option<Command>
        ensures call { result ≡ slice_get self.now.program self.now.ended }
        ensures another { OnSome result (self.now.ended + 1 < 2 ^ 64) }
    {
        self.program.as_slice().get(self.ended as usize).copied()
    }

    // The phase of that call. Without a call it is Load.
    pub(crate) fn call_phase(&self) -> Phase
        ensures { result ≡ phase_in self.now.phase (slice_get self.now.program self.now.ended) }
    {
        match self.command() {
            Some(_) => self.phase,
            None => Phase::Load,
        }
    }

    // Advances the actor: to its next phase, or to the end of its call.
    pub(crate) fn follow(&mut self, actor: u32, command: Command, next: Next) -> Option<Ended>
        requires { self.old.ended + 1 < 2 ^ 64 }
        ensures state { self.new ≡ actor_after self.old next }
        ensures ended { result ≡ ended_by actor self.old command next }
    {
        match next {
            Next::Goes(phase) => {
                self.phase = phase;
                None
            }
            Next::Ends(answer) => {
                self.ended += 1;
                self.phase = Phase::Load;
                Some(Ended {
                    actor,
                    number: self.ended,
                    command,
                    answer,
                })
            }
        }
    }
}
