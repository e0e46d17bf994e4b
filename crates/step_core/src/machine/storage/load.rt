//! Load: what a call finds of the size, and whether it goes on.
ghost use Rattle.std.specs.Prelude.{◌≡◌, ◌+◌, ◌≤◌, ◌<◌, ℕ};
ghost use Rattle.seg_core.specs.Segment.{most_places, segment_count, segment_of};

use crate::machine::phase::Phase;
use crate::machine::storage::{StepOutcome, Storage, end_call, go_on_to};
use book_core::{Answer, Command, Event, Reply};

impl Storage {
    ghost use Rattle.step_core.specs.machine.Step.{load_growth, load_at_least, load_place, load, ends as ends_with};
    ghost use Rattle.step_core.specs.machine.Bounds.{given};

    pub(crate) fn refuse(&self, actor: u32, n: u64) -> StepOutcome
        ensures { given self.now result
            ≡ ends_with self.now
            (Event.RefusedFull actor n) (Reply.Full self.now.size) (Answer.Full self.now.size) }
    {
        let size = self.size;
        end_call(
            Event::RefusedFull { actor, n },
            Reply::Full { size },
            Answer::Full { size },
        )
    }

    // The call wants n places from the size on, and looks at their first segment.
    pub(crate) fn scout_first(&self, n: u64) -> Phase
        requires some { 0 < n }
        requires places { self.now.size + n ≤ most_places }
        ensures { (segment : ℕ) × (segment ≡ segment_of self.now.layout self.now.size)
            × (segment < segment_count self.now.layout)
            × (result ≡ Phase.Scout self.now.size n segment) }
    {
        let (segment, _) = self.blocks.layout().locate(self.size);
        Phase::Scout {
            from: self.size,
            n,
            segment,
        }
    }

    fn load_growth(&self, limit: u64, actor: u32, n: u64) -> StepOutcome
        requires limit { limit ≤ most_places }
        requires size { self.now.size ≤ limit }
        ensures gives { given self.now result ≡ load_growth limit self.now actor n }
    {
        let size = self.size;
        if n == 0 {
            let reply = Reply::Run { from: size, n: 0 };
            return end_call(
                Event::Claim { actor, n: 0 },
                reply,
                Answer::Run { from: size, n: 0 },
            );
        }
        if n <= limit - size {
            return go_on_to(self.scout_first(n));
        }
        self.refuse(actor, n)
    }

    fn load_at_least(&self, limit: u64, actor: u32, to: u64) -> StepOutcome
        requires limit { limit ≤ most_places }
        requires size { self.now.size ≤ limit }
        ensures gives { given self.now result ≡ load_at_least limit self.now actor to }
    {
        let size = self.size;
        if to <= size {
            return end_call(
                Event::Raise { actor, to },
                Reply::Enough { size },
                Answer::Enough { size },
            );
        }
        if to <= limit {
            return go_on_to(self.scout_first(to - size));
        }
        self.refuse(actor, to - size)
    }

    // A call of one place goes on to this phase if the place is claimed.
    fn load_place(&self, actor: u32, place: u64, phase: Phase) -> StepOutcome
        ensures gives { given self.now result ≡ load_place self.now actor place phase }
    {
        let size = self.size;
        if place < size {
            return go_on_to(phase);
        }
        end_call(
            Event::Look { actor, place },
            Reply::OutOfRange { size },
            Answer::OutOfRange { size },
        )
    }

    pub(crate) fn load(&self, limit: u64, actor: u32, command: &Command) -> StepOutcome
        requires limit { limit ≤ most_places }
        requires size { self.now.size ≤ limit }
        ensures gives { given self.now result ≡ load limit self.now actor command.now }
    {
        match *command {
            Command::Push { .. } => self.load_growth(limit, actor, 1),
            Command::Grow { n, .. } | Command::Fail { n, .. } => self.load_growth(limit, actor, n),
            Command::AtLeast { to, .. } => self.load_at_least(limit, actor, to),
            Command::Mend { place, .. } => self.load_place(actor, place, Phase::Mend { place }),
            Command::Read { place } => self.load_place(actor, place, Phase::Look { place }),
            Command::Size => {
                let size = self.size;
                end_call(
                    Event::Size { actor },
                    Reply::Size { size },
                    Answer::Size { size },
                )
            }
        }
    }
}
