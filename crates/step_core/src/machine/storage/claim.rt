//! Exchange and Raise: the two steps that claim places.
ghost use Rattle.std.specs.Prelude.{◌≡◌, ◌+◌, ◌≤◌, ◌<◌};
ghost use Rattle.seg_core.specs.Segment.{most_places};

use crate::machine::phase::{Next, Phase};
use crate::machine::storage::{StepOutcome, Storage, end_call, go_on_to};
use book_core::{Answer, Event, Reply};

impl Storage {
    ghost use Rattle.step_core.specs.machine.Step.{exchange, raise};
    ghost use Rattle.step_core.specs.machine.Bounds.{given};

    pub(crate) fn exchange(&mut self, limit: u64, actor: u32, from: u64, n: u64) -> StepOutcome
        requires limit { limit ≤ most_places }
        requires size { self.old.size ≤ limit }
        requires some { 0 < n }
        requires places { from + n ≤ limit }
        ensures gives { given self.new result ≡ exchange limit self.old actor from n }
    {
        if self.size == from {
            self.size = from + n;
            return StepOutcome {
                event: Some((Event::Claim { actor, n }, Reply::Run { from, n })),
                next: Next::Goes(Phase::Begin {
                    from,
                    n,
                    place: from,
                }),
            };
        }
        if n <= limit - self.size {
            return go_on_to(self.scout_first(n));
        }
        self.refuse(actor, n)
    }

    pub(crate) fn raise(&mut self, actor: u32, to: u64) -> StepOutcome
        ensures gives { given self.new result ≡ raise self.old actor to }
    {
        let from = self.size;
        let event = Event::Raise { actor, to };
        if to <= from {
            return end_call(
                event,
                Reply::Enough { size: from },
                Answer::Enough { size: from },
            );
        }
        let n = to - from;
        self.size = to;
        StepOutcome {
            event: Some((event, Reply::Run { from, n })),
            next: Next::Goes(Phase::Begin {
                from,
                n,
                place: from,
            }),
        }
    }
}
