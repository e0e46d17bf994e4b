//! Plays of whole calls, and the machine of atomic steps.
//!
//! - `play_calls` plays one whole call for each item of a schedule; contracts see it as `calls_played` of
//!   `specs/calls/Play.antt`, by the table `call_on` of whole calls.
//! - `Machine` moves one actor by one atomic step at a time; contracts see it as a `Configuration`, and a
//!   step as `step_of` of `specs/machine/Step.antt`, the step table with one equation per row. `play` plays
//!   one such step for each item; contracts see it as `play_of` of `specs/machine/Play.antt`, the fold of the
//!   steps. What its calls take is counted next to it, as `work_of` of `specs/machine/Work.antt`.
//! - `laws` has what holds of every play, as contracts of calls without a body: `specs/calls/Laws.antt` for
//!   whole calls, and `specs/machine/Headline.antt` for every schedule of atomic steps, with its parts in
//!   `Legal`, `Record`, `Claims`, `Tiling` and `Kept`; and `Work` for what its calls take.
//!
//! A caller can prove each event, reply and answer line of a play, when it is refused, and at which steps
//! memory may run out (`MayRunOut` of `specs/machine/Installed.antt`). Nothing is said of progress, fairness
//! or time. `Blocks`, `Bounds`, `Owners` and `Tallies` of `specs/machine` serve proofs alone. The proofs by
//! hand are in `proofs/whole_calls` and `proofs/atomic_steps`.
#![tactic(auto)]

mod calls;
mod errors;
pub mod laws;
mod machine;
mod programs;

pub use calls::{play_calls, play_valid_calls};
pub use errors::{MakeError, PlayError};
pub use machine::{
    Actor, CellSlot, Finding, Machine, Next, Phase, Stepped, TracedItem, TracedStep, play, play_in,
    play_valid,
};
pub use programs::Played;
