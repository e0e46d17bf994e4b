//! A race of several threads that append to one shared vector.
//!
//! `race` starts workers that append their values through a gate, and checks what they won against the plain
//! list of cells. `RaceReport` is what it found, `RaceError` why there is no report.
//!
//! A caller can prove the whole report, and what each refusal means: `specs/Race.antt`. No clause says that a
//! race returns, nor that its threads run at once.
#![tactic(auto)]

mod contest;
mod history;
mod refusal;
mod report;
mod team;
mod workers;

pub use contest::{MOST_EACH, MOST_WORKERS, race};
pub use refusal::{RaceError, race_error_of};
pub use report::RaceReport;
pub use span_core::{Free, Gate, PairGate};
