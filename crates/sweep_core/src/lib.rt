//! Sampled schedules of the machine of atomic steps.
//!
//! `sweep` plays schedules whose items come from a seeded generator, checks the events of each against the
//! plain list of cells, and counts. `SweepReport` is what it found. `schedule_items` returns one schedule.
//!
//! A caller can prove the whole report: `specs/Sweep.antt` says which items each seed gives. It is the same
//! however the schedules are shared out among threads. Only memory that is refused leaves a sweep without a
//! report.
#![tactic(auto)]

mod one_schedule;
mod report;
mod schedule;
mod schedule_shares;

pub use report::SweepReport;
pub use schedule::schedule_items;
pub use schedule_shares::{MOST_ITEMS, MOST_SCHEDULES, sweep};
