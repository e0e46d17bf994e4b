//! One schedule: its play, checked and counted.
ghost use Rattle.std.specs.Prelude.{◌≡◌, ◌↔◌, IsTrue, IfOk};
ghost use Rattle.book_core.specs.Cells.{empty_list};
ghost use Rattle.book_core.specs.History.{IsLegalFrom};
ghost use Rattle.sweep_core.specs.Sweep.{sampled_limit, sampled_play};
ghost use Rattle.sweep_core.specs.Sums.{report_of};

use crate::report::SweepReport;
use crate::schedule::{items_of, make_programs};
use book_core::{Event, Reply, check};
use seg_core::Layout;
use std::alloc::{AllocError, Global};
use step_core::{Played, laws, play_valid};

const LIMIT: u64 = 16;

// The play of the schedule of a seed.
fn play_seed(alloc: Global, seed: u64, len: u32) -> Result<Played, AllocError>
    ensures events { IfOk result (λ played. played.events ≡ (sampled_play seed len).events) }
    ensures ended { IfOk result (λ played. played.ended ≡ (sampled_play seed len).ended) }
{
    let items = items_of(alloc, seed, len)?;
    let programs = make_programs(alloc)?;
    play_valid(alloc, Layout::default(), LIMIT, programs, &items)
}

// Tests whether events are a history of the sequential vector, by `check`.
fn is_legal(alloc: Global, events: &[(Event, Reply)]) -> Result<bool, AllocError>
    ensures { IfOk result (λ yes. IsTrue yes ↔ IsLegalFrom (empty_list sampled_limit) events.now) }
{
    check(alloc, LIMIT, events)
}

// The report of the schedule of a seed.
pub(crate) fn report_of(alloc: Global, seed: u64, len: u32) -> Result<SweepReport, AllocError>
    ensures { IfOk result (λ report. report ≡ report_of len seed) }
{
    // For the proof: every play is legal.
    laws::legal();
    let played = play_seed(alloc, seed, len)?;
    let legal = is_legal(alloc, played.events.as_slice())?;
    Ok(SweepReport {
        schedules: 1,
        legal: u64::from(legal),
        events: played.events.len() as u64,
        ended: played.ended.len() as u64,
    })
}
