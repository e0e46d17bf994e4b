//! Sampled schedules, shared out among threads.
ghost use Rattle.std.specs.Prelude.{◌≡◌, ◌≤◌, IfOk, Ok};
ghost use Rattle.sweep_core.specs.Sweep.{seed_of, all_events, all_ended};
ghost use Rattle.sweep_core.specs.Sums.{sum_of_results, no_report, report_of, reports_of, total_of};

use crate::one_schedule::report_of;
use crate::report::{SweepReport, add_results};
use rayon::prelude::*;
use std::alloc::{AllocError, Global};
use std::thread::Threads;

/// The greatest number of schedules of a sweep.
pub const MOST_SCHEDULES: u32 = 10_000;

/// The greatest number of items of a schedule.
pub const MOST_ITEMS: u32 = 1_000;

// How few schedules are worth a thread of their own.
const LEAST_SHARE: usize = 16;

const NOTHING: SweepReport = SweepReport {
    schedules: 0,
    legal: 0,
    events: 0,
    ended: 0,
};

// A report, unless memory was refused.
type Outcome = Result<SweepReport, AllocError>;

// The reports of all schedules together, from all threads.
fn sum_reports<R: Threads + Sync>(
    rt: &R,
    alloc: Global,
    seed: u64,
    count: u32,
    len: u32,
) -> Result<SweepReport, AllocError>
    ensures { IfOk result (λ report. report ≡ total_of (reports_of seed count len)) }
{
    (0..count)
        .into_par_iter()
        .with_min_len(LEAST_SHARE)
        .map(
            move |number: u32| -> Outcome
                ensures { IfOk result (λ report. report ≡ report_of len (seed_of seed number)) }
            { report_of(alloc, seed.wrapping_add(u64::from(number)), len) },
        )
        .reduce(
            rt,
            || -> Outcome
                ensures { result ≡ Ok no_report }
            { Ok(NOTHING) },
            |a: Outcome, b: Outcome| -> Outcome
                ensures { result ≡ sum_of_results a b }
            { add_results(a, b) },
        )
}

/// Plays `count` schedules of `len` items each, and checks the events of each.
///
/// Schedule i has the items of the seed `seed + i`, which wraps. The schedules are distributed among threads;
/// memory does not grow with their number.
pub fn sweep<R: Threads + Sync>(
    rt: &R,
    alloc: Global,
    seed: u64,
    count: u32,
    len: u32,
) -> Result<SweepReport, AllocError>
    requires schedules { 1 ≤ count × count ≤ 10000 }
    requires items { 1 ≤ len × len ≤ 1000 }
    ensures schedules { IfOk result (λ report. report.schedules ≡ count) }
    ensures legal { IfOk result (λ report. report.legal ≡ count) }
    ensures events { IfOk result (λ report. report.events ≡ all_events seed count len) }
    ensures ended { IfOk result (λ report. report.ended ≡ all_ended seed count len) }
{
    sum_reports(rt, alloc, seed, count, len)
}
