//! What a sweep found.
ghost use Rattle.std.specs.Prelude.{◌≡◌};
ghost use Rattle.sweep_core.specs.Sums.{sum_of_results, plus};

use std::alloc::AllocError;
use std::fmt;

/// The findings of a sweep.
#[derive(Clone, Copy, Debug, PartialEq, Eq)]
pub struct SweepReport {
    /// The number of schedules that were played.
    pub schedules: u64,
    /// The number of schedules whose events are a history of the sequential vector.
    pub legal: u64,
    /// The number of events in all.
    pub events: u64,
    /// The number of ended calls in all.
    pub ended: u64,
}

impl fmt::Display for SweepReport {
    ghost use Rattle.std.specs.Prelude.{Some};
    ghost use Rattle.sweep_core.specs.Sweep.{report_text};

    ghost output = { λ report. Some (report_text report) };

    fn fmt<W: fmt::Write>(&self, f: &mut fmt::Formatter<W>) -> fmt::Result {
        write!(
            f,
            "schedules {}\nlegal {}\nevents {}\nended {}\n",
            self.schedules, self.legal, self.events, self.ended
        )
    }
}

// Both together. The numbers of a sweep are small, and do not wrap.
fn add_reports(a: SweepReport, b: SweepReport) -> SweepReport
    ensures { result ≡ plus a b }
{
    SweepReport {
        schedules: a.schedules.wrapping_add(b.schedules),
        legal: a.legal.wrapping_add(b.legal),
        events: a.events.wrapping_add(b.events),
        ended: a.ended.wrapping_add(b.ended),
    }
}

// The same if memory may have been refused to either.
pub(crate) fn add_results(
    a: Result<SweepReport, AllocError>,
    b: Result<SweepReport, AllocError>,
) -> Result<SweepReport, AllocError>
    ensures { result ≡ sum_of_results a b }
{
    Ok(add_reports(a?, b?))
}
