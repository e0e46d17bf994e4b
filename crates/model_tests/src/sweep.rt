//! Reports of sweeps, and what they sum up.

mod memory;

use std::alloc::AllocError;
use sweep_core::{SweepReport, sweep};

#[test]
fn two_items_cause_no_event_and_end_no_call(rt: HostRuntime) -> Result<(), AllocError> {
    let report = sweep(&rt, rt.alloc(), 1, 5, 2)?;
    let text = report.to_string(rt.alloc())?;
    assert!(rt; text.as_str() == "schedules 5\nlegal 5\nevents 0\nended 0\n");
    Ok(())
}

#[test]
fn a_sweep_has_the_sums_of_its_schedules(rt: HostRuntime) -> Result<(), AllocError> {
    let mut events: u64 = 0;
    let mut ended: u64 = 0;
    for number in 0..20u64 {
        let one = sweep(&rt, rt.alloc(), 7 + number, 1, 60)?;
        events = events.wrapping_add(one.events);
        ended = ended.wrapping_add(one.ended);
    }
    let sums = SweepReport {
        schedules: 20,
        legal: 20,
        events,
        ended,
    };
    assert!(rt; sweep(&rt, rt.alloc(), 7, 20, 60)? == sums);
    Ok(())
}
