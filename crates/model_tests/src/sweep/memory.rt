// Any one request for memory may be refused: then a sweep has no report, and the next one has the whole.
// `tests/refuse-memory` refuses each request in turn.
use sweep_core::{SweepReport, sweep};

const REPORT: SweepReport = SweepReport {
    schedules: 2,
    legal: 2,
    events: 33,
    ended: 14,
};

#[test]
fn a_sweep_is_run_again(rt: HostRuntime) {
    let mut ended = sweep(&rt, rt.alloc(), u64::MAX, 2, 60);
    if ended.is_err() {
        ended = sweep(&rt, rt.alloc(), u64::MAX, 2, 60);
    }
    assert!(rt; ended == Ok(REPORT));
}
