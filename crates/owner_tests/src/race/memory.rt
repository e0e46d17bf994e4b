// Any one request for memory may be refused: then the race says so, and the next one has its report.
// `tests/refuse-memory` refuses each request in turn.
use race_core::{RaceError, RaceReport, race};
use span_core::Free;

const REPORT: RaceReport = RaceReport {
    size: 6,
    sum: 15,
    legal: true,
};

#[test]
fn a_race_is_run_again(rt: HostRuntime) {
    let mut ended = race(&rt, rt.alloc(), 2, 3, &Free);
    if ended == Err(RaceError::NoMemory) {
        ended = race(&rt, rt.alloc(), 2, 3, &Free);
    }
    assert!(rt; ended == Ok(REPORT));
}
