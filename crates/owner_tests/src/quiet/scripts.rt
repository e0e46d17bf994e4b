// Scripts of one owner: lists, each with its steps.
use super::steps::{Step, first_wrong};
use super::{listed, vec_of};
use quiet_core::{Quiet, QuietAt, QuietError, QuietMendError};
use std::alloc::AllocGlobal;
use std::process::Abort;

// A list of values, or a new one if there are none, and steps on it.
struct Script {
    name: &'static str,
    limit: u64,
    values: &'static [u64],
    steps: &'static [Step],
}

const FULL: Script = Script {
    name: "a full list gives the value back",
    limit: 1,
    values: &[],
    steps: &[
        Step::Push(7, Ok(0)),
        Step::Push(8, Err((QuietError::TooLong, 8))),
        Step::Reserve(2, Err(QuietError::TooLong)),
    ],
};

const CAPACITIES: Script = Script {
    name: "capacities follow the segments",
    limit: 16,
    values: &[1, 2, 3],
    steps: &[
        Step::Capacity(4),
        Step::Reserve(5, Ok(())),
        Step::Capacity(8),
        Step::Shrink,
        Step::Capacity(4),
        Step::Clear,
        Step::Len(0),
        Step::Capacity(4),
        Step::Shrink,
        Step::Capacity(0),
    ],
};

const LENGTHS: Script = Script {
    name: "a list is made longer and cut",
    limit: 16,
    values: &[1, 2, 3],
    steps: &[
        Step::Resize(5, 9, Ok(()), 2),
        Step::Len(5),
        Step::Capacity(8),
        Step::Get(2, Ok(3)),
        Step::Get(3, Ok(10)),
        Step::Get(4, Ok(11)),
        Step::Resize(5, 0, Ok(()), 0),
        Step::Resize(2, 0, Ok(()), 0),
        Step::Len(2),
        Step::Capacity(8),
        Step::Get(1, Ok(2)),
        Step::Resize(17, 9, Err(QuietError::TooLong), 0),
        Step::Len(2),
    ],
};

const REFUSED: Script = Script {
    name: "a refused value breaks the members from there on, and the maker is not asked again",
    limit: 16,
    values: &[1, 2, 3],
    steps: &[
        Step::Resize(7, 2, Err(QuietError::Refused { made: 2 }), 3),
        Step::Len(7),
        Step::Capacity(8),
        Step::Get(2, Ok(3)),
        Step::Get(4, Ok(11)),
        Step::Get(5, Err(QuietAt::Broken)),
        Step::Get(6, Err(QuietAt::Broken)),
    ],
};

const MILLION: Script = Script {
    name: "a million values are made",
    limit: 1 << 20,
    values: &[],
    steps: &[
        Step::Resize(1 << 20, 1 << 20, Ok(()), 1 << 20),
        Step::Get((1 << 20) - 1, Ok((1 << 20) + 9)),
    ],
};

const EXCHANGED: Script = Script {
    name: "a value is exchanged",
    limit: 16,
    values: &[1, 2, 3],
    steps: &[
        Step::Replace(1, 20, Ok(2)),
        Step::Get(0, Ok(1)),
        Step::Get(1, Ok(20)),
        Step::Get(2, Ok(3)),
        Step::Replace(3, 40, Err((QuietAt::OutOfRange { size: 3 }, 40))),
    ],
};

const BROKEN: Script = Script {
    name: "a broken member is not exchanged",
    limit: 16,
    values: &[],
    steps: &[
        Step::Resize(2, 1, Err(QuietError::Refused { made: 1 }), 2),
        Step::Replace(1, 5, Err((QuietAt::Broken, 5))),
    ],
};

const MENDED: Script = Script {
    name: "a broken member is mended once",
    limit: 16,
    values: &[],
    steps: &[
        Step::Resize(2, 1, Err(QuietError::Refused { made: 1 }), 2),
        Step::Mend(1, 6, Ok(())),
        Step::Get(1, Ok(6)),
        Step::Len(2),
        Step::Mend(1, 7, Err((QuietMendError::Filled, 7))),
        Step::Mend(2, 8, Err((QuietMendError::OutOfRange { size: 2 }, 8))),
    ],
};

static SCRIPTS: [Script; 8] = [
    FULL, CAPACITIES, LENGTHS, REFUSED, MILLION, EXCHANGED, BROKEN, MENDED,
];

fn first_wrong_of<R: AllocGlobal + Abort>(rt: &R, script: &Script) -> Option<usize> {
    if script.limit == 0 || script.limit > 1 << 40 {
        panic!(rt; "{} is no limit", script.limit);
    }
    let mut list = if script.values.is_empty() {
        Quiet::new(rt.alloc(), script.limit)
    } else {
        listed(rt, script.limit, vec_of(rt, script.values))
    };
    first_wrong(rt.alloc(), &mut list, script.steps)
}

#[test]
fn calls_and_looks_return_what_each_script_says(rt: HostRuntime) {
    for script in SCRIPTS.as_slice() {
        assert_eq!(rt; first_wrong_of(&rt, script), None, "{}", script.name);
    }
}
