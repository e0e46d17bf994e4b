//! What the calls of a play take.

use super::layouts::layout_of;
use book_core::Work;
use script_core::read;
use std::alloc::Global;
use std::test::Fail;
use step_core::{Played, play_calls, play_in};

// A script, and what its calls take by atomic steps, in the order of their ends.
pub(super) type Row = (&'static str, &'static [Work]);

#[rattlefmt::skip]
pub(super) static ROWS: [Row; 8] = [
    ("limit 8\nactor a push 5\nsteps a a a a a a", &[
        Work { actor: 0, number: 1, lost: 0, steps: 6, segments: 1 },
    ]),
    ("limit 8\nactor a push 5\nactor b push 6\nsteps a b a a b a b b b b b a a", &[
        Work { actor: 1, number: 1, lost: 1, steps: 7, segments: 1 },
        Work { actor: 0, number: 1, lost: 0, steps: 6, segments: 1 },
    ]),
    // It loses as many exchanges as others make the size larger.
    ("limit 16\nactor a push 1\nactor b push 2, push 3, push 4\n\
        steps a a a b b b b b a a b b b b b a a a b b b b b a a a a a", &[
        Work { actor: 1, number: 1, lost: 0, steps: 5, segments: 1 },
        Work { actor: 1, number: 2, lost: 0, steps: 5, segments: 1 },
        Work { actor: 1, number: 3, lost: 0, steps: 5, segments: 1 },
        Work { actor: 0, number: 1, lost: 3, steps: 13, segments: 1 },
    ]),
    // It takes the most steps that a growth by ten may.
    ("limit 16\nactor a grow 10 1\nsteps a a a a a a a a a a a a a a a a a a a a a a a a a a a a a a", &[
        Work { actor: 0, number: 1, lost: 0, steps: 30, segments: 4 },
    ]),
    // An exchange that finds no room is not a lost one.
    ("limit 1\nactor a push 1\nactor b push 2\nsteps a a a b b b b b a", &[
        Work { actor: 1, number: 1, lost: 0, steps: 5, segments: 1 },
        Work { actor: 0, number: 1, lost: 0, steps: 4, segments: 1 },
    ]),
    // Each kind of call. The first places are in segments of two and two.
    ("limit 16\nactor a fail 1 7 0, mend 0 9, read 0, size, atleast 3 1, atleast 2 0, atleast 17 0, grow 0 5\n\
        steps a a a a a a a a a a a a a a a a a a a a a a a a", &[
        Work { actor: 0, number: 1, lost: 0, steps: 6, segments: 1 },
        Work { actor: 0, number: 2, lost: 0, steps: 3, segments: 0 },
        Work { actor: 0, number: 3, lost: 0, steps: 2, segments: 0 },
        Work { actor: 0, number: 4, lost: 0, steps: 1, segments: 0 },
        Work { actor: 0, number: 5, lost: 0, steps: 9, segments: 2 },
        Work { actor: 0, number: 6, lost: 0, steps: 1, segments: 0 },
        Work { actor: 0, number: 7, lost: 0, steps: 1, segments: 0 },
        Work { actor: 0, number: 8, lost: 0, steps: 1, segments: 0 },
    ]),
    // The same if the first eight places are one segment, and then a call that is refused its second.
    ("limit 16\nfirst 3\nactor a fail 1 7 0, mend 0 9, read 0, size, atleast 3 1, grow 6 5\n\
        steps a a a a a a a a a a a a a a a a a a a a a a a!", &[
        Work { actor: 0, number: 1, lost: 0, steps: 6, segments: 1 },
        Work { actor: 0, number: 2, lost: 0, steps: 3, segments: 0 },
        Work { actor: 0, number: 3, lost: 0, steps: 2, segments: 0 },
        Work { actor: 0, number: 4, lost: 0, steps: 1, segments: 0 },
        Work { actor: 0, number: 5, lost: 0, steps: 7, segments: 1 },
        Work { actor: 0, number: 6, lost: 0, steps: 4, segments: 2 },
    ]),
    // Two rounds in segments of sixteen: the second has the places 15 to 17.
    ("limit 32\nfirst 4\nactor a fail 3 7 1\nactor b grow 15 2, read 14\n\
        steps a a a b b b a a a a a a a a a a a \
        b b b b b b b b b b b b b b b b b b b b b b b b b b b b b b b b", &[
        Work { actor: 0, number: 1, lost: 1, steps: 14, segments: 2 },
        Work { actor: 1, number: 1, lost: 0, steps: 33, segments: 1 },
        Work { actor: 1, number: 2, lost: 0, steps: 2, segments: 0 },
    ]),
];

// The play of a script in its layout, or by whole calls.
pub(super) fn played(alloc: Global, by_steps: bool, text: &str) -> Result<Played, Fail> {
    let script = read(alloc, text.as_bytes())?;
    let (limit, programs, items) = (script.limit, script.programs, script.items);
    if by_steps {
        Ok(play_in(
            alloc,
            layout_of(script.first),
            limit,
            programs,
            items.as_slice(),
        )?)
    } else {
        Ok(play_calls(alloc, limit, programs, items.as_slice())?)
    }
}

#[test]
fn the_work_of_each_call_is_counted(rt: HostRuntime) -> Result<(), Fail> {
    for (script, works) in ROWS.as_slice() {
        let played = played(rt.alloc(), true, script)?;
        assert!(rt; played.work.as_slice() == *works, "{script}");
    }
    Ok(())
}

#[test]
fn whole_calls_have_no_counts(rt: HostRuntime) -> Result<(), Fail> {
    for (script, _) in ROWS.as_slice() {
        let played = played(rt.alloc(), false, script)?;
        assert!(rt; played.work.is_empty(), "{script}");
    }
    Ok(())
}
