// What callers prove by public clauses alone (`uses`, `every_play`), and tests of what no clause states: which
// scripts, events and lines are the intended ones, and that calls succeed if there is memory. The texts of
// plays are rows of the program, in `tests/program`.

ghost use Rattle.std.specs.Prelude.{◌≡◌, IfOk, length};

mod every_play;
mod histories;
mod layouts;
mod lines;
mod machine;
mod memory;
mod scripts;
mod traces;
mod uses;
mod whole_calls;
mod work;

use book_core::{Command, Sequence};
use script_core::{Script, read};
use std::alloc::{AllocError, Global};
use std::test::Fail;
use step_core::{Played, play, play_calls};

// The play of a script, by atomic steps or by whole calls.
fn played(alloc: Global, by_steps: bool, text: &str) -> Result<Played, Fail> {
    let Script {
        limit,
        programs,
        items,
        ..
    } = read(alloc, text.as_bytes())?;
    let items = items.as_slice();
    let played = if by_steps {
        play(alloc, limit, programs, items)
    } else {
        play_calls(alloc, limit, programs, items)
    };
    Ok(played?)
}

// The programs of one actor with one call.
fn one_call(alloc: Global, call: Command) -> Result<Sequence<Sequence<Command>>, AllocError>
    ensures { IfOk result (λ programs. length programs ≡ 1) }
{
    let program = Sequence::from_vec(vec![in alloc; call]?);
    Ok(Sequence::from_vec(vec![in alloc; program]?))
}

// No script has it.
const UNSOUND: Command = Command::Fail {
    n: 2,
    value: 0,
    at: 2,
};
