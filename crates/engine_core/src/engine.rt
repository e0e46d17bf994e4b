//! From the bytes of a script to the bytes of its play: one engine with three plays.
ghost use Rattle.std.specs.Prelude.{◌≡◌, length, Some, IfOk};
ghost use Rattle.book_core.specs.Commands.{HaveActors};
ghost use Rattle.step_core.specs.machine.Work.{AreOfActors};
ghost use Rattle.engine_core.specs.Output.{play_by, Plays};
ghost use Rattle.engine_core.specs.Reading.{IsPlayable};

use crate::error::RunError;
use crate::script::read_script;
use crate::text::write_play;
use crate::trace::make_trace;
use book_core::Sequence;
use script_core::Script;
use seg_core::Layout;
use std::alloc::{AllocError, Global};
use std::io::{Read, Write};
use step_core::{Played, play_valid, play_valid_calls};

/// An engine, by what an item of a script plays.
#[derive(Clone, Copy, Debug, PartialEq, Eq)]
pub enum Engine {
    /// Each item is one whole call.
    Calls,
    /// Each item is one atomic step.
    Steps,
    /// Each item is one atomic step, and what each ended call took is written too.
    Counted,
    /// Each item is one atomic step, and what each step found or did is written first.
    Traced,
    /// Each item is one atomic step. What each step found or did is written first, and what each ended call
    /// took is written last.
    TracedCounted,
}

// The letters of a script's actors, and its play. It was read, so only memory can be refused.
fn play_script(
    alloc: Global,
    engine: Engine,
    script: Script,
) -> Result<(Sequence<u8>, Played), AllocError>
    requires { IsPlayable script }
    ensures names { IfOk result (λ (names, _). names ≡ script.names) }
    ensures played { IfOk result (λ (_, played). play_by engine script ≡ Some played) }
    ensures actors { IfOk result (λ (_, played). HaveActors (length script.names) played.ended) }
    ensures work { IfOk result (λ (_, played). AreOfActors (length script.names) played.work) }
{
    let Script {
        limit,
        first,
        names,
        programs,
        items,
    } = script;
    let Some(layout) = Layout::new(first) else {
        unreachable!()
    };
    let items = items.as_slice();
    let played = match engine {
        Engine::Calls => play_valid_calls(alloc, limit, programs.as_slice(), items)?,
        Engine::Steps | Engine::Counted | Engine::Traced | Engine::TracedCounted => {
            play_valid(alloc, layout, limit, programs, items)?
        }
    };
    Ok((names, played))
}

/// Reads a script, plays its items by the engine, and writes the text of the play. An engine that traces plays
/// the items twice.
///
/// `NoMemory` and `Read` may come for any input. Nothing is written before the whole text is made.
pub fn run_script<R: Read, W: Write>(
    alloc: Global,
    engine: Engine,
    reader: &mut R,
    writer: &mut W,
) -> Result<(), RunError>
    ensures plays { Plays engine result (R.remaining reader.old)
        (W.contents writer.old) (W.contents writer.new) }
{
    let script = read_script(alloc, reader)?;
    let trace = make_trace(alloc, engine, &script)?;
    let (names, played) = play_script(alloc, engine, script)?;
    write_play(trace, writer, engine, names.as_slice(), &played)
}

/// Runs a script whose items are whole calls, like [`run_script`].
pub fn run_calls<R: Read, W: Write>(
    alloc: Global,
    reader: &mut R,
    writer: &mut W,
) -> Result<(), RunError>
    ensures plays { Plays Engine.Calls result (R.remaining reader.old)
        (W.contents writer.old) (W.contents writer.new) }
{
    run_script(alloc, Engine::Calls, reader, writer)
}

/// Runs a script whose items are atomic steps, in segments of the script's layout. Otherwise it is
/// `run_calls`.
pub fn run_steps<R: Read, W: Write>(
    alloc: Global,
    reader: &mut R,
    writer: &mut W,
) -> Result<(), RunError>
    ensures plays { Plays Engine.Steps result (R.remaining reader.old)
        (W.contents writer.old) (W.contents writer.new) }
{
    run_script(alloc, Engine::Steps, reader, writer)
}

/// Runs a script whose items are atomic steps, like `run_steps`, and adds a line for each ended call, in
/// order: its lost exchanges and its steps.
pub fn run_steps_counted<R: Read, W: Write>(
    alloc: Global,
    reader: &mut R,
    writer: &mut W,
) -> Result<(), RunError>
    ensures plays { Plays Engine.Counted result (R.remaining reader.old)
        (W.contents writer.old) (W.contents writer.new) }
{
    run_script(alloc, Engine::Counted, reader, writer)
}
