//! The text of a play.
ghost use Rattle.std.specs.Prelude.{◌≡◌, ◌⊎◌, ◌++◌, length, IfErr, OnOk, IsErrOf};
ghost use Rattle.std.specs.Io.KnownBytes.{Appends, Keeps};
ghost use Rattle.book_core.specs.Commands.{HaveActors};
ghost use Rattle.std.specs.List.{flat_map};
ghost use Rattle.script_core.specs.Text.{answer_line, cells_line, work_line, AppendsPrefix};
ghost use Rattle.step_core.specs.machine.Work.{AreOfActors};
ghost use Rattle.engine_core.specs.Output.{played_text, text_by, work_line_in};

use crate::engine::Engine;
use crate::error::RunError;
use crate::output::write_output;
use book_core::{Cell, Ended, Work};
use script_core::{write_cells, write_reply, write_work};
use std::alloc::AllocError;
use std::io::Write;
use step_core::Played;

// A `Vec` takes all that is written, unless it is out of memory.
fn push_answer(text: &mut Vec<u8>, name: u8, ended: &Ended) -> Result<(), AllocError>
    ensures { OnOk result (text.new.items ≡ text.old.items ++ answer_line name ended.now) }
{
    write_reply(text, name, ended).map_err(|_| AllocError)
}

fn push_cells(text: &mut Vec<u8>, cells: &[Cell]) -> Result<(), AllocError>
    ensures { OnOk result (text.new.items ≡ text.old.items ++ cells_line cells.now) }
{
    write_cells(text, cells).map_err(|_| AllocError)
}

fn push_work(text: &mut Vec<u8>, name: u8, work: &Work) -> Result<(), AllocError>
    ensures { OnOk result (text.new.items ≡ text.old.items ++ work_line name work.now) }
{
    write_work(text, name, work).map_err(|_| AllocError)
}

// The lines of what the calls of actors with these letters took.
fn push_works(text: &mut Vec<u8>, names: &[u8], works: &[Work]) -> Result<(), AllocError>
    requires actors { AreOfActors (length names.now) works.now }
    ensures { OnOk result (text.new.items ≡ text.old.items
        ++ flat_map (work_line_in names.now) works.now) }
{
    for work in works {
        push_work(text, names[work.actor as usize], work)?;
    }
    Ok(())
}

// The engine's text for a play whose actors have these letters.
fn push_text(
    text: &mut Vec<u8>,
    engine: Engine,
    names: &[u8],
    played: &Played,
) -> Result<(), AllocError>
    requires actors { HaveActors (length names.now) played.now.ended }
    requires work { AreOfActors (length names.now) played.now.work }
    ensures { OnOk result
        (text.new.items ≡ text.old.items ++ text_by engine names.now played.now) }
{
    push_play(text, names, played)?;
    match engine {
        Engine::Calls | Engine::Steps | Engine::Traced => Ok(()),
        Engine::Counted | Engine::TracedCounted => push_works(text, names, played.work.as_slice()),
    }
}

// The text of a play whose actors have these letters.
pub(crate) fn push_play(text: &mut Vec<u8>, names: &[u8], played: &Played) -> Result<(), AllocError>
    requires actors { HaveActors (length names.now) played.now.ended }
    ensures { OnOk result (text.new.items ≡ text.old.items ++ played_text names.now played.now) }
{
    for ended in played.ended.as_slice() {
        push_answer(text, names[ended.actor as usize], ended)?;
    }
    push_cells(text, played.cells.as_slice())
}

// Nothing is written before the whole text is made. Its front is there already.
pub(crate) fn write_play<W: Write>(
    mut text: Vec<u8>,
    writer: &mut W,
    engine: Engine,
    names: &[u8],
    played: &Played,
) -> Result<(), RunError>
    requires actors { HaveActors (length names.now) played.now.ended }
    requires work { AreOfActors (length names.now) played.now.work }
    ensures written { OnOk result
        (Appends (W.contents writer.old) (W.contents writer.new)
        (text.items ++ text_by engine names.now played.now)) }
    ensures prefix { IsErrOf result RunError.Write → AppendsPrefix (W.contents writer.old)
        (W.contents writer.new) (text.items ++ text_by engine names.now played.now) }
    ensures faults { IfErr result (λ e.
        (e ≡ RunError.NoMemory × Keeps (W.contents writer.old) (W.contents writer.new))
        ⊎ (e ≡ RunError.Write)) }
{
    push_text(&mut text, engine, names, played)?;
    write_output(writer, &text)?;
    Ok(())
}
