//! Answer lines and cells as text.
ghost use Rattle.std.specs.Prelude.{◌≡◌, ◌++◌, codes, decimal, OnOk, OnErr};
ghost use Rattle.std.specs.Io.KnownBytes.{Appends};
ghost use Rattle.script_core.specs.Text.{word_of, answer_text, answer_line, work_line, cell_text, cells_line, AppendsPrefix};

use crate::bytes::{WriteFault, write_bytes};
use crate::line::Line;
use book_core::{Answer, Cell, Command, Ended, Work};
use std::io::Write;

/// Returns the word of a command.
pub fn command_word(command: &Command) -> &'static [u8]
    ensures { result.now ≡ word_of command.now }
{
    match command {
        Command::Push { .. } => b"push",
        Command::Grow { .. } => b"grow",
        Command::AtLeast { .. } => b"atleast",
        Command::Fail { .. } => b"fail",
        Command::Mend { .. } => b"mend",
        Command::Read { .. } => b"read",
        Command::Size => b"size",
    }
}

fn write_answer<W: Write>(w: &mut W, answer: &Answer) -> Result<(), WriteFault>
    ensures { OnOk result (Appends (W.contents w.old) (W.contents w.new) (answer_text answer.now)) }
{
    let written = match answer {
        Answer::At { place } => write!(w, "at {place}"),
        Answer::Run { from, n } => write!(w, "run {from} {n}"),
        Answer::Enough { size } => write!(w, "enough {size}"),
        Answer::BrokenRun { from, n, made } => write!(w, "broken {from} {n} {made}"),
        Answer::Full { size } => write!(w, "full {size}"),
        Answer::NoMemory => write!(w, "nomemory"),
        Answer::Value { value } => write!(w, "value {value}"),
        Answer::Pending => write!(w, "pending"),
        Answer::Broken => write!(w, "broken"),
        Answer::OutOfRange { size } => write!(w, "outofrange {size}"),
        Answer::Size { size } => write!(w, "{size}"),
    };
    written.map_err(WriteFault::from)
}

fn write_line<W: Write>(w: &mut W, name: u8, ended: &Ended) -> Result<(), WriteFault>
    ensures { OnOk result
        (Appends (W.contents w.old) (W.contents w.new) (answer_line name ended.now)) }
{
    w.write_all(&[name])?;
    write!(w, "{} ", ended.number)?;
    w.write_all(command_word(&ended.command))?;
    w.write_all(b" ")?;
    write_answer(w, &ended.answer)?;
    w.write_all(b"\n")?;
    Ok(())
}

/// Writes the answer line of an ended call. It takes no memory.
pub fn write_reply<W: Write>(w: &mut W, name: u8, ended: &Ended) -> Result<(), WriteFault>
    ensures ok { OnOk result
        (Appends (W.contents w.old) (W.contents w.new) (answer_line name ended.now)) }
    ensures fault { OnErr result
        (AppendsPrefix (W.contents w.old) (W.contents w.new) (answer_line name ended.now)) }
{
    let mut line = Line::new();
    write_line(&mut line, name, ended)?;
    write_bytes(w, line.as_slice())
}

fn write_counts<W: Write>(w: &mut W, name: u8, work: &Work) -> Result<(), WriteFault>
    ensures { OnOk result
        (Appends (W.contents w.old) (W.contents w.new) (work_line name work.now)) }
{
    w.write_all(&[name])?;
    writeln!(w, "{} lost {} steps {}", work.number, work.lost, work.steps)?;
    Ok(())
}

/// Writes the line of what an ended call took. It takes no memory.
pub fn write_work<W: Write>(w: &mut W, name: u8, work: &Work) -> Result<(), WriteFault>
    ensures ok { OnOk result
        (Appends (W.contents w.old) (W.contents w.new) (work_line name work.now)) }
    ensures fault { OnErr result
        (AppendsPrefix (W.contents w.old) (W.contents w.new) (work_line name work.now)) }
{
    let mut line = Line::new();
    write_counts(&mut line, name, work)?;
    write_bytes(w, line.as_slice())
}

fn write_cell<W: Write>(w: &mut W, cell: &Cell) -> Result<(), WriteFault>
    ensures { OnOk result
        (Appends (W.contents w.old) (W.contents w.new) (codes " " ++ cell_text cell.now)) }
{
    let written = match cell {
        Cell::Pending(_) => write!(w, " ."),
        Cell::Filled(value) => write!(w, " {value}"),
        Cell::Broken => write!(w, " x"),
    };
    written.map_err(WriteFault::from)
}

fn put_cell<W: Write>(w: &mut W, cell: &Cell) -> Result<(), WriteFault>
    ensures ok { OnOk result
        (Appends (W.contents w.old) (W.contents w.new) (codes " " ++ cell_text cell.now)) }
    ensures fault { OnErr result
        (AppendsPrefix (W.contents w.old) (W.contents w.new) (codes " " ++ cell_text cell.now)) }
{
    let mut line = Line::new();
    write_cell(&mut line, cell)?;
    write_bytes(w, line.as_slice())
}

fn write_size<W: Write>(w: &mut W, size: usize) -> Result<(), WriteFault>
    ensures { OnOk result
        (Appends (W.contents w.old) (W.contents w.new)
        (codes "size " ++ decimal size ++ codes ":")) }
{
    write!(w, "size {size}:")?;
    Ok(())
}

fn put_size<W: Write>(w: &mut W, size: usize) -> Result<(), WriteFault>
    ensures ok { OnOk result
        (Appends (W.contents w.old) (W.contents w.new)
        (codes "size " ++ decimal size ++ codes ":")) }
    ensures fault { OnErr result
        (AppendsPrefix (W.contents w.old) (W.contents w.new)
        (codes "size " ++ decimal size ++ codes ":")) }
{
    let mut line = Line::new();
    write_size(&mut line, size)?;
    write_bytes(w, line.as_slice())
}

/// Writes the last line: the size, and each cell. It takes no memory, and time linear in the cells.
pub fn write_cells<W: Write>(w: &mut W, cells: &[Cell]) -> Result<(), WriteFault>
    ensures ok { OnOk result
        (Appends (W.contents w.old) (W.contents w.new) (cells_line cells.now)) }
    ensures fault { OnErr result
        (AppendsPrefix (W.contents w.old) (W.contents w.new) (cells_line cells.now)) }
{
    put_size(w, cells.len())?;
    for cell in cells {
        put_cell(w, cell)?;
    }
    write_bytes(w, b"\n")
}
