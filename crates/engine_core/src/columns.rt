//! The columns of a trace's line.
ghost use Rattle.std.specs.Prelude.{◌≡◌, ◌++◌, decimal, replicate, OnOk};
ghost use Rattle.std.specs.Io.KnownBytes.{Appends};
ghost use Rattle.engine_core.specs.Trace.{step_text, finding_text, event_text, reply_text, row_text};
ghost use Rattle.engine_core.specs.Trace.{call_text, column, number_width, call_width, step_width, event_width};
ghost use Rattle.engine_core.specs.Trace.{step_columns, idle_columns, item_columns, size_column};

use book_core::{Event, Reply};
use script_core::{Line, WriteFault, command_word};
use std::alloc::AllocError;
use std::io::Write;
use step_core::{Finding, Phase, TracedStep};

// The widths of the columns. No text of the first four is wider.
const NUMBER_WIDTH: usize = 6;

const CALL_WIDTH: usize = 13;

const STEP_WIDTH: usize = 16;

const FINDING_WIDTH: usize = 10;

const EVENT_WIDTH: usize = 24;

fn push_spaces(text: &mut Vec<u8>, count: usize) -> Result<(), AllocError>
    ensures { OnOk result (text.new.items ≡ text.old.items ++ replicate count 32) }
{
    for _more in 0..count {
        text.push(b' ')?;
    }
    Ok(())
}

fn push_column(text: &mut Vec<u8>, width: usize, words: &[u8]) -> Result<(), AllocError>
    ensures { OnOk result (text.new.items ≡ text.old.items ++ column width words.now) }
{
    text.extend_from_slice(words)?;
    push_spaces(text, width.saturating_sub(words.len()))?;
    text.push(b' ')?;
    Ok(())
}

fn write_number<W: Write>(w: &mut W, number: u64) -> Result<(), WriteFault>
    ensures { OnOk result (Appends (W.contents w.old) (W.contents w.new) (decimal number)) }
{
    write!(w, "{number}")?;
    Ok(())
}

// A line has room for the text of each column.
pub(crate) fn push_number(text: &mut Vec<u8>, number: u64) -> Result<(), AllocError>
    ensures { OnOk result
        (text.new.items ≡ text.old.items ++ column number_width (decimal number)) }
{
    let mut line = Line::new();
    write_number(&mut line, number).map_err(|_| AllocError)?;
    push_column(text, NUMBER_WIDTH, line.as_slice())
}

fn write_call<W: Write>(w: &mut W, name: u8, step: &TracedStep) -> Result<(), WriteFault>
    ensures { OnOk result
        (Appends (W.contents w.old) (W.contents w.new) (call_text name step.now)) }
{
    w.write_all(&[name])?;
    write!(w, "{} ", step.number)?;
    w.write_all(command_word(&step.command))?;
    Ok(())
}

fn push_call(text: &mut Vec<u8>, name: u8, step: &TracedStep) -> Result<(), AllocError>
    ensures { OnOk result
        (text.new.items ≡ text.old.items ++ column call_width (call_text name step.now)) }
{
    let mut line = Line::new();
    write_call(&mut line, name, step).map_err(|_| AllocError)?;
    push_column(text, CALL_WIDTH, line.as_slice())
}

fn write_phase<W: Write>(w: &mut W, phase: Phase) -> Result<(), WriteFault>
    ensures { OnOk result (Appends (W.contents w.old) (W.contents w.new) (step_text phase)) }
{
    let written = match phase {
        Phase::Load => write!(w, "Load"),
        Phase::Scout { segment, .. } => write!(w, "Scout {segment}"),
        Phase::Put { segment, .. } => write!(w, "Put {segment}"),
        Phase::Exchange { .. } => write!(w, "Exchange"),
        Phase::Raise { .. } => write!(w, "Raise"),
        Phase::Begin { place, .. } => write!(w, "Begin {place}"),
        Phase::Fill { place, .. } => write!(w, "Fill {place}"),
        Phase::Spoil { place, .. } => write!(w, "Spoil {place}"),
        Phase::Mend { place } => write!(w, "Mend {place}"),
        Phase::FillMended { place } => write!(w, "FillMended {place}"),
        Phase::Look { place } => write!(w, "Look {place}"),
    };
    written.map_err(WriteFault::from)
}

fn push_phase(text: &mut Vec<u8>, phase: Phase) -> Result<(), AllocError>
    ensures { OnOk result
        (text.new.items ≡ text.old.items ++ column step_width (step_text phase)) }
{
    let mut line = Line::new();
    write_phase(&mut line, phase).map_err(|_| AllocError)?;
    push_column(text, STEP_WIDTH, line.as_slice())
}

fn finding_word(finding: Finding) -> &'static [u8]
    ensures { result.now ≡ finding_text finding }
{
    match finding {
        Finding::Loaded => b"loaded",
        Finding::Installed => b"installed",
        Finding::Missing => b"missing",
        Finding::Refused => b"refused",
        Finding::Won => b"won",
        Finding::Lost => b"lost",
        Finding::Full => b"full",
        Finding::Enough => b"enough",
        Finding::OutOfRange => b"outofrange",
        Finding::Taken => b"taken",
        Finding::Filled => b"filled",
        Finding::Broken => b"broken",
        Finding::Pending => b"pending",
        Finding::Nothing => b"nothing",
    }
}

fn write_event<W: Write>(w: &mut W, event: &Event) -> Result<(), WriteFault>
    ensures { OnOk result (Appends (W.contents w.old) (W.contents w.new) (event_text event.now)) }
{
    let written = match event {
        Event::Claim { n, .. } => write!(w, "Claim {n}"),
        Event::Raise { to, .. } => write!(w, "Raise {to}"),
        Event::Finish { place, value, .. } => write!(w, "Finish {place} {value}"),
        Event::Break { place, .. } => write!(w, "Break {place}"),
        Event::Mend { place, .. } => write!(w, "Mend {place}"),
        Event::Look { place, .. } => write!(w, "Look {place}"),
        Event::Size { .. } => write!(w, "Size"),
        Event::RefusedFull { n, .. } => write!(w, "RefusedFull {n}"),
        Event::RefusedMemory { .. } => write!(w, "RefusedMemory"),
    };
    written.map_err(WriteFault::from)
}

fn write_event_reply<W: Write>(w: &mut W, reply: &Reply) -> Result<(), WriteFault>
    ensures { OnOk result (Appends (W.contents w.old) (W.contents w.new) (reply_text reply.now)) }
{
    let written = match reply {
        Reply::Run { from, n } => write!(w, "Run {from} {n}"),
        Reply::Enough { size } => write!(w, "Enough {size}"),
        Reply::Done => write!(w, "Done"),
        Reply::Value { value } => write!(w, "Value {value}"),
        Reply::Pending => write!(w, "Pending"),
        Reply::Broken => write!(w, "Broken"),
        Reply::OutOfRange { size } => write!(w, "OutOfRange {size}"),
        Reply::Size { size } => write!(w, "Size {size}"),
        Reply::Full { size } => write!(w, "Full {size}"),
        Reply::NoMemory => write!(w, "NoMemory"),
    };
    written.map_err(WriteFault::from)
}

fn write_row<W: Write>(w: &mut W, row: &Option<(Event, Reply)>) -> Result<(), WriteFault>
    ensures { OnOk result (Appends (W.contents w.old) (W.contents w.new) (row_text row.now)) }
{
    match row {
        Some((event, reply)) => {
            write_event(w, event)?;
            w.write_all(b": ")?;
            write_event_reply(w, reply)
        }
        None => {
            w.write_all(b"-")?;
            Ok(())
        }
    }
}

fn push_row(text: &mut Vec<u8>, row: &Option<(Event, Reply)>) -> Result<(), AllocError>
    ensures { OnOk result
        (text.new.items ≡ text.old.items ++ column event_width (row_text row.now)) }
{
    let mut line = Line::new();
    write_row(&mut line, row).map_err(|_| AllocError)?;
    push_column(text, EVENT_WIDTH, line.as_slice())
}

fn push_step(text: &mut Vec<u8>, name: u8, step: &TracedStep) -> Result<(), AllocError>
    ensures { OnOk result (text.new.items ≡ text.old.items ++ step_columns name step.now) }
{
    push_call(text, name, step)?;
    push_phase(text, step.phase)?;
    push_column(text, FINDING_WIDTH, finding_word(step.finding))?;
    push_row(text, &step.event)
}

// The columns of an item whose actor has no call left.
fn push_idle(text: &mut Vec<u8>, name: u8) -> Result<(), AllocError>
    ensures { OnOk result (text.new.items ≡ text.old.items ++ idle_columns name) }
{
    push_column(text, CALL_WIDTH, &[name])?;
    push_column(text, STEP_WIDTH, b"-")?;
    push_column(text, FINDING_WIDTH, finding_word(Finding::Nothing))?;
    push_column(text, EVENT_WIDTH, b"-")
}

pub(crate) fn push_item(
    text: &mut Vec<u8>,
    name: u8,
    step: &Option<TracedStep>,
) -> Result<(), AllocError>
    ensures { OnOk result (text.new.items ≡ text.old.items ++ item_columns name step.now) }
{
    match step {
        Some(step) => push_step(text, name, step),
        None => push_idle(text, name),
    }
}

fn write_size<W: Write>(w: &mut W, size: u64) -> Result<(), WriteFault>
    ensures { OnOk result (Appends (W.contents w.old) (W.contents w.new) (size_column size)) }
{
    writeln!(w, "size {size}")?;
    Ok(())
}

pub(crate) fn push_size(text: &mut Vec<u8>, size: u64) -> Result<(), AllocError>
    ensures { OnOk result (text.new.items ≡ text.old.items ++ size_column size) }
{
    write_size(text, size).map_err(|_| AllocError)
}
