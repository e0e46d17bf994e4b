//! The program over any three streams: `main` hands it the system's own.
ghost use Rattle.std.specs.Prelude.{◌≡◌, ◌≢◌, ℕ, ◌*◌, Result, Err, IfOk, IfErr, String, OnOk, OnErr, string_bytes};
ghost use Rattle.std.specs.Global.{Global};
ghost use Rattle.std.specs.Io.KnownBytes.{Appends, Keeps};
ghost use Rattle.script_core.specs.Text.{AppendsPrefix};
ghost use Rattle.engine_core.specs.Output.{Plays};
ghost use Rattle.race_core.specs.Race.{race_text, IsBadSize};
ghost use Rattle.sweep_core.specs.Sweep.{sweep_text};
ghost use Rattle.cvec.specs.Program.{EndsAs, EndsExplained, Races, Shows, Writes};
ghost use Rattle.cvec.specs.ProgramError.{RunEnd, by_run, error_line, explained_lines, IsRaceEnd};
ghost use Rattle.cvec.specs.Request.{IsSweep, StartsThreads};
ghost use Rattle.cvec.specs.Schedule.{schedule_text};

use crate::command_line::Request;
use crate::error::{ProgramError, run_meaning};
use crate::schedule::make_schedule_text;
use engine_core::{Engine, RunError, run_script, write_output};
use race_core::{Free, RaceError, race};
use script_core::{Line, WriteFault, write_bytes};
use std::alloc::{AllocError, Global};
use std::io::{Read, Write};
use std::sync::Wait;
use std::thread::Threads;
use sweep_core::sweep;

// The status of a refused command line.
const REFUSED: u8 = 5;

// The line is made before it is written, so that one write can take it.
fn write_error<E: Write>(errors: &mut E, error: ProgramError) -> Result<(), WriteFault>
    ensures ok { OnOk result
        (Appends (E.contents errors.old) (E.contents errors.new) (error_line error)) }
    ensures fault { OnErr result
        (AppendsPrefix (E.contents errors.old) (E.contents errors.new) (error_line error)) }
{
    let mut line = Line::new();
    writeln!(line, "{error}")?;
    write_bytes(errors, line.as_slice())
}

// Standard error may be closed or full. Then only the status reports the error.
fn report_error<E: Write>(errors: &mut E, ended: Result<(), ProgramError>) -> u8
    ensures { EndsAs ended result (E.contents errors.old) (E.contents errors.new) }
{
    match ended {
        Ok(()) => 0,
        Err(error) => {
            let _unseen = write_error(errors, error);
            error.status()
        }
    }
}

// The same of a run, or of a text that is shown.
fn report_run_error<E: Write>(errors: &mut E, ended: Result<(), RunError>) -> u8
    ensures { EndsAs (by_run ended) result (E.contents errors.old) (E.contents errors.new) }
{
    match ended {
        Ok(()) => report_error(errors, Ok(())),
        Err(error) => report_error(errors, Err(ProgramError::Run(error))),
    }
}

// Both lines are made before they are written, so that one write can take them.
fn write_explained<E: Write>(errors: &mut E, error: RunError) -> Result<(), WriteFault>
    ensures ok { OnOk result
        (Appends (E.contents errors.old) (E.contents errors.new) (explained_lines error)) }
    ensures fault { OnErr result
        (AppendsPrefix (E.contents errors.old) (E.contents errors.new) (explained_lines error)) }
{
    let mut lines = Line::new();
    writeln!(lines, "{error}\n{}", run_meaning(&error))?;
    write_bytes(errors, lines.as_slice())
}

// The same of a run whose error is explained.
fn explain_run_error<E: Write>(errors: &mut E, ended: Result<(), RunError>) -> u8
    ensures { EndsExplained ended result (E.contents errors.old) (E.contents errors.new) }
{
    match ended {
        Ok(()) => 0,
        Err(error) => {
            let _unseen = write_explained(errors, error);
            ProgramError::Run(error).status()
        }
    }
}

// The text of a race that goes through the free gate.
fn run_race<X: Threads + Wait + Sync>(
    rt: &X,
    alloc: Global,
    workers: u32,
    each: u32,
) -> Result<String, ProgramError>
    ensures text { IfOk result (λ text. string_bytes text ≡ race_text (workers * each)) }
    ensures no_write { result ≢ Err (ProgramError.Run RunError.Write) }
    ensures refused { IfErr result (IsRaceEnd workers each) }
    ensures bad_size { IsBadSize workers each → result ≡ Err (ProgramError.Race RaceError.BadSize) }
{
    let report = race(rt, alloc, workers, each, &Free)?;
    report
        .to_string(alloc)
        .map_err(|_| ProgramError::Run(RunError::NoMemory))
}

// Nothing is written before the race has ended.
fn show_race<X: Threads + Wait + Sync, W: Write>(
    rt: &X,
    alloc: Global,
    workers: u32,
    each: u32,
    writer: &mut W,
) -> Result<(), ProgramError>
    ensures { Races workers each result (W.contents writer.old) (W.contents writer.new) }
{
    let text = run_race(rt, alloc, workers, each)?;
    show(writer, text.as_str())?;
    Ok(())
}

// The text of a sweep.
fn run_sweep<X: Threads + Sync>(
    rt: &X,
    alloc: Global,
    seed: u64,
    count: u32,
    len: u32,
) -> Result<String, AllocError>
    requires { IsSweep count len }
    ensures { IfOk result (λ text. string_bytes text ≡ sweep_text seed count len) }
{
    let report = sweep(rt, alloc, seed, count, len)?;
    report.to_string(alloc)
}

// Nothing is written before the sweep has ended.
fn show_sweep<X: Threads + Sync, W: Write>(
    rt: &X,
    alloc: Global,
    seed: u64,
    count: u32,
    len: u32,
    writer: &mut W,
) -> Result<(), RunError>
    requires { IsSweep count len }
    ensures { Writes (sweep_text seed count len) result
        (W.contents writer.old) (W.contents writer.new) }
{
    let text = run_sweep(rt, alloc, seed, count, len)?;
    show(writer, text.as_str())
}

// Nothing is written before the whole text is made.
fn print_schedule<W: Write>(
    alloc: Global,
    seed: u64,
    number: u32,
    len: u32,
    writer: &mut W,
) -> Result<(), RunError>
    ensures { Writes (schedule_text seed number len) result
        (W.contents writer.old) (W.contents writer.new) }
{
    let text = make_schedule_text(alloc, seed, number, len)?;
    write_output(writer, &text)?;
    Ok(())
}

// Help may fail to be written, as any text may.
fn show<W: Write>(writer: &mut W, text: &str) -> Result<(), RunError>
    ensures { Shows text.now result (W.contents writer.old) (W.contents writer.new) }
{
    write_output(writer, text.as_bytes())?;
    Ok(())
}

fn refuse<E: Write>(errors: &mut E, text: &str) -> u8
    ensures status { result ≡ 5 }
    ensures text { AppendsPrefix (E.contents errors.old) (E.contents errors.new) text.now }
{
    let _unseen = write_bytes(errors, text.as_bytes());
    REFUSED
}

// Plays the script that the reader has, and reports how the run ended.
fn serve_play<R: Read, W: Write, E: Write>(
    alloc: Global,
    engine: Engine,
    reader: &mut R,
    writer: &mut W,
    errors: &mut E,
) -> u8
    ensures { (ended : RunEnd) × Plays engine ended (R.remaining reader.old)
        (W.contents writer.old) (W.contents writer.new)
        × EndsAs (by_run ended) result (E.contents errors.old) (E.contents errors.new) }
{
    report_run_error(errors, run_script(alloc, engine, reader, writer))
}

// The same, and the error is explained.
fn serve_explained<R: Read, W: Write, E: Write>(
    alloc: Global,
    engine: Engine,
    reader: &mut R,
    writer: &mut W,
    errors: &mut E,
) -> u8
    ensures { (ended : RunEnd) × Plays engine ended (R.remaining reader.old)
        (W.contents writer.old) (W.contents writer.new)
        × EndsExplained ended result (E.contents errors.old) (E.contents errors.new) }
{
    explain_run_error(errors, run_script(alloc, engine, reader, writer))
}

/// Does what a command line asks for, except races and sweeps, and returns the exit status of the program. The
/// writer of errors may fail too: clauses allow any prefix of its line. Then the status reports the error.
pub fn serve<R: Read, W: Write, E: Write>(
    alloc: Global,
    request: &Request,
    reader: &mut R,
    writer: &mut W,
    errors: &mut E,
) -> u8
    requires no_threads { StartsThreads request.now → ⊥ }
    ensures plays { (engine : Engine) → request.now ≡ Request.Play engine → (ended : RunEnd)
        × Plays engine ended (R.remaining reader.old)
        (W.contents writer.old) (W.contents writer.new)
        × EndsAs (by_run ended) result (E.contents errors.old) (E.contents errors.new) }
    ensures explains { (engine : Engine) → request.now ≡ Request.PlayExplained engine
        → (ended : RunEnd) × Plays engine ended (R.remaining reader.old)
        (W.contents writer.old) (W.contents writer.new)
        × EndsExplained ended result (E.contents errors.old) (E.contents errors.new) }
    ensures prints { (seed number len : ℕ) → request.now ≡ Request.Schedule seed number len
        → (ended : RunEnd) × Writes (schedule_text seed number len) ended
        (W.contents writer.old) (W.contents writer.new)
        × EndsAs (by_run ended) result (E.contents errors.old) (E.contents errors.new) }
    ensures shows { (text : String Global) → request.now ≡ Request.Show text → (ended : RunEnd)
        × Shows (string_bytes text) ended (W.contents writer.old) (W.contents writer.new)
        × EndsAs (by_run ended) result (E.contents errors.old) (E.contents errors.new) }
    ensures refuses { (text : String Global) → request.now ≡ Request.Refuse text → (result ≡ 5)
        × Keeps (W.contents writer.old) (W.contents writer.new)
        × AppendsPrefix (E.contents errors.old) (E.contents errors.new) (string_bytes text) }
    ensures memory { request.now ≡ Request.NoMemory
        → EndsAs (by_run (Err RunError.NoMemory)) result
        (E.contents errors.old) (E.contents errors.new)
        × Keeps (W.contents writer.old) (W.contents writer.new) }
{
    match request {
        Request::Play(engine) => serve_play(alloc, *engine, reader, writer, errors),
        Request::PlayExplained(engine) => serve_explained(alloc, *engine, reader, writer, errors),
        Request::Race { .. } | Request::Sweep { .. } => unreachable!(),
        Request::Schedule { seed, number, len } => {
            report_run_error(errors, print_schedule(alloc, *seed, *number, *len, writer))
        }
        Request::Show(text) => report_run_error(errors, show(writer, text)),
        Request::Refuse(text) => refuse(errors, text),
        Request::NoMemory => report_run_error(errors, Err(RunError::NoMemory)),
    }
}

/// Holds a race, and returns the exit status of the program. It may wait for a thread.
pub fn serve_race<X: Threads + Wait + Sync, W: Write, E: Write>(
    rt: &X,
    alloc: Global,
    workers: u32,
    each: u32,
    writer: &mut W,
    errors: &mut E,
) -> u8
    ensures races { (ended : Result (Unit {0}) ProgramError)
        × Races workers each ended (W.contents writer.old) (W.contents writer.new)
        × EndsAs ended result (E.contents errors.old) (E.contents errors.new) }
{
    report_error(errors, show_race(rt, alloc, workers, each, writer))
}

/// Sweeps schedules, and returns the exit status of the program.
pub fn serve_sweep<X: Threads + Sync, W: Write, E: Write>(
    rt: &X,
    alloc: Global,
    seed: u64,
    count: u32,
    len: u32,
    writer: &mut W,
    errors: &mut E,
) -> u8
    requires { IsSweep count len }
    ensures sweeps { (ended : RunEnd) × Writes (sweep_text seed count len) ended
        (W.contents writer.old) (W.contents writer.new)
        × EndsAs (by_run ended) result (E.contents errors.old) (E.contents errors.new) }
{
    report_run_error(errors, show_sweep(rt, alloc, seed, count, len, writer))
}
