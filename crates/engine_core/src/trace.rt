//! The trace of a script's play.
ghost use Rattle.std.specs.Prelude.{◌≡◌, ◌<◌, ◌++◌, length, All, IfOk, OnOk};
ghost use Rattle.step_core.specs.machine.Step.{first_configuration, step_of};
ghost use Rattle.step_core.specs.machine.Trace.{traced_item, trace_from};
ghost use Rattle.engine_core.specs.Output.{trace_by};
ghost use Rattle.engine_core.specs.Reading.{IsPlayable};
ghost use Rattle.engine_core.specs.Trace.{trace_line, trace_lines, trace_text};

use crate::columns::{push_item, push_number, push_size};
use crate::engine::Engine;
use book_core::{Command, Item, Sequence};
use script_core::Script;
use seg_core::Layout;
use std::alloc::{AllocError, Global};
use step_core::{Machine, TracedItem};

fn push_line(
    text: &mut Vec<u8>,
    names: &[u8],
    number: u64,
    item: &TracedItem,
) -> Result<(), AllocError>
    requires actor { item.now.actor < length names.now }
    ensures { OnOk result (text.new.items
        ≡ text.old.items ++ trace_line names.now number item.now) }
{
    push_number(text, number)?;
    push_item(text, names[item.actor as usize], &item.step)?;
    push_size(text, item.size)
}

// Takes the step of an item, and appends its line.
fn trace_item(
    text: &mut Vec<u8>,
    names: &[u8],
    machine: &mut Machine,
    number: u64,
    item: &Item,
) -> Result<(), AllocError>
    requires actor { item.now.actor < length names.now }
    ensures line { OnOk result (text.new.items
        ≡ text.old.items ++ trace_line names.now number (traced_item machine.old item.now)) }
    ensures step { OnOk result
        (machine.new ≡ (step_of machine.old item.now.actor item.now.memory).to) }
{
    let traced = machine.trace_step(item)?;
    push_line(text, names, number, &traced)
}

fn trace_items(
    text: &mut Vec<u8>,
    names: &[u8],
    machine: &mut Machine,
    items: &[Item],
) -> Result<(), AllocError>
    requires actors { All (λ item. item.actor < length names.now) items.now }
    ensures { OnOk result (text.new.items
        ≡ text.old.items ++ trace_lines names.now 1 (trace_from machine.old items.now)) }
{
    let mut number = 0;
    for item in items {
        number += 1;
        trace_item(text, names, machine, number, item)?;
    }
    Ok(())
}

fn copy_programs(
    alloc: Global,
    programs: &[Sequence<Command>],
) -> Result<Sequence<Sequence<Command>>, AllocError>
    ensures { IfOk result (λ copy. copy ≡ programs.now) }
{
    let mut copies = Vec::new(alloc);
    for program in programs {
        copies.push(Sequence::from_vec(Vec::from_slice(alloc, program.as_slice())?))?;
    }
    Ok(Sequence::from_vec(copies))
}

// The machine of a script before its first step. It has programs of its own, since the play takes the script's.
fn machine_of(alloc: Global, script: &Script) -> Result<Machine, AllocError>
    requires { IsPlayable script.now }
    ensures { IfOk result (λ machine.
        machine ≡ first_configuration script.now.first script.now.limit script.now.programs) }
{
    let Some(layout) = Layout::new(script.first) else {
        unreachable!()
    };
    let programs = copy_programs(alloc, script.programs.as_slice())?;
    Machine::of_sound(alloc, layout, script.limit, programs)
}

fn trace_script(alloc: Global, script: &Script) -> Result<Vec<u8>, AllocError>
    requires { IsPlayable script.now }
    ensures { IfOk result (λ text. text.items ≡ trace_text script.now) }
{
    let mut machine = machine_of(alloc, script)?;
    let mut text = Vec::new(alloc);
    let traced = trace_items(
        &mut text,
        script.names.as_slice(),
        &mut machine,
        script.items.as_slice(),
    );
    drop(machine);
    match traced {
        Ok(()) => Ok(text),
        Err(error) => {
            drop(text);
            Err(error)
        }
    }
}

// What the engine writes before the text of a play: its trace, or nothing.
pub(crate) fn make_trace(
    alloc: Global,
    engine: Engine,
    script: &Script,
) -> Result<Vec<u8>, AllocError>
    requires { IsPlayable script.now }
    ensures { IfOk result (λ text. text.items ≡ trace_by engine script.now) }
{
    match engine {
        Engine::Calls | Engine::Steps | Engine::Counted => Ok(Vec::new(alloc)),
        Engine::Traced | Engine::TracedCounted => trace_script(alloc, script),
    }
}
