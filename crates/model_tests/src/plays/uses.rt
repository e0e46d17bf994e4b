//! What callers prove of plays by the public clauses alone.
ghost use Rattle.std.specs.Prelude.{◌≡◌, ◌≤◌, length, IfOk};
ghost use Rattle.model_tests.specs.CallSteps.{PushesTakeFewSteps};
ghost use Rattle.model_tests.specs.Places.{places_in};
ghost use Rattle.model_tests.specs.Uses.{PushesAreApart, ReadsTellTheWriters, LaterRunsLiePast};
ghost use Rattle.book_core.specs.Commands.{most_programs};
ghost use Rattle.book_core.specs.History.{runs_of};
ghost use Rattle.step_core.specs.machine.Play.{play_of};

use book_core::{Command, Item, Sequence};
use script_core::{Script, read};
use seg_core::Layout;
use std::alloc::Global;
use std::test::Fail;
use step_core::{Machine, MakeError, PlayError, Played, laws, play_in};

// Plays a schedule in segments of any layout. Two calls that ended at a place are at different places. A
// value that a read returned was filled in once before that read, by the owner of its place or by who mended
// it. Wherever the history is cut, what is claimed later lies past what was claimed before. An ended push
// took at most 3 + 3(k + 1) steps, if others made the size larger k times.
fn play_known(
    alloc: Global,
    layout: Layout,
    limit: u64,
    programs: Sequence<Sequence<Command>>,
    items: &[Item],
) -> Result<Played, PlayError>
    requires { length programs ≤ most_programs }
    ensures apart { IfOk result (λ played. PushesAreApart played.ended) }
    ensures writers { IfOk result (λ played. ReadsTellTheWriters played.ended played.events) }
    ensures past { IfOk result (λ played. LaterRunsLiePast played.events) }
    ensures few { IfOk result (λ played. PushesTakeFewSteps played) }
{
    laws::interleavings();
    laws::work();
    book_core::laws::histories_split();
    book_core::laws::runs_split();
    book_core::laws::writes_split();
    book_core::laws::values_have_one_writer();
    play_in(alloc, layout, limit, programs, items)
}

// Plays a schedule on a machine. The machine is then at the configuration of the play, so what the laws say
// of plays holds of it: its size is the sum of the claimed runs.
fn stepped(
    alloc: Global,
    layout: Layout,
    limit: u64,
    programs: Sequence<Sequence<Command>>,
    items: &[Item],
) -> Result<Machine, MakeError>
    requires { length programs ≤ most_programs }
    ensures at { IfOk result (λ machine. machine ≡ (play_of layout limit programs items.now).at) }
    ensures sum { IfOk result (λ machine.
        machine.storage.size
        ≡ places_in (runs_of (play_of layout limit programs items.now).events)) }
{
    laws::stepping();
    laws::tiling();
    let mut machine = Machine::new_in(alloc, layout, limit, programs)?;
    for item in items {
        if machine.step(item.actor, item.memory).is_err() {
            return Err(MakeError::NoMemory);
        }
    }
    Ok(machine)
}

const SCRIPT: &[u8] =
    b"limit 8\nactor a push 5\nactor b push 6, read 0\nsteps a a a a a a a b b b b b b b";

#[test]
fn callers_know_who_owns_each_place_and_value(rt: HostRuntime) -> Result<(), Fail> {
    let text = b"limit 8\nactor a push 5\nactor b push 6, read 0\nsteps a a a a a a b b b b b b b";
    let Script {
        limit,
        programs,
        items,
        ..
    } = read(rt.alloc(), SCRIPT)?;
    let played = play_known(
        rt.alloc(),
        Layout::default(),
        limit,
        programs,
        items.as_slice(),
    )?;
    assert_eq!(rt; (played.ended.len(), played.events.len()), (3, 5));
    Ok(())
}

#[test]
fn a_stepped_machine_has_the_size_of_its_runs(rt: HostRuntime) -> Result<(), Fail> {
    let Script {
        limit,
        programs,
        items,
        ..
    } = read(rt.alloc(), SCRIPT)?;
    let machine = stepped(
        rt.alloc(),
        Layout::default(),
        limit,
        programs,
        items.as_slice(),
    )?;
    assert_eq!(rt; machine.size(), 2);
    Ok(())
}
