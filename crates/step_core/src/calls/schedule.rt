//! Plays of whole calls: each item of a schedule plays one.
ghost use Rattle.std.specs.Prelude.{◌≡◌, ◌+◌, ◌≤◌, ◌<◌, ◌^◌, ◌↔◌, length, IfOk, OnOk, IfSome, OnSome, IsSome, Some};
ghost use Rattle.std.specs.Prelude.{IsErrOf, slice_index};
ghost use Rattle.seg_core.specs.Segment.{IsLimit};
ghost use Rattle.book_core.specs.Commands.{IsSound, AreSound, HavePrograms, HaveActors, most_programs};
ghost use Rattle.step_core.specs.calls.Play.{calls_played};

use crate::calls::whole_call::whole_call;
use crate::errors::PlayError;
use crate::programs::{Played, check_schedule};
use book_core::{BookError, CellVec, Command, Ended, Event, Item, Reply, Sequence};
use std::alloc::{AllocError, Global};
use std::marker::Model;

// A play so far.
#[derive(Drop)]
struct CallPlay {
    list: CellVec,
    // How many calls each actor has ended.
    counts: Vec<u64>,
    events: Vec<(Event, Reply)>,
    ended: Vec<Ended>,
}

impl Model for CallPlay {
    ghost use Rattle.step_core.specs.calls.Play.{CallPlay};

    ghost Value = { CallPlay };

    ghost view = { λ s. record {
      list = s.list;
      counts = s.counts.items;
      events = s.events.items;
      ended = s.ended.items;
    } };
}

impl CallPlay {
    ghost use Rattle.step_core.specs.calls.Play.{empty_call_play, with_event, with_events};
    ghost use Rattle.step_core.specs.calls.Play.{next_call, with_call, with_items, played_of_calls};

    fn new(alloc: Global, limit: u64, programs: &[Sequence<Command>]) -> Result<Self, AllocError>
        requires { IsLimit limit }
        ensures { IfOk result (λ play. play ≡ empty_call_play limit programs.now) }
    {
        Ok(CallPlay {
            list: CellVec::new(alloc, limit),
            counts: vec![in alloc; 0; programs.len()]?,
            events: Vec::new(alloc),
            ended: Vec::new(alloc),
        })
    }

    fn record_event(&mut self, event: Event) -> Result<(), AllocError>
        requires { IsSome (with_event self.old event) }
        ensures ok { OnOk result (with_event self.old event ≡ Some self.new) }
        ensures kept { (self.new.counts ≡ self.old.counts) × (self.new.ended ≡ self.old.ended) }
    {
        match self.list.apply(event) {
            Ok(reply) => Ok(self.events.push((event, reply))?),
            Err(BookError::NoMemory) => Err(AllocError),
            Err(BookError::NotLegal) => unreachable!(),
        }
    }

    fn record_events(&mut self, events: &[Event]) -> Result<(), AllocError>
        requires { IsSome (with_events self.old events.now) }
        ensures ok { OnOk result (with_events self.old events.now ≡ Some self.new) }
        ensures kept { (self.new.counts ≡ self.old.counts) × (self.new.ended ≡ self.old.ended) }
    {
        for event in events {
            self.record_event(*event)?;
        }
        Ok(())
    }

    // The actor's next call, if one is left.
    fn next_call(&self, programs: &[Sequence<Command>], actor: u32) -> Option<Command>
        requires program { actor < length programs.now }
        requires counted { length self.now.counts ≡ length programs.now }
        requires sound { AreSound programs.now }
        ensures next { result ≡ next_call programs.now self.now.counts actor }
        ensures another { OnSome result (slice_index self.now.counts actor + 1 < 2 ^ 64) }
        ensures sound { IfSome result IsSound }
    {
        let called = self.counts[actor as usize];
        programs[actor as usize]
            .as_slice()
            .get(called as usize)
            .copied()
    }

    fn play_call(&mut self, alloc: Global, actor: u32, command: Command) -> Result<(), AllocError>
        requires counted { actor < length self.old.counts }
        requires another { slice_index self.old.counts actor + 1 < 2 ^ 64 }
        requires sound { IsSound command }
        ensures ok { OnOk result (with_call self.old actor (Some command) ≡ Some self.new) }
        ensures counted { OnOk result (length self.new.counts ≡ length self.old.counts) }
        ensures actors { OnOk result (HaveActors (length self.old.counts) self.old.ended
            → HaveActors (length self.old.counts) self.new.ended) }
    {
        let call = whole_call(alloc, &self.list, actor, command)?;
        self.record_events(&call.events)?;
        let number = self.counts[actor as usize] + 1;
        self.counts[actor as usize] = number;
        self.ended.push(Ended {
            actor,
            number,
            command,
            answer: call.answer,
        })?;
        Ok(())
    }

    fn play_item(
        &mut self,
        alloc: Global,
        programs: &[Sequence<Command>],
        actor: u32,
    ) -> Result<(), AllocError>
        requires program { actor < length programs.now }
        requires counted { length self.old.counts ≡ length programs.now }
        requires sound { AreSound programs.now }
        requires actors { HaveActors (length programs.now) self.old.ended }
        ensures actors { OnOk result (HaveActors (length programs.now) self.new.ended) }
        ensures ok { OnOk result
            (with_call self.old actor (next_call programs.now self.old.counts actor)
            ≡ Some self.new) }
        ensures counted { OnOk result (length self.new.counts ≡ length self.old.counts) }
    {
        match self.next_call(programs, actor) {
            Some(command) => self.play_call(alloc, actor, command),
            None => Ok(()),
        }
    }

    fn play_items(
        &mut self,
        alloc: Global,
        programs: &[Sequence<Command>],
        items: &[Item],
    ) -> Result<(), AllocError>
        requires counted { length self.old.counts ≡ length programs.now }
        requires sound { AreSound programs.now }
        requires programs { HavePrograms programs.now items.now }
        requires actors { HaveActors (length programs.now) self.old.ended }
        ensures ok { OnOk result (with_items programs.now self.old items.now ≡ Some self.new) }
        ensures actors { OnOk result (HaveActors (length programs.now) self.new.ended) }
    {
        for item in items {
            self.play_item(alloc, programs, item.actor)?;
        }
        Ok(())
    }

    fn into_played(self, alloc: Global) -> Played
        ensures { result ≡ played_of_calls self }
    {
        Played {
            events: Sequence::from_vec(self.events),
            ended: Sequence::from_vec(self.ended),
            cells: Sequence::from_vec(self.list.into_cells()),
            work: Sequence::from_vec(Vec::new(alloc)),
        }
    }
}

/// Plays one whole call per item like [`play_calls`], of a limit, programs and items that are known to be in
/// order, as those of a script are. It looks at none of them again.
pub fn play_valid_calls(
    alloc: Global,
    limit: u64,
    programs: &[Sequence<Command>],
    items: &[Item],
) -> Result<Played, AllocError>
    requires limit { IsLimit limit }
    requires sound { AreSound programs.now }
    requires programs { HavePrograms programs.now items.now }
    ensures played { IfOk result
        (λ played. calls_played limit programs.now items.now ≡ Some played) }
    ensures actors { IfOk result (λ played. HaveActors (length programs.now) played.ended) }
{
    let mut play = CallPlay::new(alloc, limit, programs)?;
    match play.play_items(alloc, programs, items) {
        Ok(()) => Ok(play.into_played(alloc)),
        Err(error) => {
            drop(play);
            Err(error)
        }
    }
}

/// Plays one whole call per item, on a list of cells. An item of an actor with no call left plays nothing.
///
/// The marks of the items have no effect, since such a call asks for no segment. Its time and memory are
/// linear in the items and the places that they append.
pub fn play_calls(
    alloc: Global,
    limit: u64,
    programs: Sequence<Sequence<Command>>,
    items: &[Item],
) -> Result<Played, PlayError>
    requires { length programs ≤ most_programs }
    ensures played { IfOk result (λ played. calls_played limit programs items.now ≡ Some played) }
    ensures actors { IfOk result (λ played. HaveActors (length programs) played.ended) }
    // What the laws ask for.
    ensures limit { OnOk result (IsLimit limit) }
    ensures sound { OnOk result (AreSound programs) }
    ensures bad_limit { IsErrOf result PlayError.BadLimit ↔ (IsLimit limit → ⊥) }
    ensures bad_command { IsErrOf result PlayError.BadCommand
        ↔ IsLimit limit × (AreSound programs → ⊥) }
    ensures bad_actor { IsErrOf result PlayError.BadActor
        ↔ IsLimit limit × AreSound programs × (HavePrograms programs items.now → ⊥) }
{
    let programs = programs.as_slice();
    check_schedule(limit, programs, items)?;
    play_valid_calls(alloc, limit, programs, items).map_err(|_| PlayError::NoMemory)
}
