//! Plays that count what their calls take.
ghost use Rattle.std.specs.Prelude.{◌≡◌, ◌+◌, ◌-◌, ◌≤◌, ◌<◌, ◌^◌, IfOk, OnOk};
ghost use Rattle.std.specs.Prelude.{replicate, slice_get, slice_set, unwrap_or};
ghost use Rattle.step_core.specs.machine.Step.{step_of};
ghost use Rattle.step_core.specs.machine.Work.{no_tally, looks, begins_round, is_lost, segments_wanted};
ghost use Rattle.step_core.specs.machine.Work.{tally_after, has_call};
ghost use Rattle.step_core.specs.machine.Tallies.{HasRoom, AreWithin};

use crate::machine::phase::Phase;
use crate::machine::schedule::MachinePlay;
use crate::programs::Played;
use book_core::{Ended, Item, Work};
use seg_core::Layout;
use std::alloc::{AllocError, Global};
use std::marker::Model;

// The work so far of the call that an actor has under way.
#[derive(Clone, Copy)]
pub(crate) struct Tally {
    lost: u64,
    steps: u64,
    segments: u64,
}

const NO_TALLY: Tally = Tally {
    lost: 0,
    steps: 0,
    segments: 0,
};

fn looks(phase: Phase) -> bool
    ensures { result ≡ looks phase }
{
    match phase {
        Phase::Scout { .. } => true,
        _ => false,
    }
}

fn begins_round(before: Phase, after: Phase) -> bool
    ensures { result ≡ begins_round before after }
{
    match before {
        Phase::Load | Phase::Exchange { .. } => looks(after),
        _ => false,
    }
}

fn is_lost(before: Phase, after: Phase) -> bool
    ensures { result ≡ is_lost before after }
{
    match before {
        Phase::Exchange { .. } => looks(after),
        _ => false,
    }
}

// How many segments the places touch that a phase looks for.
fn segments_wanted(layout: Layout, phase: Phase) -> u64
    requires { HasRoom phase }
    ensures { result ≡ segments_wanted layout phase }
{
    match phase {
        Phase::Scout { from, n, .. } => {
            let (first, _) = layout.locate(from);
            let (last, _) = layout.locate(from + n - 1);
            u64::from(last + 1 - first)
        }
        _ => 0,
    }
}

impl Tally {
    ghost use Rattle.step_core.specs.machine.Tallies.{work_by};

    // Counts one more step, from a phase to the one after it.
    fn count_step(self, layout: Layout, before: Phase, after: Phase) -> Tally
        requires lost { self.lost ≤ self.steps }
        requires steps { self.steps + 1 < 2 ^ 64 }
        requires room { HasRoom after }
        ensures { result ≡ tally_after layout self before after }
    {
        let lost = if is_lost(before, after) {
            self.lost + 1
        } else {
            self.lost
        };
        let segments = if begins_round(before, after) {
            self.segments.max(segments_wanted(layout, after))
        } else {
            self.segments
        };
        Tally {
            lost,
            steps: self.steps + 1,
            segments,
        }
    }

    // What an ended call took with this tally.
    fn work(self, ended: &Ended) -> Work
        ensures { result ≡ work_by ended.now self }
    {
        Work {
            actor: ended.actor,
            number: ended.number,
            lost: self.lost,
            steps: self.steps,
            segments: self.segments,
        }
    }
}

// A play so far, with a tally of each actor's call under way.
#[derive(Drop)]
pub(crate) struct CountedPlay {
    play: MachinePlay,
    tallies: Vec<Tally>,
    work: Vec<Work>,
}

impl Model for CountedPlay {
    ghost use Rattle.step_core.specs.machine.Tallies.{Tallied, tallied_code};

    ghost Value = { Tallied };

    ghost coded = { tallied_code };

    ghost view = { λ p. record { play = p.play; tallies = p.tallies.items; work = p.work.items } };
}

impl CountedPlay {
    ghost use Rattle.std.specs.Prelude.{[]};
    ghost use Rattle.step_core.specs.machine.Tallies.{tally_step, tally_items, with_tally, shown_by_owners};

    // A play of `actors` actors before its first item.
    pub(crate) fn new(
        alloc: Global,
        play: MachinePlay,
        actors: usize,
    ) -> Result<CountedPlay, AllocError>
        ensures { IfOk result (λ counted. counted
            ≡ record { play = play; tallies = replicate actors no_tally; work = [] }) }
    {
        match vec![in alloc; NO_TALLY; actors] {
            Ok(tallies) => Ok(CountedPlay {
                play,
                tallies,
                work: Vec::new(alloc),
            }),
            Err(error) => {
                drop(play);
                Err(error)
            }
        }
    }

    fn tally(&self, actor: u32) -> Tally
        ensures { result ≡ unwrap_or (slice_get self.now.tallies actor) no_tally }
    {
        self.tallies
            .get(actor as usize)
            .copied()
            .unwrap_or(NO_TALLY)
    }

    fn set_tally(&mut self, actor: u32, tally: Tally)
        ensures { self.new ≡ record {
          play = self.old.play;
          tallies = slice_set self.old.tallies actor tally;
          work = self.old.work;
        } }
    {
        if let Some(place) = self.tallies.get_mut(actor as usize) {
            *place = tally;
        }
    }

    // The call goes on with this tally, or it has ended with it.
    fn count(&mut self, actor: u32, tally: Tally, ended: Option<Ended>) -> Result<(), AllocError>
        ensures { OnOk result (self.new ≡ with_tally self.old actor self.old.play tally ended) }
    {
        match ended {
            None => self.set_tally(actor, tally),
            Some(ended) => {
                self.set_tally(actor, NO_TALLY);
                self.work.push(tally.work(&ended))?;
            }
        }
        Ok(())
    }

    fn play_item(&mut self, item: &Item) -> Result<(), AllocError>
        requires { AreWithin (2 ^ 64 - 2) self.old.tallies }
        ensures { OnOk result (self.new ≡ tally_step self.old item.now.actor
            (step_of self.old.play.at item.now.actor item.now.memory)
            (has_call self.old.play.at item.now.actor)) }
    {
        let layout = self.play.layout();
        let step = self.play.play_item(item)?;
        if let Some((before, after)) = step.phases {
            let tally = self.tally(item.actor).count_step(layout, before, after);
            self.count(item.actor, tally, step.stepped.ended)?;
        }
        Ok(())
    }

    pub(crate) fn play(&mut self, items: &[Item]) -> Result<(), AllocError>
        requires { AreWithin 0 self.old.tallies }
        ensures { OnOk result (self.new ≡ tally_items self.old items.now) }
    {
        for item in items {
            self.play_item(item)?;
        }
        Ok(())
    }

    pub(crate) fn into_played(self, alloc: Global) -> Result<Played, AllocError>
        ensures { IfOk result (λ played. played ≡ shown_by_owners self) }
    {
        self.play.into_played(alloc, self.work)
    }
}
