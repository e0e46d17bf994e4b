//! How what a handle has is cut in two, put together, closed and opened.
ghost use Rattle.std.specs.Prelude.{◌≡◌, IfOk, IfErr, OnOk, OnErr};
ghost use Rattle.handle_core.specs.Calls.{IsDueOn, SplitDue, SplitsHeld, AreOfOne, JoinsHeld, JoinDue, CloseDue};
ghost use Rattle.handle_core.specs.Lists.{ClosesHeld, OpensHeld, KeepsOrReopens, IsDueOnList, MemoryDue};

use crate::held::{AnyCaller, AnyOpaque, Held};
use crate::status::{Status, of_close};
use crate::{hands, joins, lists, opaque_hands, opaque_joins, opaque_lists};
use std::alloc::Global;
use std::mem;

// A box that waits for its content, if there is memory.
fn empty_box(alloc: Global) -> Option<Box<Held>> {
    Box::new(alloc, Held::Empty).ok()
}

// Moves shares of a hand of value elements into a new one, in a box. The box is made first, so that no share is lost
// without memory.
fn split_values(alloc: Global, any: &mut AnyCaller, shares: u32) -> Result<Box<Held>, Status>
    ensures split { IfOk result
        (λ other. SplitsHeld shares (Held.Hand any.old) (Held.Hand any.new) other.value) }
    ensures refused { IfErr result (IsDueOn (SplitDue shares) (Held.Hand any.old)) }
    ensures unchanged { OnErr result (any.new ≡ any.old) }
{
    let Some(mut room) = empty_box(alloc) else {
        return Err(Status::NoMemory);
    };
    match hands::split(any, shares) {
        Ok(other) => {
            drop(mem::replace(&mut *room, Held::Hand(other)));
            Ok(room)
        }
        Err(status) => {
            drop(room);
            Err(status)
        }
    }
}

// Moves shares of a hand of opaque elements into a new one, in a box.
fn split_opaque(alloc: Global, any: &mut AnyOpaque, shares: u32) -> Result<Box<Held>, Status>
    ensures split { IfOk result
        (λ other. SplitsHeld shares (Held.OpaqueHand any.old) (Held.OpaqueHand any.new) other.value) }
    ensures refused { IfErr result (IsDueOn (SplitDue shares) (Held.OpaqueHand any.old)) }
    ensures unchanged { OnErr result (any.new ≡ any.old) }
{
    let Some(mut room) = empty_box(alloc) else {
        return Err(Status::NoMemory);
    };
    match opaque_hands::split(any, shares) {
        Ok(other) => {
            drop(mem::replace(&mut *room, Held::OpaqueHand(other)));
            Ok(room)
        }
        Err(status) => {
            drop(room);
            Err(status)
        }
    }
}

// Moves shares of a hand into a new one, in a box.
pub(crate) fn split(alloc: Global, held: &mut Held, shares: u32) -> Result<Box<Held>, Status>
    ensures split { IfOk result (λ other. SplitsHeld shares held.old held.new other.value) }
    ensures refused { IfErr result (IsDueOn (SplitDue shares) held.old) }
    ensures unchanged { OnErr result (held.new ≡ held.old) }
{
    match held {
        Held::Hand(any) => split_values(alloc, any, shares),
        Held::OpaqueHand(any) => split_opaque(alloc, any, shares),
        Held::List(_) | Held::OpaqueList(_) | Held::Empty => Err(Status::BadHandle),
    }
}

// Joins what another handle has into a hand of value elements.
fn join_values(any: &mut AnyCaller, more: &mut Held) -> Result<(), Status>
    requires same { AreOfOne (Held.Hand any.old) more.old }
    ensures joined { OnOk result (JoinsHeld (Held.Hand any.old) more.old (Held.Hand any.new)) }
    ensures refused { IfErr result (JoinDue (Held.Hand any.old) more.old) }
    ensures unchanged { OnErr result (any.new ≡ any.old) }
    ensures other_unchanged { OnErr result (more.new ≡ more.old) }
{
    match mem::replace(more, Held::Empty) {
        Held::Hand(other) => match joins::join(any, other) {
            Ok(()) => Ok(()),
            Err(back) => {
                *more = Held::Hand(back);
                Err(Status::OtherVector)
            }
        },
        Held::OpaqueHand(back) => {
            *more = Held::OpaqueHand(back);
            Err(Status::OtherVector)
        }
        back => {
            *more = back;
            Err(Status::BadHandle)
        }
    }
}

// Joins what another handle has into a hand of opaque elements.
fn join_opaque(any: &mut AnyOpaque, more: &mut Held) -> Result<(), Status>
    requires same { AreOfOne (Held.OpaqueHand any.old) more.old }
    ensures joined { OnOk result
        (JoinsHeld (Held.OpaqueHand any.old) more.old (Held.OpaqueHand any.new)) }
    ensures refused { IfErr result (JoinDue (Held.OpaqueHand any.old) more.old) }
    ensures unchanged { OnErr result (any.new ≡ any.old) }
    ensures other_unchanged { OnErr result (more.new ≡ more.old) }
{
    match mem::replace(more, Held::Empty) {
        Held::OpaqueHand(other) => match opaque_joins::join(any, other) {
            Ok(()) => Ok(()),
            Err(back) => {
                *more = Held::OpaqueHand(back);
                Err(Status::OtherVector)
            }
        },
        Held::Hand(back) => {
            *more = Held::Hand(back);
            Err(Status::OtherVector)
        }
        back => {
            *more = back;
            Err(Status::BadHandle)
        }
    }
}

// Joins the other hand's runs and shares into a hand.
pub(crate) fn join(held: &mut Held, more: &mut Held) -> Result<(), Status>
    requires same { AreOfOne held.old more.old }
    ensures joined { OnOk result (JoinsHeld held.old more.old held.new) }
    ensures refused { IfErr result (JoinDue held.old more.old) }
    ensures unchanged { OnErr result (held.new ≡ held.old) }
    ensures other_unchanged { OnErr result (more.new ≡ more.old) }
{
    match held {
        Held::Hand(any) => join_values(any, more),
        Held::OpaqueHand(any) => join_opaque(any, more),
        Held::List(_) | Held::OpaqueList(_) | Held::Empty => Err(Status::BadHandle),
    }
}

// Closes the vector of a hand into a list.
#[tactic(auto, using(crate::proofs::Due::close_due))]
pub(crate) fn close(held: &mut Held) -> Result<(), Status>
    ensures closed { OnOk result (ClosesHeld held.old held.new) }
    ensures refused { IfErr result (IsDueOn CloseDue held.old) }
    ensures unchanged { OnErr result (held.new ≡ held.old) }
{
    match mem::replace(held, Held::Empty) {
        Held::Hand(any) => {
            let whole = hands::is_whole(&any);
            match hands::close(any) {
                Ok(list) => {
                    *held = Held::List(list);
                    Ok(())
                }
                Err(back) => {
                    *held = Held::Hand(back);
                    Err(of_close(whole))
                }
            }
        }
        Held::OpaqueHand(any) => {
            let whole = opaque_hands::is_whole(&any);
            match opaque_hands::close(any) {
                Ok(list) => {
                    *held = Held::OpaqueList(list);
                    Ok(())
                }
                Err(back) => {
                    *held = Held::OpaqueHand(back);
                    Err(of_close(whole))
                }
            }
        }
        other => {
            *held = other;
            Err(Status::BadHandle)
        }
    }
}

// Opens a list into a vector. Without memory the list has what it had.
pub(crate) fn open_list(alloc: Global, held: &mut Held) -> Result<(), Status>
    ensures opened { OnOk result (OpensHeld held.old held.new) }
    ensures refused { IfErr result (IsDueOnList MemoryDue held.old) }
    ensures kept { OnErr result (KeepsOrReopens held.old held.new) }
{
    match mem::replace(held, Held::Empty) {
        Held::List(any) => match lists::open(alloc, any) {
            Ok(hand) => {
                *held = Held::Hand(hand);
                Ok(())
            }
            Err(back) => {
                *held = Held::List(back);
                Err(Status::NoMemory)
            }
        },
        Held::OpaqueList(any) => match opaque_lists::open(alloc, any) {
            Ok(hand) => {
                *held = Held::OpaqueHand(hand);
                Ok(())
            }
            Err(back) => {
                *held = Held::OpaqueList(back);
                Err(Status::NoMemory)
            }
        },
        other => {
            *held = other;
            Err(Status::BadHandle)
        }
    }
}
