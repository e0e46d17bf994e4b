//! A vector with several owners and a hand of it, in one value.
ghost use Rattle.std.specs.Prelude.{◌≡◌, ◌+◌, ◌-◌, ◌<◌, ◌≤◌, [], ◌∷◌, ◌++◌, ◌⊎◌, IfOk, IfErr, IfSome, IsOkAnd, OnOk, OnErr, None, length, IsOk, IsSome};
ghost use Rattle.std.specs.Arc.{arc_value};
ghost use mathlib.Core.List.{IsPrefix};
ghost use Rattle.seg_core.specs.Segment.{most_places};
ghost use Rattle.claim_core.specs.Hand.{IsWholeHand, KeepsOwn, OwnApart, SeesSize, seen_size};
ghost use Rattle.claim_core.specs.History.{AddsEvents, size_event};
ghost use Rattle.grow_core.specs.Vector.{IsHandOf, IsOpenedAt, IsPlacedOf, SeesMore, base_of, limit_of, layout_of};
ghost use Rattle.grow_core.specs.Closing.{KeepsValues, IsClosedFrom, IsListOfHistory};
ghost use Rattle.grow_core.specs.Logs.{LogsNothing, LogsAtRefusal, LogsValue, LogsNoValue, IsFinishedIn};
ghost use Rattle.grow_core.specs.Read.{IsShownAt, ShowsValue, IsDueAt, IsInRange};
ghost use Rattle.span_core.specs.Hands.{split_off};

use grow_core::{At, AtError, Hand, Placed, Published, Shared, Shown};
use quiet_core::Quiet;
use std::alloc::AllocError;
use std::fmt;
use std::marker::Model;
use std::sync::Arc;

/// A vector that several owners share, and a hand of it: a `Writer` for a thread that outlives a scope.
///
/// If it is dropped, its hand's shares are lost. `into_parts`, `join` and `try_close` keep them.
#[derive(Drop)]
pub struct SharedWriter<T> {
    pub(crate) vector: Arc<Shared<T>>,
    pub(crate) hand: Hand<T>,
}

impl<T> Model for SharedWriter<T> {
    ghost use Rattle.std.specs.Arc.{arc_value};
    ghost use Rattle.grow_core.specs.Vector.{IsHandOf};
    ghost use Rattle.span_core.specs.Writer.{WriterView, writer_coded};

    ghost Value = { WriterView T };

    ghost coded = { writer_coded T.code };

    ghost view = { λ w. record { vector = arc_value w.vector; hand = w.hand } };

    ghost invariant = { λ w. IsHandOf (arc_value w.vector) w.hand };
}

impl<T> fmt::Debug for SharedWriter<T> {
    fn fmt<W: fmt::Write>(&self, f: &mut fmt::Formatter<W>) -> fmt::Result {
        f.debug_struct("SharedWriter")
            .field("hand", &self.hand)
            .finish_non_exhaustive()
    }
}

impl<T> SharedWriter<T> {
    /// Ties a hand to its vector.
    pub fn new(vector: Arc<Shared<T>>, hand: Hand<T>) -> Self
        requires { IsHandOf (arc_value vector) hand }
        ensures { result ≡ record { vector = arc_value vector; hand = hand } }
    {
        SharedWriter { vector, hand }
    }

    /// Returns the vector, for calls that take no hand.
    pub fn vector(&self) -> &Shared<T>
        ensures value { result.now ≡ self.now.vector }
        ensures ours { IsHandOf result.now self.now.hand }
    {
        &self.vector
    }

    /// Returns the hand, to read what it has seen and its shares.
    pub fn hand(&self) -> &Hand<T>
        ensures value { result.now ≡ self.now.hand }
        ensures ours { IsHandOf self.now.vector result.now }
    {
        &self.hand
    }

    /// Returns the vector and the hand, with all its shares.
    pub fn into_parts(self) -> (Arc<Shared<T>>, Hand<T>)
        ensures vector { arc_value result.0 ≡ self.vector }
        ensures hand { result.1 ≡ self.hand }
        ensures ours { IsHandOf (arc_value result.0) result.1 }
    {
        let SharedWriter { vector, hand } = self;
        (vector, hand)
    }

    /// Returns the size now, by one load.
    pub fn size(&mut self) -> u64
        ensures seen { SeesSize self.old.hand self.new.hand result }
        ensures grows { seen_size self.old.hand ≤ result }
        ensures opened { length self.old.vector.opened ≤ result }
        ensures logs { AddsEvents self.old.hand.log (size_event result ∷ []) self.new.hand.log }
        // Nobody else can append while one hand has all shares.
        ensures whole { IsWholeHand self.old.hand → result ≡ seen_size self.old.hand }
        ensures vector { self.new.vector ≡ self.old.vector }
    {
        self.vector.size(&mut self.hand)
    }

    /// Returns the token of the place, whose value `get` reads. With a token it returns that again. Without one
    /// it loads the size, unless the hand has seen that it is above the place, and then looks once at the place.
    #[inline(always)]
    pub fn at(&mut self, place: u64, known: Option<&Placed<T>>) -> Result<Placed<T>, AtError>
        requires known { IfSome known (λ p.
            IsPlacedOf self.old.vector p.now × (p.now.place ≡ place)) }
        ensures at { IfOk result (λ placed.
            IsPlacedOf self.old.vector placed × (placed.place ≡ place)) }
        // Without a token it is a place that the hand has then seen.
        ensures below { known.entry ≡ None → IfOk result (λ _. place < seen_size self.new.hand) }
        ensures refused { IfErr result (IsDueAt self.old.vector place self.old.hand self.new.hand) }
        // A caller with a token gets a token of its value.
        ensures known { IfSome known.entry (λ p.
            IsOkAnd result (λ placed. placed.value ≡ p.now.value)) }
        // A value of the opened list is found by everybody, token or not.
        ensures opened { (x : T) → IsOpenedAt self.old.vector place x
            → IsOkAnd result (λ placed. placed.value ≡ x) }
        // A place that was claimed stays claimed.
        ensures in_range { place < seen_size self.old.hand → IfErr result IsInRange }
        ensures hand { SeesMore self.old.hand self.new.hand }
        // The history gets the look at a place that is not below the size.
        ensures logs { IfOk result (λ _. LogsNothing self.old.hand self.new.hand) }
        ensures logs_refusal { IfErr result (LogsAtRefusal place self.old.hand self.new.hand) }
        // A read with a token adds nothing. One without adds its look, with what it returned.
        ensures token { IsSome known.entry → self.new.hand ≡ self.old.hand }
        ensures looks { known.entry ≡ None
            → IfOk result (λ _. LogsValue place self.old.hand self.new.hand) }
        ensures looks_refusal { known.entry ≡ None
            → IfErr result (LogsNoValue place self.old.hand self.new.hand) }
        // A caller that has seen the place filled in the history finds it filled.
        ensures finished { IsFinishedIn self.old.hand.log place
            → IsOk result }
        ensures vector { self.new.vector ≡ self.old.vector }
    {
        let At { value: _, placed } = self.vector.at(&mut self.hand, place, known)?;
        Ok(placed)
    }

    /// Looks once at what the place shows now. A place that nobody claimed, or past the limit, shows nothing
    /// yet.
    #[inline(always)]
    pub fn look(&self, place: u64) -> Shown<'_, T>
        ensures shown { IsShownAt self.now.vector place result }
        // A value of the opened list is shown to everybody.
        ensures opened { (x : T) → IsOpenedAt self.now.vector place x → ShowsValue x result }
    {
        self.vector.look(place)
    }

    /// Returns the token's value, by one load of the entry of its segment. It looks at no state, since the token says
    /// that the place is filled.
    #[inline(always)]
    pub fn get(&self, placed: &Placed<T>) -> &T
        requires { IsPlacedOf self.now.vector placed.now }
        ensures { result.now ≡ placed.now.value }
    {
        self.vector.get(placed)
    }

    /// Walks over what each place shows, from place 0 to the size that one load finds now. The hand does not
    /// see that size.
    pub fn published(&self) -> Published<'_, T>
        ensures vector { result.vector ≡ self.now.vector }
        ensures from { result.place ≡ 0 }
        ensures opened { base_of self.now.vector ≤ result.end }
        ensures within { result.end ≤ limit_of self.now.vector }
        ensures small { result.end ≤ most_places }
    {
        self.vector.published()
    }

    /// Splits shares off into a new writer, whose hand has seen the same. A refusal leaves all shares here.
    pub fn split(&mut self, shares: u32) -> Result<SharedWriter<T>, AllocError>
        requires some_shares { 0 < shares }
        requires not_all { shares < self.old.hand.shares }
        ensures kept { OnOk result (self.new ≡ record self.old
            { hand = record self.old.hand { shares = self.old.hand.shares - shares } }) }
        ensures given { IfOk result (λ other.
            other ≡ record self.old { hand = split_off self.old.hand shares }) }
        ensures unchanged { OnErr result (self.new ≡ self.old) }
    {
        let vector = Arc::try_clone(&self.vector)?;
        let hand = self.vector.split(&mut self.hand, shares);
        Ok(SharedWriter { vector, hand })
    }
}

impl<T: Drop> SharedWriter<T> {
    /// Joins the other writer's runs and shares into this one, which has then seen whichever is more of what
    /// the two had seen.
    pub fn join(&mut self, other: SharedWriter<T>)
        requires same { other.vector ≡ self.old.vector }
        ensures of { self.new.hand.of ≡ self.old.hand.of }
        ensures mine { self.new.hand.mine ≡ self.old.hand.mine ++ other.hand.mine }
        ensures shares { self.new.hand.shares ≡ self.old.hand.shares + other.hand.shares }
        ensures seen { (self.new.hand.seen ≡ self.old.hand.seen)
            ⊎ (self.new.hand.seen ≡ other.hand.seen) }
        ensures begins { IsPrefix self.old.hand.seen self.new.hand.seen }
        ensures also_begins { IsPrefix other.hand.seen self.new.hand.seen }
        ensures begins_log { IsPrefix self.old.hand.log self.new.hand.log }
        ensures also_begins_log { IsPrefix other.hand.log self.new.hand.log }
        ensures apart { OwnApart self.old.hand other.hand }
        ensures vector { self.new.vector ≡ self.old.vector }
    {
        let (_vector, hand) = other.into_parts();
        self.vector.join(&mut self.hand, hand);
    }

    /// Shows the hands of two writers to each other, by one load of the size: both have then seen all that was
    /// claimed.
    pub fn meet(&mut self, other: &mut SharedWriter<T>)
        requires same { other.old.vector ≡ self.old.vector }
        ensures own { KeepsOwn self.old.hand self.new.hand }
        ensures also_own { KeepsOwn other.old.hand other.new.hand }
        ensures begins { IsPrefix self.old.hand.seen self.new.hand.seen }
        ensures also_begins { IsPrefix other.old.hand.seen self.new.hand.seen }
        ensures same { other.new.hand.seen ≡ self.new.hand.seen }
        ensures begins_log { IsPrefix self.old.hand.log self.new.hand.log }
        ensures also_begins_log { IsPrefix other.old.hand.log self.new.hand.log }
        ensures same_log { other.new.hand.log ≡ self.new.hand.log }
        ensures apart { OwnApart self.new.hand other.new.hand }
        ensures vector { self.new.vector ≡ self.old.vector }
        ensures also_vector { other.new.vector ≡ other.old.vector }
    {
        self.vector.meet(&mut self.hand, &mut other.hand);
    }

    /// Closes the vector into a list, if this writer has all shares and nobody else owns the vector. Otherwise
    /// the writer comes back.
    pub fn try_close(self) -> Result<Quiet<T>, SharedWriter<T>>
        ensures whole { OnOk result (IsWholeHand self.hand) }
        ensures length { IfOk result (λ list. length list.members ≡ seen_size self.hand) }
        ensures limit { IfOk result (λ list. list.limit ≡ limit_of self.vector) }
        ensures layout { IfOk result (λ list. list.layout ≡ layout_of self.vector) }
        ensures opened { IfOk result (λ list. KeepsValues self.vector.opened list.members) }
        ensures closed { IfOk result (λ list. IsClosedFrom self.vector list.closed) }
        // It is the list of the history, where pending places are broken.
        ensures history { IfOk result
            (λ list. IsListOfHistory self.vector self.hand.log list.members) }
        ensures back { IfErr result (λ back. back ≡ self) }
    {
        let (vector, hand) = self.into_parts();
        if !hand.is_whole() {
            return Err(SharedWriter { vector, hand });
        }
        match Arc::try_unwrap(vector) {
            Ok(vector) => Ok(Quiet::close(vector, hand)),
            Err(vector) => Err(SharedWriter { vector, hand }),
        }
    }
}
