//! A vector and a hand of it, in one value.
ghost use Rattle.std.specs.Prelude.{◌≡◌, ◌+◌, ◌-◌, ◌<◌, ◌≤◌, [], ◌∷◌, ◌++◌, ◌⊎◌, IfOk, IfErr, IfSome, IsOkAnd, None, length, IsOk, IsSome};
ghost use mathlib.Core.List.{IsPrefix};
ghost use Rattle.seg_core.specs.Segment.{most_places};
ghost use Rattle.claim_core.specs.Hand.{IsWholeHand, KeepsOwn, OwnApart, SeesSize, seen_size};
ghost use Rattle.claim_core.specs.History.{AddsEvents, size_event};
ghost use Rattle.grow_core.specs.Vector.{IsHandOf, IsPlacedOf, IsOpenedAt, SeesMore, base_of, limit_of};
ghost use Rattle.grow_core.specs.Logs.{LogsNothing, LogsAtRefusal, LogsRead, IsFinishedIn};
ghost use Rattle.grow_core.specs.Read.{IsAt, IsShownAt, ShowsValue, IsDueAt, IsInRange};
ghost use Rattle.span_core.specs.Hands.{split_off};
ghost use Rattle.span_core.specs.Writer.{IsTied};

use crate::tie::{Tie, Untied};
use grow_core::{At, AtError, Hand, Placed, Published, Shared, Shown};
use std::fmt;
use std::marker::{Model, PhantomData};

/// A vector and a hand of it. Each call is the vector's call of the same name, with this hand.
///
/// If a writer is dropped, its hand's shares are lost: the vector can then be dropped, but not closed.
/// `into_hand` and `join` keep them. `B` says whether all writers of this type are of one vector, as those that
/// `with_writers` lends; a `Writer<'_, T>` may be of any.
#[derive(Drop)]
pub struct Writer<'a, T, B: Tie = Untied> {
    pub(crate) vector: &'a Shared<T>,
    pub(crate) hand: Hand<T>,
    pub(crate) tie: PhantomData<B>,
}

impl<'a, T, B: Tie> Model for Writer<'a, T, B> {
    ghost use Rattle.grow_core.specs.Vector.{IsHandOf};
    ghost use Rattle.span_core.specs.Writer.{WriterView, IsTied, writer_coded};

    ghost Value = { WriterView T };

    ghost coded = { writer_coded T.code };

    ghost view = { λ w. record { vector = w.vector.now; hand = w.hand } };

    ghost invariant = { λ w. IsHandOf w.vector.now w.hand × IsTied B.tied w.vector.now };
}

impl<'a, T, B: Tie> fmt::Debug for Writer<'a, T, B> {
    fn fmt<W: fmt::Write>(&self, f: &mut fmt::Formatter<W>) -> fmt::Result {
        f.debug_struct("Writer")
            .field("hand", &self.hand)
            .finish_non_exhaustive()
    }
}

impl<'a, T> Writer<'a, T> {
    /// Ties a hand to its vector.
    #[inline(always)]
    pub fn new(vector: &'a Shared<T>, hand: Hand<T>) -> Self
        requires { IsHandOf vector.now hand }
        ensures { result ≡ record { vector = vector.now; hand = hand } }
    {
        Self::tied(vector, hand)
    }
}

impl<'a, T, B: Tie> Writer<'a, T, B> {
    /// Ties a hand to its vector like `new`, for a type whose writers may be of this vector. So a hand that
    /// `into_hand` returned becomes a lent writer again.
    #[inline(always)]
    pub fn tied(vector: &'a Shared<T>, hand: Hand<T>) -> Self
        requires ours { IsHandOf vector.now hand }
        requires tied { IsTied B.tied vector.now }
        ensures { result ≡ record { vector = vector.now; hand = hand } }
    {
        let tie = PhantomData;
        Writer { vector, hand, tie }
    }

    /// Returns the vector, for calls that take no hand.
    #[inline(always)]
    pub fn vector(&self) -> &'a Shared<T>
        ensures value { result.now ≡ self.now.vector }
        ensures ours { IsHandOf result.now self.now.hand }
        ensures tied { IsTied B.tied result.now }
    {
        self.vector
    }

    /// Returns the hand, to read what it has seen and its shares.
    #[inline(always)]
    pub fn hand(&self) -> &Hand<T>
        ensures value { result.now ≡ self.now.hand }
        ensures ours { IsHandOf self.now.vector result.now }
    {
        &self.hand
    }

    /// Returns the hand, with all its shares.
    #[inline(always)]
    pub fn into_hand(self) -> Hand<T>
        ensures value { result ≡ self.entry.hand }
        ensures ours { IsHandOf self.entry.vector result }
        ensures tied { IsTied B.tied self.entry.vector }
    {
        let Writer {
            vector: _,
            hand,
            tie: _,
        } = self;
        hand
    }

    /// Returns the size now, by one load.
    pub fn size(&mut self) -> u64
        ensures seen { SeesSize self.old.hand self.new.hand result }
        ensures grows { seen_size self.old.hand ≤ result }
        ensures opened { length self.old.vector.opened ≤ result }
        ensures logs { AddsEvents self.old.hand.log (size_event result ∷ []) self.new.hand.log }
        // Nobody else can append while one hand has all shares.
        ensures whole { IsWholeHand self.old.hand → result ≡ seen_size self.old.hand }
        ensures vector { self.new.vector ≡ self.old.vector }
    {
        let vector = self.vector;
        vector.size(&mut self.hand)
    }

    /// Returns the value at the place. With a token it does what `get` does. Without one it loads the size, unless the
    /// hand has seen that it is above the place, and then looks once at the place.
    #[inline(always)]
    pub fn at(&mut self, place: u64, known: Option<&Placed<T>>) -> Result<At<'a, T>, AtError>
        requires known { IfSome known (λ p.
            IsPlacedOf self.old.vector p.now × (p.now.place ≡ place)) }
        ensures at { IfOk result (IsAt self.old.vector place) }
        // Without a token it is a place that the hand has then seen.
        ensures below { known.entry ≡ None → IfOk result (λ _. place < seen_size self.new.hand) }
        ensures refused { IfErr result (IsDueAt self.old.vector place self.old.hand self.new.hand) }
        // A caller with a token reads the token's value.
        ensures known { IfSome known.entry (λ p. IsOkAnd result (λ a. a.value.now ≡ p.now.value)) }
        // A value of the opened list is read by everybody, token or not.
        ensures opened { (x : T) → IsOpenedAt self.old.vector place x
            → IsOkAnd result (λ a. a.value.now ≡ x) }
        // A place that was claimed stays claimed.
        ensures in_range { place < seen_size self.old.hand → IfErr result IsInRange }
        ensures hand { SeesMore self.old.hand self.new.hand }
        // The history gets the look at a place that is not below the size.
        ensures logs { IfOk result (λ _. LogsNothing self.old.hand self.new.hand) }
        ensures logs_refusal { IfErr result (LogsAtRefusal place self.old.hand self.new.hand) }
        // A read with a token adds nothing. One without adds its look, with what it returned.
        ensures token { IsSome known.entry → self.new.hand ≡ self.old.hand }
        ensures looks { known.entry ≡ None
            → LogsRead place self.old.hand self.new.hand result }
        // A caller that has seen the place filled in the history finds it filled.
        ensures finished { IsFinishedIn self.old.hand.log place
            → IsOk result }
        ensures vector { self.new.vector ≡ self.old.vector }
    {
        let vector = self.vector;
        vector.at(&mut self.hand, place, known)
    }

    /// Looks once at what the place shows now. A place that nobody claimed, or past the limit, shows nothing
    /// yet.
    #[inline(always)]
    pub fn look(&self, place: u64) -> Shown<'a, T>
        ensures shown { IsShownAt self.now.vector place result }
        // A value of the opened list is shown to everybody.
        ensures opened { (x : T) → IsOpenedAt self.now.vector place x → ShowsValue x result }
    {
        let vector = self.vector;
        vector.look(place)
    }

    /// Returns the token's value, by one load of the entry of its segment. It looks at no state, since the token says
    /// that the place is filled.
    #[inline(always)]
    pub fn get(&self, placed: &Placed<T>) -> &'a T
        requires { IsPlacedOf self.now.vector placed.now }
        ensures { result.now ≡ placed.now.value }
    {
        let vector = self.vector;
        vector.get(placed)
    }

    /// Walks over what each place shows, from place 0 to the size that one load finds now. The hand does not
    /// see that size.
    pub fn published(&self) -> Published<'a, T>
        ensures vector { result.vector ≡ self.now.vector }
        ensures from { result.place ≡ 0 }
        ensures opened { base_of self.now.vector ≤ result.end }
        ensures within { result.end ≤ limit_of self.now.vector }
        ensures small { result.end ≤ most_places }
    {
        let vector = self.vector;
        vector.published()
    }

    /// Splits shares off into a new writer, whose hand has seen the same. It shows no size.
    pub fn split(&mut self, shares: u32) -> Writer<'a, T, B>
        requires some_shares { 0 < shares }
        requires not_all { shares < self.old.hand.shares }
        ensures kept { self.new ≡ record self.old
            { hand = record self.old.hand { shares = self.old.hand.shares - shares } } }
        ensures given { result ≡ record self.old { hand = split_off self.old.hand shares } }
    {
        let vector = self.vector;
        let hand = vector.split(&mut self.hand, shares);
        Writer::tied(vector, hand)
    }

    /// Joins the other writer's runs and shares into this one, which has then seen whichever is more of what
    /// the two had seen.
    pub fn join(&mut self, other: Writer<'_, T, B>)
        requires same { other.vector ≡ self.old.vector }
        ensures of { self.new.hand.of ≡ self.old.hand.of }
        ensures mine { self.new.hand.mine ≡ self.old.hand.mine ++ other.entry.hand.mine }
        ensures shares { self.new.hand.shares ≡ self.old.hand.shares + other.entry.hand.shares }
        ensures seen { (self.new.hand.seen ≡ self.old.hand.seen)
            ⊎ (self.new.hand.seen ≡ other.entry.hand.seen) }
        ensures begins { IsPrefix self.old.hand.seen self.new.hand.seen }
        ensures also_begins { IsPrefix other.entry.hand.seen self.new.hand.seen }
        ensures begins_log { IsPrefix self.old.hand.log self.new.hand.log }
        ensures also_begins_log { IsPrefix other.entry.hand.log self.new.hand.log }
        ensures apart { OwnApart self.old.hand other.entry.hand }
        ensures vector { self.new.vector ≡ self.old.vector }
    {
        let vector = self.vector;
        let hand = other.into_hand();
        vector.join(&mut self.hand, hand);
    }

    /// Shows the hands of two writers to each other, by one load of the size: both have then seen all that was
    /// claimed.
    pub fn meet(&mut self, other: &mut Writer<'_, T, B>)
        requires same { other.old.vector ≡ self.old.vector }
        ensures own { KeepsOwn self.old.hand self.new.hand }
        ensures also_own { KeepsOwn other.old.hand other.new.hand }
        ensures begins { IsPrefix self.old.hand.seen self.new.hand.seen }
        ensures also_begins { IsPrefix other.old.hand.seen self.new.hand.seen }
        ensures same { other.new.hand.seen ≡ self.new.hand.seen }
        ensures begins_log { IsPrefix self.old.hand.log self.new.hand.log }
        ensures also_begins_log { IsPrefix other.old.hand.log self.new.hand.log }
        ensures same_log { other.new.hand.log ≡ self.new.hand.log }
        ensures apart { OwnApart self.new.hand other.new.hand }
        ensures vector { self.new.vector ≡ self.old.vector }
        ensures also_vector { other.new.vector ≡ other.old.vector }
    {
        let vector = self.vector;
        vector.meet(&mut self.hand, &mut other.hand);
    }
}
