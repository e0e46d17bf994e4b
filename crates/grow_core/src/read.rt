//! How the vector is read.
ghost use Rattle.std.specs.Prelude.{◌≡◌, ℕ, ◌<◌, [], ◌∷◌, IfOk, IfErr, IfSome, IsOk, IsOkAnd, IsSome, IsSomeAnd, None};
ghost use Rattle.claim_core.specs.Hand.{seen_size};
ghost use Rattle.cell_core.specs.Block.{block_len};
ghost use Rattle.cell_core.specs.Shown.{IsLookAt};
ghost use Rattle.table_core.specs.Table.{IsBlockOf, IsKeyIn};
ghost use Rattle.grow_core.specs.Token.{place_in};
ghost use Rattle.grow_core.specs.Vector.{IsHandOf, IsPlacedOf, IsOpenedAt, SeesMore, base_of, layout_of, limit_of};
ghost use Rattle.grow_core.specs.Read.{ShowsNoOther, IsAt, IsShownAt, ShowsValue, IsDueAt, IsInRange};
ghost use Rattle.grow_core.specs.Logs.{LogsNothing, LogsAtRefusal, LogsRead, IsFinishedIn};
ghost use Rattle.grow_core.specs.Shown.{LogsShown, look_steps, shown_steps};
ghost use Rattle.grow_core.specs.Steps.{FindsMore};

use crate::blocks::{cell_of, find_cell};
use crate::errors::AtError;
use crate::hand::Hand;
use crate::token::{Placed, Spoilt};
use crate::vector::Shared;
use cell_core::block::{Look, Member, Row};
use claim_core::laws;
use seg_core::laws::places;
use table_core::Key;

/// The value at a place, and the token that shows it.
#[derive(Debug, Drop)]
pub struct At<'a, T> {
    pub value: &'a T,
    pub placed: Placed<T>,
}

/// The state of a place, as a look shows it.
#[derive(Debug, Drop)]
pub enum Shown<'a, T> {
    /// Nothing yet: it is not filled, and maybe not claimed.
    Pending,
    /// A value.
    Filled(At<'a, T>),
    /// None: it is broken.
    Broken(Spoilt),
}

impl<T> Shared<T> {
    /// Returns the value at the place. With a token it does what `get` does. Without one it loads the size, unless the
    /// hand has seen that it is above the place, and then looks once at the place.
    #[inline(always)]
    pub fn at<'a>(
        &'a self,
        hand: &mut Hand<T>,
        place: u64,
        known: Option<&Placed<T>>,
    ) -> Result<At<'a, T>, AtError>
        requires ours { IsHandOf self.now hand.old }
        requires known { IfSome known (λ p. IsPlacedOf self.now p.now × (p.now.place ≡ place)) }
        ensures at { IfOk result (IsAt self.now place) }
        // Without a token it is a place that the hand has then seen.
        ensures below { known.entry ≡ None → IfOk result (λ _. place < seen_size hand.new) }
        ensures refused { IfErr result (IsDueAt self.now place hand.old hand.new) }
        // A caller with a token reads the token's value.
        ensures known { IfSome known.entry (λ p. IsOkAnd result (λ a. a.value.now ≡ p.now.value)) }
        // A value of the opened list is read by everybody, token or not.
        ensures opened { (x : T) → IsOpenedAt self.now place x
            → IsOkAnd result (λ a. a.value.now ≡ x) }
        // A place that was claimed stays claimed.
        ensures in_range { place < seen_size hand.old → IfErr result IsInRange }
        ensures hand { SeesMore hand.old hand.new }
        // The history gets the look at a place that is not below the size.
        ensures logs { IfOk result (λ _. LogsNothing hand.old hand.new) }
        ensures logs_refusal { IfErr result (LogsAtRefusal place hand.old hand.new) }
        // A read with a token adds nothing. One without adds its look, with what it returned.
        ensures token { IsSome known.entry → hand.new ≡ hand.old }
        ensures looks { known.entry ≡ None → LogsRead place hand.old hand.new result }
        // A caller that has seen the place filled in the history finds it filled.
        ensures finished { IsFinishedIn hand.old.log place → IsOk result }
    {
        if let Some(token) = known {
            return Ok(self.at_token(token));
        }
        // For the proof: a place that a history fills stays so.
        laws::finished_places_are_found();
        let size = self.size_seen(hand, place);
        if place >= size {
            // For the proof: the hand's history is a legal one.
            hand.laws();
            return Err(AtError::OutOfRange { size });
        }
        let shown = self.look_for(hand, place);
        // For the proof: the same.
        hand.laws();
        match shown {
            Shown::Pending => Err(AtError::Pending),
            Shown::Filled(at) => Ok(at),
            Shown::Broken(spoilt) => Err(AtError::Broken(spoilt)),
        }
    }

    // The value of a token, with the token. If the opened list has a value at its place, it is that one.
    #[inline(always)]
    fn at_token<'a>(&'a self, token: &Placed<T>) -> At<'a, T>
        requires { IsPlacedOf self.now token.now }
        ensures at { IsAt self.now token.now.place result }
        ensures value { result.value.now ≡ token.now.value }
        ensures opened { (x : T) → IsOpenedAt self.now token.now.place x → result.value.now ≡ x }
    {
        self.opened_agrees(token);
        At {
            value: self.get(token),
            placed: token.again(),
        }
    }

    // Looks at a place that the hand has seen claimed. The history gets the look.
    #[inline(always)]
    fn look_for<'a>(&'a self, hand: &mut Hand<T>, place: u64) -> Shown<'a, T>
        requires ours { IsHandOf self.now hand.old }
        requires seen { place < seen_size hand.old }
        ensures shown { IsShownAt self.now place result }
        ensures opened { (x : T) → IsOpenedAt self.now place x → ShowsValue x result }
        ensures finds { FindsMore hand.old hand.new }
        ensures logs { LogsShown place hand.old hand.new result }
    {
        // For the proof: the size is within the limit, and a value of the opened list is in each history.
        self.laws();
        hand.laws();
        laws::opened_values_are_found();
        let (segment, offset) = self.layout().locate(place);
        let Some((block, key)) = self.scout_tied(&mut hand.claims, segment, place) else {
            // For the proof: the hand's history is a legal one.
            hand.laws();
            return Shown::Pending;
        };
        let look = self.look_tied(&mut hand.claims, block, &key, place, offset);
        // For the proof: the same.
        hand.laws();
        self.shown_in(key, look)
    }

    // What a cell of the segment with this key showed.
    #[inline(always)]
    #[tactic(auto, using(crate::proofs::Cells::small_cell))]
    fn shown_in<'a>(&self, key: Key, look: Look<'a, T>) -> Shown<'a, T>
        requires key { IsKeyIn self.now.segments key }
        requires long { IsBlockOf (layout_of self.now) key.segment key.block }
        requires look { (offset : ℕ) × (offset < block_len key.block) × IsLookAt key.block offset look }
        ensures shown { (offset : ℕ) → offset < block_len key.block → IsLookAt key.block offset look.entry
            → IsShownAt self.now (place_in (layout_of self.now) key.segment offset) result }
        // A value that is shown is that of the opened list, if this has one there.
        ensures opened { (offset : ℕ) (x : T) → offset < block_len key.block
            → IsLookAt key.block offset look.entry
            → IsOpenedAt self.now (place_in (layout_of self.now) key.segment offset) x
            → ShowsNoOther x result }
        ensures steps { (place : ℕ) → shown_steps place result ≡ look_steps place look.entry }
    {
        match look {
            Look::Empty | Look::Busy => Shown::Pending,
            Look::Filled(value, cell) => {
                let placed = Placed { key, cell };
                self.opened_agrees(&placed);
                Shown::Filled(At { value, placed })
            }
            Look::Broken(cell) => Shown::Broken(Spoilt { key, cell }),
        }
    }

    /// Looks once at what the place shows now, without a hand. A place that nobody claimed, or past the
    /// limit, shows nothing yet.
    #[inline(always)]
    pub fn look(&self, place: u64) -> Shown<'_, T>
        ensures shown { IsShownAt self.now place result }
        // A value of the opened list is shown to everybody.
        ensures opened { (x : T) → IsOpenedAt self.now place x → ShowsValue x result }
    {
        // For the proof: the vector's base is within its limit.
        self.laws();
        if place < self.limit() {
            self.look_within(place)
        } else {
            Shown::Pending
        }
    }

    // What a place within the limit shows. A value is shown without a look at the length of the opened list, whose
    // values all lie in filled cells.
    #[inline(always)]
    fn look_within(&self, place: u64) -> Shown<'_, T>
        requires { place < limit_of self.now }
        ensures shown { IsShownAt self.now place result }
        ensures opened { (x : T) → IsOpenedAt self.now place x → ShowsValue x result }
    {
        match self.look_into(place) {
            Shown::Filled(at) => Shown::Filled(at),
            Shown::Pending => self.look_again(place, Shown::Pending),
            Shown::Broken(spoilt) => self.look_again(place, Shown::Broken(spoilt)),
        }
    }

    // What a place shows if a look at it found no value: that, or the value that the opened list has there.
    #[inline(always)]
    #[tactic(auto, using(crate::proofs::Places::within_length))]
    fn look_again<'a>(&'a self, place: u64, found: Shown<'a, T>) -> Shown<'a, T>
        requires { IsShownAt self.now place found }
        ensures shown { IsShownAt self.now place result }
        ensures opened { (x : T) → IsOpenedAt self.now place x → ShowsValue x result }
    {
        // For the proof: the opened list ends at the vector's base.
        self.laws();
        if place < self.word.base() {
            return self.look_opened(place);
        }
        found
    }

    // Looks at a place below the length of the opened list. It is a function of its own, so that only calls that come
    // here clear the room for the result of `look_below`.
    #[inline(always)]
    fn look_opened(&self, place: u64) -> Shown<'_, T>
        requires { place < base_of self.now }
        ensures shown { IsShownAt self.now place result }
        ensures opened { (x : T) → IsOpenedAt self.now place x → ShowsValue x result }
    {
        match self.look_below(place) {
            Shown::Pending => Shown::Pending,
            Shown::Filled(at) => Shown::Filled(at),
            Shown::Broken(spoilt) => Shown::Broken(spoilt),
        }
    }

    // The same, by a call.
    #[cold]
    #[inline(never)]
    fn look_below(&self, place: u64) -> Shown<'_, T>
        requires { place < base_of self.now }
        ensures shown { IsShownAt self.now place result }
        ensures opened { (x : T) → IsOpenedAt self.now place x → ShowsValue x result }
    {
        // For the proof: the vector's base is within its limit.
        self.laws();
        match self.opened_at(place) {
            Some(at) => Shown::Filled(at),
            None => self.look_into(place),
        }
    }

    // The value that the opened list has at a place below its length, if it has one there.
    fn opened_at(&self, place: u64) -> Option<At<'_, T>>
        requires below { place < base_of self.now }
        ensures at { IfSome result (IsAt self.now place) }
        ensures opened { (x : T) → IsOpenedAt self.now place x
            → IsSomeAnd result (λ a. a.value.now ≡ x) }
    {
        let (_, offset, key) = cell_of(&self.table, &self.keys, self.count, place);
        let (value, cell) = self.table.known(&key).known(offset, &self.row.at(place))?;
        Some(At {
            value,
            placed: Placed { key, cell },
        })
    }

    // Shows a proof that a token has the value of the opened list, if that has one at its place. It is laid into its
    // callers, and leaves no instruction there.
    #[inline(always)]
    pub(crate) fn opened_agrees(&self, placed: &Placed<T>)
        requires { IsPlacedOf self.now placed.now }
        ensures { (x : T) → IsOpenedAt self.now placed.now.place x → placed.now.value ≡ x }
    {
        let place = placed.place();
        if place < self.word.base() {
            places();
            // The key is there. `unreachable!` would stop the program in its place, and so leave the test.
            if let Some((_segment, _offset, key)) = find_cell(
                &self.table,
                &self.keys,
                self.count,
                place,
            ) {
                self.table.agree(&key, &placed.key);
                self.row.at(place).agree(&placed.cell);
            }
        }
    }

    // What the cell of a place shows: nothing either if its segment is not installed yet.
    #[inline(always)]
    fn look_into(&self, place: u64) -> Shown<'_, T>
        requires { place < limit_of self.now }
        ensures shown { IsShownAt self.now place result }
        ensures opened { (x : T) → IsOpenedAt self.now place x → ShowsNoOther x result }
    {
        // For the proof: the vector's base is within its limit.
        self.laws();
        let (segment, offset) = self.table.layout().locate(place);
        let Some((block, key)) = self.table.scout_key(segment) else {
            return Shown::Pending;
        };
        // It runs no offer, so no history gets it: the caller has no hand.
        self.shown_in(key, block.look_alone(offset))
    }

    /// Returns the token's value, by one load of the entry of its segment. It looks at no state, since the token says
    /// that the place is filled.
    #[inline(always)]
    pub fn get<'a>(&'a self, placed: &Placed<T>) -> &'a T
        requires { IsPlacedOf self.now placed.now }
        ensures { result.now ≡ placed.now.value }
    {
        self.table.known(&placed.key).value(&placed.cell)
    }

    // The token's value, as a slice.
    #[tactic(auto, using(crate::proofs::OpenedValues::one_filled, crate::proofs::OpenedValues::one_value))]
    pub(crate) fn slice_of(&self, placed: &Placed<T>) -> &[T]
        requires { IsPlacedOf self.now placed.now }
        ensures { result.now ≡ placed.now.value ∷ [] }
    {
        let mut row = Row::new();
        row.push(&Member::of(&placed.cell));
        let block = self.table.known(&placed.key);
        block.values(placed.cell.offset(), 1, &row)
    }

    /// Shows a proof that two tokens of one place have one value.
    pub fn agree(&self, a: &Placed<T>, b: &Placed<T>)
        requires ours { IsPlacedOf self.now a.now }
        requires also_ours { IsPlacedOf self.now b.now }
        ensures { a.now.place ≡ b.now.place → a.now.value ≡ b.now.value }
    {
        if a.place() == b.place() {
            places();
            self.table.agree(&a.key, &b.key);
            self.table.known(&a.key).agree(&a.cell, &b.cell);
        }
    }
}
