//! The word: how it is opened, looked at and closed.
ghost use Rattle.std.specs.Prelude.{◌≡◌, ◌≤◌, ◌↔◌, [], ◌∷◌, IfOk, Err, length, slice_index};
ghost use Rattle.claim_core.specs.Rule.{word_count, size_at};
ghost use Rattle.claim_core.specs.Seat.{floor_in, hand_view};
ghost use Rattle.claim_core.specs.SeatView.{first_view};
ghost use Rattle.claim_core.specs.Word.{AreBounds};
ghost use Rattle.claim_core.specs.Hand.{IsHandOf, IsWholeHand, IsNewHand, KeepsOwn, KeepsCells, SeesSize, seen_size};
ghost use Rattle.claim_core.specs.History.{AddsEvents, IsNote, size_event, memory_event};

use crate::hand::{Hand, WHOLE};
use crate::mark::{Mark, Marks};
use crate::notes::{Notes, SizeNote};
use crate::rule::{ClaimDesk, ClaimSeat, Lack, LoadAs, OneList};
use crate::seat_view::SeatView;
use crate::terms::Terms;
use atomic_table::Table;
use seg_core::MOST_PLACES;
use std::alloc::{Allocator, Global};
use std::error::Error;
use std::fmt;
use std::marker::Model;
use tie_core::Desk;

// The size is the middle one of this many words: 128 bytes on either side keep everything else off its cache
// line.
const WORDS: usize = 33;

// Which of them it is.
pub(crate) const SIZE_AT: usize = 16;

// The words of a new table. Nobody uses those around the size.
fn words_around(size: u64) -> [u64; WORDS]
    ensures count { length result ≡ word_count }
    ensures size { slice_index result size_at ≡ size }
{
    let mut words = [0; WORDS];
    words[SIZE_AT] = size;
    words
}

// A mark that has the desk's number.
struct DeskFloor;

impl Marks<ClaimDesk> for DeskFloor {
    ghost use Rattle.std.specs.Prelude.{[], ◌∷◌};

    ghost numbers = { λ desk. desk.floor ∷ [] };
}

// The hand that has all shares, around the seat that a new table begins with.
fn first_hand(seat: ClaimSeat, terms: &Terms, floor: Mark) -> Hand
    requires bounds { AreBounds terms.now.limit terms.now.base }
    requires first { seat.me ≡ (first_view terms.now, []) }
    ensures { result ≡ hand_view (floor_in floor.numbers) seat }
{
    Hand::around(seat, floor, WHOLE, terms.base)
}

/// The reason why a word was not opened.
#[derive(Clone, Copy, Debug, PartialEq, Eq)]
pub enum OpenError {
    /// Out of memory.
    NoMemory = 1,
    /// The limit is not from 1 to 2^40, or the base is above it.
    BadLimit = 2,
}

impl fmt::Display for OpenError {
    ghost use Rattle.std.specs.Prelude.{Some};
    ghost use Rattle.claim_core.specs.Errors.{open_error_text};

    ghost output = { λ error. Some (open_error_text error) };

    fn fmt<W: fmt::Write>(&self, f: &mut fmt::Formatter<W>) -> fmt::Result {
        match self {
            OpenError::NoMemory => write!(f, "out of memory"),
            OpenError::BadLimit => {
                write!(
                    f,
                    "the limit is not from 1 to 1099511627776, or the base is above it"
                )
            }
        }
    }
}

impl Error for OpenError {}

/// The word that all callers share, which is the size. Contracts see which word it is, its limit and its
/// base.
pub struct Word<A: Allocator = Global> {
    pub(crate) table: Table<(), SeatView, Terms, OneList, A>,
    pub(crate) terms: Terms,
    pub(crate) desk: ClaimDesk,
}

impl<A: Allocator> Model for Word<A> {
    ghost use Rattle.claim_core.specs.Word.{WordView};
    ghost use Rattle.claim_core.specs.Seat.{word_view, IsOpened};

    ghost Value = { WordView };

    ghost view = { λ w. word_view w.table.shared.table_id w.terms w.desk.floor };

    ghost invariant = { λ w.
        IsOpened w.table.shared.table_id w.table.shared.key w.terms w.desk.table_id w.desk.key };
}

// By hand, so that proofs of callers do not go into its fields.
impl<A: Allocator> Drop for Word<A> {
    fn drop(self) {
        let Self {
            table: _,
            terms: _,
            desk: _,
        } = self;
    }
}

// The size itself is left out: only a step with a hand may look at it.
impl<A: Allocator> fmt::Debug for Word<A> {
    fn fmt<W: fmt::Write>(&self, f: &mut fmt::Formatter<W>) -> fmt::Result {
        f.debug_struct("Word")
            .field("limit", &self.terms.limit)
            .field("base", &self.terms.base)
            .finish_non_exhaustive()
    }
}

impl<A: Allocator> Word<A> {
    /// Opens a word, and returns it with the hand that has all shares. It takes two allocations; the word has
    /// 264 bytes, so that nothing else lies on its cache line.
    pub fn open(alloc: A, limit: u64, base: u64) -> Result<(Word<A>, Hand), OpenError>
        ensures word { IfOk result (λ (word, _). (word.limit ≡ limit) × (word.base ≡ base)) }
        // Its history begins with broken places.
        ensures filled { IfOk result (λ (word, _). word.filled ≡ []) }
        ensures hand { IfOk result (λ (word, hand). IsNewHand word hand) }
        // Its hand knows that no place has an entry.
        ensures laid { IfOk result (λ (_, hand). hand.laid ≡ 0) }
        // The limit is looked at before memory is asked for.
        ensures bad_limit { (result ≡ Err OpenError.BadLimit) ↔ ¬ AreBounds limit base }
    {
        Word::open_marked(alloc, limit, base, Mark::none())
    }

    /// Opens a word like `open`, with a mark that its hands share. Its history begins with the values that the
    /// mark tells of.
    pub fn open_marked(
        alloc: A,
        limit: u64,
        base: u64,
        mark: Mark,
    ) -> Result<(Word<A>, Hand), OpenError>
        ensures word { IfOk result (λ (word, _). (word.limit ≡ limit) × (word.base ≡ base)) }
        ensures mark { IfOk result (λ (word, _). word.mark ≡ mark.numbers) }
        ensures filled { IfOk result (λ (word, _). word.filled ≡ mark.filled) }
        ensures hand { IfOk result (λ (word, hand). IsNewHand word hand) }
        // Its hand knows that no place has an entry.
        ensures laid { IfOk result (λ (_, hand). hand.laid ≡ 0) }
        ensures bad_limit { (result ≡ Err OpenError.BadLimit) ↔ ¬ AreBounds limit base }
    {
        if limit == 0 || limit > MOST_PLACES || base > limit {
            return Err(OpenError::BadLimit);
        }
        let terms = Terms { limit, base, mark };
        let (table, seat) = Table::of_words(alloc, &words_around(base), &terms).map_err(
            |_| OpenError::NoMemory,
        )?;
        let desk = Desk::of(&table.shared);
        let floor = Mark::of::<ClaimDesk, DeskFloor>(&desk);
        let hand = first_hand(seat, &terms, floor);
        Ok((Word { table, terms, desk }, hand))
    }

    /// Returns the greatest size that the word may have.
    pub fn limit(&self) -> u64
        ensures { result ≡ self.now.limit }
    {
        self.terms.limit
    }

    /// Returns the word's first size.
    pub fn base(&self) -> u64
        ensures { result ≡ self.now.base }
    {
        self.terms.base
    }

    /// Shows a proof what every word keeps. The call does nothing.
    pub fn laws(&self)
        ensures { AreBounds self.now.limit self.now.base }
    {
        // For the proof: reading a field shows the type's invariant.
        let _limit = self.terms.limit;
    }

    /// Returns the size, by one load.
    pub fn size(&self, hand: &mut Hand) -> u64
        requires ours { IsHandOf self.now hand.old }
        ensures seen { SeesSize hand.old hand.new result }
        ensures grows { seen_size hand.old ≤ result }
        ensures logs { AddsEvents hand.old.log (size_event result ∷ []) hand.new.log }
        // What the hand knows of cells stays.
        ensures cells { KeepsCells hand.old hand.new }
        // Nobody else can claim while one hand has all shares.
        ensures whole { IsWholeHand hand.old → result ≡ seen_size hand.old }
    {
        self.size_as::<SizeNote>(hand)
    }

    /// Returns the size, by one load, which logs the note's events of that size.
    #[inline]
    pub fn size_as<N: Notes>(&self, hand: &mut Hand) -> u64
        requires ours { IsHandOf self.now hand.old }
        requires note { IsNote self.now.limit N.note }
        ensures seen { SeesSize hand.old hand.new result }
        ensures grows { seen_size hand.old ≤ result }
        ensures logs { AddsEvents hand.old.log (N.note result) hand.new.log }
        ensures cells { KeepsCells hand.old hand.new }
        ensures whole { IsWholeHand hand.old → result ≡ seen_size hand.old }
    {
        let shared = &self.table.shared;
        let mut seat = hand.take_seat();
        let found = shared.load::<LoadAs<N>>(&mut seat, SIZE_AT);
        hand.put_seat(seat, found);
        found
    }

    /// Writes into the history that a growth finds no memory. It takes one load of the word, which shows no
    /// size.
    pub fn log_no_memory(&self, hand: &mut Hand)
        requires ours { IsHandOf self.now hand.old }
        ensures own { KeepsOwn hand.old hand.new }
        ensures seen { hand.new.seen ≡ hand.old.seen }
        ensures logs { AddsEvents hand.old.log (memory_event ∷ []) hand.new.log }
        ensures cells { KeepsCells hand.old hand.new }
    {
        let shared = &self.table.shared;
        let mut seat = hand.take_seat();
        shared.load::<Lack>(&mut seat, SIZE_AT);
        hand.put_back(seat);
    }

    /// Returns the size by one load, for a caller without a hand. A proof learns nothing from it.
    pub fn peek(&self) -> u64 {
        self.table.shared.peek(SIZE_AT)
    }

    /// Closes the word, and returns its last size.
    pub fn close(self, hand: Hand) -> u64
        requires ours { IsHandOf self hand }
        requires whole { IsWholeHand hand }
        ensures { result ≡ seen_size hand }
    {
        let Word {
            table,
            terms: _,
            desk: _,
        } = self;
        let closed = table.close_with(hand.into_seat());
        let size = closed.word(SIZE_AT);
        closed.free();
        size
    }
}
