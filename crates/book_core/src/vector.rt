//! The sequential vector of cells.
ghost use Rattle.std.specs.Prelude.{◌≡◌, ◌≢◌, ◌↔◌, ◌+◌, ◌<◌, ◌≤◌, nat_le, false, length, slice_get, Some, IsTrue};
ghost use Rattle.std.specs.Prelude.{IsOk, IsNone, IsErrOf, IfOk, IfErr, OnOk, OnErr};
ghost use Rattle.seg_core.specs.Segment.{IsLimit};

use crate::cells::Cell;
use crate::events::{Event, Reply};
use seg_core::MOST_PLACES;
use std::alloc::{AllocError, Global};
use std::error::Error;
use std::fmt;
use std::marker::Model;

/// The reason why an event was not applied. The list is unchanged after both.
#[derive(Clone, Copy, Debug, PartialEq, Eq)]
pub enum BookError {
    /// There was no memory for the appended places.
    NoMemory = 1,
    /// The event isn't legal at its turn.
    NotLegal = 2,
}

impl fmt::Display for BookError {
    ghost use Rattle.std.specs.Prelude.{Some};
    ghost use Rattle.book_core.specs.Errors.{book_error_text};

    ghost output = { λ error. Some (book_error_text error) };

    fn fmt<W: fmt::Write>(&self, f: &mut fmt::Formatter<W>) -> fmt::Result {
        match self {
            BookError::NoMemory => write!(f, "no memory for the appended places"),
            BookError::NotLegal => write!(f, "the event is not legal here"),
        }
    }
}

impl Error for BookError {}

/// The sequential vector: a limit and a list of cells. It changes by one event at a time.
#[derive(Debug)]
pub struct CellVec {
    limit: u64,
    cells: Vec<Cell>,
}

impl Model for CellVec {
    ghost use Rattle.std.specs.Prelude.{◌≤◌, vec_len};
    ghost use Rattle.seg_core.specs.Segment.{IsLimit};
    ghost use Rattle.book_core.specs.Cells.{CellList};

    ghost Value = { CellList };

    ghost view = { λ v. record { limit = v.limit; cells = v.cells.items } };

    ghost invariant = { λ v. IsLimit v.limit × (vec_len v.cells ≤ v.limit) };
}

// By hand, so that proofs of callers do not go into its fields.
impl Drop for CellVec {
    fn drop(self) {
        let Self { limit: _, cells: _ } = self;
    }
}

impl CellVec {
    ghost use Rattle.book_core.specs.Cells.{empty_list, apply_event, AppendsNothing};
    ghost use Rattle.book_core.specs.Cells.{with_pending, with_cell, is_pending_for, is_broken, reply_of_look};

    /// Tests whether a vector may have this limit.
    pub fn is_limit(limit: u64) -> bool
        ensures { IsTrue result ↔ IsLimit limit }
    {
        1 <= limit && limit <= MOST_PLACES
    }

    /// Makes an empty list. It takes no memory yet.
    pub fn new(alloc: Global, limit: u64) -> Self
        requires { IsLimit limit }
        ensures { result ≡ empty_list limit }
    {
        CellVec {
            limit,
            cells: Vec::new(alloc),
        }
    }

    /// Applies the event, and returns the reply.
    ///
    /// Its time is linear in the places that are appended, and it takes memory for them alone.
    pub fn apply(&mut self, event: Event) -> Result<Reply, BookError>
        ensures ok { IfOk result (λ reply. apply_event self.old event ≡ Some (self.new, reply)) }
        // The event is tested for legality before memory is asked for.
        ensures not_legal { IsErrOf result BookError.NotLegal
            ↔ IsNone (apply_event self.old event) }
        ensures err { OnErr result (self.new ≡ self.old) }
        ensures no_memory_taken { AppendsNothing self.old event → result ≢ Err BookError.NoMemory }
    {
        match event {
            Event::Claim { actor, n } => self.claim(actor, n),
            Event::Raise { actor, to } => self.raise(actor, to),
            Event::Finish {
                actor,
                place,
                value,
            } => self.settle(actor, place, Cell::Filled(value)),
            Event::Break { actor, place } => self.settle(actor, place, Cell::Broken),
            Event::Mend { actor, place } => self.mend(actor, place),
            Event::Look { place, .. } => Ok(self.look(place)),
            Event::Size { .. } => Ok(Reply::Size { size: self.size() }),
            Event::RefusedFull { n, .. } => self.refuse(n),
            Event::RefusedMemory { .. } => Ok(Reply::NoMemory),
        }
    }

    /// Lends the cells of the claimed places, in order.
    pub fn cells(&self) -> &[Cell]
        ensures { result.now ≡ self.now.cells }
    {
        self.cells.as_slice()
    }

    /// Gives the cells away. It takes no memory.
    pub fn into_cells(self) -> Vec<Cell>
        ensures { result.items ≡ self.cells }
    {
        let Self { limit: _, cells } = self;
        cells
    }

    /// Returns the greatest length that the list may reach.
    pub fn limit(&self) -> u64
        ensures value { result ≡ self.now.limit }
        ensures range { IsLimit result }
        ensures bound { length self.now.cells ≤ result }
    {
        self.limit
    }

    fn size(&self) -> u64
        ensures value { result ≡ length self.now.cells }
        ensures bound { result ≤ self.now.limit }
    {
        self.cells.len() as u64
    }

    fn fits(&self, n: u64) -> bool
        ensures { result ≡ nat_le (length self.now.cells + n) self.now.limit }
    {
        n <= self.limit - self.size()
    }

    // The caller has looked whether there is room below the limit.
    fn append(&mut self, actor: u32, n: u64) -> Result<(), AllocError>
        requires { length self.old.cells + n ≤ self.old.limit }
        ensures ok { OnOk result (self.new ≡ with_pending self.old actor n) }
        ensures err { OnErr result (self.new ≡ self.old) }
        ensures nothing { n ≡ 0 → IsOk result }
    {
        if n == 0 {
            return Ok(());
        }
        let longer = self.cells.len() + n as usize;
        self.cells.resize(longer, Cell::Pending(actor))
    }

    fn claim(&mut self, actor: u32, n: u64) -> Result<Reply, BookError>
        ensures ok { IfOk result (λ reply. apply_event self.old (Event.Claim actor n)
            ≡ Some (self.new, reply)) }
        ensures not_legal { IsErrOf result BookError.NotLegal ↔ IsNone
            (apply_event self.old (Event.Claim actor n)) }
        ensures err { OnErr result (self.new ≡ self.old) }
        ensures no_memory_taken { AppendsNothing self.old (Event.Claim actor n)
            → result ≢ Err BookError.NoMemory }
    {
        let from = self.size();
        if !self.fits(n) {
            return Err(BookError::NotLegal);
        }
        match self.append(actor, n) {
            Ok(()) => Ok(Reply::Run { from, n }),
            Err(_) => Err(BookError::NoMemory),
        }
    }

    fn raise(&mut self, actor: u32, to: u64) -> Result<Reply, BookError>
        ensures ok { IfOk result (λ reply. apply_event self.old (Event.Raise actor to)
            ≡ Some (self.new, reply)) }
        ensures not_legal { IsErrOf result BookError.NotLegal ↔ IsNone
            (apply_event self.old (Event.Raise actor to)) }
        ensures err { OnErr result (self.new ≡ self.old) }
        ensures no_memory_taken { AppendsNothing self.old (Event.Raise actor to)
            → result ≢ Err BookError.NoMemory }
    {
        let from = self.size();
        if to <= from {
            return Ok(Reply::Enough { size: from });
        }
        if to > self.limit {
            return Err(BookError::NotLegal);
        }
        let n = to - from;
        match self.append(actor, n) {
            Ok(()) => Ok(Reply::Run { from, n }),
            Err(_) => Err(BookError::NoMemory),
        }
    }

    // The actor finishes its pending place, or breaks it.
    fn settle(&mut self, actor: u32, place: u64, cell: Cell) -> Result<Reply, BookError>
        ensures ok { IfOk result (λ reply. (reply ≡ Reply.Done)
            × (self.new ≡ with_cell self.old place cell)
            × IsTrue (is_pending_for actor (slice_get self.old.cells place))) }
        ensures err { IfErr result (λ e. (e ≡ BookError.NotLegal) × (self.new ≡ self.old)
            × (is_pending_for actor (slice_get self.old.cells place) ≡ false)) }
    {
        if !self.is_pending_for(actor, place) {
            return Err(BookError::NotLegal);
        }
        self.cells[place as usize] = cell;
        Ok(Reply::Done)
    }

    // The actor takes a broken place.
    fn mend(&mut self, actor: u32, place: u64) -> Result<Reply, BookError>
        ensures ok { IfOk result (λ reply. apply_event self.old (Event.Mend actor place)
            ≡ Some (self.new, reply)) }
        ensures err { IfErr result (λ e. (e ≡ BookError.NotLegal) × (self.new ≡ self.old)
            × IsNone (apply_event self.old (Event.Mend actor place))) }
    {
        if !self.is_broken(place) {
            return Err(BookError::NotLegal);
        }
        self.cells[place as usize] = Cell::Pending(actor);
        Ok(Reply::Done)
    }

    fn is_broken(&self, place: u64) -> bool
        ensures value { result ≡ is_broken (slice_get self.now.cells place) }
        ensures place { IsTrue result → place < length self.now.cells }
    {
        matches!(self.cells.get(place as usize), Some(Cell::Broken))
    }

    fn is_pending_for(&self, actor: u32, place: u64) -> bool
        ensures value { result ≡ is_pending_for actor (slice_get self.now.cells place) }
        ensures place { IsTrue result → place < length self.now.cells }
    {
        match self.cells.get(place as usize) {
            Some(Cell::Pending(owner)) => *owner == actor,
            _ => false,
        }
    }

    fn look(&self, place: u64) -> Reply
        ensures { result ≡ reply_of_look (length self.now.cells) (slice_get self.now.cells place) }
    {
        match self.cells.get(place as usize) {
            Some(Cell::Pending(_)) => Reply::Pending,
            Some(Cell::Filled(value)) => Reply::Value { value: *value },
            Some(Cell::Broken) => Reply::Broken,
            None => Reply::OutOfRange { size: self.size() },
        }
    }

    fn refuse(&self, n: u64) -> Result<Reply, BookError>
        ensures ok { IfOk result (λ reply. apply_event self.now (Event.RefusedFull 0 n)
            ≡ Some (self.now, reply)) }
        ensures err { IfErr result (λ e. (e ≡ BookError.NotLegal)
            × IsNone (apply_event self.now (Event.RefusedFull 0 n))) }
    {
        if self.fits(n) {
            Err(BookError::NotLegal)
        } else {
            Ok(Reply::Full { size: self.size() })
        }
    }
}
