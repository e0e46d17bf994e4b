//! What ties cells, and entries that cells are found by, to a table of `atomic_table`.
//!
//! A tied cell holds a seat of the table, and the seat's view shows how far the cell is (`specs/Tie.antt`). A step on
//! such a cell runs an `Offer`: the cell's seat, and what its caller brings, go along with the cell in the atomic step
//! itself, by the table's rule.
//!
//! A `Desk` makes offers from a seat of any table. The seat comes in a badge of `atomic_table` and goes back into it
//! after the step. A desk also makes the seats of new cells. What the rule must allow is `specs/Permits.antt`, facts
//! about plain data. Nothing here has bytes, and no call is an instruction.
//!
//! An entry is tied too, by one seat (`specs/Visit.antt`): its own while it is empty, and then that of the block that
//! is published there. A `Visit` is to an entry what an offer is to a cell.
//!
//! A caller can prove what its seat knows after the step, by the stages of the cell before and after it. All offers for
//! one cell come from one desk, or from its duplicates, since two desks may have two numbers of one invariant.
#![tactic(auto)]

mod compare;
mod desk;
mod fixed;
mod offer;
mod play;
mod run;
mod seats;
mod tag;
mod tags;
mod visit;

pub use compare::PairLaw;
pub use desk::Desk;
pub use fixed::TiedCells;
pub use offer::{Book, Offer};
pub use play::{CellPlay, Moving, Opened, RowPlay, SeatMove, Staged};
pub use run::{RunBook, RunOffer, RunPlay, SeatRun};
pub use seats::{Seats, StagedSeats};
pub use tag::{Numbered, Tag};
pub use tags::EntryTags;
pub use visit::{Entered, EntryBook, EntryPlay, EntrySeat, EntryTag, PlacedSeat, SeatVisit, Visit};
