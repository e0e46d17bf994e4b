//! The sequential vector: the plain list of cells that is the reference for every other layer.
//!
//! - `CellVec` is a limit and a list of cells; contracts see it as the record `CellList` of
//!   `specs/Cells.antt`.
//! - `CellVec::apply` is the table of events there, `apply_event`: one equation per row.
//! - A history is a list of events with their replies; `specs/History.antt` says when it is legal, which runs
//!   it claims, that they tile the length, and who owns a place.
//! - `check` tests whether a list of events with replies is a history of the empty list: `IsLegalFrom` there.
//! - `Sequence` is the list type of all results: contracts see it as a list.
//!
//! A caller can prove what each event does and replies, and when it is refused. Nothing here knows of
//! segments, atomic steps or threads.
#![tactic(auto)]

mod cells;
mod commands;
mod events;
mod history;
pub mod laws;
mod list;
mod vector;

pub use cells::Cell;
pub use commands::{Answer, Command, Ended, Item, Work};
pub use events::{Event, Reply};
pub use history::check;
pub use list::Sequence;
pub use vector::{BookError, CellVec};
