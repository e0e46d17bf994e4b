//! The claim word: one shared number, the size, that callers move to claim places; and the hands that they
//! hold.
//!
//! Contracts see a `Word` as which word it is, its limit and its base (`specs/Word.antt`), and a `Hand` as
//! its word, the lengths of all runs that it has seen, the indices of its own runs among them, and its shares
//! (`specs/Hand.antt`, `specs/Lengths.antt`). Each call says what its hand knows before and after it.
//!
//! A caller can prove that a run begins at the end of all runs before it; that every size it learns is a true
//! one; that two hands that met or were joined own no common run; and that the runs of a hand with all shares
//! tile the places from the base to the size. There is one legal history of all claims, sizes and refusals
//! (`specs/History.antt`): each hand has seen a prefix of it, and each call says which events it adds. `laws`
//! has what follows from these definitions alone. Nothing is said of when another hand sees a claim, nor that
//! a try wins.
//!
//! The code is safe, over `atomic_table`. Its rule is `specs/Rule.antt`: there is one list of lengths, and
//! what each hand has seen is a prefix of it. That each kind of step keeps the rule is `proofs/Kept.antt`,
//! over `proofs/Fits.antt`.
#![tactic(auto)]

mod claims;
mod hand;
mod labels;
pub mod laws;
mod mark;
mod notes;
mod offers;
mod plays;
mod reads;
mod role;
mod rule;
mod run;
mod run_offers;
mod seat;
mod seat_view;
mod split_and_join;
pub mod step_laws;
mod tags;
mod terms;
mod visits;
mod word;

pub use hand::Hand;
pub use mark::{Mark, Marks};
pub use notes::Notes;
pub use offers::{CellTag, HandOffer};
pub use plays::{
    BeginAt, CellGain, EntryAt, EntryGain, FillAt, FillMended, FindRow, HandPlay, LookAt, MendAt,
    NewBlock, NewEntry, ScoutRow, SetRow, SpoilAt, SpoilMended, Unseen, VisitPlay,
};
pub use reads::ReadCell;
pub use role::{CellStage, Role, RowAt};
pub use rule::OneList;
pub use run::{Enough, Moved, Run};
pub use run_offers::{BeginRun, FillRun, HandRunOffer, RunGain, RunHandPlay};
pub use seat_view::SeatView;
pub use tags::RowTags;
pub use terms::Terms;
pub use visits::{BlockSeat, HandVisit, RowTag, UnseenVisit};
pub use word::{OpenError, Word};
