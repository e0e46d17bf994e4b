//! The shared vector: many callers append to it and read it concurrently, and no element moves.
//!
//! Contracts see a `Shared` as which vector it is, with its limit, layout and base (`specs/Vector.antt`); a
//! `Hand` as what its caller has seen of the size (the lengths of all runs up to then), the indices of its
//! own runs and its shares; a `Placed` as a place and its value; and a `Grown` as a run with the token of
//! each place (`specs/Grown.antt`). `specs/Growth.antt` says what a growth leaves, won or refused, and
//! `specs/Read.antt` what `at` returns.
//!
//! A caller can prove which places it won and that nobody else did, that a token's value is read back in any
//! thread, what each refusal says and gives back, and that the runs of joined hands tile the size. A caller
//! cannot prove what a reader without a token finds, that a try wins, or anything about the order of callers
//! that never met.
//!
//! The code is safe, over `claim_core`, `table_core` and `cell_core`: the segments of the wanted places
//! are installed, the places are won by one exchange of the claim word, and each value is published by one
//! atomic step on the state of its cell, up to sixteen by the same step if the call has them all. A hand
//! carries the keys of its runs' segments (`specs/Keys.antt`). Only the calls that take a runtime may wait: `push_back`,
//! `grow_vec`, `append`, `grow_with`, `grow_by`, `grow_from`, `grow_copies` and `break_run`.
//!
//! A `Parts` is what an exclusive owner holds of a vector. Contracts see it as a list of values and broken
//! members (`specs/Parts.antt`): exactly what was appended is read, and moved out.
#![tactic(auto)]

mod blocks;
mod break_run;
mod claim;
mod close;
mod copy;
mod copy_run;
mod errors;
mod fill;
mod filled;
mod grow_to_at_least;
mod grow_vec;
mod grow_with;
mod grown;
mod hand;
mod keys;
pub mod makers;
mod mend;
mod open;
mod opening;
mod parts;
mod pop_segment;
mod published;
mod push;
mod read;
mod recall;
mod reserve;
mod segments;
mod settle_cells;
mod shown_cells;
mod sizes;
mod slices;
mod source;
mod split_and_join;
mod stretch;
mod tied;
mod ties;
mod token;
mod vector;

pub use claim_core::{OpenError, Run, laws};
pub use errors::{AtError, GrowError, MendError, Never, ReserveError};
pub use grow_to_at_least::AtLeast;
pub use grown::Grown;
pub use hand::Hand;
pub use parts::Parts;
pub use published::Published;
pub use read::{At, Shown};
pub use shown_cells::{ShownCells, ShownSegments};
pub use source::Source;
pub use token::{BegunPlace, Found, Placed, Spoilt};
pub use vector::Shared;
