//! Cells that are filled at most once and keep their value; a broken one may be mended.
//!
//! A `block::Block` is a row of values and a row of words, which have the states of sixteen cells each. Contracts see
//! it as the names of its cells, a pen as its offset and the names of its cell, and a token as its offset, its value
//! and a name of its cell (`specs/Block.antt`). `specs/Shown.antt` says what calls return of a cell.
//!
//! A caller can prove that a token's value is what its cell holds, at any time and in any thread; that two
//! tokens of one cell have one value; that what an owner broke stays broken while the owner's epoch lasts;
//! and that a call that came too late has a token of what it found. A caller cannot prove what a look without
//! a token shows.
//!
//! A block's cells may be tied to a table of `atomic_table`, by a marker of the block (`block::Tied`). A step on a tied
//! cell runs an update of its caller, an `Offer` of `tie_core`; only a look may do without one. An owner of such a block
//! knows at which stage each cell is, and may give the cells new seats at these stages (`block/seated.rt`).
//!
//! The block is safe code over the raw steps on one cell (`slot/steps.rt`) and on both rows (`block/steps.rt`), which
//! are proved by hand. `specs/Slot.antt` and `specs/Laid.antt` define what they
//! own.
#![tactic(auto)]

pub mod block;
mod slot;
