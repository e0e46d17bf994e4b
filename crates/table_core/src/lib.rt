//! The segment table: entries that are each set once, to a block of cells.
//!
//! A `Table` has an entry for each segment of a layout. Contracts see it as the names of its entries and what ties
//! them, a block as the names of its cells, and a `Key` as its entry's number, its block, and the entry's name
//! (`specs/Table.antt`).
//!
//! A caller can prove that the block of entry k has as many cells as segment k has places; that a key's block
//! is there, at any time and in any thread; and that two keys of one entry have one block. A caller cannot
//! prove what a look without a key shows. An exclusive owner has the blocks; an entry that it changes gets a
//! fresh name, so older keys do not apply to it.
//!
//! The entries of a `Table<T, Tied>` may be tied to a table of `atomic_table`, as the cells of their blocks are. A look
//! at a tied entry, and the exchange that sets it, run an update of their caller, a `Visit` of `tie_core`
//! (`table/tied.rt`). An owner may also set an entry to a block that brings its seat. Of a *plain* entry callers can
//! prove that it is not tied, and that no cell of its block is (`table/plain.rt`).
//!
//! `entry/steps.rt` has the raw steps on an entry, each a few lines around one atomic step, and
//! `entry/loose.rt` a box as its pointer. Both are proved by hand; `specs/Entry.antt` defines what an entry
//! owns. Everything else is safe code.
#![tactic(auto)]

mod entry;
mod table;

pub use table::{Key, KeySet, Table};
