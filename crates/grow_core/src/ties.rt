// The types of a vector's segments, whose entries and cells may be tied to its claim word.
use cell_core::block::{Block, Tied};
use std::alloc::Global;
use table_core::Table;

// The segments of a vector, or of a list. The cells of a list have no seats: each is fixed at a stage.
pub(crate) type SegmentTable<T> = Table<T, Tied>;

// The cells of a segment.
pub(crate) type CellBlock<T> = Block<T, Global, Tied>;
