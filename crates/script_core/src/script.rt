//! The parts of a script.

use book_core::{Command, Item, Sequence};

/// A limit, a layout, the actors with their names and programs, and the items of a schedule.
#[derive(Debug, Drop)]
pub struct Script {
    pub limit: u64,
    /// The layout, from 1 to 8: the first segment has 2^`first` places. It is 1 if the text does not give it.
    pub first: u32,
    /// One letter for each actor.
    pub names: Sequence<u8>,
    /// What each actor calls, in order.
    pub programs: Sequence<Sequence<Command>>,
    pub items: Sequence<Item>,
}
