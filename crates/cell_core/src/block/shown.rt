// What the calls of a block return about a cell.
use crate::block::begun::Begun;
use crate::block::placed::Placed;
use crate::block::spoilt::Spoilt;

// `grow_core` has a `Found` too: this one, with tokens of the vector, and never empty.
/// The state of a cell that a call did not get.
#[derive(Debug, Drop)]
pub enum Found<T> {
    /// Nothing: nobody began it.
    Empty,
    /// Nothing yet: a pen is out.
    Busy(Begun),
    /// A value.
    Filled(Placed<T>),
    /// None: it is broken.
    Broken(Spoilt),
}

/// The state of a cell, as a look shows it.
#[derive(Debug, Drop)]
pub enum Look<'a, T> {
    /// Nothing: nobody began it.
    Empty,
    /// Nothing yet: a pen is out.
    Busy,
    /// A value.
    Filled(&'a T, Placed<T>),
    /// None: it is broken.
    Broken(Spoilt),
}
