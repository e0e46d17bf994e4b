//! What a place of the vector holds.

/// One claimed place, as a reader sees it.
#[derive(Clone, Copy, Debug, PartialEq, Eq)]
pub enum Cell {
    /// Claimed or mended by this actor, but not finished.
    Pending(u32),
    /// Published, with this value.
    Filled(u64),
    /// Its construction was refused; it holds no value.
    Broken,
}
