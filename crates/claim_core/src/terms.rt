//! Terms that are fixed when a word is opened.
use crate::mark::Mark;

/// The greatest size, the size at the start, and the mark.
#[derive(Drop)]
pub struct Terms {
    pub limit: u64,
    pub base: u64,
    pub mark: Mark,
}
