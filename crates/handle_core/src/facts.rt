//! What a hand and a list know, as C reads it.

/// A hand's shares, the size that it has seen, and the limit and the words of an element of its vector.
#[repr(C)]
#[derive(Drop)]
pub struct HandFacts {
    pub shares: u64,
    pub seen: u64,
    pub limit: u64,
    pub words: u64,
}

/// A list's size, its limit and the words of an element.
#[repr(C)]
#[derive(Drop)]
pub struct ListFacts {
    pub size: u64,
    pub limit: u64,
    pub words: u64,
}
