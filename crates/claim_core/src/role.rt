//! The uses of a seat at the word: for a hand, a cell, a block, or an entry of the segment table.

/// How far a cell is: nobody has begun it, it is begun, a mender has it, it is filled, or it is broken. Never
/// constructed: it exists in proofs only.
pub enum CellStage {
    Idle,
    Begun,
    Mending,
    Filled,
    Broken,
}

/// The `n` places from `from` on have their cells at the seats from `seat` on. Never constructed: it exists in
/// proofs only.
pub struct RowAt {
    pub from: u64,
    pub n: u64,
    pub seat: u64,
}

/// The use of a seat. Never constructed: it exists in proofs only.
pub enum Role {
    /// A hand.
    Hand,
    /// A cell at this stage.
    Cell(CellStage),
    /// A block that no entry is set to: `n` idle cells, which have the seats from `first` on.
    Block { first: u64, n: u64 },
    /// The entry of these places. It is not set.
    EmptyEntry { from: u64, n: u64 },
    /// The block of these places. Their entry is set to it, and its cells have the `n` seats right before it.
    Placed { from: u64, n: u64 },
}
