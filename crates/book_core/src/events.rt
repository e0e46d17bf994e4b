//! The events of the sequential vector, and what it replies.

/// One actor's change to the vector, or look at it, at one moment.
#[derive(Clone, Copy, Debug, PartialEq, Eq)]
pub enum Event {
    /// Appends `n` pending places.
    Claim { actor: u32, n: u64 },
    /// Appends pending places up to the length `to`, none if the length is that already.
    Raise { actor: u32, to: u64 },
    /// Fills one of the actor's pending places.
    Finish { actor: u32, place: u64, value: u64 },
    /// Breaks one of the actor's pending places.
    Break { actor: u32, place: u64 },
    /// Takes a broken place, which is pending for the actor from then on.
    Mend { actor: u32, place: u64 },
    /// Reads a place.
    Look { actor: u32, place: u64 },
    /// Reads the length.
    Size { actor: u32 },
    /// A growth by `n` is refused, since it would pass the limit.
    RefusedFull { actor: u32, n: u64 },
    /// A growth is refused, since memory was.
    RefusedMemory { actor: u32 },
}

/// The reply of the vector to an event. Each size is the length at that moment.
#[derive(Clone, Copy, Debug, PartialEq, Eq)]
pub enum Reply {
    /// The places from `from` on, `n` of them, are the actor's.
    Run { from: u64, n: u64 },
    /// The size was enough already.
    Enough { size: u64 },
    Done,
    Value { value: u64 },
    Pending,
    Broken,
    /// The place isn't below the size.
    OutOfRange { size: u64 },
    Size { size: u64 },
    Full { size: u64 },
    NoMemory,
}
