//! Calls that the actors of a script make, and how they end.

/// One call of an actor.
#[derive(Clone, Copy, Debug, PartialEq, Eq)]
pub enum Command {
    /// Appends one value.
    Push { value: u64 },
    /// Appends `n` places, all of one value.
    Grow { n: u64, value: u64 },
    /// Grows to a size of at least `to`, all new places of one value.
    AtLeast { to: u64, value: u64 },
    /// Grows by `n` places, and has the construction refused at the `at`-th of them, from 0.
    Fail { n: u64, value: u64, at: u64 },
    /// Fills a broken place.
    Mend { place: u64, value: u64 },
    /// Reads a place.
    Read { place: u64 },
    /// Reads the size.
    Size,
}

/// The answer of an ended call.
#[derive(Clone, Copy, Debug, PartialEq, Eq)]
pub enum Answer {
    /// The value was appended at this place, or the broken place was filled with it.
    At { place: u64 },
    /// The places from `from` on, `n` of them, were appended.
    Run { from: u64, n: u64 },
    /// The size was enough already.
    Enough { size: u64 },
    /// `n` places from `from` on were claimed; the first `made` are filled, and the others are broken.
    BrokenRun { from: u64, n: u64, made: u64 },
    /// Refused: the growth would pass the limit.
    Full { size: u64 },
    /// Refused: there was no memory for a segment.
    NoMemory,
    Value { value: u64 },
    Pending,
    Broken,
    /// The place isn't below the size.
    OutOfRange { size: u64 },
    Size { size: u64 },
}

/// One item of a schedule: whose step or call it is, and whether a request for memory in it is granted.
#[derive(Clone, Copy, Debug, PartialEq, Eq)]
pub struct Item {
    pub actor: u32,
    pub memory: bool,
}

/// A call that ended: whose it was, its number among the actor's calls (from 1), what it was and how it
/// ended.
#[derive(Clone, Copy, Debug, PartialEq, Eq)]
pub struct Ended {
    pub actor: u32,
    pub number: u64,
    pub command: Command,
    pub answer: Answer,
}

/// The work that an ended call took.
#[derive(Clone, Copy, Debug, PartialEq, Eq)]
pub struct Work {
    pub actor: u32,
    /// Its number among its actor's calls, which begin at 1.
    pub number: u64,
    /// The number of exchanges that it lost: they found another size, and the call went on from there.
    pub lost: u64,
    /// The number of atomic steps that it took.
    pub steps: u64,
    /// The greatest number of segments that the places of one of its rounds touched.
    pub segments: u64,
}
