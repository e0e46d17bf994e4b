//! What follows from the definition of a construction alone. No call does anything.
ghost use Rattle.grow_core.specs.Making.{FirstIsForZero};

/// States that the first value of a growth is the maker's result for 0, even if the growth was refused later.
pub fn first_is_for_zero<T, E, F: FnMut(u64) -> Result<T, E>>(_make: &F)
    ensures { FirstIsForZero F.step }
{}
