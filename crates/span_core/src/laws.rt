//! What callers of the loops know of a function that they pass in, each the contract of a call without a
//! body.
ghost use Rattle.span_core.specs.Loops.{AnswersAreMap, SumsWrap};

/// States that `par_map` over a whole list returns the map of its members.
pub fn answers_are_the_map<T, U, F: Fn(u64, Option<&T>) -> U>(f: &F)
    ensures { AnswersAreMap (F.post f.now) }
{
    // Only the contract speaks of `f`.
    let _f = f;
}

/// States that wrapping addition may be grouped in any way, and that adding 0 changes nothing.
#[tactic(auto, using(crate::proofs::Wrapping::sums_wrap))]
pub fn sums_wrap<J: Fn(u64, u64) -> u64>(join: &J)
    ensures { SumsWrap (J.post join.now) }
{
    // Only the contract speaks of `join`.
    let _join = join;
}
