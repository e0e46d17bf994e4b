//! Laws over the definitions alone, each the contract of a call without a body.
ghost use Rattle.seg_core.specs.Laws.{IsInItsSegment, OneSegment, OnePlace};

/// States that each pair of a segment and an offset below its length is one place, and each place one such
/// pair.
pub fn places()
    ensures located { IsInItsSegment }
    ensures one_segment { OneSegment }
    ensures one_place { OnePlace }
{}
