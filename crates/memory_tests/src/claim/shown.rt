// How words are opened, and how they, hands and refusals are shown.
use super::hands::{Call, Hands, Step};
use claim_core::{Enough, Moved, OpenError, Word};
use std::alloc::Global;
use std::test::Fail;

// The base of a new word and what its hand has seen.
fn opened(alloc: Global, limit: u64, base: u64) -> Result<(u64, u64), OpenError> {
    let (word, hand) = Word::open(alloc, limit, base)?;
    let opened = (word.base(), hand.seen());
    drop((word, hand));
    Ok(opened)
}

static BAD_BOUNDS: [(u64, u64); 3] = [(8, 9), (0, 0), ((1 << 40) + 1, 0)];

#[test]
fn a_bad_limit_is_refused(rt: HostRuntime) {
    for (limit, base) in BAD_BOUNDS.as_slice() {
        assert!(rt;
            opened(rt.alloc(), *limit, *base) == Err(OpenError::BadLimit),
            "{limit} {base}"
        );
    }
}

// It passes too if any one request for memory is refused.
#[test]
fn a_refused_allocation_is_no_memory(rt: HostRuntime) {
    let mut made = opened(rt.alloc(), 8, 3);
    if made == Err(OpenError::NoMemory) {
        made = opened(rt.alloc(), 8, 3);
    }
    assert!(rt; made == Ok((3, 3)));
}

// A word of size 5 and a hand that has seen the size 2, as they are shown.
fn shown(alloc: Global) -> Result<String, Fail> {
    let mut hands = Hands::new(alloc, 8, 0)?;
    let shown = shown_after_steps(alloc, &mut hands);
    drop(hands);
    shown
}

// Makes the steps to these sizes.
fn shown_after_steps(alloc: Global, hands: &mut Hands) -> Result<String, Fail> {
    for step in [Step::A(Call::Raise(2)), Step::Split(1), Step::Third(5)].as_slice() {
        hands.make(*step);
    }
    Ok(format!(in alloc; "{:?}, {:?}", hands.word, hands.a)?)
}

fn refusals(alloc: Global) -> Result<String, Fail> {
    let (moved, enough) = (Moved { size: 5 }, Enough { size: 7 });
    let refused = (OpenError::NoMemory, OpenError::BadLimit);
    Ok(format!(in alloc; "{moved}, {enough}, {}, {}", refused.0, refused.1)?)
}

#[test]
fn words_hands_and_refusals_are_shown(rt: HostRuntime) -> Result<(), Fail> {
    assert!(rt;
        shown(rt.alloc())?.as_str()
            == "Word { limit: 8, base: 0, .. }, Hand { seen: 2, shares: 65534, .. }"
    );
    assert!(rt;
        refusals(rt.alloc())?.as_str()
            == "the size has moved to 5, the size is already 7, out of memory, \
                the limit is not from 1 to 1099511627776, or the base is above it"
    );
    Ok(())
}
