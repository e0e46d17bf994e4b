// Spans that are split in a ratio.
use span_core::Span;

// The bounds of a span, a ratio, and the place where it is split.
type Row = (u64, u64, u64, u64, u64);

const MOST: u64 = u64::MAX;

// The first part is rounded down, and neither part is empty. No ratio is too large.
#[rattlefmt::skip]
static SPLITS: [Row; 13] = [
    (0, 10, 1, 1, 5),
    (0, 10, 1, 2, 3),
    (0, 10, 2, 1, 6),
    (5, 12, 3, 4, 8),
    (0, 10, 0, 1, 1),
    (0, 10, 1, 0, 9),
    (7, 9, 1, 1000, 8),
    (7, 9, 1000, 1, 8),
    (0, MOST, MOST, MOST, MOST / 2),
    (0, MOST, MOST, 1, MOST - 1),
    (0, MOST, 1, MOST, 1),
    (0, MOST, MOST, 0, MOST - 1),
    (MOST - 3, MOST, 2, 1, MOST - 1),
];

fn is_split(row: &Row) -> bool {
    let (from, to, left, right, cut) = *row;
    if from > to || left == 0 && right == 0 {
        return false;
    }
    let mut lower = Span::new(from, to, 1);
    if !lower.is_divisible() {
        return false;
    }
    let upper = lower.split_at_ratio(left, right);
    (lower.from(), lower.to(), lower.grain()) == (from, cut, 1)
        && (upper.from(), upper.to(), upper.grain()) == (cut, to, 1)
}

#[test]
fn spans_are_split_in_a_ratio(rt: HostRuntime) {
    for row in SPLITS.as_slice() {
        assert!(rt; is_split(row), "{} {} {} {}", row.0, row.1, row.2, row.3);
    }
}
