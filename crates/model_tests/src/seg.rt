//! A fact that no clause states: that the intervals are the intended ones.
use seg_core::{Layout, MOST_PLACES, capacity_for, first, len, locate, segments_of};

#[test]
fn places_lie_in_their_segments(rt: HostRuntime) {
    let rows = [
        (0, (0, 0)),
        (1, (0, 1)),
        (2, (1, 0)),
        (3, (1, 1)),
        (4, (2, 0)),
        (7, (2, 3)),
        (4_294_967_295, (31, 2_147_483_647)),
    ];
    for (place, there) in rows {
        assert_eq!(rt; locate(place), there, "{place}");
    }
}

#[test]
fn segments_double(rt: HostRuntime) {
    for (segment, from, count) in [
        (0, 0, 2),
        (1, 2, 2),
        (2, 4, 4),
        (3, 8, 8),
        (31, 1 << 31, 1 << 31),
    ] {
        assert_eq!(rt; first(segment), from, "{segment}");
        assert_eq!(rt; len(segment), count, "{segment}");
    }
}

#[test]
fn runs_touch_their_segments(rt: HostRuntime) {
    for (from, n, touched) in [
        (0, 1, (0, 1)),
        (1, 2, (0, 2)),
        (3, 5, (1, 3)),
        (0, 4_294_967_296, (0, 32)),
    ] {
        assert_eq!(rt; segments_of(from, n), touched, "{from} {n}");
    }
}

#[test]
fn capacities_are_whole_segments(rt: HostRuntime) {
    for (n, capacity) in [
        (0, 0),
        (1, 2),
        (2, 2),
        (3, 4),
        (5, 8),
        (4_294_967_296, 4_294_967_296),
    ] {
        assert_eq!(rt; capacity_for(n), capacity, "{n}");
    }
}

#[test]
fn a_layout_is_from_1_to_8(rt: HostRuntime) {
    for f in 0..10u32 {
        assert_eq!(rt;
            Layout::new(f).map(|it: Layout| -> u32 { it.f() }),
            (1 <= f && f <= 8).then_some(f),
            "{f}"
        );
    }
}

// Tests whether the place lies there in this layout.
fn lies_in(f: u32, place: u64, there: (u32, u64)) -> bool {
    match Layout::new(f) {
        Some(layout) => place < MOST_PLACES && layout.locate(place) == there,
        None => false,
    }
}

#[test]
fn places_lie_in_the_segments_of_a_layout(rt: HostRuntime) {
    for (f, place, there) in [
        (3, 0, (0, 0)),
        (3, 7, (0, 7)),
        (3, 8, (1, 0)),
        (3, 15, (1, 7)),
        (3, 16, (2, 0)),
        (1, 1_099_511_627_775, (39, 549_755_813_887)),
        (8, 1_099_511_627_775, (32, 549_755_813_887)),
    ] {
        assert!(rt; lies_in(f, place, there), "{f} {place}");
    }
}

#[test]
fn a_layout_has_its_capacities(rt: HostRuntime) {
    let layout = Layout::new(3).unwrap_or_default();
    assert_eq!(rt; layout.f(), 3);
    assert_eq!(rt;
        (layout.capacity_for(9), layout.capacity_for(MOST_PLACES)),
        (16, 1 << 40)
    );
    assert_eq!(rt; layout.segments_of(0, MOST_PLACES), (0, layout.segments()));
}
