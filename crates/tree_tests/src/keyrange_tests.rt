//! Rectangles worked out by hand.

use crate::key_sample::key;
use crate::sample::{all, copy, key_halves, time_halves};
use keyrange::{KeyRange, Rect, TimeRange};
use std::alloc::Global;
use std::process::Abort;
use values::{Instant, KeyBytes, MAX_INSTANT};

/// The upper key of a range; no bytes are no end.
fn end(rt: &impl Abort, alloc: Global, text: &[u8]) -> Option<KeyBytes> {
    if text.is_empty() {
        None
    } else {
        Some(key(rt, alloc, text))
    }
}

/// Whether two ranges are a rectangle; no upper key is no end.
fn is_rect(
    rt: &impl Abort,
    alloc: Global,
    lo: &[u8],
    hi: &[u8],
    from: Instant,
    to: Option<Instant>,
) -> bool {
    let keys = KeyRange {
        lo: key(rt, alloc, lo),
        hi: end(rt, alloc, hi),
    };
    Rect::new(keys, TimeRange { from, to }).is_some()
}

#[test]
fn a_rectangle_has_a_key_and_an_instant(rt: HostRuntime) {
    let cases: [(&[u8], &[u8], Instant, Option<Instant>, bool); 9] = [
        (b"", b"", 1, None, true),
        (b"a", b"b", 1, Some(2), true),
        (b"a", b"a", 1, None, false),
        (b"b", b"a", 1, None, false),
        (b"", b"", 0, None, false),
        (b"", b"", 5, Some(5), false),
        (b"", b"", MAX_INSTANT, None, true),
        (b"", b"", MAX_INSTANT, Some(MAX_INSTANT + 1), false),
        (b"", b"", MAX_INSTANT + 1, None, false),
    ];
    for (lo, hi, from, to, is_one) in cases {
        let found = is_rect(&rt, rt.alloc(), lo, hi, from, to);
        assert!(rt; found == is_one, "from {from}");
    }
}

/// The halves of all keys, at the key `m` or at instant 200.
fn halves(rt: &impl Abort, alloc: Global, by_key: bool) -> (Rect, Rect) {
    let area = all(rt, alloc, 1, None);
    if by_key {
        key_halves(rt, &area, &key(rt, alloc, b"m"))
    } else {
        time_halves(rt, &area, 200)
    }
}

/// Whether each half has a point of a key, and whether they meet.
fn in_halves(
    rt: &impl Abort,
    alloc: Global,
    by_key: bool,
    text: &[u8],
    instant: Instant,
) -> (bool, bool, bool) {
    let (first, second) = halves(rt, alloc, by_key);
    let key = key(rt, alloc, text);
    (
        first.contains(&key, instant),
        second.contains(&key, instant),
        first.meets(&second),
    )
}

#[test]
fn a_cut_by_key_parts_the_keys(rt: HostRuntime) {
    let cases: [(bool, &[u8], Instant, bool); 4] = [
        (true, b"l", 7, true),
        (true, b"m", 7, false),
        (false, b"m", 199, true),
        (false, b"m", 200, false),
    ];
    for (by_key, text, instant, is_first) in cases {
        let found = in_halves(&rt, rt.alloc(), by_key, text, instant);
        assert!(rt; found == (is_first, !is_first, false), "at {instant}");
    }
}

/// Whether all keys have halves at the least key, and at their first instant.
fn is_cut_at_the_start(rt: &impl Abort, alloc: Global) -> (bool, bool) {
    let area = copy(rt, &all(rt, alloc, 1, None));
    let by_key = area.cut_key(&KeyBytes::least(alloc));
    let by_key = by_key.expect(rt, "there is memory").is_some();
    let by_time = area.cut_time(1);
    (by_key, by_time.expect(rt, "there is memory").is_some())
}

#[test]
fn a_cut_at_the_start_gives_none(rt: HostRuntime) {
    assert!(rt; is_cut_at_the_start(&rt, rt.alloc()) == (false, false));
}
