//! When a key of a range was last changed. A test keeps no tree: each helper makes its own.
use crate::growth::{changed_key, few_changes_split, last_row, many_keys_deleted};
use crate::packing_tests::pack_firsts;
use crate::sample::row_key;
use keyrange::KeyRange;
use std::alloc::Global;
use std::process::Abort;
use tsbtree::Tree;
use values::{Instant, MAX_INSTANT};

/// The keys from a number on, below another; 0 is no end.
fn range(rt: &impl Abort, alloc: Global, lo: u8, hi: u8) -> KeyRange {
    let end = if hi == 0 {
        None
    } else {
        Some(row_key(rt, alloc, hi))
    };
    KeyRange {
        lo: row_key(rt, alloc, lo),
        hi: end,
    }
}

/// When a key of a range was last changed above an instant.
fn last_change(
    rt: &impl Abort,
    alloc: Global,
    tree: &Tree,
    keys: (u8, u8),
    start: Instant,
) -> Option<Instant> {
    let found = tree.changed_in(&range(rt, alloc, keys.0, keys.1), start);
    found.expect(rt, "there is memory")
}

/// The same where keys 1 and 2 are changed at 100, and key 1 is deleted at 200; or where key 1 is
/// changed at the greatest instant.
fn of_few(
    rt: &impl Abort,
    alloc: Global,
    is_last_row: bool,
    keys: (u8, u8),
    start: Instant,
) -> Option<Instant> {
    let tree = if is_last_row {
        last_row(rt, alloc)
    } else {
        few_changes_split(rt, alloc, &[150])
    };
    last_change(rt, alloc, &tree, keys, start)
}

#[test]
fn the_latest_of_all_keys_is_found(rt: HostRuntime) {
    for (is_last_row, keys, start, at) in [
        (false, (1, 0), 99, Some(200)),
        (false, (1, 3), 199, Some(200)),
        (false, (1, 3), 200, None),
        (false, (2, 3), 99, Some(100)),
        (false, (2, 0), 100, None),
        (false, (3, 0), 0, None),
        // an empty range
        (false, (1, 1), 0, None),
        (false, (2, 1), 0, None),
        // no change is above the greatest instant
        (true, (1, 0), 0, Some(MAX_INSTANT)),
        (true, (1, 0), MAX_INSTANT - 1, Some(MAX_INSTANT)),
        (true, (1, 0), MAX_INSTANT, None),
        (true, (1, 0), u64::MAX, None),
    ] {
        let found = of_few(&rt, rt.alloc(), is_last_row, keys, start);
        assert!(rt; found == at, "keys from {} since {start}", keys.0);
    }
}

/// Many keys, of whose nodes of history some are packed.
fn many_keys_packed(rt: &impl Abort, alloc: Global, count: usize) -> Tree {
    pack_firsts(rt, alloc, many_keys_deleted(rt, alloc), count)
}

fn is_in(keys: (u8, u8), number: u8) -> bool {
    keys.0 <= number && (keys.1 == 0 || number < keys.1)
}

/// The greatest instant above another at which one of many keys is changed that is in a range.
fn greatest(keys: (u8, u8), start: Instant) -> Option<Instant> {
    let mut found = None;
    for at in 1..163u8 {
        if is_in(keys, changed_key(at)) && start < u64::from(at) {
            found = Some(u64::from(at));
        }
    }
    found
}

/// Since how many instants the latest change in a range is another than the greatest instant.
fn count_others(rt: &impl Abort, alloc: Global, packed: usize, keys: (u8, u8)) -> usize {
    let tree = many_keys_packed(rt, alloc, packed);
    let mut count = 0usize;
    for start in 0..164u64 {
        if last_change(rt, alloc, &tree, keys, start) != greatest(keys, start) {
            count = count.saturating_add(1);
        }
    }
    count
}

#[test]
fn the_latest_change_is_the_greatest_instant(rt: HostRuntime) {
    for packed in [0, 1, 3] {
        for keys in [
            (1, 0),
            (25, 35),
            (28, 31),
            (2, 28),
            (28, 0),
            (30, 31),
            (46, 0),
        ] {
            let others = count_others(&rt, rt.alloc(), packed, keys);
            assert!(rt; others == 0, "keys {} to {}", keys.0, keys.1);
        }
    }
}

/// Of how many of many keys the latest change is another than that of the range of the key alone.
fn count_keys(rt: &impl Abort, alloc: Global, packed: usize, start: Instant) -> usize {
    let tree = many_keys_packed(rt, alloc, packed);
    let view = tree.view().expect(rt, "there is memory");
    let mut count = 0usize;
    for number in 1..47u8 {
        let alone = view.changed_in(&range(rt, alloc, number, number + 1), start);
        let alone = alone.expect(rt, "there is memory");
        if alone != view.changed_since(&row_key(rt, alloc, number), start) {
            count = count.saturating_add(1);
        }
    }
    count
}

#[test]
fn a_range_of_one_key_has_the_latest_change_of_the_key(rt: HostRuntime) {
    for packed in [0, 3] {
        for start in [0, 45, 100, 150, 160, 161, 162] {
            let others = count_keys(&rt, rt.alloc(), packed, start);
            assert!(rt; others == 0, "since {start}");
        }
    }
}
