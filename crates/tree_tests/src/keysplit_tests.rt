//! Middle keys worked out by hand.

use crate::sample::{empty_node, put};
use datanode::DataNode;
use keysplit::{middle_key, split_key};
use std::alloc::Global;
use std::process::Abort;
use values::{Instant, KeyBytes};

/// Puts events of a key at the instants from 1 to a count.
fn put_all(rt: &impl Abort, alloc: Global, node: &mut DataNode, number: u8, count: Instant) {
    for at in 1..=count {
        assert!(rt; put(rt, alloc, node, number, at, false));
    }
}

fn first_byte(key: &KeyBytes) -> u8 {
    key.bytes().first().copied().unwrap_or(0)
}

/// The middle key's byte, and how many events the halves there hold; zeros where there is no such
/// key. None where a node has too few events.
fn split(rt: &impl Abort, node: &DataNode) -> Option<(u8, usize, usize)> {
    if node.len() < 33 {
        return None;
    }
    match middle_key(node) {
        None => Some((0, 0, 0)),
        Some(middle) => {
            let halves = split_key(node, middle).expect(rt, "there is memory");
            Some((first_byte(middle), halves.0.len(), halves.1.len()))
        }
    }
}

/// The same of a node with events of each key at the instants from 1 to its count.
fn split_of(
    rt: &impl Abort,
    alloc: Global,
    counts: &[(u8, Instant)],
) -> Option<(u8, usize, usize)> {
    let mut node = empty_node(rt, alloc);
    for (number, count) in counts {
        put_all(rt, alloc, &mut node, *number, *count);
    }
    split(rt, &node)
}

#[test]
fn a_middle_key_is_that_of_place_32_or_the_next(rt: HostRuntime) {
    let cases: [(&[(u8, Instant)], (u8, usize, usize)); 5] = [
        (&[(1, 40), (2, 25)], (2, 40, 25)),
        (&[(1, 65)], (0, 0, 0)),
        (&[(1, 32), (2, 20), (3, 13)], (2, 32, 33)),
        (&[(1, 10), (2, 10), (3, 45)], (3, 20, 45)),
        // a key at the cut goes to the right
        (&[(1, 32), (2, 1)], (2, 32, 1)),
    ];
    for (counts, halves) in cases {
        assert!(rt; split_of(&rt, rt.alloc(), counts) == Some(halves));
    }
}

/// The same of a node with one event for each of 65 keys.
fn split_of_65_keys(rt: &impl Abort, alloc: Global) -> Option<(u8, usize, usize)> {
    let mut node = empty_node(rt, alloc);
    for number in 1..66u8 {
        put_all(rt, alloc, &mut node, number, 1);
    }
    split(rt, &node)
}

#[test]
fn a_node_of_one_event_a_key_is_halved(rt: HostRuntime) {
    assert!(rt; split_of_65_keys(&rt, rt.alloc()) == Some((33, 32, 33)));
}
