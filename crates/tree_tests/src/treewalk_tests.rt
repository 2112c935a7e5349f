//! What is read off a tree of two leaves, of which the first is packed or not.
ghost use Rattle.treenodes.specs.Tree.{IsTree};

use crate::sample::{all, all_keys, change, count, key};
use crate::tree::{grow_by, leaf, pack_at, split_root_at};
use blocks::InPlace;
use std::alloc::Global;
use std::process::Abort;
use treenodes::{Nodes, whole};
use treewalk::{
    Shape, changed_since, changed_since_near, events, key_window, leaves_in, next_change, standing,
    tree_shape,
};
use values::{Instant, MAX_INSTANT};

/// Key 1 has a row from 100 and is deleted at 200, key 2 has a row from 150.
fn single(rt: &impl Abort, alloc: Global) -> Nodes
    ensures { IsTree result }
{
    let nodes = grow_by(rt, leaf(rt, alloc), change(rt, alloc, 1, 100, true));
    let nodes = grow_by(rt, nodes, change(rt, alloc, 2, 150, true));
    grow_by(rt, nodes, change(rt, alloc, 1, 200, false))
}

/// The same in two leaves, of which the second begins at 250 and has the row of key 2 alone. The
/// first is packed, where it is to be.
fn some(rt: &impl Abort, alloc: Global, is_packed: bool) -> Nodes
    ensures { IsTree result }
{
    let nodes = split_root_at(rt, alloc, single(rt, alloc), 250);
    if is_packed {
        pack_at(rt, alloc, nodes, 1)
    } else {
        nodes
    }
}

/// How many events there are from an instant to another, how many rows stand at the other, and how
/// many events of a key are in that window.
fn counts_between(
    rt: &impl Abort,
    alloc: Global,
    is_packed: bool,
    number: u8,
    first: Instant,
    last: Instant,
) -> (usize, usize, usize) {
    let nodes = some(rt, alloc, is_packed);
    let key = key(rt, alloc, number);
    let range = all_keys(alloc);
    assert!(rt; range.contains(&key));
    let mut blocks = InPlace::new(alloc);
    let listed = events(alloc, &mut blocks, &nodes, &range, first, last);
    let rows = standing(alloc, &mut blocks, &nodes, &range, last);
    let found = key_window(alloc, &mut blocks, &nodes, &key, &range, first, last);
    (count(rt, listed), count(rt, rows), count(rt, found))
}

/// A key, the first and the last instant of a window, how many events are in it, how many rows
/// stand at its end, and how many events of the key are in it.
const WINDOWS: &[(u8, Instant, Instant, (usize, usize, usize))] = &[
    (1, 0, u64::MAX, (3, 1, 2)),
    (1, 1, 199, (2, 2, 1)),
    (1, 101, 150, (1, 2, 1)),
    (1, 201, 300, (0, 1, 0)),
    (1, 2, 1, (0, 0, 0)),
    (3, 0, 0, (0, 0, 0)),
    (1, 0, 99, (0, 0, 0)),
    (1, 100, 100, (1, 1, 1)),
    (1, 100, 200, (3, 1, 2)),
    (1, 150, 250, (2, 1, 2)),
    (1, 200, 300, (1, 1, 0)),
    (2, 149, 300, (2, 1, 1)),
    (2, 150, 250, (2, 1, 1)),
    (2, 250, u64::MAX, (0, 1, 1)),
    (2, 150, 149, (0, 1, 1)),
    (3, 0, u64::MAX, (3, 1, 0)),
];

#[test]
fn a_key_is_followed_from_leaf_to_leaf(rt: HostRuntime) {
    for is_packed in [false, true] {
        for (number, first, last, counts) in WINDOWS {
            let found = counts_between(&rt, rt.alloc(), is_packed, *number, *first, *last);
            assert!(rt; found == *counts, "key {number} from {first} to {last}");
        }
    }
}

/// When a key was last changed after an instant and when it is next, 0 where it is not; and the
/// last change and the number of its leaf, as they are found where a number is tried first.
fn changes_of(
    rt: &impl Abort,
    alloc: Global,
    is_packed: bool,
    near: usize,
    number: u8,
    at: Instant,
) -> (Instant, Instant, Instant, usize) {
    let nodes = some(rt, alloc, is_packed);
    let key = key(rt, alloc, number);
    let (found, leaf) = changed_since_near(&nodes, near, &key, at);
    (
        changed_since(&nodes, &key, at).unwrap_or(0),
        next_change(&nodes, &key, at).unwrap_or(0),
        found.unwrap_or(0),
        leaf,
    )
}

/// A key, an instant, and when the key was last changed after it, and is next.
const CHANGES: &[(u8, Instant, Instant, Instant)] = &[
    (1, 0, 200, 100),
    (1, 99, 200, 100),
    (1, 100, 200, 200),
    (1, 200, 0, 0),
    (2, 149, 150, 150),
    (2, 150, 0, 0),
    (3, 0, 0, 0),
    (1, MAX_INSTANT, 0, 0),
    (1, u64::MAX, 0, 0),
];

#[test]
fn a_last_change_is_the_same_whichever_node_is_tried_first(rt: HostRuntime) {
    for is_packed in [false, true] {
        for near in [0, 1, 2, 3, usize::MAX] {
            for (number, at, last, next) in CHANGES {
                let found = changes_of(&rt, rt.alloc(), is_packed, near, *number, *at);
                assert!(rt;
                    found == (*last, *next, *last, 2),
                    "key {number} at {at} near {near}"
                );
            }
        }
    }
}

/// How many leaves there are, and how many of them have an instant from 300 on.
fn count_leaves(rt: &impl Abort, alloc: Global) -> (usize, usize) {
    let nodes = some(rt, alloc, true);
    let leaves = leaves_in(alloc, &nodes, &whole(alloc));
    let later = leaves_in(alloc, &nodes, &all(rt, alloc, 300, None));
    (count(rt, leaves), count(rt, later))
}

#[test]
fn leaves_are_found_by_their_time(rt: HostRuntime) {
    assert!(rt; count_leaves(&rt, rt.alloc()) == (2, 1));
}

fn shape(rt: &impl Abort, alloc: Global, is_packed: bool) -> Shape {
    let shape = tree_shape(alloc, &some(rt, alloc, is_packed));
    shape.expect(rt, "there is memory")
}

/// A node's level, its start, how much it holds, and whether it is packed.
type Line = (usize, Instant, usize, bool);

fn is_shown(shape: &Shape, place: usize, line: Line) -> bool {
    match shape.nodes.get(place) {
        Some(node) => {
            node.level == line.0
                && node.rect.time().from == line.1
                && node.count == line.2
                && node.packed == line.3
        }
        None => false,
    }
}

/// Whether a shape has three nodes, and shows one of them as wanted.
fn is_shown_of_three(
    rt: &impl Abort,
    alloc: Global,
    is_packed: bool,
    place: usize,
    line: Line,
) -> bool {
    let shape = shape(rt, alloc, is_packed);
    shape.nodes.len() == 3 && is_shown(&shape, place, line)
}

#[test]
fn a_shape_lists_the_root_first_then_leaves_by_time(rt: HostRuntime) {
    for is_packed in [false, true] {
        for (place, line) in [
            (0, (1, 1, 2, false)),
            (1, (0, 1, 3, is_packed)),
            (2, (0, 250, 1, false)),
        ] {
            let found = is_shown_of_three(&rt, rt.alloc(), is_packed, place, line);
            assert!(rt; found, "at place {place}");
        }
    }
}
