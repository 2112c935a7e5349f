//! A tree that takes two events, and nodes that are split and packed by hand.
ghost use Rattle.std.specs.Prelude.{◌≡◌, ◌≤◌};
ghost use Rattle.treenodes.specs.Tree.{IsTree};
ghost use Rattle.treenodes.specs.Lookup.{IsParent, IsData};

use crate::sample::{change, key};
use crate::tree::{grow_by, leaf, pack_at, split_root_at, time_split};
use std::alloc::Global;
use std::process::Abort;
use treenodes::{Nodes, Slot, can_split_key, leaf_at, way, with_keys_split};
use treewalk::{has_row_in, row_in};
use values::{Instant, KeyBytes};

/// The root with a row of key 1 from 100 on, and one of key 2 from 200 on.
fn two_rows(rt: &impl Abort, alloc: Global) -> Nodes
    ensures { IsTree result }
{
    let nodes = grow_by(rt, leaf(rt, alloc), change(rt, alloc, 1, 100, true));
    grow_by(rt, nodes, change(rt, alloc, 2, 200, true))
}

/// Its data node split at an instant, below a new root.
fn two_halves(rt: &impl Abort, alloc: Global, instant: Instant) -> Nodes
    ensures { IsTree result }
{
    split_root_at(rt, alloc, two_rows(rt, alloc), instant)
}

/// The numbers of the root and of the data node at a point, which is below the root.
fn below_root(
    rt: &impl Abort,
    alloc: Global,
    nodes: &Nodes,
    key: &KeyBytes,
    at: Instant,
) -> (usize, usize)
    requires tree { IsTree nodes.now }
    requires instant { 1 ≤ at }
    ensures parent { IsParent nodes.now result.0 result.1 }
    ensures data { IsData nodes.now result.1 }
{
    let (number, _visits) = leaf_at(nodes, key, at);
    let Ok(way) = way(alloc, nodes, key, at) else {
        panic!(rt; "there is memory")
    };
    assert!(rt; way.len() == 2 && way[1] == number);
    (way[0], number)
}

/// The current half split at key 2.
fn three_parts(rt: &impl Abort, alloc: Global) -> Nodes
    ensures { IsTree result }
{
    let nodes = two_halves(rt, alloc, 200);
    let key = key(rt, alloc, 2);
    let (root, number) = below_root(rt, alloc, &nodes, &key, 250);
    if can_split_key(&nodes, number, &key) {
        let Ok(nodes) = with_keys_split(alloc, nodes, root, number, &key) else {
            panic!(rt; "there is memory")
        };
        nodes
    } else {
        panic!(rt; "the node can be split there")
    }
}

/// The data node of two rows split at 150, below a new root, and again at 200: nodes 1 and 2 are of
/// history.
fn two_of_history(rt: &impl Abort, alloc: Global) -> Nodes
    ensures { IsTree result }
{
    let nodes = two_halves(rt, alloc, 150);
    let (root, number) = below_root(rt, alloc, &nodes, &key(rt, alloc, 1), 200);
    time_split(rt, alloc, nodes, root, number, 200)
}

/// The same, with those of some numbers packed that can be.
fn some_packed(rt: &impl Abort, alloc: Global, from: usize, to: usize) -> Nodes
    ensures { IsTree result }
{
    let mut nodes = two_of_history(rt, alloc);
    for number in from..to {
        nodes = pack_at(rt, alloc, nodes, number);
    }
    nodes
}

/// Whether a key has a row at an instant.
fn has_row(rt: &impl Abort, alloc: Global, nodes: &Nodes, number: u8, at: Instant) -> bool
    requires tree { IsTree nodes.now }
    requires instant { 1 ≤ at }
{
    let key = key(rt, alloc, number);
    let (leaf, _visits) = leaf_at(nodes, &key, at);
    let slot = nodes.get(leaf).expect(rt, "there is such a node");
    let row = row_in(alloc, slot.child(), &key, at).expect(rt, "there is memory");
    let is_there = has_row_in(alloc, slot.child(), &key, at).expect(rt, "there is memory");
    assert!(rt; is_there == row.is_some());
    is_there
}

/// The tree of two rows, or that of both nodes of history packed.
fn one_or_packed(rt: &impl Abort, alloc: Global, is_packed: bool) -> Nodes
    ensures { IsTree result }
{
    if is_packed {
        some_packed(rt, alloc, 1, 3)
    } else {
        two_rows(rt, alloc)
    }
}

/// How many nodes that tree has, and whether a key has a row at an instant.
fn count_and_row(
    rt: &impl Abort,
    alloc: Global,
    is_packed: bool,
    number: u8,
    at: Instant,
) -> (usize, bool) {
    assert!(rt; 1 <= at);
    let nodes = one_or_packed(rt, alloc, is_packed);
    (nodes.len(), has_row(rt, alloc, &nodes, number, at))
}

#[test]
fn a_row_stands_from_its_instant_on(rt: HostRuntime) {
    for (is_packed, number, at, found) in [
        (false, 1, 99, (1, false)),
        (false, 1, 100, (1, true)),
        (false, 2, 199, (1, false)),
        (false, 2, 200, (1, true)),
        (true, 1, 99, (4, false)),
        (true, 1, 100, (4, true)),
        (true, 1, 150, (4, true)),
        (true, 2, 199, (4, false)),
        (true, 2, 200, (4, true)),
    ] {
        assert!(rt;
            count_and_row(&rt, rt.alloc(), is_packed, number, at) == found,
            "{number} at {at}"
        );
    }
}

fn share(rt: &impl Abort, nodes: &Nodes) -> Nodes
    ensures { result ≡ nodes.now }
{
    let Ok(share) = nodes.share() else {
        panic!(rt; "there is memory")
    };
    share
}

/// How many nodes a share of the tree of two rows has, and how many the tree that is split
/// thereafter, if key 2 has a row in both.
fn counts_of_both(rt: &impl Abort, alloc: Global) -> Option<(usize, usize)> {
    let nodes = two_rows(rt, alloc);
    let before = share(rt, &nodes);
    let after = split_root_at(rt, alloc, nodes, 200);
    if has_row(rt, alloc, &before, 2, 200) && has_row(rt, alloc, &after, 2, 200) {
        Some((before.len(), after.len()))
    } else {
        None
    }
}

#[test]
fn a_share_keeps_its_nodes(rt: HostRuntime) {
    assert!(rt; counts_of_both(&rt, rt.alloc()) == Some((1, 3)));
}

/// The tree of two halves at 200, or of three parts.
fn halves_or_parts(rt: &impl Abort, alloc: Global, has_three: bool) -> Nodes
    ensures { IsTree result }
{
    if has_three {
        three_parts(rt, alloc)
    } else {
        two_halves(rt, alloc, 200)
    }
}

/// The number of the data node of a key at an instant in that tree, how many nodes lead to it, and
/// whether it is below the root.
fn place_in(
    rt: &impl Abort,
    alloc: Global,
    has_three: bool,
    number: u8,
    at: Instant,
) -> (usize, usize, bool) {
    assert!(rt; 1 <= at);
    let nodes = halves_or_parts(rt, alloc, has_three);
    let key = key(rt, alloc, number);
    let (leaf, visits) = leaf_at(&nodes, &key, at);
    let way = way(alloc, &nodes, &key, at).expect(rt, "there is memory");
    (leaf, visits, way.as_slice() == [0, leaf].as_slice())
}

#[test]
fn a_leaf_below_the_root_is_split(rt: HostRuntime) {
    for (has_three, number, at, leaf) in [
        (false, 1, 199, 1),
        (false, 1, 200, 2),
        (false, 2, 250, 2),
        (true, 1, 250, 2),
        (true, 2, 250, 3),
    ] {
        let found = place_in(&rt, rt.alloc(), has_three, number, at);
        assert!(rt; found == (leaf, 2, true), "{number} at {at}");
    }
}

/// When a node starts; 0 where there is none.
fn start(slot: Option<&Slot>) -> Instant {
    match slot {
        None => 0,
        Some(slot) => slot.child().rect().time().from,
    }
}

/// When the first unpacked node of history starts, and when the next one does; 0 where there is
/// none.
fn first_starts(nodes: &Nodes) -> (Instant, Instant) {
    match nodes.first_unpacked(None) {
        None => (0, 0),
        Some(first) => {
            let rect = first.child().rect();
            (rect.time().from, start(nodes.first_unpacked(Some(rect))))
        }
    }
}

/// The same, with those of some numbers packed that can be.
fn starts_left(rt: &impl Abort, alloc: Global, from: usize, to: usize) -> (Instant, Instant) {
    first_starts(&some_packed(rt, alloc, from, to))
}

#[test]
fn a_packed_node_is_on_the_list_no_more(rt: HostRuntime) {
    for (from, to, starts) in [
        (0, 0, (1, 150)),
        (0, 1, (1, 150)),
        (1, 2, (150, 0)),
        (2, 3, (1, 0)),
        (3, 4, (1, 150)),
        (1, 3, (0, 0)),
    ] {
        let found = starts_left(&rt, rt.alloc(), from, to);
        assert!(rt; found == starts, "from {from} to {to}");
    }
}

/// When the first unpacked nodes start of a share, and of the nodes of which one was packed
/// thereafter.
fn starts_of_both(rt: &impl Abort, alloc: Global) -> (Instant, Instant) {
    let nodes = two_of_history(rt, alloc);
    let before = share(rt, &nodes);
    let after = pack_at(rt, alloc, nodes, 1);
    (
        start(before.first_unpacked(None)),
        start(after.first_unpacked(None)),
    )
}

#[test]
fn a_share_keeps_its_unpacked_node(rt: HostRuntime) {
    assert!(rt; starts_of_both(&rt, rt.alloc()) == (1, 150));
}
