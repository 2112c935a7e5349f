//! Nodes worked out by hand.
ghost use Rattle.keyrange.specs.Rect.{IsInside};

use crate::sample::{ONE_KEY, all_keys, count, key, key_halves, node_of, put, since, time_halves};
use datanode::{DataNode, is_carried};
use keyrange::Rect;
use std::alloc::Global;
use std::process::Abort;
use values::Instant;

/// Whether key 1 has a row at an instant, the instant of its last event, and how many events the
/// node has.
fn found_in(
    rt: &impl Abort,
    alloc: Global,
    node: &DataNode,
    at: Instant,
) -> (bool, Instant, usize) {
    let key = key(rt, alloc, 1);
    let last = node.latest(&key).expect(rt, "there is an event");
    (node.at(&key, at).is_some(), last.at(), node.len())
}

/// The same of the node of one key, and of its copy.
fn found_in_both(rt: &impl Abort, alloc: Global, at: Instant) -> [(bool, Instant, usize); 2] {
    let node = node_of(rt, alloc, ONE_KEY);
    let copy = node.copy().expect(rt, "there is memory");
    [
        found_in(rt, alloc, &node, at),
        found_in(rt, alloc, &copy, at),
    ]
}

#[test]
fn a_node_has_the_row_until_it_is_deleted(rt: HostRuntime) {
    for (at, there) in [
        (99, false),
        (100, true),
        (150, true),
        (199, true),
        (200, false),
    ] {
        let found = found_in_both(&rt, rt.alloc(), at);
        assert!(rt; found == [(there, 200, 2); 2], "at {at}");
    }
}

/// Whether the node of one key takes a row of it at 200, one at 201, and one of key 2 at 100, and
/// how many events it then has.
fn put_three(rt: &impl Abort, alloc: Global) -> (bool, bool, bool, usize) {
    let mut node = node_of(rt, alloc, ONE_KEY);
    let at_last = put(rt, alloc, &mut node, 1, 200, true);
    let later = put(rt, alloc, &mut node, 1, 201, true);
    let of_other = put(rt, alloc, &mut node, 2, 100, true);
    (at_last, later, of_other, node.len())
}

#[test]
fn an_event_must_be_later_than_those_of_its_key(rt: HostRuntime) {
    assert!(rt; put_three(&rt, rt.alloc()) == (false, true, true, 4));
}

/// The instants of a node's events, in order.
fn instants(rt: &impl Abort, alloc: Global, node: &DataNode) -> Vec<Instant> {
    let mut instants = Vec::new(alloc);
    for event in node.events() {
        let pushed = instants.push(event.event().at());
        pushed.expect(rt, "there is memory");
    }
    instants
}

/// A row of key 8, changes of keys 2 and 4, and key 6, which is deleted. No two events have an
/// instant in common.
const FOUR_KEYS: &[(u8, Instant, bool)] = &[
    (8, 108, true),
    (2, 102, true),
    (2, 160, true),
    (6, 106, true),
    (6, 140, false),
    (4, 104, true),
    (4, 200, true),
];

/// The instants of the part of a node from an instant on.
fn instants_since(
    rt: &impl Abort,
    alloc: Global,
    changes: &[(u8, Instant, bool)],
    from: Instant,
) -> Vec<Instant> {
    let node = since(rt, &node_of(rt, alloc, changes), from);
    instants(rt, alloc, &node)
}

/// Whether the first event of the node of one key is carried to an instant.
fn first_is_carried(rt: &impl Abort, alloc: Global, instant: Instant) -> bool {
    let node = node_of(rt, alloc, ONE_KEY);
    node.len() > 0 && is_carried(node.events(), 0, instant)
}

#[test]
fn a_row_from_before_is_carried_and_a_deletion_is_not(rt: HostRuntime) {
    let cases: [(&[(u8, Instant, bool)], Instant, &[Instant]); 7] = [
        (ONE_KEY, 100, &[100, 200]),
        (ONE_KEY, 150, &[100, 200]),
        (ONE_KEY, 200, &[200]),
        (ONE_KEY, 250, &[]),
        (FOUR_KEYS, 101, &[102, 160, 104, 200, 106, 140, 108]),
        (FOUR_KEYS, 150, &[102, 160, 104, 200, 108]),
        (FOUR_KEYS, 250, &[160, 200, 108]),
    ];
    for (changes, from, expected) in cases {
        let found = instants_since(&rt, rt.alloc(), changes, from);
        assert!(rt; found.as_slice() == expected, "from {from} on");
    }
    assert!(rt; first_is_carried(&rt, rt.alloc(), 150));
}

/// The last event of a node from 150 on, to which a row of key 1 from 100 on is carried, whether it
/// takes one at 150, and how many it then has.
fn replace_carried(rt: &impl Abort, alloc: Global) -> (Instant, bool, usize) {
    let mut node = since(rt, &node_of(rt, alloc, &[(1, 100, true)]), 150);
    let (_there, last, _count) = found_in(rt, alloc, &node, 150);
    let is_taken = put(rt, alloc, &mut node, 1, 150, true);
    (last, is_taken, node.len())
}

#[test]
fn an_event_at_the_first_instant_takes_the_place_of_the_carried_one(rt: HostRuntime) {
    assert!(rt; replace_carried(&rt, rt.alloc()) == (100, true, 1));
}

/// How many events the part of the node of one key from 150 on has from an instant to another.
fn count_events(rt: &impl Abort, alloc: Global, from: Instant, to: Instant) -> usize {
    let node = since(rt, &node_of(rt, alloc, ONE_KEY), 150);
    count(rt, node.events_in(alloc, &all_keys(alloc), from, to))
}

#[test]
fn a_node_lists_carried_events_too(rt: HostRuntime) {
    for (from, to, count) in [(100, 199, 1), (101, 200, 1), (201, 300, 0)] {
        assert!(rt;
            count_events(&rt, rt.alloc(), from, to) == count,
            "from {from}"
        );
    }
}

/// What lies in a rectangle, of a key or a greater one, below another key, and from an instant on.
fn area_between(rt: &impl Abort, alloc: Global, area: &Rect, lo: u8, hi: u8, from: Instant) -> Rect
    ensures { IsInside result area.now }
{
    let (_below, rest) = key_halves(rt, area, &key(rt, alloc, lo));
    let (between, _above) = key_halves(rt, &rest, &key(rt, alloc, hi));
    let (_past, now) = time_halves(rt, &between, from);
    now
}

/// The instants of that part of the four keys.
fn instants_between(rt: &impl Abort, alloc: Global, lo: u8, hi: u8, from: Instant) -> Vec<Instant> {
    let node = node_of(rt, alloc, FOUR_KEYS);
    let part = node.part(area_between(rt, alloc, node.rect(), lo, hi, from));
    instants(rt, alloc, &part.expect(rt, "there is memory"))
}

#[test]
fn a_part_holds_its_range_of_keys(rt: HostRuntime) {
    let cases: [(u8, u8, Instant, &[Instant]); 14] = [
        (1, 9, 150, &[102, 160, 104, 200, 108]),
        (2, 6, 150, &[102, 160, 104, 200]),
        (3, 6, 150, &[104, 200]),
        (2, 4, 150, &[102, 160]),
        (2, 5, 200, &[160, 200]),
        (4, 9, 150, &[104, 200, 108]),
        (4, 5, 250, &[200]),
        (4, 8, 106, &[104, 200, 106, 140]),
        (6, 8, 107, &[106, 140]),
        (8, 9, 150, &[108]),
        (6, 8, 150, &[]),
        (5, 6, 150, &[]),
        (1, 2, 150, &[]),
        (9, 10, 150, &[]),
    ];
    for (lo, hi, from, expected) in cases {
        let found = instants_between(&rt, rt.alloc(), lo, hi, from);
        assert!(rt; found.as_slice() == expected, "keys from {lo} to {hi}");
    }
}

/// The instants of the events of a node with a row of key 4 and one of key 6, which may be cut at
/// 150, once one more is put.
fn instants_with(
    rt: &impl Abort,
    alloc: Global,
    is_cut: bool,
    number: u8,
    at: Instant,
) -> Vec<Instant> {
    let mut node = node_of(rt, alloc, &[(4, 104, true), (6, 106, true)]);
    if is_cut {
        node = since(rt, &node, 150);
    }
    assert!(rt; put(rt, alloc, &mut node, number, at, true));
    instants(rt, alloc, &node)
}

#[test]
fn an_event_is_put_before_others_between_them_and_at_the_end(rt: HostRuntime) {
    let cases: [(bool, u8, Instant, &[Instant]); 12] = [
        (false, 2, 300, &[300, 104, 106]),
        (false, 4, 300, &[104, 300, 106]),
        (false, 5, 103, &[104, 103, 106]),
        (false, 6, 300, &[104, 106, 300]),
        (false, 7, 103, &[104, 106, 103]),
        (false, 7, 300, &[104, 106, 300]),
        // a carried event gives way to one at the cut
        (true, 4, 150, &[150, 106]),
        (true, 4, 151, &[104, 151, 106]),
        (true, 5, 150, &[104, 150, 106]),
        (true, 6, 150, &[104, 150]),
        (true, 6, 151, &[104, 106, 151]),
        (true, 7, 150, &[104, 106, 150]),
    ];
    for (is_cut, number, at, expected) in cases {
        let found = instants_with(&rt, rt.alloc(), is_cut, number, at);
        assert!(rt; found.as_slice() == expected, "key {number} at {at}");
    }
}
