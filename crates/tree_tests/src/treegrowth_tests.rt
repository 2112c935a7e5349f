//! Trees of one commit and of two, and their splits.
ghost use Rattle.std.specs.Prelude.{◌≡◌, ◌<◌, ◌≤◌};
ghost use Rattle.values.specs.Commits.{max_instant};
ghost use Rattle.treenodes.specs.Sound.{IsSound};
ghost use Rattle.treegrowth.specs.Commit.{IsCommit};

use crate::sample::{change, key};
use crate::tree::leaf;
use std::alloc::Global;
use std::process::Abort;
use treegrowth::{key_split, time_split, with_commit};
use treenodes::Nodes;
use values::{Event, Instant, Mem};

/// Puts an event of a lower key before those of a commit.
fn put_first(rt: &impl Abort, at: Instant, events: &mut Vec<Event>, event: Event)
    requires commit { IsCommit at events.old.items }
    requires instant { event.at ≡ at }
    ensures { IsCommit at events.new.items }
{
    if let Some(first) = events.first() {
        assert!(rt; event.order(first).is_lt());
    }
    events.insert(0, event).expect(rt, "there is memory");
}

/// Rows of so many keys, to be committed.
fn rows(rt: &impl Abort, alloc: Global, at: Instant, count: u8) -> Vec<Event>
    ensures { IsCommit at result.items }
{
    let mut events = Vec::new(alloc);
    for number in 0..count {
        let event = change(rt, alloc, count - 1 - number, at, true);
        put_first(rt, at, &mut events, event);
    }
    events
}

/// The tree with rows of so many keys more.
fn with_rows(
    rt: &impl Abort,
    alloc: Global,
    nodes: Nodes,
    last: Instant,
    at: Instant,
    count: u8,
) -> Nodes
    requires sound { IsSound nodes last }
    requires later { last < at }
    requires upto { at ≤ max_instant }
    ensures { IsSound result at }
{
    let events = rows(rt, alloc, at, count);
    assert!(rt; events.len() > 0);
    let Ok(nodes) = with_commit(alloc, nodes, last, at, events) else {
        panic!(rt; "there is memory")
    };
    nodes
}

/// A tree with rows of the keys up to 5, from instant 100 on.
fn six_rows(rt: &impl Abort, alloc: Global) -> Nodes
    ensures { IsSound result 100 }
{
    with_rows(rt, alloc, leaf(rt, alloc), 0, 100, 6)
}

/// How many nodes there are, or 0 where there is no tree.
fn count_nodes(rt: &impl Abort, nodes: Mem<Option<Nodes>>) -> usize {
    match nodes.expect(rt, "there is memory") {
        Some(nodes) => nodes.len(),
        None => 0,
    }
}

/// How many nodes there are before a split at a key, and how many after it, or 0 where there is
/// none.
fn by_key_split(rt: &impl Abort, alloc: Global, number: u8) -> (usize, usize) {
    let nodes = six_rows(rt, alloc);
    let split = key_split(alloc, &nodes, 100, &key(rt, alloc, number));
    (nodes.len(), count_nodes(rt, split))
}

/// How many nodes there are after a split at an instant, or 0 where there is none.
fn after_time_split(rt: &impl Abort, alloc: Global, instant: Instant) -> usize {
    let nodes = six_rows(rt, alloc);
    let split = time_split(alloc, &nodes, 100, &key(rt, alloc, 5), instant);
    count_nodes(rt, split)
}

#[test]
fn a_root_that_is_split_gets_a_new_root(rt: HostRuntime) {
    assert!(rt; by_key_split(&rt, rt.alloc(), 5) == (1, 3));
    assert!(rt; by_key_split(&rt, rt.alloc(), 9) == (1, 3));
}

#[test]
fn a_split_is_after_the_start_and_not_after_the_last_commit(rt: HostRuntime) {
    for (instant, count) in [(0, 0), (1, 0), (2, 3), (100, 3), (101, 0)] {
        let found = after_time_split(&rt, rt.alloc(), instant);
        assert!(rt; found == count, "at {instant}");
    }
}

/// How many nodes there are after a commit of so many keys, and after another one of so many.
fn counts(rt: &impl Abort, alloc: Global, first: u8, second: u8) -> (usize, usize) {
    let nodes = with_rows(rt, alloc, leaf(rt, alloc), 0, 100, first);
    let before = nodes.len();
    let nodes = with_rows(rt, alloc, nodes, 100, 200, second);
    (before, nodes.len())
}

#[test]
fn a_commit_splits_each_data_node_that_it_overfills(rt: HostRuntime) {
    for (first, second, nodes) in [
        (1, 63, (1, 1)),
        (1, 64, (1, 3)),
        (64, 1, (1, 3)),
        (65, 1, (3, 3)),
        (65, 31, (3, 3)),
        (65, 65, (3, 4)),
        (200, 1, (7, 7)),
        (200, 200, (7, 8)),
    ] {
        let found = counts(&rt, rt.alloc(), first, second);
        assert!(rt; found == nodes, "{first} keys and {second}");
    }
}
