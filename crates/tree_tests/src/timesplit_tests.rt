//! Splits worked out by hand.
ghost use Rattle.std.specs.Prelude.{IsTrue};
ghost use Rattle.keyrange.specs.Cut.{is_time_inside};

use crate::sample::{ONE_KEY, empty_node, node_of, put};
use datanode::DataNode;
use std::alloc::Global;
use std::process::Abort;
use timesplit::{split_time, stay_count};
use values::{Instant, MAX_INSTANT};

/// Whether a node without an end can be split at an instant.
fn is_inside(node: &DataNode, instant: Instant) -> bool
    ensures { IsTrue result → IsTrue (is_time_inside node.now.rect instant) }
{
    let time = node.rect().time();
    time.from < instant && time.to.is_none() && instant <= MAX_INSTANT
}

fn halves(rt: &impl Abort, node: &DataNode, instant: Instant) -> (DataNode, DataNode) {
    assert!(rt; is_inside(node, instant));
    split_time(node, instant).expect(rt, "there is memory")
}

/// How many events both halves hold, how many stay, the end of the first half and the start of the
/// second.
type Halves = (usize, usize, usize, Option<Instant>, Instant);

fn sizes_and_ends(rt: &impl Abort, node: &DataNode, instant: Instant) -> Halves {
    let halves = halves(rt, node, instant);
    (
        halves.0.len(),
        halves.1.len(),
        stay_count(node, instant),
        halves.0.rect().time().to,
        halves.1.rect().time().from,
    )
}

/// The same of the node of one key.
fn halves_of_one_key(rt: &impl Abort, alloc: Global, instant: Instant) -> Halves {
    sizes_and_ends(rt, &node_of(rt, alloc, ONE_KEY), instant)
}

#[test]
fn a_row_stays_in_the_past_and_is_carried_and_a_deletion_is_not(rt: HostRuntime) {
    for (instant, past, now) in [(150, 1, 2), (200, 1, 1), (250, 2, 0)] {
        let found = halves_of_one_key(&rt, rt.alloc(), instant);
        let halves = (past, now, now, Some(instant), instant);
        assert!(rt; found == halves, "at {instant}");
    }
}

/// A change of a key's byte at an instant, to a row or to none, and where the node is split after
/// it.
#[derive(Clone, Copy)]
struct Change(u8, Instant, bool, Option<Instant>);

/// Two more digits for a size.
fn with_size(sizes: usize, size: usize) -> usize {
    sizes.saturating_mul(100).saturating_add(size)
}

/// Splits a node at an instant; how many events the historical half has.
fn split(rt: &impl Abort, node: &mut DataNode, instant: Instant) -> usize {
    let (past, now) = halves(rt, node, instant);
    *node = now;
    past.len()
}

/// Puts a change, and splits the node after it where that is wanted: the sizes with that of the
/// historical half.
fn put_change(
    rt: &impl Abort,
    alloc: Global,
    node: &mut DataNode,
    sizes: usize,
    change: Change,
) -> usize {
    assert!(rt; put(rt, alloc, node, change.0, change.1, change.2));
    match change.3 {
        None => sizes,
        Some(instant) => with_size(sizes, split(rt, node, instant)),
    }
}

/// How many events the nodes hold, two digits for each, the historical ones first and then the
/// current one, of changes that come one after another.
fn shape(rt: &impl Abort, alloc: Global, changes: &[Change]) -> usize {
    let mut sizes: usize = 0;
    let mut node = empty_node(rt, alloc);
    for change in changes {
        sizes = put_change(rt, alloc, &mut node, sizes, *change);
    }
    with_size(sizes, node.len())
}

#[test]
fn a_deletion_is_left_behind(rt: HostRuntime) {
    let changes = [
        Change(1, 100, true, None),
        Change(1, 200, true, None),
        Change(2, 201, true, None),
        Change(1, 210, false, None),
        Change(3, 220, true, Some(220)),
    ];
    assert!(rt; shape(&rt, rt.alloc(), &changes) == 4_02);
}

#[test]
fn a_row_that_stands_is_carried_from_node_to_node(rt: HostRuntime) {
    let changes = [
        Change(1, 100, true, None),
        Change(2, 200, true, Some(200)),
        Change(2, 300, true, Some(300)),
        Change(2, 400, true, Some(400)),
    ];
    assert!(rt; shape(&rt, rt.alloc(), &changes) == 1_02_02_02);
}

/// The shape of 101 changes of one key, split at 64 after that of 65.
fn one_key_shape(rt: &impl Abort, alloc: Global) -> usize {
    let mut sizes: usize = 0;
    let mut node = empty_node(rt, alloc);
    for at in 1..102u64 {
        let split = if at == 65 { Some(64) } else { None };
        sizes = put_change(rt, alloc, &mut node, sizes, Change(1, at, true, split));
    }
    with_size(sizes, node.len())
}

#[test]
fn one_key_fills_a_node_and_is_split_at_the_instant_before(rt: HostRuntime) {
    assert!(rt; one_key_shape(&rt, rt.alloc()) == 63_38);
}
