//! When a key of a range was last changed.
ghost use Rattle.std.specs.Prelude.{◌≡◌, ◌<◌, List, IfOk, nat_lt};
ghost use Rattle.std.specs.List.{flat_map};
ghost use Rattle.values.specs.Commits.{max_instant, latest_of};
ghost use Rattle.values.specs.Event.{Event as Change};
ghost use Rattle.values.specs.Memory.{OnlyMemory};
ghost use Rattle.treenodes.specs.Tree.{IsTree};
ghost use Rattle.treenodes.specs.Map.{HoldsMap};
ghost use Rattle.treewalk.specs.Gather.{events_at};
ghost use Rattle.treewalk.specs.Leaf.{node_in};
ghost use Rattle.treewalk.specs.Level.{AreLeaves};
ghost use Rattle.treewalk.specs.RangeChange.{latest_among, event_since_in};

use crate::gather::rect_between;
use crate::last_change::above;
use crate::leaf::leaf_of;
use crate::level::leaves_in;
use blocks::Block;
use eventlist::of_range;
use keyrange::KeyRange;
use std::alloc::Global;
use treenodes::{Child, Nodes};
use values::{Instant, MAX_INSTANT, Mem, SharedEvent};

/// Returns the latest instant above `start` at which a key of the range was changed, if there is
/// one. It looks only into data nodes that have a point of the range above `start`. Of a packed one
/// the events in question are made, of another none is copied. `Memory` where it runs out.
pub fn changed_in(
    alloc: Global,
    nodes: &Nodes,
    range: &KeyRange,
    start: Instant,
) -> Mem<Option<Instant>>
    requires { IsTree nodes.now }
    ensures ok { (m : List Change) → HoldsMap nodes.now m
        → IfOk result (λ i. i ≡ event_since_in m start range.now) }
    ensures err { OnlyMemory result }
{
    if start >= MAX_INSTANT {
        return Ok(None);
    }
    match rect_between(range, start + 1, MAX_INSTANT)? {
        None => Ok(None),
        Some(rect) => {
            let leaves = leaves_in(alloc, nodes, &rect)?;
            change_in_leaves(alloc, nodes, &leaves, range, start)
        }
    }
}

/// The latest of what the data nodes of some numbers show.
fn change_in_leaves(
    alloc: Global,
    nodes: &Nodes,
    numbers: &[usize],
    range: &KeyRange,
    start: Instant,
) -> Mem<Option<Instant>>
    requires leaves { AreLeaves nodes.now numbers.now }
    requires before { start < max_instant }
    ensures ok { IfOk result (λ i. i
        ≡ event_since_in (flat_map (events_at nodes.now) numbers.now) start range.now) }
    ensures err { OnlyMemory result }
{
    let mut latest = None;
    for number in numbers {
        let found = change_in_leaf(alloc, leaf_of(nodes, *number), range, start)?;
        latest = latest_of(latest, found);
    }
    Ok(latest)
}

/// The latest instant above `start` of a data node's events of a range.
fn change_in_leaf(
    alloc: Global,
    child: &Child,
    range: &KeyRange,
    start: Instant,
) -> Mem<Option<Instant>>
    requires { start < max_instant }
    ensures ok { IfOk result (λ i. i
        ≡ event_since_in (node_in child.now).events start range.now) }
    ensures err { OnlyMemory result }
{
    match child {
        Child::Data(node) => Ok(latest_above(of_range(node.events(), range), start)),
        Child::Packed(block) => change_in_block(alloc, block, range, start),
        Child::Index(_) => Ok(None),
    }
}

/// The same of a block's node. It has ended, so none of its events is after the greatest instant.
fn change_in_block(
    alloc: Global,
    block: &Block,
    range: &KeyRange,
    start: Instant,
) -> Mem<Option<Instant>>
    requires { start < max_instant }
    ensures ok { IfOk result (λ i. i
        ≡ event_since_in block.now.node.events start range.now) }
    ensures err { OnlyMemory result }
{
    // Who asks for the bytes knows that they are a node's.
    let _bytes = block.bytes();
    let events = block.events_in(alloc, range, start + 1, MAX_INSTANT)?;
    Ok(latest_above(&events, start))
}

/// The latest instant of events above another.
fn latest_above(events: &[SharedEvent], start: Instant) -> Option<Instant>
    ensures { result ≡ latest_among (λ e. nat_lt start e.at) events.now }
{
    let mut latest = None;
    for event in events {
        latest = latest_of(latest, above(start, event.event().at()));
    }
    latest
}

/// The later of two instants; of one alone, that one.
fn latest_of(one: Option<Instant>, other: Option<Instant>) -> Option<Instant>
    ensures { result ≡ latest_of one other }
{
    match (one, other) {
        (None, other) => other,
        (Some(one), None) => Some(one),
        (Some(one), Some(other)) => Some(one.max(other)),
    }
}
