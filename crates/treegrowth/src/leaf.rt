//! A data node that is split, with the nodes above it.
ghost use Rattle.std.specs.Prelude.{◌≡◌, ◌≤◌, HoldsAt, IfOk, List, Some};
ghost use Rattle.values.specs.Event.{Event as Change};
ghost use Rattle.values.specs.Commits.{max_instant};
ghost use Rattle.values.specs.Memory.{OnlyMemory};
ghost use Rattle.keyrange.specs.Rect.{Area};
ghost use Rattle.datanode.specs.Node.{Node};
ghost use Rattle.treenodes.specs.Node.{IsAt, data_node};
ghost use Rattle.treenodes.specs.Tree.{IsTree};
ghost use Rattle.treenodes.specs.Map.{HoldsMap, latest};
ghost use Rattle.treenodes.specs.Lookup.{IsParent};
ghost use Rattle.treenodes.specs.Sound.{IsTreeOf};
ghost use Rattle.treenodes.specs.History.{KeepsHistory};
ghost use Rattle.treenodes.specs.Split.{Halved, part};
ghost use Rattle.treegrowth.specs.Growth.{AreOthersSmall, IsGrownLeaf, IsSplittable, IsWayDown};
ghost use Rattle.treegrowth.specs.Leaves.{IsLeafSplit};
ghost use Rattle.treegrowth.specs.Places.{DoOtherLeavesStay, IsRelieved};
ghost use Rattle.treegrowth.specs.Point.{CanSplitAt, IsReached, halves_at};

use crate::point::{SplitPoint, overflow_point};
use crate::relief::relieve;
use datanode::CAPACITY;
use std::alloc::Global;
use treenodes::{Nodes, current_at, with_keys_split, with_new_root, with_time_split};
use values::{Instant, Mem};

/// The nodes with a data node within its capacity, which took an event of a commit after the last
/// instant.
pub(crate) fn relieved_leaf(
    alloc: Global,
    nodes: Nodes,
    way: &[usize],
    depth: usize,
    last: Instant,
) -> Mem<Nodes>
    requires tree { IsTree nodes }
    requires way { IsWayDown nodes way.now depth }
    requires others { HoldsAt (AreOthersSmall nodes) way.now depth }
    requires grown { HoldsAt (λ number. IsGrownLeaf nodes number last) way.now depth }
    requires upto { last ≤ max_instant }
    ensures kept { (m : List Change) → HoldsMap nodes m → last ≤ latest m
        → IfOk result (λ s. IsTreeOf s m) }
    ensures history { IfOk result (KeepsHistory nodes) }
    ensures relieved { HoldsAt (λ number. IfOk result (IsRelieved number nodes)) way.now depth }
    ensures err { OnlyMemory result }
{
    let node = current_at(&nodes, way[depth]);
    if node.len() <= CAPACITY {
        return Ok(nodes);
    }
    let point = overflow_point(node, last)?;
    with_leaf_split(alloc, nodes, way, depth, &point)
}

/// The nodes with the data node at the end of a way split, and those above it within their
/// capacity.
pub(crate) fn with_leaf_split(
    alloc: Global,
    nodes: Nodes,
    way: &[usize],
    depth: usize,
    point: &SplitPoint,
) -> Mem<Nodes>
    requires tree { IsTree nodes }
    requires way { IsWayDown nodes way.now depth }
    requires splittable { HoldsAt (λ number. IsSplittable nodes number point.now) way.now depth }
    ensures kept { (m : List Change) → HoldsMap nodes m → IsReached m point.now
        → IfOk result (λ s. IsTreeOf s m) }
    ensures leaves { HoldsAt (λ number. (n : Node) (h : Area × Area)
        → IsAt nodes number (data_node n) → halves_at n.rect point.now ≡ Some h
        → IfOk result (λ s. IsLeafSplit nodes s n.rect h)) way.now depth }
    ensures history { IfOk result (KeepsHistory nodes) }
    ensures others { HoldsAt (λ number. IfOk result (DoOtherLeavesStay number nodes))
        way.now depth }
    ensures err { OnlyMemory result }
{
    let number = way[depth];
    if depth == 0 {
        return with_root_split(alloc, nodes, point);
    }
    let nodes = with_halves_at(alloc, nodes, way[depth - 1], number, point)?;
    relieve(alloc, nodes, way, depth - 1)
}

/// The nodes with a root that is a data node split, below a new one.
fn with_root_split(alloc: Global, nodes: Nodes, point: &SplitPoint) -> Mem<Nodes>
    requires tree { IsTree nodes }
    requires splittable { IsSplittable nodes 0 point.now }
    ensures kept { (m : List Change) → HoldsMap nodes m → IsReached m point.now
        → IfOk result (λ s. IsTreeOf s m) }
    ensures leaves { (n : Node) (h : Area × Area)
        → IsAt nodes 0 (data_node n) → halves_at n.rect point.now ≡ Some h
        → IfOk result (λ s. IsLeafSplit nodes s n.rect h) }
    ensures history { IfOk result (KeepsHistory nodes) }
    ensures others { IfOk result (DoOtherLeavesStay 0 nodes) }
    ensures err { OnlyMemory result }
{
    let number = nodes.len();
    let nodes = with_new_root(alloc, nodes)?;
    with_halves_at(alloc, nodes, 0, number, point)
}

/// The nodes with a data node split at a point.
fn with_halves_at(
    alloc: Global,
    nodes: Nodes,
    parent: usize,
    number: usize,
    point: &SplitPoint,
) -> Mem<Nodes>
    requires tree { IsTree nodes }
    requires parent { IsParent nodes parent number }
    requires can { CanSplitAt nodes number point.now }
    ensures tree { IfOk result IsTree }
    ensures holds { (m : List Change) → HoldsMap nodes m → IsReached m point.now
        → IfOk result (λ s. HoldsMap s m) }
    ensures halved { (n : Node) (h : Area × Area)
        → IsAt nodes number (data_node n) → halves_at n.rect point.now ≡ Some h
        → IfOk result (λ s. Halved nodes s parent number (part n h.0) (part n h.1)) }
    ensures history { IfOk result (KeepsHistory nodes) }
    ensures err { OnlyMemory result }
{
    match point {
        SplitPoint::Key(key) => with_keys_split(alloc, nodes, parent, number, key),
        SplitPoint::Time(instant) => with_time_split(alloc, nodes, parent, number, *instant),
    }
}
