//! Index nodes with too many references are split, from a parent up to the root.
ghost use Rattle.std.specs.Prelude.{◌≡◌, ◌+◌, ◌≤◌, HoldsAt, IfOk, List};
ghost use Rattle.values.specs.Event.{Event as Change};
ghost use Rattle.values.specs.Memory.{OnlyMemory};
ghost use Rattle.treenodes.specs.Tree.{IsTree};
ghost use Rattle.treenodes.specs.Map.{HoldsMap};
ghost use Rattle.treenodes.specs.Lookup.{IsParent};
ghost use Rattle.treenodes.specs.Sound.{IsTreeOf};
ghost use Rattle.treenodes.specs.History.{KeepsHistory};
ghost use Rattle.treegrowth.specs.Growth.{AreOthersSmall, IsGrownIndex, IsIndexSplit, IsOverfull, IsWayDown};
ghost use Rattle.treegrowth.specs.Leaves.{HaveSameLeaves};
ghost use Rattle.treegrowth.specs.Places.{DoLeavesStay};
ghost use Rattle.treegrowth.specs.Point.{is_index_split_by_time};

use crate::point::STAY_LIMIT;
use datanode::CAPACITY;
use indexnode::IndexNode;
use std::alloc::Global;
use treenodes::{Nodes, with_index_keys_split, with_index_time_split, with_new_root};
use values::{Instant, Mem};

/// The nodes with an index node and those above it within their capacity, by splits up the way to
/// the root.
pub(crate) fn relieve(alloc: Global, nodes: Nodes, way: &[usize], depth: usize) -> Mem<Nodes>
    requires tree { IsTree nodes }
    requires way { IsWayDown nodes way.now depth }
    requires others { HoldsAt (AreOthersSmall nodes) way.now depth }
    requires grown { HoldsAt (IsGrownIndex nodes) way.now depth }
    ensures kept { (m : List Change) → HoldsMap nodes m → IfOk result (λ s. IsTreeOf s m) }
    ensures leaves { IfOk result (HaveSameLeaves nodes) }
    ensures stay { IfOk result (DoLeavesStay nodes) }
    ensures history { IfOk result (KeepsHistory nodes) }
    ensures err { OnlyMemory result }
{
    let number = way[depth];
    if nodes.at(number).index().references().len() <= CAPACITY {
        return Ok(nodes);
    }
    if depth == 0 {
        return with_root_split(alloc, nodes);
    }
    let nodes = with_index_split(alloc, nodes, way[depth - 1], number)?;
    relieve(alloc, nodes, way, depth - 1)
}

/// The nodes with a root that is split, below a new one.
fn with_root_split(alloc: Global, nodes: Nodes) -> Mem<Nodes>
    requires tree { IsTree nodes }
    requires others { AreOthersSmall nodes 0 }
    requires grown { IsOverfull nodes 0 }
    ensures kept { (m : List Change) → HoldsMap nodes m → IfOk result (λ s. IsTreeOf s m) }
    ensures leaves { IfOk result (HaveSameLeaves nodes) }
    ensures stay { IfOk result (DoLeavesStay nodes) }
    ensures history { IfOk result (KeepsHistory nodes) }
    ensures err { OnlyMemory result }
{
    let number = nodes.len();
    let nodes = with_new_root(alloc, nodes)?;
    with_index_split(alloc, nodes, 0, number)
}

/// The nodes with an index node split. By time where one reference is current, or where the least
/// start of a current one is after the node's start and at most 42 references stay; else at the
/// middle key of the current references.
fn with_index_split(alloc: Global, nodes: Nodes, parent: usize, number: usize) -> Mem<Nodes>
    requires tree { IsTree nodes }
    requires parent { IsParent nodes parent number }
    requires grown { IsOverfull nodes number }
    ensures tree { IfOk result IsTree }
    ensures holds { (m : List Change) → HoldsMap nodes m → IfOk result (λ s. HoldsMap s m) }
    ensures split { IfOk result (λ s. IsIndexSplit nodes s parent number) }
    ensures history { IfOk result (KeepsHistory nodes) }
    ensures err { OnlyMemory result }
{
    let node = nodes.at(number).index();
    let Some(start) = node.least_current_start() else {
        unreachable!()
    };
    if is_split_by_time(node, start) {
        return with_index_time_split(alloc, nodes, parent, number, start);
    }
    let Some(key) = node.middle_key(alloc)? else {
        unreachable!()
    };
    with_index_keys_split(alloc, nodes, parent, number, &key)
}

fn is_split_by_time(node: &IndexNode<usize>, start: Instant) -> bool
    ensures { result ≡ is_index_split_by_time node.now start }
{
    node.current_count() == 1
        || (node.rect().time().from < start && node.stay_count(start) <= STAY_LIMIT)
}
