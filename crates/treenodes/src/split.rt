//! Current nodes that are split.
ghost use Rattle.std.specs.Prelude.{◌≡◌, ◌↔◌, ◌≤◌, List, Some, IfOk, IsTrue, filter, is_none, nat_le, nat_lt, ◌&&◌};
ghost use Rattle.values.specs.Commits.{max_instant};
ghost use Rattle.values.specs.Event.{Event as Change};
ghost use Rattle.values.specs.Memory.{OnlyMemory};
ghost use Rattle.keyrange.specs.Rect.{Area};
ghost use Rattle.keyrange.specs.Cut.{is_key_inside, halves_by_key, halves_by_time};
ghost use Rattle.datanode.specs.Node.{Node};
ghost use Rattle.indexnode.specs.Split.{reaches_below, reaches_up, starts_before, ends_after};
ghost use Rattle.treenodes.specs.Node.{TreeNode, IsAt, data_node};
ghost use Rattle.treenodes.specs.Tree.{IsTree};
ghost use Rattle.treenodes.specs.Map.{HoldsMap, latest};
ghost use Rattle.treenodes.specs.Lookup.{IsData, IsParent};
ghost use Rattle.treenodes.specs.History.{KeepsHistory};
ghost use Rattle.treenodes.specs.Split.{CanSplitKey, CanSplitTime, CanSplitIndexKey, CanSplitIndexTime, Halved, part, part_of};

use crate::lookup::current_at;
use crate::node::Child;
use crate::nodes::Nodes;
use crate::replacement::with_halves;
use keyrange::{Rect, TimeRange, is_before_end, is_below};
use keysplit::split_key;
use std::alloc::Global;
use timesplit::split_time;
use values::{Instant, KeyBytes, MAX_INSTANT, Mem};

fn is_key_splittable(rect: &Rect, key: &KeyBytes) -> bool
    ensures { result ≡ (is_none rect.now.time.to && is_key_inside rect.now key.now) }
{
    let keys = rect.keys();
    rect.time().to.is_none() && is_below(&keys.lo, key) && is_before_end(key, &keys.hi)
}

fn is_time_splittable(time: TimeRange, instant: Instant) -> bool
    ensures { result
        ≡ (is_none time.to && (nat_lt time.from instant && nat_le instant max_instant)) }
{
    time.to.is_none() && time.from < instant && instant <= MAX_INSTANT
}

/// Tells whether a data node can be split at a key: it is current, and the key is strictly inside.
pub fn can_split_key(nodes: &Nodes, number: usize, key: &KeyBytes) -> bool
    requires { IsData nodes.now number }
    ensures { IsTrue result ↔ CanSplitKey nodes.now number key.now }
{
    is_key_splittable(nodes.at(number).child().rect(), key)
}

/// Tells whether a data node can be split at an instant: it is current, and the instant is after
/// its start and not after the greatest one.
pub fn can_split_time(nodes: &Nodes, number: usize, instant: Instant) -> bool
    requires { IsData nodes.now number }
    ensures { IsTrue result ↔ CanSplitTime nodes.now number instant }
{
    is_time_splittable(nodes.at(number).child().rect().time(), instant)
}

/// Splits a current data node at a key. `Memory` where it runs out.
pub fn with_keys_split(
    alloc: Global,
    nodes: Nodes,
    parent: usize,
    number: usize,
    key: &KeyBytes,
) -> Mem<Nodes>
    requires tree { IsTree nodes }
    requires parent { IsParent nodes parent number }
    requires can { CanSplitKey nodes number key.now }
    ensures tree { IfOk result IsTree }
    ensures holds { (m : List Change) → HoldsMap nodes m → IfOk result (λ s. HoldsMap s m) }
    ensures halved { (n : Node) (h : Area × Area) → IsAt nodes number (data_node n)
        → halves_by_key n.rect key.now ≡ Some h → IfOk result (λ s.
        Halved nodes s parent number (part n h.0) (part n h.1)) }
    ensures history { IfOk result (KeepsHistory nodes) }
    ensures err { OnlyMemory result }
{
    let (below, above) = split_key(current_at(&nodes, number), key)?;
    with_halves(
        alloc,
        nodes,
        parent,
        number,
        Child::Data(below),
        Child::Data(above),
    )
}

/// Splits a current data node at an instant. `Memory` where it runs out.
pub fn with_time_split(
    alloc: Global,
    nodes: Nodes,
    parent: usize,
    number: usize,
    instant: Instant,
) -> Mem<Nodes>
    requires tree { IsTree nodes }
    requires parent { IsParent nodes parent number }
    requires can { CanSplitTime nodes number instant }
    ensures tree { IfOk result IsTree }
    ensures holds { (m : List Change) → HoldsMap nodes m → instant ≤ latest m
        → IfOk result (λ s. HoldsMap s m) }
    ensures halved { (n : Node) (h : Area × Area) → IsAt nodes number (data_node n)
        → halves_by_time n.rect instant ≡ Some h → IfOk result (λ s.
        Halved nodes s parent number (part n h.0) (part n h.1)) }
    ensures history { IfOk result (KeepsHistory nodes) }
    ensures err { OnlyMemory result }
{
    let (past, now) = split_time(current_at(&nodes, number), instant)?;
    with_halves(
        alloc,
        nodes,
        parent,
        number,
        Child::Data(past),
        Child::Data(now),
    )
}

/// Splits a current index node at a key. `Memory` where it runs out.
pub fn with_index_keys_split(
    alloc: Global,
    nodes: Nodes,
    parent: usize,
    number: usize,
    key: &KeyBytes,
) -> Mem<Nodes>
    requires tree { IsTree nodes }
    requires parent { IsParent nodes parent number }
    requires can { CanSplitIndexKey nodes number key.now }
    ensures tree { IfOk result IsTree }
    ensures holds { (m : List Change) → HoldsMap nodes m → IfOk result (λ s. HoldsMap s m) }
    ensures halved { (n : TreeNode) (h : Area × Area) → IsAt nodes number n
        → halves_by_key n.rect key.now ≡ Some h → IfOk result (λ s.
        Halved nodes s parent number
        (part_of n h.0 (filter (λ r. reaches_below key.now r.rect)))
        (part_of n h.1 (filter (λ r. reaches_up key.now r.rect)))) }
    ensures history { IfOk result (KeepsHistory nodes) }
    ensures err { OnlyMemory result }
{
    let (below, above) = nodes.at(number).index().split_key(key)?;
    with_halves(
        alloc,
        nodes,
        parent,
        number,
        Child::Index(below),
        Child::Index(above),
    )
}

/// Splits a current index node at an instant. `Memory` where it runs out.
pub fn with_index_time_split(
    alloc: Global,
    nodes: Nodes,
    parent: usize,
    number: usize,
    instant: Instant,
) -> Mem<Nodes>
    requires tree { IsTree nodes }
    requires parent { IsParent nodes parent number }
    requires can { CanSplitIndexTime nodes number instant }
    ensures tree { IfOk result IsTree }
    ensures holds { (m : List Change) → HoldsMap nodes m → IfOk result (λ s. HoldsMap s m) }
    ensures halved { (n : TreeNode) (h : Area × Area) → IsAt nodes number n
        → halves_by_time n.rect instant ≡ Some h → IfOk result (λ s.
        Halved nodes s parent number
        (part_of n h.0 (filter (λ r. starts_before instant r.rect)))
        (part_of n h.1 (filter (λ r. ends_after instant r.rect)))) }
    ensures history { IfOk result (KeepsHistory nodes) }
    ensures err { OnlyMemory result }
{
    let (past, now) = nodes.at(number).index().split_time(instant)?;
    with_halves(
        alloc,
        nodes,
        parent,
        number,
        Child::Index(past),
        Child::Index(now),
    )
}
