//! The current data node of a key is split where a step asks for it.
ghost use Rattle.std.specs.Prelude.{◌≡◌, ◌-◌, HoldsAt, IfOk, IfSome, MatchOption, Some, None, length};
ghost use Rattle.values.specs.Memory.{OnlyMemory};
ghost use Rattle.keyrange.specs.Rect.{Area};
ghost use Rattle.keyrange.specs.Cut.{halves_by_key};
ghost use Rattle.treenodes.specs.Node.{TreeNode, IsAt};
ghost use Rattle.treenodes.specs.Map.{changes};
ghost use Rattle.treenodes.specs.Sound.{IsSound};
ghost use Rattle.treenodes.specs.History.{KeepsHistory};
ghost use Rattle.treegrowth.specs.Growth.{IsWayDown};
ghost use Rattle.treegrowth.specs.Leaves.{IsCurrentLeaf, IsLeafSplit, IsSplitIn, halves_upto};
ghost use Rattle.treegrowth.specs.Point.{CanSplitAt, IsReached, halves_at};

use crate::leaf::with_leaf_split;
use crate::point::SplitPoint;
use std::alloc::Global;
use treenodes::{Nodes, can_split_key, can_split_time, current_at, way};
use values::{Instant, KeyBytes, MAX_INSTANT, Mem};

/// Splits the current data node of a key there; None where the node begins at the key. `Memory`
/// where it runs out.
pub fn key_split(alloc: Global, nodes: &Nodes, last: Instant, key: &KeyBytes) -> Mem<Option<Nodes>>
    requires { IsSound nodes.now last }
    ensures sound { IfOk result (λ o. IfSome o (λ s. IsSound s last)) }
    ensures same { IfOk result (λ o. IfSome o (λ s. changes s ≡ changes nodes.now)) }
    ensures history { IfOk result (λ o. IfSome o (KeepsHistory nodes.now)) }
    ensures split { (n : TreeNode) → IsCurrentLeaf nodes.now key.now n → IfOk result (λ o.
        MatchOption o (halves_by_key n.rect key.now ≡ None) (λ s.
        IsSplitIn nodes.now s n.rect (halves_by_key n.rect key.now))) }
    ensures err { OnlyMemory result }
{
    let numbers = way(alloc, nodes, key, MAX_INSTANT)?;
    let way = numbers.as_slice();
    if !can_split_key(nodes, way[way.len() - 1], key) {
        return Ok(None);
    }
    let point = SplitPoint::Key(key.copy()?);
    Ok(Some(with_split(alloc, nodes, last, way, &point)?))
}

/// Splits the current data node of a key at an instant; None where the instant is not after the
/// node's start, or after the last commit. `Memory` where it runs out.
pub fn time_split(
    alloc: Global,
    nodes: &Nodes,
    last: Instant,
    key: &KeyBytes,
    instant: Instant,
) -> Mem<Option<Nodes>>
    requires { IsSound nodes.now last }
    ensures sound { IfOk result (λ o. IfSome o (λ s. IsSound s last)) }
    ensures same { IfOk result (λ o. IfSome o (λ s. changes s ≡ changes nodes.now)) }
    ensures history { IfOk result (λ o. IfSome o (KeepsHistory nodes.now)) }
    ensures split { (n : TreeNode) → IsCurrentLeaf nodes.now key.now n → IfOk result (λ o.
        MatchOption o (halves_upto last n.rect instant ≡ None) (λ s.
        IsSplitIn nodes.now s n.rect (halves_upto last n.rect instant))) }
    ensures err { OnlyMemory result }
{
    if last < instant {
        return Ok(None);
    }
    let numbers = way(alloc, nodes, key, MAX_INSTANT)?;
    let way = numbers.as_slice();
    if !can_split_time(nodes, way[way.len() - 1], instant) {
        return Ok(None);
    }
    let point = SplitPoint::Time(instant);
    Ok(Some(with_split(alloc, nodes, last, way, &point)?))
}

/// Splits the data node at the end of a way in a share of the nodes.
fn with_split(
    alloc: Global,
    nodes: &Nodes,
    last: Instant,
    way: &[usize],
    point: &SplitPoint,
) -> Mem<Nodes>
    requires sound { IsSound nodes.now last }
    requires way { IsWayDown nodes.now way.now (length way.now - 1) }
    requires can { HoldsAt (λ number. CanSplitAt nodes.now number point.now)
        way.now (length way.now - 1) }
    requires reached { IsReached (changes nodes.now) point.now }
    ensures sound { IfOk result (λ s. IsSound s last) }
    ensures same { IfOk result (λ s. changes s ≡ changes nodes.now) }
    ensures history { IfOk result (KeepsHistory nodes.now) }
    ensures leaves { HoldsAt (λ number. (n : TreeNode) (h : Area × Area)
        → IsAt nodes.now number n → halves_at n.rect point.now ≡ Some h
        → IfOk result (λ s. IsLeafSplit nodes.now s n.rect h)) way.now (length way.now - 1) }
    ensures err { OnlyMemory result }
{
    let depth = way.len() - 1;
    // Who asks for the data node knows what is there.
    let _node = current_at(nodes, way[depth]);
    with_leaf_split(alloc, nodes.share()?, way, depth, point)
}
