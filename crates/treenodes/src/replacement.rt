//! Two halves in the place of a node.
ghost use Rattle.std.specs.Prelude.{◌≡◌, ◌<◌, ◌++◌, ◌∷◌, [], List, IfOk, None, length, slice_set};
ghost use Rattle.values.specs.Event.{Event as Change};
ghost use Rattle.values.specs.Memory.{OnlyMemory};
ghost use Rattle.keyrange.specs.Rect.{IsArea};
ghost use Rattle.treenodes.specs.Node.{TreeNode, IsAt, packed_of, seen};
ghost use Rattle.treenodes.specs.Tree.{IsTree};
ghost use Rattle.treenodes.specs.Map.{HoldsMap};
ghost use Rattle.treenodes.specs.Lookup.{IsParent};
ghost use Rattle.treenodes.specs.History.{KeepsHistory};
ghost use Rattle.treenodes.specs.Split.{AreSplit, HoldCuts, Halved, HasHalves};

use crate::node::{Child, Slot};
use crate::nodes::Nodes;
use indexnode::Reference;
use std::alloc::Global;
use values::Mem;

/// The nodes with other ones at two numbers, and one more.
fn place_halves(
    nodes: Nodes,
    number: usize,
    first: Slot,
    parent: usize,
    above: Slot,
    second: Slot,
) -> Mem<Nodes>
    requires number { number < length nodes }
    requires parent { parent < length nodes }
    ensures ok { IfOk result (λ s.
        s ≡ slice_set (slice_set nodes number first) parent above ++ second ∷ []) }
    ensures err { OnlyMemory result }
{
    let nodes = nodes.with_slot(number, first)?;
    let nodes = nodes.with_slot(parent, above)?;
    nodes.with_last(second)
}

/// Two children, as nodes of a level.
fn slots_of(alloc: Global, level: usize, first: Child, second: Child) -> Mem<(Slot, Slot)>
    ensures first { IfOk result (λ s. s.0 ≡ seen level first) }
    ensures second { IfOk result (λ s. s.1 ≡ seen level second) }
    ensures err { OnlyMemory result }
{
    let first = Slot::new(alloc, level, first)?;
    let second = Slot::new(alloc, level, second)?;
    Ok((first, second))
}

/// References to two nodes, at their numbers.
fn references_to(
    first: &Slot,
    low: usize,
    second: &Slot,
    high: usize,
) -> Mem<(Reference<usize>, Reference<usize>)>
    ensures lower { IfOk result (λ r. r.0 ≡ record { rect = first.now.rect; child = low }) }
    ensures upper { IfOk result (λ r. r.1 ≡ record { rect = second.now.rect; child = high }) }
    ensures areas { IfOk result (λ r. IsArea r.0.rect × IsArea r.1.rect) }
    ensures err { OnlyMemory result }
{
    let lower = Reference {
        rect: first.child().rect().copy()?,
        child: low,
    };
    let upper = Reference {
        rect: second.child().rect().copy()?,
        child: high,
    };
    Ok((lower, upper))
}

/// The parent of a node, with references to two halves in the place of the one to the node. Its
/// clause speaks of the nodes with all three in their places: the parent, the first half at the
/// node's number, the second after the last.
fn parent_of_halves(
    alloc: Global,
    nodes: &Nodes,
    parent: usize,
    number: usize,
    first: &Slot,
    second: &Slot,
) -> Mem<Slot>
    requires tree { IsTree nodes.now }
    requires parent { IsParent nodes.now parent number }
    requires split { (n : TreeNode) → IsAt nodes.now number n
        → AreSplit nodes.now n first.now second.now }
    ensures ok { IfOk result (λ above.
        HasHalves nodes.now parent number first.now second.now
        (slice_set (slice_set nodes.now number first.now) parent above ++ second.now ∷ [])) }
    ensures err { OnlyMemory result }
{
    let slot = nodes.at(number);
    let above = nodes.at(parent);
    let (lower, upper) = references_to(first, number, second, nodes.len())?;
    let node = above
        .index()
        .with_references(slot.child().rect(), lower, upper)?;
    Slot::new(alloc, above.level(), Child::Index(node))
}

/// The nodes with two halves in the place of one: the first has its number, the second a new one,
/// and both stand below its parent.
pub(crate) fn with_halves(
    alloc: Global,
    nodes: Nodes,
    parent: usize,
    number: usize,
    first: Child,
    second: Child,
) -> Mem<Nodes>
    requires tree { IsTree nodes }
    requires parent { IsParent nodes parent number }
    requires split { (n : TreeNode) → IsAt nodes number n
        → AreSplit nodes n (seen n.level first) (seen n.level second) }
    ensures tree { IfOk result IsTree }
    ensures halved { (n : TreeNode) → IsAt nodes number n → IfOk result (λ s.
        Halved nodes s parent number (seen n.level first) (seen n.level second)) }
    ensures holds { (m : List Change) (n : TreeNode) → HoldsMap nodes m → IsAt nodes number n
        → HoldCuts m (seen n.level first) (seen n.level second) → IfOk result (λ s. HoldsMap s m) }
    ensures history { packed_of first ≡ None → packed_of second ≡ None
        → IfOk result (KeepsHistory nodes) }
    ensures err { OnlyMemory result }
{
    let level = nodes.at(number).level();
    let (low, high) = slots_of(alloc, level, first, second)?;
    let above = parent_of_halves(alloc, &nodes, parent, number, &low, &high)?;
    place_halves(nodes, number, low, parent, above, high)
}
