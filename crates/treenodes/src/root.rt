//! The root of a tree.
ghost use Rattle.std.specs.Prelude.{◌≡◌, ◌++◌, ◌∷◌, [], ◌+◌, List, IfOk, None, length, slice_set};
ghost use Rattle.values.specs.Event.{Event as Change};
ghost use Rattle.values.specs.Memory.{OnlyMemory};
ghost use Rattle.treenodes.specs.Node.{TreeNode, IsAt};
ghost use Rattle.treenodes.specs.Tree.{IsTree, whole};
ghost use Rattle.treenodes.specs.Map.{HoldsMap, changes};
ghost use Rattle.treenodes.specs.Sound.{IsSound};
ghost use Rattle.treenodes.specs.Lookup.{IsParent};
ghost use Rattle.treenodes.specs.History.{KeepsHistory};
ghost use Rattle.treenodes.specs.Root.{empty_leaf, root_over};

use crate::node::{Child, Slot};
use crate::nodes::Nodes;
use datanode::DataNode;
use indexnode::{IndexNode, Reference, single};
use keyrange::{KeyRange, Rect, TimeRange};
use slots::Share;
use std::alloc::Global;
use values::{KeyBytes, Mem};

/// Returns the rectangle of all keys, and of all instants from 1 on.
pub fn whole(alloc: Global) -> Rect
    ensures { result ≡ whole }
{
    let keys = KeyRange {
        lo: KeyBytes::least(alloc),
        hi: None,
    };
    match Rect::new(keys, TimeRange { from: 1, to: None }) {
        Some(rect) => rect,
        None => unreachable!(),
    }
}

/// Makes a tree of one data node, without events. `Memory` where it runs out.
pub fn leaf_alone(alloc: Global) -> Mem<Nodes>
    ensures alone { IfOk result (λ s. s ≡ empty_leaf ∷ []) }
    ensures sound { IfOk result (λ s. IsSound s 0) }
    ensures empty { IfOk result (λ s. changes s ≡ []) }
    ensures err { OnlyMemory result }
{
    let node = DataNode::new(alloc, whole(alloc))?;
    let root = Slot::new(alloc, 0, Child::Data(node))?;
    Nodes::new(alloc)?.with_last(root)
}

/// Makes a node over a root, with one reference: to the root, under another number.
fn above(alloc: Global, root: &Slot, level: usize, number: usize) -> Mem<Slot>
    requires level { level ≡ root.now.level + 1 }
    requires current { root.now.rect.time.to ≡ None }
    ensures ok { IfOk result (λ s. s ≡ root_over root.now number) }
    ensures unpacked { root.now.packed ≡ None }
    ensures err { OnlyMemory result }
{
    let rect = root.current_child().rect();
    let whole = Reference {
        rect: rect.copy()?,
        child: number,
    };
    let references = single(alloc, whole)?;
    let node = IndexNode::new(alloc, rect.copy()?, references)?;
    Slot::new(alloc, level, Child::Index(node))
}

/// Puts a new root over the old one, which has a new number then: the new one's only reference is
/// to it. `Memory` where it runs out.
pub fn with_new_root(alloc: Global, nodes: Nodes) -> Mem<Nodes>
    requires { IsTree nodes }
    ensures tree { IfOk result IsTree }
    ensures parent { IfOk result (λ s. IsParent s 0 (length nodes)) }
    ensures holds { (m : List Change) → HoldsMap nodes m → IfOk result (λ s. HoldsMap s m) }
    ensures raised { (root : TreeNode) → IsAt nodes 0 root → IfOk result (λ s.
        s ≡ slice_set nodes 0 (root_over root (length nodes)) ++ root ∷ []) }
    ensures history { IfOk result (KeepsHistory nodes) }
    ensures err { OnlyMemory result }
{
    let number = nodes.len();
    let root = nodes.at(0).share()?;
    let top = above(alloc, &root, root.level() + 1, number)?;
    nodes.with_slot(0, top)?.with_last(root)
}
