//! The way from the root to a data node.
ghost use Rattle.std.specs.Prelude.{◌≡◌, ◌≤◌, ◌+◌, IfOk, None};
ghost use Rattle.values.specs.Memory.{OnlyMemory};
ghost use Rattle.treenodes.specs.Node.{TreeNode, IsAt, data_node};
ghost use Rattle.treenodes.specs.Tree.{IsTree};
ghost use Rattle.treenodes.specs.Lookup.{IsData, IsLeafAt, IsWayTo};

use crate::node::Child;
use crate::nodes::Nodes;
use datanode::DataNode;
use std::alloc::Global;
use values::{Instant, KeyBytes, Mem};

/// Returns the number of the data node at a point, and how many nodes the way to it visits, one a
/// level.
pub fn leaf_at(nodes: &Nodes, key: &KeyBytes, instant: Instant) -> (usize, usize)
    requires tree { IsTree nodes.now }
    requires instant { 1 ≤ instant }
    ensures leaf { IsLeafAt nodes.now key.now instant result.0 }
    ensures visits { (root : TreeNode) → IsAt nodes.now 0 root → result.1 ≡ root.level + 1 }
{
    // Who asks how many nodes there are knows that their count fits.
    let _count = nodes.len();
    let mut number = 0;
    let mut visits = 1;
    while let Child::Index(node) = nodes.at(number).child() {
        number = node.find(key, instant).child;
        visits += 1;
    }
    (number, visits)
}

/// Lists the numbers of the nodes from the root to the data node at a point.
pub fn way(alloc: Global, nodes: &Nodes, key: &KeyBytes, instant: Instant) -> Mem<Vec<usize>>
    requires tree { IsTree nodes.now }
    requires instant { 1 ≤ instant }
    ensures way { IfOk result (λ v. IsWayTo nodes.now key.now instant v.items) }
    ensures err { OnlyMemory result }
{
    // Who asks how many nodes there are knows that their count fits.
    let _count = nodes.len();
    let mut way = Vec::new(alloc);
    way.push(0)?;
    let mut number = 0;
    while let Child::Index(node) = nodes.at(number).child() {
        number = node.find(key, instant).child;
        way.push(number)?;
    }
    Ok(way)
}

/// Returns the current data node of a number.
pub fn current_at(nodes: &Nodes, number: usize) -> &DataNode
    requires data { IsData nodes.now number }
    requires current { (n : TreeNode) → IsAt nodes.now number n → n.rect.time.to ≡ None }
    ensures { IsAt nodes.now number (data_node result.now) }
{
    nodes.at(number).current()
}
