//! Which nodes of history are to be packed.
ghost use Rattle.std.specs.Prelude.{◌≡◌, ℕ, IsSome, MatchOption};
ghost use Rattle.datanode.specs.Node.{Node};
ghost use Rattle.treenodes.specs.Node.{IsAt, data_node};
ghost use Rattle.treenodes.specs.Tree.{IsTree};
ghost use Rattle.tsbtree.specs.Packing.{IsHistorical, IsHistoricalAt};

use crate::same::Same;
use datanode::DataNode;
use keyrange::Rect;
use treenodes::{Nodes, leaf_at};

/// The number of the unpacked data node of history of a rectangle, where there is one.
pub(crate) fn number_of(nodes: &Nodes, rect: &Rect) -> Option<usize>
    requires { IsTree nodes.now }
    ensures { MatchOption result
        ((n : Node) → IsHistorical nodes.now rect.now n → ⊥)
        (λ number. IsHistoricalAt nodes.now rect.now number) }
{
    // Who reads the time knows that it starts at instant 1 or later.
    let start = rect.time().from;
    let (number, _visits) = leaf_at(nodes, &rect.keys().lo, start);
    let slot = nodes.at(number);
    if slot.is_unpacked() && slot.child().rect().is_same(rect) {
        Some(number)
    } else {
        None
    }
}

/// The number at which a data node of history is unpacked, with its rectangle and its events, if it
/// does.
pub(crate) fn number_of_node(nodes: &Nodes, node: &DataNode) -> Option<usize>
    requires tree { IsTree nodes.now }
    requires past { IsSome node.now.rect.time.to }
    ensures { MatchOption result
        ((number : ℕ) → IsAt nodes.now number (data_node node.now) → ⊥)
        (λ number. IsAt nodes.now number (data_node node.now)) }
{
    // Who reads the time knows that the ranges are not empty.
    let _time = node.rect().time();
    let number = match number_of(nodes, node.rect()) {
        None => return None,
        Some(number) => number,
    };
    if nodes.at(number).data_node().is_same(node) {
        Some(number)
    } else {
        None
    }
}
