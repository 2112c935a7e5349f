//! A search for data nodes that goes on where the one before ended.
ghost use Rattle.std.specs.Prelude.{List, IsTrue, ◌≤◌, ◌≡◌};
ghost use Rattle.values.specs.Event.{Event as Change};
ghost use Rattle.keyrange.specs.Rect.{IsArea, has_point};
ghost use Rattle.datanode.specs.Cut.{cut};
ghost use Rattle.treenodes.specs.Tree.{IsTree};
ghost use Rattle.treenodes.specs.Map.{HoldsMap};
ghost use Rattle.treenodes.specs.Lookup.{IsLeafAt};
ghost use Rattle.treewalk.specs.Leaf.{node_in};

use crate::leaf::{is_leaf_at, numbered_leaf};
use indexnode::Reference;
use treenodes::{Child, Nodes};
use values::{Instant, KeyBytes};

/// The references behind that of the data node which was found last, in the node above it. The
/// first of them is often the key's next one in time, and it is tried before the way from the root
/// is gone. Whatever they are, the data node at a point is found.
#[derive(Drop)]
pub(crate) struct Cursor<'a> {
    rest: &'a [Reference<usize>],
}

impl<'a> Cursor<'a> {
    /// Nothing has been found yet.
    pub(crate) fn new() -> Cursor<'a> {
        Cursor { rest: &[] }
    }

    /// The data node at a point.
    pub(crate) fn leaf(&mut self, nodes: &'a Nodes, key: &KeyBytes, instant: Instant) -> &'a Child
        requires tree { IsTree nodes.now }
        requires instant { 1 ≤ instant }
        ensures area { IsArea (node_in result.now).rect }
        ensures point { IsTrue (has_point (node_in result.now).rect key.now instant) }
        ensures cut { (m : List Change) → HoldsMap nodes.now m
            → (node_in result.now).events ≡ cut (node_in result.now).rect m }
    {
        let number = self.number(nodes, key, instant);
        numbered_leaf(nodes, number)
    }

    /// The number of the data node at a point: of the next reference, where it has the point.
    fn number(&mut self, nodes: &'a Nodes, key: &KeyBytes, instant: Instant) -> usize
        requires tree { IsTree nodes.now }
        requires instant { 1 ≤ instant }
        ensures { IsLeafAt nodes.now key.now instant result }
    {
        if let [next, rest @ ..] = self.rest
            && is_leaf_at(nodes, next.child, key, instant)
        {
            self.rest = rest;
            return next.child;
        }
        self.descend(nodes, key, instant)
    }

    /// The number of the data node at a point, by the way from the root.
    fn descend(&mut self, nodes: &'a Nodes, key: &KeyBytes, instant: Instant) -> usize
        requires tree { IsTree nodes.now }
        requires instant { 1 ≤ instant }
        ensures { IsLeafAt nodes.now key.now instant result }
    {
        let mut number = 0;
        while let Child::Index(node) = nodes.at(number).child() {
            number = node.find(key, instant).child;
            self.rest = behind(node.references(), number);
        }
        number
    }
}

/// The references behind the one that names a child.
fn behind(references: &[Reference<usize>], child: usize) -> &[Reference<usize>] {
    let mut rest = references;
    while let [first, others @ ..] = rest {
        rest = others;
        if first.child == child {
            return rest;
        }
    }
    rest
}
