//! A data node that is copied before it is changed.
ghost use Rattle.std.specs.Prelude.{◌≡◌, ◌≤◌, IfOk, IsTrue, length};
ghost use Rattle.values.specs.Memory.{OnlyMemory};
ghost use Rattle.datanode.specs.Node.{Node};
ghost use Rattle.treenodes.specs.Node.{IsAt, data_node};
ghost use Rattle.treenodes.specs.Tree.{IsTree};
ghost use Rattle.treenodes.specs.Map.{HoldsMap, changes};
ghost use Rattle.treenodes.specs.LeafCopy.{IsCopyIn, IsCopyOfPast, IsLike};

use crate::lookup::leaf_at;
use crate::node::{Child, Slot};
use crate::nodes::Nodes;
use datanode::DataNode;
use std::alloc::Global;
use std::marker::Model;
use values::{Instant, KeyBytes, MAX_INSTANT, Mem};

/// A copy of a current data node, and the node's number. Copying takes a count for each event, so a
/// commit has its node copied before it takes the lock. Contracts see the number and the node.
#[derive(Drop)]
pub struct LeafCopy {
    number: usize,
    node: DataNode,
}

impl Model for LeafCopy {
    ghost use Rattle.treenodes.specs.LeafCopy.{NumberedNode};

    ghost Value = { NumberedNode };

    ghost view = { λ c. record { number = c.number; node = c.node } };
}

impl LeafCopy {
    /// Copies the current data node of a key. `Memory` where it runs out.
    pub fn new(nodes: &Nodes, key: &KeyBytes) -> Mem<LeafCopy>
        requires { IsTree nodes.now }
        ensures ok { IfOk result (IsCopyIn nodes.now) }
        ensures err { OnlyMemory result }
    {
        let (number, _visits) = leaf_at(nodes, key, MAX_INSTANT);
        let node = nodes.at(number).current().copy()?;
        Ok(LeafCopy { number, node })
    }

    /// Tells whether it may take the place of its node, which was copied at an instant: if no event has
    /// come to that since, the two are equal.
    pub fn fits(&self, nodes: &Nodes, instant: Instant) -> bool
        requires holds { HoldsMap nodes.now (changes nodes.now) }
        requires past { IsCopyOfPast (changes nodes.now) instant self.now }
        ensures { IsTrue result → IsCopyIn nodes.now self.now }
    {
        self.is_like(nodes, instant)
    }

    /// Tells whether the node of its number has the same rectangle and as many events, and began at an
    /// instant or before it.
    fn is_like(&self, nodes: &Nodes, instant: Instant) -> bool
        ensures { IsTrue result → IsLike nodes.now instant self.now }
    {
        match nodes.get(self.number) {
            Some(slot) if slot.level() == 0 => match slot.child() {
                Child::Data(node) => {
                    node.len() == self.node.len()
                        && node.rect().time().from <= instant
                        && node.rect() == self.node.rect()
                }
                Child::Packed(_) | Child::Index(_) => false,
            },
            _ => false,
        }
    }
}

/// Puts a copy in the place of its node, which is equal to it: nobody shares the copy. `Memory` where it
/// runs out.
pub fn with_copy(alloc: Global, nodes: Nodes, copy: LeafCopy) -> Mem<Nodes>
    requires { IsCopyIn nodes copy }
    ensures ok { IfOk result (λ s. s ≡ nodes) }
    ensures err { OnlyMemory result }
{
    let LeafCopy { number, node } = copy;
    let slot = Slot::new(alloc, 0, Child::Data(node))?;
    nodes.with_equal(number, slot)
}
