//! A block in the place of its node.
ghost use Rattle.std.specs.Prelude.{◌≡◌, ℕ, List, IfOk, slice_set};
ghost use Rattle.values.specs.Event.{Event as Change};
ghost use Rattle.values.specs.Memory.{OnlyMemory};
ghost use Rattle.treenodes.specs.Node.{IsAt, data_node, packed_node};
ghost use Rattle.treenodes.specs.Tree.{IsTree};
ghost use Rattle.treenodes.specs.Map.{HoldsMap, changes};
ghost use Rattle.treenodes.specs.Sound.{IsSound};

use crate::node::{Child, Slot};
use crate::nodes::Nodes;
use blocks::Block;
use std::alloc::Global;
use values::Mem;

/// Puts a block in the place of its node. The nodes hold what they held.
pub fn with_block(alloc: Global, nodes: Nodes, number: usize, block: Block) -> Mem<Nodes>
    requires node { IsAt nodes number (data_node block.node) }
    ensures ok { IfOk result (λ s. s ≡ slice_set nodes number (packed_node block)) }
    ensures tree { IsTree nodes → IfOk result IsTree }
    ensures holds { (m : List Change) → HoldsMap nodes m → IfOk result (λ s. HoldsMap s m) }
    ensures changes { IfOk result (λ s. changes s ≡ changes nodes) }
    ensures sound { (last : ℕ) → IsSound nodes last → IfOk result (λ s. IsSound s last) }
    ensures err { OnlyMemory result }
{
    let slot = Slot::new(alloc, 0, Child::Packed(block))?;
    nodes.with_slot(number, slot)
}
