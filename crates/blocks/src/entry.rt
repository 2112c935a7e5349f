//! A block that was asked for, and its node once it was asked for again.
ghost use Rattle.std.specs.Prelude.{◌≡◌, ◌↔◌, IsTrue, IfOk, IfSome, option_copied};
ghost use Rattle.values.specs.Memory.{OnlyMemory};

use crate::packed_node::Block;
use datanode::DataNode;
use std::alloc::Global;
use std::marker::Model;
use values::Mem;

/// A block, and the node that it unpacks to, or none as long as the block was not unpacked.
#[derive(Drop)]
pub struct Entry {
    block: Block,
    node: Option<DataNode>,
}

impl Model for Entry {
    ghost use Rattle.std.specs.Prelude.{◌≡◌, IfSome};
    ghost use Rattle.blocks.specs.PackedNode.{Packed};

    ghost Value = { Packed };

    ghost view = { λ e. e.block };

    ghost invariant = { λ e. IfSome e.node (λ node. node ≡ e.block.node) };
}

impl Entry {
    /// Makes the entry of a block that is not unpacked. It shares the block's bytes.
    pub(crate) fn new(block: &Block) -> Mem<Entry>
        ensures ok { IfOk result (λ e. e ≡ block.now) }
        ensures err { OnlyMemory result }
    {
        let block = block.copy()?;
        Ok(Entry { block, node: None })
    }

    /// Unpacks a block, and makes its entry. It shares the block's bytes.
    pub(crate) fn unpack(alloc: Global, block: &Block) -> Mem<Entry>
        ensures ok { IfOk result (λ e. e ≡ block.now) }
        ensures err { OnlyMemory result }
    {
        let node = Some(block.unpack(alloc)?);
        let block = block.copy()?;
        Ok(Entry { block, node })
    }

    /// Tells whether the entry is of this very block: the bytes are equal.
    pub(crate) fn is_of(&self, block: &Block) -> bool
        ensures { IsTrue result ↔ (self.now ≡ block.now) }
    {
        self.block.is_same(block)
    }

    /// Returns the block's node, if it was unpacked.
    pub(crate) fn node(&self) -> Option<&DataNode>
        ensures { IfSome (option_copied result) (λ node. node ≡ self.now.node) }
    {
        self.node.as_ref()
    }
}
