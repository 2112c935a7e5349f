//! A data node of history with its block.
ghost use Rattle.std.specs.Prelude.{◌≡◌, IfOk};
ghost use Rattle.values.specs.Memory.{OnlyMemory};
ghost use Rattle.keyrange.specs.Rect.{IsArea};
ghost use Rattle.blocks.specs.Block.{block_of};

use crate::job::Job;
use blocks::Block;
use datanode::DataNode;
use keyrange::Rect;
use std::alloc::Global;
use std::marker::Model;
use values::Mem;

/// A data node of history and its block. Its type keeps that the block is the node's.
#[derive(Drop)]
pub struct PackedNode {
    node: DataNode,
    block: Block,
}

impl Model for PackedNode {
    ghost use Rattle.std.specs.Prelude.{◌≡◌};
    ghost use Rattle.blocks.specs.PackedNode.{Packed};

    ghost Value = { Packed };

    ghost view = { λ p. p.block };

    ghost invariant = { λ p. p.block.node ≡ p.node };
}

impl PackedNode {
    /// Returns the rectangle of the node.
    pub fn rect(&self) -> &Rect
        ensures rect { result.now ≡ self.now.node.rect }
        ensures area { IsArea result.now }
    {
        self.block.rect()
    }

    /// Returns the node.
    pub fn node(&self) -> &DataNode
        ensures { result.now ≡ self.now.node }
    {
        &self.node
    }

    /// Returns the block.
    pub fn block(&self) -> &Block
        ensures { result.now ≡ self.now }
    {
        &self.block
    }

    /// Copies the node and its block. No event is copied, and no byte of the block.
    pub fn copy(&self) -> Mem<PackedNode>
        ensures ok { IfOk result (λ p. p ≡ self.now) }
        ensures err { OnlyMemory result }
    {
        let node = self.node.copy()?;
        let block = self.block.copy()?;
        Ok(PackedNode { node, block })
    }

    /// The node and its block.
    pub(crate) fn into_parts(self) -> (DataNode, Block)
        ensures block { result.1 ≡ self }
        ensures node { result.1.node ≡ result.0 }
    {
        let PackedNode { node, block } = self;
        (node, block)
    }
}

/// Packs the node of a job.
pub fn pack_job(alloc: Global, job: Job) -> Mem<PackedNode>
    ensures ok { IfOk result (λ p. p ≡ record { node = job; bytes = block_of job }) }
    ensures err { OnlyMemory result }
{
    let node = job.into_node();
    let block = Block::pack(alloc, &node)?;
    Ok(PackedNode { node, block })
}
