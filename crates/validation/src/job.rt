//! Which data node of history is packed next.
ghost use Rattle.std.specs.Prelude.{◌≡◌, IfOk, MatchOption, option_copied};
ghost use Rattle.values.specs.Memory.{OnlyMemory};
ghost use Rattle.keyrange.specs.Rect.{IsArea};
ghost use Rattle.blocks.specs.Block.{HasBlock};
ghost use Rattle.staging.specs.treenodes.Node.{TreeNode, data_node};
ghost use Rattle.staging.specs.treenodes.Backlog.{IsFirstWaiting, IsWaiting};
ghost use Rattle.staging.specs.treenodes.Tree.{IsTree};

use datanode::DataNode;
use keyrange::Rect;
use staging::View;
use std::marker::Model;
use values::Mem;

/// A data node of history that is to be packed, as a view shows it. Its type keeps that it has a
/// block.
#[derive(Drop)]
pub struct Job {
    node: DataNode,
}

impl Model for Job {
    ghost use Rattle.datanode.specs.Node.{Node};
    ghost use Rattle.blocks.specs.Block.{HasBlock};

    ghost Value = { Node };

    ghost view = { λ j. j.node };

    ghost invariant = { λ j. HasBlock j.node };
}

impl Job {
    /// Returns the rectangle of the node.
    pub fn rect(&self) -> &Rect
        ensures rect { result.now ≡ self.now.rect }
        ensures area { IsArea result.now }
    {
        self.node.rect()
    }

    /// The node.
    pub(crate) fn into_node(self) -> DataNode
        ensures node { result ≡ self }
        ensures block { HasBlock result }
    {
        let Job { node } = self;
        node
    }
}

/// Returns the first data node of history that a view shows unpacked: by the start of its time,
/// then by its lower key. After a rectangle it is the first that comes behind that one. None where
/// there is no such node.
pub fn find_job(view: &View, after: Option<&Rect>) -> Mem<Option<Job>>
    ensures ok { IfOk result (λ found. MatchOption found
        ((p : TreeNode) → IsWaiting view.now.nodes (option_copied after.entry) p → ⊥)
        (λ job. IsFirstWaiting view.now.nodes (option_copied after.entry) (data_node job))) }
    ensures err { OnlyMemory result }
    ensures tree { IsTree view.now.nodes }
{
    match view.first_unpacked(after) {
        None => Ok(None),
        Some(node) => {
            let node = node.copy()?;
            Ok(Some(Job { node }))
        }
    }
}
