//! What a worker is asked for, and what it has packed.
ghost use Rattle.std.specs.Prelude.{◌≡◌, None};
ghost use Rattle.blocks.specs.Block.{block_of};
ghost use Rattle.sessions.specs.treenodes.Node.{data_node};
ghost use Rattle.sessions.specs.treenodes.Backlog.{IsWaiting};

use crate::name::RoundName;
use keyrange::Rect;
use sessions::{Job, PackedNode, pack_job};
use std::alloc::Global;
use std::marker::{Model, PhantomData};
use values::Mem;

/// A node that a worker is to pack. Its type keeps that the round's view shows it unpacked.
#[derive(Drop)]
pub(crate) struct Task<N: RoundName> {
    job: Job,
    of: PhantomData<N>,
}

impl<N: RoundName> Model for Task<N> {
    ghost use Rattle.std.specs.Prelude.{None};
    ghost use Rattle.datanode.specs.Node.{Node};
    ghost use Rattle.sessions.specs.treenodes.Node.{data_node};
    ghost use Rattle.sessions.specs.treenodes.Backlog.{IsWaiting};

    ghost Value = { Node };

    ghost view = { λ t. t.job };

    ghost invariant = { λ t. IsWaiting N.shown.nodes None (data_node t.job) };
}

/// A node that was packed. Its type keeps that the round's view shows it unpacked, and that the
/// block is its block.
#[derive(Drop)]
pub(crate) struct Done<N: RoundName> {
    packed: PackedNode,
    of: PhantomData<N>,
}

impl<N: RoundName> Model for Done<N> {
    ghost use Rattle.std.specs.Prelude.{◌≡◌, None};
    ghost use Rattle.blocks.specs.Block.{block_of};
    ghost use Rattle.blocks.specs.PackedNode.{Packed};
    ghost use Rattle.sessions.specs.treenodes.Node.{data_node};
    ghost use Rattle.sessions.specs.treenodes.Backlog.{IsWaiting};

    ghost Value = { Packed };

    ghost view = { λ d. d.packed };

    ghost invariant = { λ d. IsWaiting N.shown.nodes None (data_node d.packed.node)
        × (d.packed.bytes ≡ block_of d.packed.node) };
}

impl<N: RoundName> Task<N> {
    /// Makes the task of packing a node that the round's view shows unpacked.
    pub(crate) fn new(job: Job) -> Task<N>
        requires { IsWaiting N.shown.nodes None (data_node job) }
        ensures { result ≡ job }
    {
        Task {
            job,
            of: PhantomData,
        }
    }

    /// Packs the node.
    pub(crate) fn pack(self, alloc: Global) -> Mem<Done<N>> {
        let Task { job, .. } = self;
        let packed = pack_job(alloc, job)?;
        Ok(Done {
            packed,
            of: PhantomData,
        })
    }
}

impl<N: RoundName> Done<N> {
    /// Returns the rectangle of the node.
    pub(crate) fn rect(&self) -> &Rect
        ensures { result.now ≡ self.now.node.rect }
    {
        self.packed.rect()
    }

    /// Returns the node and its block.
    pub(crate) fn into_packed(self) -> PackedNode
        ensures packed { result ≡ self }
        ensures unpacked { IsWaiting N.shown.nodes None (data_node result.node) }
        ensures block { result.bytes ≡ block_of result.node }
    {
        let Done { packed, .. } = self;
        packed
    }
}
