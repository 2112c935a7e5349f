//! Packed nodes.
ghost use Rattle.std.specs.Prelude.{◌≡◌, ◌↔◌, Some, List, length, IsTrue, IsSome, IfOk, IfSome};
ghost use Rattle.values.specs.Memory.{OnlyMemory};
ghost use Rattle.values.specs.Events.{row_until, event_since};
ghost use Rattle.values.specs.Event.{Event as Change};
ghost use Rattle.keyrange.specs.Rect.{IsArea, has_point};
ghost use Rattle.eventlist.specs.Listing.{events_in};
ghost use Rattle.datanode.specs.Node.{Node, IsCutOf};
ghost use Rattle.datanode.specs.NextChange.{event_after};
ghost use Rattle.blocks.specs.Block.{block_of, HasBlock, IsHeldNode, IsBlockOf};

use crate::block::{pack, unpack};
use crate::listing::events_in;
use crate::lookup::{at, changed_since, event_count, next_change};
use bytes::Bytes;
use datanode::DataNode;
use keyrange::{KeyRange, Rect};
use std::alloc::Global;
use std::marker::Model;
use values::{Instant, KeyBytes, Mem, Row, SharedEvent};

/// A data node of history as its block. The rectangle is kept beside the bytes, so that asking for
/// it reads none of them.
#[derive(Drop)]
pub struct Block {
    rect: Rect,
    bytes: Bytes,
}

impl Model for Block {
    ghost use Rattle.blocks.specs.PackedNode.{Packed, packed_of, IsPacked};

    ghost Value = { Packed };

    ghost view = { λ b. packed_of b.rect b.bytes };

    ghost invariant = { λ b. IsPacked (packed_of b.rect b.bytes) };
}

impl Block {
    /// Packs a node that has blocks, in form 2.
    pub fn pack(alloc: Global, node: &DataNode) -> Mem<Block>
        requires { HasBlock node.now }
        ensures ok { IfOk result (λ b. b
            ≡ record { node = node.now; bytes = block_of node.now }) }
        ensures err { OnlyMemory result }
    {
        let bytes = pack(alloc, node)?;
        block_with(node, bytes)
    }

    /// Takes bytes as a block of either form, without copying them; none where they are no node's.
    pub fn from_bytes(alloc: Global, bytes: Bytes) -> Mem<Option<Block>>
        ensures bytes { IfOk result (λ found. IfSome found (λ b. b.bytes ≡ bytes)) }
        ensures block { IfOk result (λ found. IfSome found (λ b. IsBlockOf bytes b.node)) }
        ensures of_block { IfOk result (λ found. (n : Node) →
            IsBlockOf bytes n → found ≡ Some (record { node = n; bytes = bytes })) }
        ensures err { OnlyMemory result }
    {
        match unpack(alloc, bytes.as_slice())? {
            None => Ok(None),
            Some(node) => Ok(Some(block_with(&node, bytes)?)),
        }
    }

    /// Returns the rectangle of the node.
    pub fn rect(&self) -> &Rect
        ensures rect { result.now ≡ self.now.node.rect }
        ensures area { IsArea result.now }
        ensures past { IsSome self.now.node.rect.time.to }
        ensures held { IsHeldNode self.now.node }
    {
        &self.rect
    }

    /// Returns the bytes of the block.
    pub fn bytes(&self) -> &Bytes
        ensures bytes { result.now ≡ self.now.bytes }
        ensures block { IsBlockOf self.now.bytes self.now.node }
    {
        &self.bytes
    }

    /// Counts the events of the node.
    pub fn len(&self) -> usize
        ensures { result ≡ length self.now.node.events }
    {
        event_count(self.bytes.as_slice())
    }

    /// Unpacks the node.
    pub fn unpack(&self, alloc: Global) -> Mem<DataNode>
        ensures ok { IfOk result (λ n. n ≡ self.now.node) }
        ensures err { OnlyMemory result }
    {
        match unpack(alloc, self.bytes.as_slice())? {
            Some(node) => Ok(node),
            None => unreachable!(),
        }
    }

    /// Finds a key's row at an instant, of the node and of each map that the node is the cut of.
    /// One row is made at most.
    pub fn at(&self, alloc: Global, key: &KeyBytes, instant: Instant) -> Mem<Option<Row>>
        ensures ok { IfOk result (λ row. row
            ≡ row_until self.now.node.events key.now instant) }
        ensures of_map { IfOk result (λ row. (m : List Change) →
            IsCutOf self.now.node m → IsTrue (has_point self.now.node.rect key.now instant)
            → row ≡ row_until m key.now instant) }
        ensures err { OnlyMemory result }
    {
        at(alloc, self.bytes.as_slice(), key, instant)
    }

    /// Finds the instant of a key's last event above `start`, if there is one. It takes no memory.
    pub fn changed_since(&self, key: &KeyBytes, start: Instant) -> Option<Instant>
        ensures { result ≡ event_since self.now.node.events start key.now }
    {
        changed_since(self.bytes.as_slice(), key, start)
    }

    /// Finds the instant of a key's first event above `after`, if there is one. It takes no memory.
    pub fn next_change(&self, key: &KeyBytes, after: Instant) -> Option<Instant>
        ensures { result ≡ event_after self.now.node.events after key.now }
    {
        next_change(self.bytes.as_slice(), key, after)
    }

    /// Lists the events of a range of keys, from an instant to another and with it, carried ones
    /// too. No other event is made.
    pub fn events_in(
        &self,
        alloc: Global,
        range: &KeyRange,
        from: Instant,
        to: Instant,
    ) -> Mem<Vec<SharedEvent>>
        ensures ok { IfOk result (λ v.
            v.items ≡ events_in self.now.node.events range.now from to) }
        ensures err { OnlyMemory result }
    {
        events_in(alloc, self.bytes.as_slice(), range, from, to)
    }

    /// Copies the block, and shares its bytes.
    pub fn copy(&self) -> Mem<Block>
        ensures ok { IfOk result (λ b. b ≡ self.now) }
        ensures err { OnlyMemory result }
    {
        Ok(Block {
            rect: self.rect.copy()?,
            bytes: self.bytes.clone()?,
        })
    }

    /// Tells whether the bytes are equal, and so the nodes. Equal nodes may have blocks of two
    /// forms, whose bytes differ.
    pub fn is_same(&self, other: &Block) -> bool
        ensures { IsTrue result ↔ (self.now ≡ other.now) }
    {
        self.bytes.as_slice() == other.bytes.as_slice()
    }
}

/// The block of these bytes, which are a node's.
fn block_with(node: &DataNode, bytes: Bytes) -> Mem<Block>
    requires { IsBlockOf bytes node.now }
    ensures ok { IfOk result (λ b. b ≡ record { node = node.now; bytes = bytes }) }
    ensures err { OnlyMemory result }
{
    let rect = node.rect().copy()?;
    Ok(Block { rect, bytes })
}
