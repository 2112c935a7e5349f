//! The blocks of a node, and the node of a block.
ghost use Rattle.std.specs.Prelude.{◌≡◌, ◌↔◌, ◌≤◌, ◌++◌, Some, IsTrue, IfOk, IfSome, IfNone, OnOk, All, length};
ghost use Rattle.values.specs.Memory.{OnlyMemory};
ghost use Rattle.datanode.specs.Node.{Node};
ghost use Rattle.blocks.specs.Event.{event_fields, IsKept};
ghost use Rattle.blocks.specs.Block.{block_of, HasBlock, IsBlockOf};
ghost use Rattle.blocks.specs.Gather.{IsCountedNode, NoCountedNode};

use crate::event::push_event;
use crate::gather::{gather, node_in};
use crate::head::{head_from, rect_of};
use crate::rect::push_rect;
use crate::start::{greatest_width, is_right, push_start};
use bytes::Bytes;
use datanode::{CAPACITY, DataNode};
use keyrange::Rect;
use std::alloc::Global;
use values::{Mem, SharedEvent};

/// The room in which a block's bytes are written: most blocks have no more bytes, so it need not grow.
const ROOM: usize = 4096;

fn are_instants(events: &[SharedEvent]) -> bool
    ensures { IsTrue result ↔ All (λ e. 1 ≤ e.at) events.now }
{
    events.iter().all(|event| 1 <= event.event().at())
}

/// Tells whether a node has blocks: it is one of history, with events within the capacity of a
/// node and none of them before instant 1.
pub fn has_block(node: &DataNode) -> bool
    ensures { IsTrue result ↔ HasBlock node.now }
{
    node.rect().time().to.is_some() && node.len() <= CAPACITY && are_instants(node.events())
}

fn push_events(alloc: Global, bytes: &mut Vec<u8>, events: &[SharedEvent]) -> Mem<()>
    ensures ok { OnOk result (bytes.new.items ≡ bytes.old.items ++ event_fields events.now) }
    ensures kept { OnOk result (All IsKept events.now) }
    ensures err { OnlyMemory result }
{
    for event in events {
        push_event(alloc, bytes, event.event())?;
    }
    Ok(())
}

/// Packs a node of history: its bytes in form 2. They have no more room than they need, since they
/// are kept as long as the tree.
pub fn pack(alloc: Global, node: &DataNode) -> Mem<Bytes>
    requires { HasBlock node.now }
    ensures bytes { IfOk result (λ bytes. bytes ≡ block_of node.now) }
    ensures block { IfOk result (λ bytes. IsBlockOf bytes node.now) }
    ensures err { OnlyMemory result }
{
    let mut bytes = Vec::with_capacity(alloc, ROOM)?;
    push_start(&mut bytes, greatest_width(node.events()))?;
    push_rect(&mut bytes, node.rect())?;
    bytes.push(node.len() as u8)?;
    push_events(alloc, &mut bytes, node.events())?;
    bytes.shrink_to_fit();
    Ok(Bytes::from_vec(bytes)?)
}

/// The node of a rectangle and so many events, with no bytes after them.
fn counted_from(alloc: Global, rect: Rect, n: u8, bytes: &[u8]) -> Mem<Option<DataNode>>
    ensures some { IfOk result (λ found. IfSome found (λ m.
        IsCountedNode rect n bytes.now m)) }
    ensures none { IfOk result (λ found. IfNone found (NoCountedNode rect n bytes.now)) }
    ensures err { OnlyMemory result }
{
    if n as usize > CAPACITY {
        return Ok(None);
    }
    match gather(alloc, &rect, n, bytes)? {
        None => Ok(None),
        Some((node, [])) => node_in(&node, rect),
        Some((_node, _rest)) => Ok(None),
    }
}

/// Unpacks the node that bytes are the block of, in form 2 or in form 1; none where they are no
/// node's. Each block is one node's alone.
pub fn unpack(alloc: Global, bytes: &[u8]) -> Mem<Option<DataNode>>
    ensures found { IfOk result (λ found. IfSome found (IsBlockOf bytes.now)) }
    ensures of_block { IfOk result (λ found. (n : Node) →
        IsBlockOf bytes.now n → found ≡ Some n) }
    ensures err { OnlyMemory result }
{
    let Some((head, events)) = head_from(bytes) else {
        return Ok(None);
    };
    let Some(rect) = rect_of(alloc, &head.body)? else {
        return Ok(None);
    };
    let Some(node) = counted_from(alloc, rect, head.body.count, events)? else {
        return Ok(None);
    };
    if is_right(head.stated, node.events()) {
        Ok(Some(node))
    } else {
        Ok(None)
    }
}
