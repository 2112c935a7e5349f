//! Nodes and blocks that the tests share.
ghost use Rattle.std.specs.Prelude.{◌≡◌, length};

use crate::sample::{part_before, row_key};
use blocks::{Block, has_block, pack, unpack};
use bytes::Bytes;
use datanode::DataNode;
use keyrange::{KeyRange, Rect, TimeRange};
use std::alloc::Global;
use std::process::Abort;
use values::{Chars, Event, Instant, KeyBytes, Row, Value};

/// All keys from 1 to 200: key 1 has the row (1, 'Ann') from 100 on.
pub(crate) fn first_block() -> &'static [u8]
    ensures { length result.now ≡ 61 }
{
    &[
        84, 83, 66, 50, 2, 0, 0, 0, 0, 0, 0, 0, 0, 0, 0, 1, 0, 0, 0, 0, 0, 0, 0, 200, 1, 0, 9, 1,
        128, 0, 0, 0, 0, 0, 0, 1, 0, 0, 0, 0, 0, 0, 0, 100, 1, 2, 1, 0, 0, 0, 0, 0, 0, 0, 1, 2, 0,
        3, 65, 110, 110,
    ]
}

/// The same in form 1.
pub(crate) fn old_first_block() -> &'static [u8]
    ensures { length result.now ≡ 60 }
{
    &[
        84, 83, 66, 49, 0, 0, 0, 0, 0, 0, 0, 0, 0, 0, 1, 0, 0, 0, 0, 0, 0, 0, 200, 1, 0, 9, 1, 128,
        0, 0, 0, 0, 0, 0, 1, 0, 0, 0, 0, 0, 0, 0, 100, 1, 2, 1, 0, 0, 0, 0, 0, 0, 0, 1, 2, 0, 3,
        65, 110, 110,
    ]
}

/// Keys 2 to 5 from 200 to 300: key 2 has a row of 100, which is carried; key 3 a row of six values
/// of 200 and its deletion of 250; key 4 a row of 299.
pub(crate) fn carrying_block() -> &'static [u8]
    ensures { length result.now ≡ 175 }
{
    &[
        84, 83, 66, 50, 6, 0, 9, 1, 128, 0, 0, 0, 0, 0, 0, 2, 1, 0, 9, 1, 128, 0, 0, 0, 0, 0, 0, 5,
        0, 0, 0, 0, 0, 0, 0, 200, 0, 0, 0, 0, 0, 0, 1, 44, 4, 0, 9, 1, 128, 0, 0, 0, 0, 0, 0, 2, 0,
        0, 0, 0, 0, 0, 0, 100, 1, 2, 1, 0, 0, 0, 0, 0, 0, 0, 2, 2, 0, 2, 195, 169, 0, 9, 1, 128, 0,
        0, 0, 0, 0, 0, 3, 0, 0, 0, 0, 0, 0, 0, 200, 1, 6, 1, 0, 0, 0, 0, 0, 0, 0, 3, 0, 4, 3, 1,
        255, 255, 255, 255, 255, 255, 255, 255, 2, 0, 0, 0, 9, 1, 128, 0, 0, 0, 0, 0, 0, 3, 0, 0,
        0, 0, 0, 0, 0, 250, 0, 0, 9, 1, 128, 0, 0, 0, 0, 0, 0, 4, 0, 0, 0, 0, 0, 0, 1, 43, 1, 1, 1,
        0, 0, 0, 0, 0, 0, 0, 4,
    ]
}

/// The same in form 1.
pub(crate) fn old_carrying_block() -> &'static [u8]
    ensures { length result.now ≡ 174 }
{
    &[
        84, 83, 66, 49, 0, 9, 1, 128, 0, 0, 0, 0, 0, 0, 2, 1, 0, 9, 1, 128, 0, 0, 0, 0, 0, 0, 5, 0,
        0, 0, 0, 0, 0, 0, 200, 0, 0, 0, 0, 0, 0, 1, 44, 4, 0, 9, 1, 128, 0, 0, 0, 0, 0, 0, 2, 0, 0,
        0, 0, 0, 0, 0, 100, 1, 2, 1, 0, 0, 0, 0, 0, 0, 0, 2, 2, 0, 2, 195, 169, 0, 9, 1, 128, 0, 0,
        0, 0, 0, 0, 3, 0, 0, 0, 0, 0, 0, 0, 200, 1, 6, 1, 0, 0, 0, 0, 0, 0, 0, 3, 0, 4, 3, 1, 255,
        255, 255, 255, 255, 255, 255, 255, 2, 0, 0, 0, 9, 1, 128, 0, 0, 0, 0, 0, 0, 3, 0, 0, 0, 0,
        0, 0, 0, 250, 0, 0, 9, 1, 128, 0, 0, 0, 0, 0, 0, 4, 0, 0, 0, 0, 0, 0, 1, 43, 1, 1, 1, 0, 0,
        0, 0, 0, 0, 0, 4,
    ]
}

/// These blocks.
pub(crate) fn blocks() -> [&'static [u8]; 4] {
    [
        first_block(),
        old_first_block(),
        carrying_block(),
        old_carrying_block(),
    ]
}

/// The bytes of a block of form 2 in form 1, which states nothing.
pub(crate) fn in_form_1(rt: &impl Abort, alloc: Global, block: &[u8]) -> Vec<u8> {
    let mut bytes = Vec::from_slice(alloc, b"TSB1").expect(rt, "there is memory");
    for byte in block.iter().skip(5) {
        bytes.push(*byte).expect(rt, "there is memory");
    }
    bytes
}

/// The block that bytes are, if they are one.
pub(crate) fn found_block(rt: &impl Abort, alloc: Global, bytes: &[u8]) -> Option<Block> {
    let bytes = Vec::from_slice(alloc, bytes).expect(rt, "there is memory");
    let bytes = Bytes::from_vec(bytes).expect(rt, "there is memory");
    Block::from_bytes(alloc, bytes).expect(rt, "there is memory")
}

/// The block that bytes are.
pub(crate) fn block_of(rt: &impl Abort, alloc: Global, bytes: &[u8]) -> Block {
    found_block(rt, alloc, bytes).expect(rt, "the bytes are a block")
}

/// The block of form 1 of the node of a block of form 2.
pub(crate) fn old_block_of(rt: &impl Abort, alloc: Global, block: &Block) -> Block {
    let bytes = in_form_1(rt, alloc, block.bytes().as_slice());
    block_of(rt, alloc, bytes.as_slice())
}

/// The block of a node that has one.
pub(crate) fn pack_of(rt: &impl Abort, alloc: Global, node: &DataNode) -> Bytes {
    if !has_block(node) {
        panic!(rt; "the node has no block");
    }
    pack(alloc, node).expect(rt, "there is memory")
}

/// Whether the bytes are the node's block, of form 2 or of form 1.
pub(crate) fn is_block_of(rt: &impl Abort, alloc: Global, bytes: &[u8], node: &DataNode) -> bool {
    if !has_block(node) {
        return false;
    }
    let packed = pack_of(rt, alloc, node);
    let block = packed.as_slice();
    bytes == block || bytes == in_form_1(rt, alloc, block).as_slice()
}

/// Whether bytes are a block, and then that of its form of the node that they are read as.
pub(crate) fn is_block(rt: &impl Abort, alloc: Global, bytes: &[u8]) -> Option<bool> {
    let node = unpack(alloc, bytes).expect(rt, "there is memory")?;
    Some(is_block_of(rt, alloc, bytes, &node))
}

pub(crate) fn event(
    rt: &impl Abort,
    key: KeyBytes,
    at: Instant,
    values: Option<Vec<Value>>,
) -> Event {
    let row = match values {
        None => None,
        Some(values) => Some(Row::new(values).expect(rt, "the values can be stored")),
    };
    Event::new(key, at, row).expect(rt, "the key has a byte")
}

/// A node of all keys from 1 on.
pub(crate) fn current(rt: &impl Abort, alloc: Global) -> DataNode {
    let keys = KeyRange {
        lo: KeyBytes::least(alloc),
        hi: None,
    };
    node_of(rt, alloc, keys)
}

/// A node of the keys from a number on and below another, from 1 on.
pub(crate) fn node_between(rt: &impl Abort, alloc: Global, from: u8, to: u8) -> DataNode {
    let keys = KeyRange {
        lo: row_key(rt, alloc, from),
        hi: Some(row_key(rt, alloc, to)),
    };
    node_of(rt, alloc, keys)
}

fn node_of(rt: &impl Abort, alloc: Global, keys: KeyRange) -> DataNode {
    let time = TimeRange { from: 1, to: None };
    let rect = Rect::new(keys, time).expect(rt, "there are instants");
    DataNode::new(alloc, rect).expect(rt, "there is memory")
}

/// Puts an event, where the node accepts it.
pub(crate) fn put(rt: &impl Abort, node: &mut DataNode, event: Event) {
    if node.accepts(&event) {
        node.put(event).expect(rt, "there is memory");
    }
}

/// The row (1, 'Ann').
fn ann(rt: &impl Abort, alloc: Global) -> Vec<Value> {
    let name = Chars::copy_of(alloc, "Ann").expect(rt, "the name is short");
    let values = vec![in alloc; Value::Int(1), Value::Text(name)];
    values.expect(rt, "there is memory")
}

/// Puts a row of a key.
pub(crate) fn put_row(
    rt: &impl Abort,
    alloc: Global,
    node: &mut DataNode,
    number: u8,
    at: Instant,
) {
    let values = ann(rt, alloc);
    let key = row_key(rt, alloc, number);
    put(rt, node, event(rt, key, at, Some(values)));
}

/// Puts the deletion of a key.
pub(crate) fn put_deletion(
    rt: &impl Abort,
    alloc: Global,
    node: &mut DataNode,
    number: u8,
    at: Instant,
) {
    let key = row_key(rt, alloc, number);
    put(rt, node, event(rt, key, at, None));
}

/// The node whose block was worked out by hand.
pub(crate) fn first_node(rt: &impl Abort, alloc: Global) -> DataNode {
    let mut node = current(rt, alloc);
    put_row(rt, alloc, &mut node, 1, 100);
    part_before(rt, &node, 200)
}
