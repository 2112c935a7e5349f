//! Which bytes are blocks, and of which nodes.

use crate::block_sample::{
    blocks, carrying_block, current, event, first_block, first_node, is_block, is_block_of,
    old_carrying_block, old_first_block, pack_of, put, put_deletion, put_row,
};
use crate::sample::{part_before, since};
use blocks::{event_count, has_block, unpack};
use bytes::Bytes;
use datanode::DataNode;
use std::alloc::Global;
use std::process::Abort;
use values::{Chars, KeyBytes, Value};

/// Whether the node whose block was worked out by hand has that block.
fn has_first_block(rt: &impl Abort, alloc: Global) -> bool {
    is_block_of(rt, alloc, first_block(), &first_node(rt, alloc))
}

/// Whether the node of the first block, in form 1, is that of the first block.
fn reads_old_first_block(rt: &impl Abort, alloc: Global) -> bool {
    let node = unpack(alloc, old_first_block()).expect(rt, "there is memory");
    let node = node.expect(rt, "the bytes are a block");
    pack_of(rt, alloc, &node).as_slice() == first_block()
}

#[test]
fn a_node_is_packed_to_its_61_bytes_and_read_back(rt: HostRuntime) {
    assert!(rt; first_block().len() == 61 && first_block().starts_with(b"TSB2\x02"));
    assert!(rt; old_first_block().len() == 60);
    assert!(rt; has_first_block(&rt, rt.alloc()) && reads_old_first_block(&rt, rt.alloc()));
    assert!(rt; is_block(&rt, rt.alloc(), first_block()) == Some(true));
}

/// How many widths, stated in the place of a block's own, leave a block of a node; None where one
/// of these is not that of the node that it is read as.
fn count_widths(rt: &impl Abort, alloc: Global, block: &[u8]) -> Option<usize> {
    let mut bytes = Vec::from_slice(alloc, block).expect(rt, "there is memory");
    count_at(rt, alloc, bytes.as_mut_slice(), 4, *block.get(4)?)
}

/// All keys from 1 to 200, without an event.
const EMPTY_BLOCK: &[u8] = &[
    84, 83, 66, 50, 0, 0, 0, 0, 0, 0, 0, 0, 0, 0, 0, 1, 0, 0, 0, 0, 0, 0, 0, 200, 0,
];

#[test]
fn the_width_that_a_block_states_is_the_greatest(rt: HostRuntime) {
    for block in [first_block(), carrying_block(), EMPTY_BLOCK] {
        assert!(rt; count_widths(&rt, rt.alloc(), block) == Some(0));
    }
}

/// How many other values of a byte leave a block; None where one of these is not that of the node
/// that it is read as.
fn count_at(
    rt: &impl Abort,
    alloc: Global,
    bytes: &mut [u8],
    place: usize,
    kept: u8,
) -> Option<usize> {
    let mut count = 0usize;
    for value in 0..=255u8 {
        if place >= bytes.len() || value == kept {
            continue;
        }
        bytes[place] = value;
        match is_block(rt, alloc, bytes) {
            None => {}
            Some(true) => count = count.saturating_add(1),
            Some(false) => return None,
        }
    }
    if place < bytes.len() {
        bytes[place] = kept;
    }
    Some(count)
}

/// How many bytes of a list, each set to each other value in turn, leave a block; None where one of
/// these is not that of the node that it is read as.
fn count_changed(rt: &impl Abort, alloc: Global, block: &[u8]) -> Option<usize> {
    let mut count = 0usize;
    let mut bytes = Vec::from_slice(alloc, block).expect(rt, "there is memory");
    for (place, kept) in block.iter().enumerate() {
        let left = count_at(rt, alloc, bytes.as_mut_slice(), place, *kept)?;
        count = count.saturating_add(left);
    }
    Some(count)
}

#[test]
fn a_changed_byte_leaves_no_block_or_that_of_another_node(rt: HostRuntime) {
    for (block, count) in [
        (first_block(), 6803),
        (carrying_block(), 13153),
        (old_first_block(), 6803),
        (old_carrying_block(), 13153),
    ] {
        let found = count_changed(&rt, rt.alloc(), block);
        assert!(rt; found == Some(count), "of {count}");
    }
}

/// Bytes that are a block in both forms. In form 1 they are a node of the keys up to one of 256
/// bytes, from 1 to 200, without an event; in form 2 a node of the keys from one of one byte on,
/// from 1 to 300, with the deletion of a key of 245 bytes at 200.
fn block_of_either_form(rt: &impl Abort, alloc: Global, mark: &[u8]) -> Vec<u8> {
    let front = &[
        0, 0, 1, 1, 0, 0, 0, 0, 0, 0, 0, 0, 1, 0, 0, 0, 0, 0, 0, 1, 44, 1, 0, 245,
    ];
    let tail = &[0, 0, 0, 0, 0, 0, 0, 1, 0, 0, 0, 0, 0, 0, 0, 200, 0];
    let mut bytes = with(rt, alloc, mark, front);
    bytes
        .extend_from_slice(many(rt, alloc, 237).as_slice())
        .expect(rt, "there is memory");
    bytes.extend_from_slice(tail).expect(rt, "there is memory");
    bytes
}

/// Whether these bytes with a mark are a block, and then that of the node that they are read as;
/// and how many events the node has.
fn reads_in(rt: &impl Abort, alloc: Global, mark: &[u8]) -> (Option<bool>, usize) {
    let bytes = block_of_either_form(rt, alloc, mark);
    let block = bytes.as_slice();
    (is_block(rt, alloc, block), event_count(block))
}

#[test]
fn the_mark_tells_the_form(rt: HostRuntime) {
    assert!(rt; reads_in(&rt, rt.alloc(), b"TSB1") == (Some(true), 0));
    assert!(rt; reads_in(&rt, rt.alloc(), b"TSB2") == (Some(true), 1));
    assert!(rt; reads_in(&rt, rt.alloc(), b"TSB3").0.is_none());
}

/// A list with bytes behind it.
fn with(rt: &impl Abort, alloc: Global, bytes: &[u8], more: &[u8]) -> Vec<u8> {
    let mut all = Vec::from_slice(alloc, bytes).expect(rt, "there is memory");
    all.extend_from_slice(more).expect(rt, "there is memory");
    all
}

/// Whether a block that is cut off, and one with bytes behind it, is none.
fn is_whole(rt: &impl Abort, alloc: Global, block: &[u8]) -> bool {
    for length in 0..block.len() {
        if is_block(rt, alloc, block.split_at(length).0).is_some() {
            return false;
        }
    }
    is_block(rt, alloc, &with(rt, alloc, block, &[0])).is_none()
        && is_block(rt, alloc, &with(rt, alloc, block, block)).is_none()
}

#[test]
fn a_block_that_is_cut_off_is_none_and_nothing_may_follow_it(rt: HostRuntime) {
    for block in blocks() {
        assert!(rt; is_whole(&rt, rt.alloc(), block));
    }
}

/// The block with carried events with parts of it in another place: from the first, from the second
/// and from the third place on.
fn exchange_parts(rt: &impl Abort, alloc: Global, places: (usize, usize, usize)) -> Vec<u8> {
    let (one, two, three) = places;
    let block = carrying_block();
    let mut bytes = Vec::new(alloc);
    for (from, to) in [(0, one), (two, three), (one, two), (three, block.len())] {
        for place in from..to {
            if place < block.len() {
                bytes.push(block[place]).expect(rt, "there is memory");
            }
        }
    }
    bytes
}

/// Whether the block turned so is as long as it was, and no block.
fn is_broken(rt: &impl Abort, alloc: Global, places: (usize, usize, usize)) -> bool {
    let bytes = exchange_parts(rt, alloc, places);
    bytes.len() == carrying_block().len() && is_block(rt, alloc, bytes.as_slice()).is_none()
}

#[test]
fn events_must_be_in_order(rt: HostRuntime) {
    assert!(rt; is_block(&rt, rt.alloc(), carrying_block()) == Some(true));
    assert!(rt; is_broken(&rt, rt.alloc(), (45, 79, 124)), "keys");
    assert!(rt; is_broken(&rt, rt.alloc(), (79, 124, 144)), "instants");
}

/// How many bytes and how many events the block of a node has, which must be read back.
fn sizes(rt: &impl Abort, alloc: Global, node: &DataNode) -> (usize, usize) {
    let packed = pack_of(rt, alloc, node);
    let block = packed.as_slice();
    assert!(rt; is_block(rt, alloc, block) == Some(true));
    (block.len(), event_count(block))
}

/// How many events a node from 200 to 300 has, to which a row of 100 is carried, and a deletion of
/// 150 is not; and the sizes of its block.
fn sizes_of_carrying(rt: &impl Abort, alloc: Global) -> (usize, (usize, usize)) {
    let mut node = current(rt, alloc);
    put_row(rt, alloc, &mut node, 1, 100);
    put_deletion(rt, alloc, &mut node, 2, 150);
    let node = since(rt, &part_before(rt, &node, 300), 200);
    (node.len(), sizes(rt, alloc, &node))
}

#[test]
fn a_carried_row_is_in_the_block(rt: HostRuntime) {
    assert!(rt; sizes_of_carrying(&rt, rt.alloc()) == (1, (61, 1)));
}

/// A node from 1 to 200 with so many events of one key.
fn node_of(rt: &impl Abort, alloc: Global, count: u64) -> DataNode {
    let mut node = current(rt, alloc);
    for at in 1..=count {
        put_deletion(rt, alloc, &mut node, 7, at);
    }
    part_before(rt, &node, 200)
}

/// How many events the block of a node of so many events has; None where it has no block.
fn count_packed(rt: &impl Abort, alloc: Global, count: u64) -> Option<usize> {
    let node = node_of(rt, alloc, count);
    if !has_block(&node) {
        return None;
    }
    Some(sizes(rt, alloc, &node).1)
}

#[test]
fn a_block_has_at_most_64_events(rt: HostRuntime) {
    for (count, packed) in [(0, Some(0)), (63, Some(63)), (64, Some(64)), (65, None)] {
        let found = count_packed(&rt, rt.alloc(), count);
        assert!(rt; found == packed, "{count} events");
    }
    assert!(rt; !has_block(&current(&rt, rt.alloc())));
}

/// 16 texts of 1,000 letters.
fn long_values(rt: &impl Abort, alloc: Global) -> Vec<Value> {
    let letters = [b'a'; 1000];
    let letters = str::from_utf8(&letters).unwrap_or("");
    let mut values = Vec::new(alloc);
    for _ in 0..16 {
        let text = Chars::copy_of(alloc, letters).expect(rt, "there is memory");
        values.push(Value::Text(text)).expect(rt, "there is memory");
    }
    values
}

/// So many bytes.
fn many(rt: &impl Abort, alloc: Global, count: usize) -> Vec<u8> {
    let mut bytes = Vec::new(alloc);
    for _ in 0..count {
        bytes.push(9).expect(rt, "there is memory");
    }
    bytes
}

/// The block of a node with one event of the longest key and the longest row.
fn longest_block(rt: &impl Abort, alloc: Global) -> Bytes {
    let key = KeyBytes::new(many(rt, alloc, 1609)).expect(rt, "the key is short enough");
    let mut node = current(rt, alloc);
    put(
        rt,
        &mut node,
        event(rt, key, 1, Some(long_values(rt, alloc))),
    );
    pack_of(rt, alloc, &part_before(rt, &node, 999_999_999_999_999_999))
}

/// The bytes of a block that tell how long its first key is, where its range of keys has no end.
fn key_length(block: &[u8]) -> Option<(u8, u8)> {
    if block.len() < 27 {
        return None;
    }
    Some((block[25], block[26]))
}

/// Whether a block is as long as that block, is read back, and begins with a key of 1,609 bytes.
fn is_longest(rt: &impl Abort, alloc: Global, block: &[u8]) -> bool {
    block.len() == 17694
        && is_block(rt, alloc, block) == Some(true)
        && key_length(block) == Some((6, 73))
}

#[test]
fn the_longest_key_and_row_are_packed_and_read_back(rt: HostRuntime) {
    let block = longest_block(&rt, rt.alloc());
    assert!(rt; is_longest(&rt, rt.alloc(), block.as_slice()));
}

/// The first block with a key of so many bytes.
fn with_key_of(rt: &impl Abort, alloc: Global, length: usize) -> Vec<u8> {
    let (front, rest) = first_block().split_at(25);
    let (_key, tail) = rest.split_at(11);
    let low = (length % 256) as u8;
    let mut bytes = with(rt, alloc, front, &[(length / 256 % 256) as u8, low]);
    let key = many(rt, alloc, length);
    bytes
        .extend_from_slice(key.as_slice())
        .expect(rt, "there is memory");
    bytes.extend_from_slice(tail).expect(rt, "there is memory");
    bytes
}

#[test]
fn a_key_of_1610_bytes_is_in_no_block(rt: HostRuntime) {
    for (length, stands) in [(1609, Some(true)), (1610, None)] {
        let bytes = with_key_of(&rt, rt.alloc(), length);
        assert!(rt;
            is_block(&rt, rt.alloc(), &bytes) == stands,
            "{length} bytes"
        );
    }
}
