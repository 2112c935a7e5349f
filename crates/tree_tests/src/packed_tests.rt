//! Packed nodes, made of a node and of bytes, answer as the node does, and so do their bytes in place.

use crate::block_sample::{
    block_of, blocks, carrying_block, first_block, first_node, found_block, old_first_block,
};
use crate::sample::row_key;
use blocks::{Block, at, changed_since, has_block};
use datanode::DataNode;
use eventlist::event_since;
use keyrange::KeyRange;
use std::alloc::Global;
use std::process::Abort;
use values::{Instant, KeyBytes, Row, SharedEvent, row_bytes};

/// The block of a node that has one.
fn pack_of(rt: &impl Abort, alloc: Global, node: &DataNode) -> Block {
    if !has_block(node) {
        panic!(rt; "the node has no block");
    }
    Block::pack(alloc, node).expect(rt, "there is memory")
}

/// Whether the node whose block was worked out by hand is packed to that block, which ends at 200.
fn is_first(rt: &impl Abort, alloc: Global) -> bool {
    let block = pack_of(rt, alloc, &first_node(rt, alloc));
    block.bytes().as_slice() == first_block()
        && block.rect().time().to == Some(200)
        && block.is_same(&block_of(rt, alloc, first_block()))
}

#[test]
fn a_node_is_packed_to_the_block_that_its_bytes_make(rt: HostRuntime) {
    assert!(rt; is_first(&rt, rt.alloc()));
}

/// Whether the first block and that of form 1 are the same, and whether they unpack to nodes of as
/// many events.
fn compare_forms(rt: &impl Abort, alloc: Global) -> (bool, bool) {
    let block = block_of(rt, alloc, first_block());
    let old = block_of(rt, alloc, old_first_block());
    (block.is_same(&old), block.len() == old.len())
}

#[test]
fn blocks_of_two_forms_are_not_the_same(rt: HostRuntime) {
    assert!(rt; compare_forms(&rt, rt.alloc()) == (false, true));
}

/// Whether bytes are a block, and then one that is the same as another.
fn is_same_block(rt: &impl Abort, alloc: Global, whole: &Block, bytes: &[u8]) -> Option<bool> {
    let block = found_block(rt, alloc, bytes)?;
    Some(block.is_same(whole))
}

/// How many prefixes of bytes are blocks, and how many of these are the same as a block.
fn count_same(rt: &impl Abort, alloc: Global, whole: &Block, bytes: &[u8]) -> (usize, usize) {
    let mut blocks = 0usize;
    let mut same = 0usize;
    for length in 0..=bytes.len() {
        if let Some(is_same) = is_same_block(rt, alloc, whole, bytes.split_at(length).0) {
            blocks = blocks.saturating_add(1);
            same = same.saturating_add(is_same as usize);
        }
    }
    (blocks, same)
}

/// How many prefixes of a block are blocks, and how many of these are it.
fn count_prefixes(rt: &impl Abort, alloc: Global, bytes: &[u8]) -> (usize, usize) {
    let whole = block_of(rt, alloc, bytes);
    count_same(rt, alloc, &whole, bytes)
}

#[test]
fn of_the_prefixes_of_a_block_it_alone_is_one(rt: HostRuntime) {
    for block in blocks() {
        assert!(rt; count_prefixes(&rt, rt.alloc(), block) == (1, 1));
    }
}

/// The instant of a key's first event above another, among the events of a node.
fn first_above(node: &DataNode, key: &KeyBytes, after: Instant) -> Option<Instant> {
    for event in node.events() {
        let event = event.event();
        if event.key() == key && after < event.at() {
            return Some(event.at());
        }
    }
    None
}

/// How many values a row has; 0 where there is none.
fn width(row: Option<&Row>) -> usize {
    match row {
        None => 0,
        Some(row) => row.values().len(),
    }
}

fn bytes_of(rt: &impl Abort, alloc: Global, row: Option<&Row>) -> Vec<u8> {
    match row {
        None => Vec::new(alloc),
        Some(row) => row_bytes(alloc, row).expect(rt, "there is memory"),
    }
}

fn is_row(rt: &impl Abort, alloc: Global, row: Option<&Row>, of_node: Option<&Row>) -> bool {
    bytes_of(rt, alloc, row) == bytes_of(rt, alloc, of_node)
}

/// Whether a block, its bytes in place and its node have one row of a key at an instant, and one
/// last and one next change after it.
fn agree(
    rt: &impl Abort,
    alloc: Global,
    block: &Block,
    node: &DataNode,
    key: &KeyBytes,
    instant: Instant,
) -> bool {
    let bytes = block.bytes().as_slice();
    let packed = block.at(alloc, key, instant).expect(rt, "there is memory");
    let in_place = at(alloc, bytes, key, instant).expect(rt, "there is memory");
    let change = event_since(node.events(), key, instant);
    is_row(rt, alloc, packed.as_ref(), node.at(key, instant))
        && is_row(rt, alloc, in_place.as_ref(), node.at(key, instant))
        && changed_since(bytes, key, instant) == change
        && block.changed_since(key, instant) == change
        && block.next_change(key, instant) == first_above(node, key, instant)
}

/// At how many instants a block and its node agree on a key.
fn count_of_key(
    rt: &impl Abort,
    alloc: Global,
    block: &Block,
    node: &DataNode,
    number: u8,
) -> usize {
    let key = row_key(rt, alloc, number);
    let mut count = 0usize;
    for instant in 0..400 {
        if agree(rt, alloc, block, node, &key, instant) {
            count = count.saturating_add(1);
        }
    }
    count
}

/// For how many keys and instants a block and a node with as many events agree.
fn count_both(rt: &impl Abort, alloc: Global, block: &Block, node: &DataNode) -> usize {
    assert!(rt; block.len() == node.len());
    let mut count = 0usize;
    for number in 0..8 {
        count = count.saturating_add(count_of_key(rt, alloc, block, node, number));
    }
    count
}

/// For how many keys and instants a block and the node that its copy unpacks to agree.
fn count_agreed(rt: &impl Abort, alloc: Global, bytes: &[u8]) -> usize {
    let block = block_of(rt, alloc, bytes);
    let copy = block.copy().expect(rt, "there is memory");
    let node = copy.unpack(alloc).expect(rt, "there is memory");
    count_both(rt, alloc, &block, &node)
}

#[test]
fn a_packed_node_answers_as_the_node_that_it_unpacks_to(rt: HostRuntime) {
    for block in blocks() {
        assert!(rt; count_agreed(&rt, rt.alloc(), block) == 3200);
    }
}

/// How many values a key's row has at an instant in the block with a carried event, 0 where there is
/// none, and the key's last and next change after it.
type Found = (usize, Option<Instant>, Option<Instant>);

fn found_in_place(rt: &impl Abort, alloc: Global, number: u8, instant: Instant) -> Found {
    let bytes = carrying_block();
    let key = row_key(rt, alloc, number);
    let row = at(alloc, bytes, &key, instant).expect(rt, "there is memory");
    let next = block_of(rt, alloc, bytes).next_change(&key, instant);
    (
        width(row.as_ref()),
        changed_since(bytes, &key, instant),
        next,
    )
}

#[test]
fn the_next_change_is_found_in_place(rt: HostRuntime) {
    let cases = [
        (1, 0, (0, None, None)),
        (1, 299, (0, None, None)),
        (2, 0, (0, Some(100), Some(100))),
        (2, 99, (0, Some(100), Some(100))),
        (2, 100, (2, None, None)),
        (2, 299, (2, None, None)),
        (3, 0, (0, Some(250), Some(200))),
        (3, 199, (0, Some(250), Some(200))),
        (3, 200, (6, Some(250), Some(250))),
        (3, 249, (6, Some(250), Some(250))),
        (3, 250, (0, None, None)),
        (4, 298, (0, Some(299), Some(299))),
        (4, 299, (1, None, None)),
        (4, u64::MAX, (1, None, None)),
        (5, 0, (0, None, None)),
        (5, 299, (0, None, None)),
    ];
    for (number, instant, found) in cases {
        assert!(rt;
            found_in_place(&rt, rt.alloc(), number, instant) == found,
            "key {number} at {instant}"
        );
    }
}

/// Whether nothing is found of a key in bytes.
fn is_nothing_found(rt: &impl Abort, alloc: Global, bytes: &[u8]) -> bool {
    let key = row_key(rt, alloc, 1);
    let row = at(alloc, bytes, &key, 150).expect(rt, "there is memory");
    row.is_none() && changed_since(bytes, &key, 1).is_none()
}

#[test]
fn nothing_is_found_where_there_is_no_block(rt: HostRuntime) {
    for (block, longest) in [(first_block(), 44), (old_first_block(), 43)] {
        for length in 0..longest {
            let bytes = block.split_at(length).0;
            assert!(rt; is_nothing_found(&rt, rt.alloc(), bytes), "at {length}");
        }
    }
}

/// The keys from a number on, and below another where it is at most 8.
fn keys_between(rt: &impl Abort, alloc: Global, from: u8, to: u8) -> KeyRange {
    let hi = if to <= 8 {
        Some(row_key(rt, alloc, to))
    } else {
        None
    };
    KeyRange {
        lo: row_key(rt, alloc, from),
        hi,
    }
}

/// Whether two lists have the same events: keys and instants, and rows of one width.
fn are_alike(listed: &[SharedEvent], of_node: &[SharedEvent]) -> bool {
    let mut others = of_node.iter();
    for event in listed {
        match others.next() {
            Some(other) if event == other => {
                if width(event.event().row()) != width(other.event().row()) {
                    return false;
                }
            }
            _ => return false,
        }
    }
    others.next().is_none()
}

/// Whether a block and its node list the same events of a range and of a window of instants.
fn list_alike(
    rt: &impl Abort,
    alloc: Global,
    block: &Block,
    node: &DataNode,
    range: &KeyRange,
    window: (Instant, Instant),
) -> bool {
    let listed = block.events_in(alloc, range, window.0, window.1);
    let listed = listed.expect(rt, "there is memory");
    let of_node = node.events_in(alloc, range, window.0, window.1);
    let of_node = of_node.expect(rt, "there is memory");
    are_alike(&listed, &of_node)
}

/// For how many windows of instants a block and its node list the same events of a range.
fn count_windows(
    rt: &impl Abort,
    alloc: Global,
    block: &Block,
    node: &DataNode,
    range: &KeyRange,
) -> usize {
    let instants = [0, 100, 199, 200, 249, 250, 299, u64::MAX];
    let mut count = 0usize;
    for from in instants {
        for to in instants {
            if list_alike(rt, alloc, block, node, range, (from, to)) {
                count = count.saturating_add(1);
            }
        }
    }
    count
}

/// For how many ranges of keys from a number on, and windows of instants, a block and its node list
/// the same events.
fn count_ranges(rt: &impl Abort, alloc: Global, block: &Block, node: &DataNode, from: u8) -> usize {
    let mut count = 0usize;
    for to in 1..10u8 {
        let range = keys_between(rt, alloc, from, to);
        count = count.saturating_add(count_windows(rt, alloc, block, node, &range));
    }
    count
}

/// For how many ranges of keys and windows of instants a block and its node list the same events.
fn count_all(rt: &impl Abort, alloc: Global, block: &Block, node: &DataNode) -> usize {
    let mut count = 0usize;
    for from in 0..8u8 {
        count = count.saturating_add(count_ranges(rt, alloc, block, node, from));
    }
    count
}

/// The same of a block and the node that it unpacks to.
fn count_listed(rt: &impl Abort, alloc: Global, bytes: &[u8]) -> usize {
    let block = block_of(rt, alloc, bytes);
    let node = block.unpack(alloc).expect(rt, "there is memory");
    count_all(rt, alloc, &block, &node)
}

#[test]
fn a_packed_node_lists_what_the_node_that_it_unpacks_to_lists(rt: HostRuntime) {
    for block in blocks() {
        assert!(rt; count_listed(&rt, rt.alloc(), block) == 4608);
    }
}
