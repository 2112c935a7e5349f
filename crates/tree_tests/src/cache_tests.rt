//! What is asked of a cache, block after block.

use crate::block_sample::{block_of, old_block_of};
use blocks::{Block, BlockCache, Blocks, InPlace};
use keyrange::KeyRange;
use std::alloc::Global;
use std::process::Abort;
use values::{Instant, KeyBytes};

/// The block of all keys from an instant to another, with one event: key 1 has a row of one number
/// from `at` on.
fn block_between(rt: &impl Abort, alloc: Global, from: u8, to: u8, at: u8) -> Block {
    let bytes = &[
        84, 83, 66, 50, 1, 0, 0, 0, 0, 0, 0, 0, 0, 0, 0, from, 0, 0, 0, 0, 0, 0, 0, to, 1, 0, 9, 1,
        128, 0, 0, 0, 0, 0, 0, 1, 0, 0, 0, 0, 0, 0, 0, at, 1, 1, 1, 0, 0, 0, 0, 0, 0, 0, 7,
    ];
    block_of(rt, alloc, bytes)
}

/// The keys from the key of one byte on.
fn keys_from(rt: &impl Abort, alloc: Global, lower: u8) -> KeyRange {
    let bytes = Vec::from_slice(alloc, &[lower]).expect(rt, "there is memory");
    let lo = KeyBytes::new(bytes).expect(rt, "one byte is few");
    KeyRange { lo, hi: None }
}

/// The instant of the one event that is given of a block; None where there is not one.
fn event_between<B: Blocks>(
    blocks: &mut B,
    block: &Block,
    range: &KeyRange,
    from: Instant,
    to: Instant,
) -> Option<Instant> {
    match blocks.events(block, range, from, to) {
        Ok(events) => match events.as_slice() {
            [event] => Some(event.event().at()),
            _ => None,
        },
        Err(_) => None,
    }
}

/// The instant of the one event of keys from a byte on that is given of a block: the block is made
/// anew.
fn event_of_block<B: Blocks>(
    rt: &impl Abort,
    blocks: &mut B,
    alloc: Global,
    (from, to, at): (u8, u8, u8),
    lower: u8,
    since: Instant,
) -> Option<Instant> {
    let block = block_between(rt, alloc, from, to, at);
    let range = keys_from(rt, alloc, lower);
    event_between(blocks, &block, &range, since, u64::MAX)
}

/// How many of 17 blocks, asked for in order twice over, are answered by their own event.
fn count_own<B: Blocks>(rt: &impl Abort, blocks: &mut B, alloc: Global) -> usize {
    let mut own = 0usize;
    for round in 0..34u8 {
        let at = round % 17 + 1;
        if event_of_block(rt, blocks, alloc, (at, at + 1, at), 0, 0) == Some(at as Instant) {
            own = own.saturating_add(1);
        }
    }
    own
}

#[test]
fn seventeen_blocks_asked_for_twice_over_give_their_own_events(rt: HostRuntime) {
    let alloc = rt.alloc();
    let mut cache = BlockCache::new(alloc);
    let own = count_own(&rt, &mut cache, alloc);
    assert!(rt; own == 34 && cache.len() == 16);
}

/// How often two blocks of one rectangle, asked for in turn, are answered by their own event.
fn count_turns<B: Blocks>(rt: &impl Abort, blocks: &mut B, alloc: Global) -> usize {
    let mut own = 0usize;
    for turn in 0..6u8 {
        let at = turn % 2 + 1;
        if event_of_block(rt, blocks, alloc, (1, 3, at), 0, 0) == Some(at as Instant) {
            own = own.saturating_add(1);
        }
    }
    own
}

#[test]
fn two_blocks_of_one_rectangle_give_their_own_events(rt: HostRuntime) {
    let alloc = rt.alloc();
    let mut cache = BlockCache::new(alloc);
    let own = count_turns(&rt, &mut cache, alloc);
    assert!(rt; own == 6 && cache.len() == 1);
}

/// How many ranges of a block's keys and instants are answered as they should be, of five. A cache
/// reads the first in place, unpacks the block at the second, and has its node for the others.
fn count_ranges<B: Blocks>(rt: &impl Abort, blocks: &mut B, alloc: Global) -> usize {
    let mut right = 0usize;
    for (lower, since, expected) in [
        (0, 0, Some(5)),
        (1, 5, Some(5)),
        (1, 6, None),
        (2, 0, None),
        (0, 5, Some(5)),
    ] {
        if event_of_block(rt, blocks, alloc, (5, 9, 5), lower, since) == expected {
            right = right.saturating_add(1);
        }
    }
    right
}

#[test]
fn a_block_gives_the_range_that_is_asked_for(rt: HostRuntime) {
    let alloc = rt.alloc();
    let mut cache = BlockCache::new(alloc);
    let kept = count_ranges(&rt, &mut cache, alloc);
    let in_place = count_ranges(&rt, &mut InPlace::new(alloc), alloc);
    assert!(rt; kept == 5 && in_place == 5 && cache.len() == 1);
}

/// The instant of the one event that is given of a block; of form 1, where the turn is odd.
fn event_of_turn<B: Blocks>(
    rt: &impl Abort,
    blocks: &mut B,
    alloc: Global,
    turn: u8,
) -> Option<Instant> {
    let mut block = block_between(rt, alloc, 1, 3, 2);
    if turn % 2 == 1 {
        block = old_block_of(rt, alloc, &block);
    }
    let range = keys_from(rt, alloc, 0);
    event_between(blocks, &block, &range, 0, u64::MAX)
}

/// How often the blocks of both forms of one node, asked for in turn, are answered by its event.
fn count_forms<B: Blocks>(rt: &impl Abort, blocks: &mut B, alloc: Global) -> usize {
    let mut own = 0usize;
    for turn in 0..6u8 {
        if event_of_turn(rt, blocks, alloc, turn) == Some(2) {
            own = own.saturating_add(1);
        }
    }
    own
}

#[test]
fn blocks_of_both_forms_of_a_node_give_its_events(rt: HostRuntime) {
    let alloc = rt.alloc();
    let mut cache = BlockCache::new(alloc);
    let own = count_forms(&rt, &mut cache, alloc);
    assert!(rt; own == 6 && cache.len() == 1);
}
