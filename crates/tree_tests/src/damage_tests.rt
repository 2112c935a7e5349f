//! Blocks of a history made at random, with two bytes of each changed at once.
ghost use Rattle.std.specs.Prelude.{◌≤◌, ◌<◌};

use crate::block_sample::{current, event, in_form_1, is_block, node_between, pack_of, put};
use crate::sample::{part_before, row_key, since};
use datanode::DataNode;
use std::alloc::Global;
use std::process::Abort;
use values::{Chars, Event, Instant, Value};

/// Numbers that look random, and are always the same.
#[derive(Drop)]
struct Numbers {
    state: u64,
}

impl Numbers {
    /// Gives the next number below a bound, by a linear congruence (Knuth's MMIX).
    fn below(&mut self, bound: u64) -> u64
        requires { 1 ≤ bound }
        ensures { result < bound }
    {
        let next = self.state.wrapping_mul(6364136223846793005);
        self.state = next.wrapping_add(1442695040888963407);
        (self.state >> 33) % bound
    }
}

fn text(rt: &impl Abort, alloc: Global, numbers: &mut Numbers) -> Value {
    let text = match numbers.below(4) {
        0 => "",
        1 => "Ann",
        2 => "O'Hara",
        _ => "é",
    };
    Value::Text(Chars::copy_of(alloc, text).expect(rt, "there is memory"))
}

fn value(rt: &impl Abort, alloc: Global, numbers: &mut Numbers) -> Value {
    match numbers.below(5) {
        0 => Value::Null,
        1 => Value::Bool(false),
        2 => Value::Bool(true),
        3 => Value::Int(numbers.below(100_000) as i64),
        _ => text(rt, alloc, numbers),
    }
}

/// The values of a row: 1 to 16, and few more often than many.
fn values(rt: &impl Abort, alloc: Global, numbers: &mut Numbers) -> Vec<Value> {
    let most = 1 + numbers.below(16);
    let mut values = Vec::new(alloc);
    for _ in 0..1 + numbers.below(most) {
        let value = value(rt, alloc, numbers);
        values.push(value).expect(rt, "there is memory");
    }
    values
}

/// A row of one of eight keys, or the deletion of one.
fn change(rt: &impl Abort, alloc: Global, numbers: &mut Numbers, at: Instant) -> Event {
    let key = row_key(rt, alloc, numbers.below(8) as u8);
    if numbers.below(5) == 0 {
        return event(rt, key, at, None);
    }
    let values = values(rt, alloc, numbers);
    event(rt, key, at, Some(values))
}

/// Puts up to 12 changes, at an instant and after it; answers an instant after them.
fn grow(
    rt: &impl Abort,
    alloc: Global,
    numbers: &mut Numbers,
    node: &mut DataNode,
    start: Instant,
) -> Instant {
    let mut at = start;
    for _ in 0..1 + numbers.below(12) {
        at = at.saturating_add(numbers.below(3));
        let change = change(rt, alloc, numbers, at);
        put(rt, node, change);
    }
    at.saturating_add(1)
}

/// A number by which a byte is changed: one of all, or one below four.
fn difference(numbers: &mut Numbers) -> u8 {
    if numbers.below(2) == 0 {
        return 1 + numbers.below(255) as u8;
    }
    1 + numbers.below(3) as u8
}

/// Changes a byte, where there is one at that place.
fn change_byte(bytes: &mut [u8], place: usize, difference: u8) {
    if place < bytes.len() {
        bytes[place] ^= difference;
    }
}

/// Two bytes of so many.
fn two_places(numbers: &mut Numbers, count: usize) -> (usize, usize)
    requires { 2 ≤ count }
{
    let first = numbers.below(count as u64) as usize;
    let second = numbers.below(count as u64 - 1) as usize;
    if second < first {
        return (first, second);
    }
    (first, second.saturating_add(1))
}

/// A block with two of its bytes changed.
fn with_two_changes(
    rt: &impl Abort,
    alloc: Global,
    numbers: &mut Numbers,
    block: &[u8],
) -> Vec<u8> {
    let mut bytes = Vec::from_slice(alloc, block).expect(rt, "there is memory");
    if 2 <= block.len() {
        let (first, second) = two_places(numbers, block.len());
        change_byte(bytes.as_mut_slice(), first, difference(numbers));
        change_byte(bytes.as_mut_slice(), second, difference(numbers));
    }
    bytes
}

/// How many of eight double changes of a block leave a block; None where one of these, or the block
/// itself, is not that of the node that it is read as.
fn count_left(
    rt: &impl Abort,
    alloc: Global,
    numbers: &mut Numbers,
    block: &[u8],
) -> Option<usize> {
    if is_block(rt, alloc, block) != Some(true) {
        return None;
    }
    let mut count = 0usize;
    for _ in 0..8 {
        let bytes = with_two_changes(rt, alloc, numbers, block);
        match is_block(rt, alloc, bytes.as_slice()) {
            None => {}
            Some(true) => count = count.saturating_add(1),
            Some(false) => return None,
        }
    }
    Some(count)
}

/// The same of a node's blocks of both forms.
fn count_of_node(
    rt: &impl Abort,
    alloc: Global,
    numbers: &mut Numbers,
    node: &DataNode,
) -> Option<usize> {
    let block = pack_of(rt, alloc, node);
    let old = in_form_1(rt, alloc, block.as_slice());
    let count = count_left(rt, alloc, numbers, block.as_slice())?;
    let more = count_left(rt, alloc, numbers, old.as_slice())?;
    Some(count.saturating_add(more))
}

/// The same of 500 nodes of one history, which begins with a node: each has changes after those of
/// the last one.
fn count_of_history(rt: &impl Abort, alloc: Global, seed: u64, first: DataNode) -> Option<usize> {
    let mut numbers = Numbers { state: seed };
    let mut node = first;
    let mut at = 1;
    let mut count = 0usize;
    for _ in 0..500 {
        at = grow(rt, alloc, &mut numbers, &mut node, at);
        let past = part_before(rt, &node, at);
        let left = count_of_node(rt, alloc, &mut numbers, &past)?;
        count = count.saturating_add(left);
        node = since(rt, &node, at);
    }
    Some(count)
}

/// The same of a history of all keys.
fn count_of_all_keys(rt: &impl Abort, alloc: Global) -> Option<usize> {
    let node = current(rt, alloc);
    count_of_history(rt, alloc, 1, node)
}

/// The same of a history of the keys from 2 on and below 7.
fn count_of_some_keys(rt: &impl Abort, alloc: Global) -> Option<usize> {
    let node = node_between(rt, alloc, 2, 7);
    count_of_history(rt, alloc, 2, node)
}

#[test]
fn two_changed_bytes_leave_no_block_or_that_of_another_node(rt: HostRuntime) {
    assert!(rt; count_of_all_keys(&rt, rt.alloc()) == Some(679));
    assert!(rt; count_of_some_keys(&rt, rt.alloc()) == Some(651));
}
