//! Blocks are read in place: one row is made at most, and no node.
ghost use Rattle.std.specs.Prelude.{◌≡◌, List, None, length, IsTrue, IfOk, option_copied, ◌&&◌, nat_lt, nat_le};
ghost use Rattle.std.specs.Ordering.{is_eq};
ghost use Rattle.values.specs.Memory.{OnlyMemory};
ghost use Rattle.values.specs.Events.{row_until, event_since};
ghost use Rattle.values.specs.RowReading.{Parses};
ghost use Rattle.datanode.specs.Node.{Node, IsCutOf};
ghost use Rattle.datanode.specs.NextChange.{event_after};
ghost use Rattle.keyrange.specs.Rect.{has_point};
ghost use Rattle.values.specs.Event.{Event as Change};
ghost use Rattle.blocks.specs.Block.{IsBlockOf};
ghost use Rattle.blocks.specs.Lookup.{past_text, past_tagged, past_value, past_values, past_row, past_row_tagged, past_row_field, event_place, first_place, events_place, place_in, first_in, row_of_field};
ghost use Rattle.blocks.specs.Event.{row_field_from};

use crate::event::{Parsed, point_from, row_field_from};
use crate::field::{byte_from, length_from, part_from};
use crate::head::head_from;
use std::alloc::Global;
use std::cmp::Ordering;
use values::{Instant, KeyBytes, Mem, Row};

/// The bytes behind a text.
#[tactic(auto, unfolding(crate::specs::Lookup::past_text))]
fn past_text(bytes: &[u8]) -> Option<&[u8]>
    ensures { option_copied result ≡ past_text bytes.now }
{
    let (n, rest) = length_from(bytes)?;
    let (_text, left) = part_from(n as usize, rest)?;
    Some(left)
}

#[tactic(auto, unfolding(crate::specs::Lookup::past_tagged))]
fn past_tagged(tag: u8, bytes: &[u8]) -> Option<&[u8]>
    ensures { option_copied result ≡ past_tagged tag bytes.now }
{
    if tag == 1 {
        let (_number, rest) = part_from(8, bytes)?;
        return Some(rest);
    }
    if tag == 2 {
        return past_text(bytes);
    }
    if tag <= 4 {
        return Some(bytes);
    }
    None
}

/// The bytes behind a value.
fn past_value(bytes: &[u8]) -> Option<&[u8]>
    ensures { option_copied result ≡ past_value bytes.now }
{
    let (tag, rest) = byte_from(bytes)?;
    past_tagged(tag, rest)
}

/// The bytes behind so many values.
fn past_values(n: u8, bytes: &[u8]) -> Option<&[u8]>
    ensures { option_copied result ≡ past_values n bytes.now }
{
    let mut rest = bytes;
    for _ in 0..n {
        match past_value(rest) {
            None => return None,
            Some(left) => rest = left,
        }
    }
    Some(rest)
}

/// The bytes behind a row.
fn past_row(bytes: &[u8]) -> Option<&[u8]>
    ensures { option_copied result ≡ past_row bytes.now }
{
    let (n, rest) = byte_from(bytes)?;
    past_values(n, rest)
}

#[tactic(auto, unfolding(crate::specs::Lookup::past_row_tagged))]
fn past_row_tagged(tag: u8, bytes: &[u8]) -> Option<&[u8]>
    ensures { option_copied result ≡ past_row_tagged tag bytes.now }
{
    match tag {
        0 => Some(bytes),
        1 => past_row(bytes),
        _ => None,
    }
}

/// Skips an event's row, or the mark that it has none: the bytes behind it.
pub(crate) fn past_row_field(bytes: &[u8]) -> Option<&[u8]>
    ensures { option_copied result ≡ past_row_field bytes.now }
{
    let (tag, rest) = byte_from(bytes)?;
    past_row_tagged(tag, rest)
}

/// Whether an event is wanted, of a key that compares so with the one that is looked for.
fn is_wanted(order: Ordering, low: Instant, high: Instant, at: Instant) -> bool
    ensures { result ≡ (is_eq order && (nat_lt low at && nat_le at high)) }
{
    order.is_eq() && low < at && at <= high
}

/// The last event of a key above an instant and up to another, among so many events: its instant,
/// and the bytes from its row on.
#[tactic(auto, unfolding(crate::specs::Lookup::is_wanted))]
fn event_place<'a>(
    n: u8,
    bytes: &'a [u8],
    key: &[u8],
    low: Instant,
    high: Instant,
) -> Parsed<'a, Instant>
    ensures { Parses (λ at. at) result (event_place n bytes.now key.now low high None) }
{
    let mut found = None;
    let mut rest = bytes;
    for _ in 0..n {
        let Some(((other, at), row)) = point_from(rest) else {
            return None;
        };
        let order = key.cmp(other);
        if order.is_lt() {
            return found;
        }
        let Some(left) = past_row_field(row) else {
            return None;
        };
        if is_wanted(order, low, high, at) {
            found = Some((at, row));
        }
        rest = left;
    }
    found
}

/// The first event of a key above an instant and up to another, among so many events: its instant,
/// and the bytes from its row on.
#[tactic(auto, unfolding(crate::specs::Lookup::is_wanted))]
fn first_place<'a>(
    n: u8,
    bytes: &'a [u8],
    key: &[u8],
    low: Instant,
    high: Instant,
) -> Parsed<'a, Instant>
    ensures { Parses (λ at. at) result (first_place n bytes.now key.now low high) }
{
    let mut rest = bytes;
    for _ in 0..n {
        let ((other, at), row) = point_from(rest)?;
        let order = key.cmp(other);
        if is_wanted(order, low, high, at) {
            return Some((at, row));
        }
        if order.is_lt() {
            return None;
        }
        rest = past_row_field(row)?;
    }
    None
}

/// Reads the number of a block's events, and the bytes from the first on.
#[tactic(auto, unfolding(crate::specs::Lookup::events_place))]
pub(crate) fn events_place(bytes: &[u8]) -> Parsed<'_, u8>
    ensures { Parses (λ n. n) result (events_place bytes.now) }
{
    let (head, events) = head_from(bytes)?;
    Some((head.body.count, events))
}

#[tactic(auto, unfolding(crate::specs::Lookup::place_in))]
fn place_in<'a>(bytes: &'a [u8], key: &[u8], low: Instant, high: Instant) -> Parsed<'a, Instant>
    ensures { Parses (λ at. at) result (place_in bytes.now key.now low high) }
{
    let (n, events) = events_place(bytes)?;
    event_place(n, events, key, low, high)
}

#[tactic(auto, unfolding(crate::specs::Lookup::first_in))]
fn first_in<'a>(bytes: &'a [u8], key: &[u8], low: Instant, high: Instant) -> Parsed<'a, Instant>
    ensures { Parses (λ at. at) result (first_in bytes.now key.now low high) }
{
    let (n, events) = events_place(bytes)?;
    first_place(n, events, key, low, high)
}

/// The row of an event, from its bytes.
fn row_at(alloc: Global, bytes: &[u8]) -> Mem<Option<Row>>
    ensures ok { IfOk result (λ row. row ≡ row_of_field (row_field_from bytes.now)) }
    ensures err { OnlyMemory result }
{
    match row_field_from(alloc, bytes)? {
        None => Ok(None),
        Some((row, _rest)) => Ok(row),
    }
}

/// Counts the events of the node that a block represents.
pub fn event_count(bytes: &[u8]) -> usize
    ensures { (n : Node) → IsBlockOf bytes.now n → result ≡ length n.events }
{
    match events_place(bytes) {
        None => 0,
        Some((n, _events)) => n as usize,
    }
}

/// Finds a key's row at an instant, in the node that a block represents, and in each map that the
/// node is the cut of. One row is made at most.
pub fn at(alloc: Global, bytes: &[u8], key: &KeyBytes, instant: Instant) -> Mem<Option<Row>>
    ensures ok { IfOk result (λ row. (n : Node) →
        IsBlockOf bytes.now n → row ≡ row_until n.events key.now instant) }
    ensures of_map { IfOk result (λ row. (n : Node) (m : List Change) →
        IsBlockOf bytes.now n → IsCutOf n m → IsTrue (has_point n.rect key.now instant)
        → row ≡ row_until m key.now instant) }
    ensures err { OnlyMemory result }
{
    match place_in(bytes, key.bytes(), 0, instant) {
        None => Ok(None),
        Some((_at, row)) => row_at(alloc, row),
    }
}

/// Finds the instant of a key's last event above `start`, if there is one, in the node that a block
/// represents. It takes no memory.
pub fn changed_since(bytes: &[u8], key: &KeyBytes, start: Instant) -> Option<Instant>
    ensures { (n : Node) → IsBlockOf bytes.now n → result ≡ event_since n.events start key.now }
{
    match place_in(bytes, key.bytes(), start, Instant::MAX) {
        None => None,
        Some((at, _row)) => Some(at),
    }
}

/// Finds the instant of a key's first event above `after`, if there is one, in the node that a
/// block represents. It takes no memory.
pub(crate) fn next_change(bytes: &[u8], key: &KeyBytes, after: Instant) -> Option<Instant>
    ensures { (n : Node) → IsBlockOf bytes.now n → result ≡ event_after n.events after key.now }
{
    match first_in(bytes, key.bytes(), after, Instant::MAX) {
        None => None,
        Some((at, _row)) => Some(at),
    }
}
