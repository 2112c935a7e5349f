//! Keys, rectangles and events that several files of tests are made of. The run ends where memory
//! runs out.
ghost use Rattle.std.specs.Prelude.{◌≡◌};
ghost use Rattle.keyrange.specs.Cut.{AreHalves, PartsTime};

use datanode::DataNode;
use keyrange::{KeyRange, Rect, TimeRange};
use std::alloc::Global;
use std::process::Abort;
use values::{Event, Instant, KeyBytes, Mem, Row, Value};

pub(crate) fn key(rt: &impl Abort, alloc: Global, number: u8) -> KeyBytes {
    let bytes = vec![in alloc; number].expect(rt, "there is memory");
    KeyBytes::new(bytes).expect(rt, "one byte is short")
}

/// The key of the row of table 1 whose key is this number.
pub(crate) fn row_key(rt: &impl Abort, alloc: Global, number: u8) -> KeyBytes {
    let bytes = vec![in alloc; 1, 128, 0, 0, 0, 0, 0, 0, number];
    KeyBytes::new(bytes.expect(rt, "there is memory")).expect(rt, "nine bytes are few")
}

pub(crate) fn all_keys(alloc: Global) -> KeyRange {
    KeyRange {
        lo: KeyBytes::least(alloc),
        hi: None,
    }
}

/// All keys, from an instant to another.
pub(crate) fn all(rt: &impl Abort, alloc: Global, from: Instant, to: Option<Instant>) -> Rect
    ensures { result.time.to ≡ to }
{
    let Some(area) = Rect::new(all_keys(alloc), TimeRange { from, to }) else {
        panic!(rt; "the instants are a range")
    };
    area
}

/// The halves of a rectangle at a key strictly inside.
pub(crate) fn key_halves(rt: &impl Abort, area: &Rect, cut: &KeyBytes) -> (Rect, Rect)
    ensures { AreHalves area.now result.0 result.1 }
{
    let Ok(Some(halves)) = area.cut_key(cut) else {
        panic!(rt; "the key is inside")
    };
    halves
}

/// The halves of a rectangle at an instant strictly inside.
pub(crate) fn time_halves(rt: &impl Abort, area: &Rect, cut: Instant) -> (Rect, Rect)
    ensures { PartsTime area.now result.0 result.1 cut }
{
    let Ok(Some(halves)) = area.cut_time(cut) else {
        panic!(rt; "the instant is inside")
    };
    halves
}

pub(crate) fn copy(rt: &impl Abort, area: &Rect) -> Rect
    ensures { result ≡ area.now }
{
    let Ok(copy) = area.copy() else {
        panic!(rt; "there is memory")
    };
    copy
}

pub(crate) fn row(rt: &impl Abort, alloc: Global) -> Row {
    let values = vec![in alloc; Value::Int(1)].expect(rt, "there is memory");
    Row::new(values).expect(rt, "a number can be stored")
}

/// A change of a key at an instant, to a row or to none.
pub(crate) fn event(rt: &impl Abort, key: KeyBytes, at: Instant, row: Option<Row>) -> Event
    ensures { result.at ≡ at }
{
    let Some(event) = Event::new(key, at, row) else {
        panic!(rt; "the key has a byte")
    };
    event
}

/// A row of a key from an instant on, or its deletion.
pub(crate) fn change(rt: &impl Abort, alloc: Global, number: u8, at: Instant, there: bool) -> Event
    ensures { result.at ≡ at }
{
    let row = if there { Some(row(rt, alloc)) } else { None };
    event(rt, key(rt, alloc, number), at, row)
}

/// A node of all keys from instant 1 on.
pub(crate) fn empty_node(rt: &impl Abort, alloc: Global) -> DataNode {
    DataNode::new(alloc, all(rt, alloc, 1, None)).expect(rt, "there is memory")
}

/// Whether the node took a row of a key from an instant on, or its deletion.
pub(crate) fn put(
    rt: &impl Abort,
    alloc: Global,
    node: &mut DataNode,
    number: u8,
    at: Instant,
    there: bool,
) -> bool {
    let event = change(rt, alloc, number, at, there);
    if !node.accepts(&event) {
        return false;
    }
    node.put(event).expect(rt, "there is memory");
    true
}

/// Key 1 has a row at 100, and its deletion at 200.
pub(crate) const ONE_KEY: &[(u8, Instant, bool)] = &[(1, 100, true), (1, 200, false)];

/// A node of all keys with these changes: the key, the instant, and whether there is a row then.
pub(crate) fn node_of(rt: &impl Abort, alloc: Global, changes: &[(u8, Instant, bool)]) -> DataNode {
    let mut node = empty_node(rt, alloc);
    for (number, at, there) in changes {
        assert!(rt; put(rt, alloc, &mut node, *number, *at, *there));
    }
    node
}

/// The part of a node before an instant.
pub(crate) fn part_before(rt: &impl Abort, node: &DataNode, instant: Instant) -> DataNode {
    let (past, _now) = time_halves(rt, node.rect(), instant);
    node.part(past).expect(rt, "there is memory")
}

/// The part of a node from an instant on.
pub(crate) fn since(rt: &impl Abort, node: &DataNode, instant: Instant) -> DataNode {
    let (_past, now) = time_halves(rt, node.rect(), instant);
    node.part(now).expect(rt, "there is memory")
}

/// How many items a list has.
pub(crate) fn count<T: Drop>(rt: &impl Abort, list: Mem<Vec<T>>) -> usize {
    list.expect(rt, "there is memory").len()
}
