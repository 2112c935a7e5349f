//! Events, whose keys and rows are copied or shared.

use crate::key_sample::key;
use std::alloc::Global;
use std::process::Abort;
use values::{Event, Instant, KeyBytes, Row, SharedEvent, ShownRow, Value};

fn row(rt: &impl Abort, alloc: Global) -> Row {
    let values = vec![in alloc; Value::Int(7)].expect(rt, "there is memory");
    Row::new(values).expect(rt, "a row of one value")
}

/// One value, from an instant on.
fn event_at(rt: &impl Abort, alloc: Global, bytes: &[u8], at: Instant) -> Event {
    let event = Event::new(key(rt, alloc, bytes), at, Some(row(rt, alloc)));
    event.expect(rt, "the key is not empty")
}

fn event(rt: &impl Abort, alloc: Global) -> Event {
    event_at(rt, alloc, b"\x01\x02", 100)
}

fn is_that(event: &Event) -> bool {
    let is_key = event.key().bytes() == b"\x01\x02".as_slice();
    match event.row() {
        None => false,
        Some(row) => is_key && event.at() == 100 && row.values().len() == 1,
    }
}

fn share_of(rt: &impl Abort, alloc: Global, event: Event) -> SharedEvent {
    SharedEvent::new(alloc, event).expect(rt, "there is memory")
}

/// Whether a copy of an event, a shared event and its share are that event.
fn copies_are_that(rt: &impl Abort, alloc: Global) -> (bool, bool, bool) {
    let event = event(rt, alloc);
    let copied = event.copy().expect(rt, "there is memory");
    let first = share_of(rt, alloc, event);
    let second = first.share().expect(rt, "there is memory");
    (
        is_that(&copied),
        is_that(first.event()),
        is_that(second.event()),
    )
}

#[test]
fn an_event_that_is_copied_or_shared_is_the_same(rt: HostRuntime) {
    assert!(rt; copies_are_that(&rt, rt.alloc()) == (true, true, true));
}

/// The number of the one value of a row that is shown.
fn number_of(row: &ShownRow) -> Option<i64> {
    match row.values() {
        [Value::Int(number)] => Some(*number),
        _ => None,
    }
}

/// What is shown of an event with a row, or of one that deletes it.
fn shown_of(rt: &impl Abort, alloc: Global, has_row: bool) -> Option<i64> {
    let row = if has_row { Some(row(rt, alloc)) } else { None };
    let event = Event::new(key(rt, alloc, b"\x01\x02"), 100, row);
    let event = share_of(rt, alloc, event.expect(rt, "the key is not empty"));
    let shown = ShownRow::of_event(&event).expect(rt, "there is memory");
    number_of(&shown?)
}

#[test]
fn a_shown_row_is_that_of_its_event_or_one_by_itself(rt: HostRuntime) {
    let alloc = rt.alloc();
    assert!(rt; shown_of(&rt, alloc, true) == Some(7));
    assert!(rt; shown_of(&rt, alloc, false).is_none());
    assert!(rt; number_of(&ShownRow::new(row(&rt, alloc))) == Some(7));
}

/// A row that is shown when the list that had its event is gone.
fn row_that_is_left(rt: &impl Abort, alloc: Global) -> Option<i64> {
    let shown = {
        let event = share_of(rt, alloc, event(rt, alloc));
        ShownRow::of_event(&event).expect(rt, "there is memory")
    };
    number_of(&shown?)
}

#[test]
fn a_shown_row_outlives_the_list_that_has_its_event(rt: HostRuntime) {
    assert!(rt; row_that_is_left(&rt, rt.alloc()) == Some(7));
}

/// Keys and instants, of which two are alike.
const POINTS: &[(&[u8], Instant)] = &[(b"b", 1), (b"a", 9), (b"a", 2), (b"b", 1)];

/// The events of these, in order.
fn in_order(rt: &impl Abort, alloc: Global) -> Vec<SharedEvent> {
    let mut events = Vec::new(alloc);
    for (key, at) in POINTS {
        let event = share_of(rt, alloc, event_at(rt, alloc, key, *at));
        events.push(event).expect(rt, "there is memory");
    }
    events.sort().expect(rt, "there is memory");
    events
}

/// Whether these are their instants in order, and the last two alone are equal.
fn are_in_order(events: &[SharedEvent]) -> bool {
    match events {
        [first, second, third, last] => {
            first.event().at() == 2
                && second.event().at() == 9
                && third.event().at() == 1
                && last.event().at() == 1
                && first != second
                && third == last
        }
        _ => false,
    }
}

#[test]
fn shared_events_are_in_order_by_key_and_then_by_instant(rt: HostRuntime) {
    assert!(rt; are_in_order(&in_order(&rt, rt.alloc())));
}

/// Whether the least key has no byte, and no event is made of it.
fn is_least_empty(alloc: Global) -> bool {
    let least = KeyBytes::least(alloc);
    least.bytes().len() == 0 && Event::new(least, 1, None).is_none()
}

#[test]
fn the_least_key_bytes_are_none(rt: HostRuntime) {
    assert!(rt; is_least_empty(rt.alloc()));
}
