//! Lists of a few events.
ghost use Rattle.std.specs.List.Sorted.{IsStrictlySortedBy};
ghost use Rattle.values.specs.Events.{event_cmp};

use crate::sample::{count, event, key, row};
use eventlist::{
    event_since, event_until, events_in, events_of_key, is_overtaken, last_event, of_range,
    place_after, place_behind_key, place_from, place_of, place_of_key, place_until, put_event,
    sort_events, split_first_key, standing,
};
use keyrange::KeyRange;
use std::alloc::Global;
use std::process::Abort;
use values::{Event, Instant, KeyBytes, SharedEvent};

/// The key of a table's row whose key is this number.
fn bytes(rt: &impl Abort, alloc: Global, table: u8, number: u8) -> KeyBytes {
    let bytes = vec![in alloc; table, 128, 0, 0, 0, 0, 0, 0, number];
    KeyBytes::new(bytes.expect(rt, "there is memory")).expect(rt, "nine bytes are few")
}

/// The keys of table 0, 1 or 2.
fn keys_of_table(rt: &impl Abort, alloc: Global, table: u8) -> KeyRange {
    KeyRange {
        lo: key(rt, alloc, table),
        hi: Some(key(rt, alloc, table.wrapping_add(1))),
    }
}

/// A row of a key from an instant on, or its deletion.
fn change(rt: &impl Abort, alloc: Global, key: KeyBytes, at: Instant, there: bool) -> SharedEvent {
    let row = if there { Some(row(rt, alloc)) } else { None };
    let event = SharedEvent::new(alloc, event(rt, key, at, row));
    event.expect(rt, "there is memory")
}

fn put(
    rt: &impl Abort,
    alloc: Global,
    events: &mut Vec<SharedEvent>,
    table: u8,
    number: u8,
    at: Instant,
    there: bool,
)
    requires { IsStrictlySortedBy event_cmp events.old.items }
    ensures { IsStrictlySortedBy event_cmp events.new.items }
{
    let key = bytes(rt, alloc, table, number);
    let done = put_event(events, change(rt, alloc, key, at, there));
    done.expect(rt, "there is memory");
}

/// Of table 1 the keys 1 (a row at 100, deleted at 200) and 2 (a row at 150), of table 2 the key 1
/// (a row at 50).
#[tactic(auto, using(eventlist::proofs::PlaceOrder::sorted_none))]
fn some(rt: &impl Abort, alloc: Global) -> Vec<SharedEvent>
    ensures { IsStrictlySortedBy event_cmp result.items }
{
    let mut events = Vec::new(alloc);
    put(rt, alloc, &mut events, 2, 1, 50, true);
    put(rt, alloc, &mut events, 1, 2, 150, true);
    put(rt, alloc, &mut events, 1, 1, 200, false);
    put(rt, alloc, &mut events, 1, 1, 100, true);
    events
}

/// The instant of an event; 0 where there is none.
fn instant_of(event: Option<&Event>) -> Instant {
    match event {
        None => 0,
        Some(event) => event.at(),
    }
}

/// The places before a key, behind it and after its events until an instant; when it was last
/// changed, if that is later, and the instants of its last event until then and of its last one.
type Found = (usize, usize, usize, Option<Instant>, Instant, Instant);

fn found_of_key(rt: &impl Abort, alloc: Global, number: u8, at: Instant) -> Found {
    let events = some(rt, alloc);
    let key = bytes(rt, alloc, 1, number);
    (
        place_of_key(&events, &key),
        place_behind_key(&events, &key),
        place_after(&events, &key, at),
        event_since(&events, &key, at),
        instant_of(event_until(&events, &key, at)),
        instant_of(last_event(&events, &key)),
    )
}

#[test]
fn places_are_before_and_behind_a_key(rt: HostRuntime) {
    for (number, at, found) in [
        (1, 99, (0, 2, 0, Some(200), 0, 200)),
        (1, 100, (0, 2, 1, Some(200), 100, 200)),
        (1, 199, (0, 2, 1, Some(200), 100, 200)),
        (1, 200, (0, 2, 2, None, 200, 200)),
        (2, 149, (2, 3, 2, Some(150), 0, 150)),
        (3, 200, (3, 3, 3, None, 0, 0)),
    ] {
        assert!(rt;
            found_of_key(&rt, rt.alloc(), number, at) == found,
            "at {at}"
        );
    }
}

/// The place of the second event.
fn second_place(events: &[SharedEvent]) -> Option<usize>
    requires { IsStrictlySortedBy event_cmp events.now }
{
    Some(place_of(events, events.get(1)?.event()))
}

#[test]
fn an_event_takes_the_place_of_one_of_its_point(rt: HostRuntime) {
    let mut events = some(&rt, rt.alloc());
    let second = second_place(&events);
    put(&rt, rt.alloc(), &mut events, 1, 1, 200, true);
    let count = events.len();
    put(&rt, rt.alloc(), &mut events, 1, 1, 201, true);
    assert!(rt; (second, count, events.len()) == (Some(1), 4, 5));
}

/// How many events a range has, how many rows at an instant, and how many events from another to it.
fn counts_in(
    rt: &impl Abort,
    alloc: Global,
    range: KeyRange,
    from: Instant,
    at: Instant,
) -> (usize, usize, usize) {
    let events = some(rt, alloc);
    (
        of_range(&events, &range).len(),
        count(rt, standing(alloc, &events, &range, at)),
        count(rt, events_in(alloc, &events, &range, from, at)),
    )
}

/// The keys of table 1 from 2 on, and of table 2.
fn keys_from_2(rt: &impl Abort, alloc: Global) -> KeyRange {
    KeyRange {
        lo: bytes(rt, alloc, 1, 2),
        hi: None,
    }
}

fn first_is_overtaken(events: &[SharedEvent], at: Instant) -> Option<bool> {
    Some(is_overtaken(events.get(0)?.event(), at, events.get(1)))
}

#[test]
fn rows_stand_until_the_next_event_of_their_key(rt: HostRuntime) {
    let alloc = rt.alloc();
    for (table, from, at, counts) in [
        (0u8, 0, 200, (0, 0, 0)),
        (1, 0, 99, (3, 0, 0)),
        (1, 0, 100, (3, 1, 1)),
        (1, 101, 150, (3, 2, 1)),
        (1, 0, 199, (3, 2, 2)),
        (1, 100, 200, (3, 1, 3)),
        (2, 50, 50, (1, 1, 1)),
    ] {
        let found = counts_in(&rt, alloc, keys_of_table(&rt, alloc, table), from, at);
        assert!(rt; found == counts, "at {at}");
    }
    assert!(rt; counts_in(&rt, alloc, keys_from_2(&rt, alloc), 1, 150) == (2, 2, 2));
    assert!(rt; counts_in(&rt, alloc, keys_from_2(&rt, alloc), 51, 149) == (2, 1, 0));
}

#[test]
fn an_event_is_overtaken_at_the_next_of_its_key(rt: HostRuntime) {
    let events = some(&rt, rt.alloc());
    let found = (
        first_is_overtaken(&events, 199),
        first_is_overtaken(&events, 200),
    );
    assert!(rt; found == (Some(false), Some(true)));
}

/// How many events the first key has, how many of them until 199, and how many events other keys
/// have.
fn first_key_sizes(events: &[SharedEvent]) -> Option<(usize, usize, usize)>
    requires { IsStrictlySortedBy event_cmp events.now }
{
    if events.is_empty() {
        return None;
    }
    let (first, others) = split_first_key(events);
    Some((first.len(), place_until(first, 199), others.len()))
}

#[test]
fn a_list_is_split_behind_its_first_key(rt: HostRuntime) {
    assert!(rt; first_key_sizes(&some(&rt, rt.alloc())) == Some((2, 1, 2)));
}

/// The events at places, in that order.
fn at_places(
    rt: &impl Abort,
    alloc: Global,
    events: &[SharedEvent],
    places: &[usize],
) -> Vec<SharedEvent> {
    let mut found = Vec::new(alloc);
    for place in places {
        let event = events.get(*place).expect(rt, "the place is inside");
        let event = event.share().expect(rt, "there is memory");
        found.push(event).expect(rt, "there is memory");
    }
    found
}

/// Whether the events at places are all events in their order, once they are sorted.
fn are_all_when_sorted(rt: &impl Abort, alloc: Global, places: &[usize]) -> bool {
    let events = some(rt, alloc);
    let mut found = at_places(rt, alloc, &events, places);
    sort_events(&mut found).expect(rt, "there is memory");
    found.as_slice() == events.as_slice()
}

#[test]
fn events_of_several_lists_are_put_in_order_once_each(rt: HostRuntime) {
    assert!(rt; are_all_when_sorted(&rt, rt.alloc(), &[3, 1, 0, 2, 1, 3]));
}

/// How many events a key of table 1 has above an instant, up to another, and where they begin.
fn count_of_key(
    rt: &impl Abort,
    alloc: Global,
    number: u8,
    after: Instant,
    last: Instant,
    near: usize,
) -> (usize, usize) {
    let events = some(rt, alloc);
    let key = bytes(rt, alloc, 1, number);
    let (found, place) = events_of_key(&events, &key, after, last, near);
    (found.len(), place)
}

/// A key of table 1, an instant, another, and how many events of the key are above the first up to
/// the other, and where they begin.
const SPANS: &[(u8, Instant, Instant, (usize, usize))] = &[
    (1, 0, u64::MAX, (2, 0)),
    (1, 100, 200, (1, 1)),
    (1, 99, 199, (1, 0)),
    (1, 200, u64::MAX, (0, 2)),
    (1, 200, 99, (0, 2)),
    (2, 149, 150, (1, 2)),
    (3, 0, u64::MAX, (0, 3)),
];

#[test]
fn the_events_of_a_key_are_those_of_a_span(rt: HostRuntime) {
    for near in [0, 1, 2, 3, 4, 5, usize::MAX] {
        for (number, after, last, span) in SPANS {
            let found = count_of_key(&rt, rt.alloc(), *number, *after, *last, near);
            assert!(rt; found == *span, "key {number} above {after} near {near}");
        }
    }
}

/// Six changes of each of these keys of table 1, at 10, 20 and so on.
fn changes_of(rt: &impl Abort, alloc: Global, numbers: &[u8]) -> Vec<SharedEvent>
    ensures { IsStrictlySortedBy event_cmp result.items }
{
    let mut events = Vec::new(alloc);
    for number in numbers {
        for at in [10, 20, 30, 40, 50, 60] {
            let event = change(rt, alloc, bytes(rt, alloc, 1, *number), at, true);
            events.push(event).expect(rt, "there is memory");
        }
    }
    sort_events(&mut events).expect(rt, "there is memory");
    events
}

/// Whether a place is found, searched as a whole and from each place nearby.
fn is_place(events: &[SharedEvent], key: &KeyBytes, instant: Instant, place: usize) -> bool
    requires { IsStrictlySortedBy event_cmp events.now }
{
    for near in 0..events.len() + 4 {
        if place_from(events, key, instant, near) != place {
            return false;
        }
    }
    place_from(events, key, instant, usize::MAX) == place
        && place_after(events, key, instant) == place
}

fn is_place_in(
    rt: &impl Abort,
    alloc: Global,
    numbers: &[u8],
    number: u8,
    instant: Instant,
    place: usize,
) -> bool {
    let events = changes_of(rt, alloc, numbers);
    is_place(&events, &bytes(rt, alloc, 1, number), instant, place)
}

/// Keys with six changes each, a key, an instant, and the place after them among the changes.
const PLACES: &[(&[u8], u8, Instant, usize)] = &[
    (&[2, 4, 6], 1, u64::MAX, 0),
    (&[2, 4, 6], 2, 0, 0),
    (&[2, 4, 6], 2, 9, 0),
    (&[2, 4, 6], 2, 10, 1),
    (&[2, 4, 6], 2, 39, 3),
    (&[2, 4, 6], 2, 60, 6),
    (&[2, 4, 6], 3, 30, 6),
    (&[2, 4, 6], 4, 0, 6),
    (&[2, 4, 6], 4, 10, 7),
    (&[2, 4, 6], 4, 30, 9),
    (&[2, 4, 6], 4, u64::MAX, 12),
    (&[2, 4, 6], 5, 10, 12),
    (&[2, 4, 6], 6, 49, 16),
    (&[2, 4, 6], 6, 50, 17),
    (&[2, 4, 6], 6, 60, 18),
    (&[2, 4, 6], 7, 0, 18),
    (&[], 1, 10, 0),
    (&[], 2, 10, 0),
];

#[test]
fn a_place_is_found_from_each_place_nearby(rt: HostRuntime) {
    for (numbers, number, instant, place) in PLACES {
        let is_found = is_place_in(&rt, rt.alloc(), numbers, *number, *instant, *place);
        assert!(rt; is_found, "key {number} at {instant}");
    }
}
