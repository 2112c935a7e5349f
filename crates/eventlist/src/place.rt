//! Places in lists of shared events, which are in order.
ghost use Rattle.std.specs.Prelude.{◌≡◌, ◌≤◌, Some, length, not, option_copied};
ghost use Rattle.std.specs.List.{slice_get};
ghost use Rattle.std.specs.List.Sorted.{IsStrictlySortedBy};
ghost use Rattle.values.specs.Events.{event_cmp, event_until, event_since};
ghost use Rattle.keyrange.specs.Range.{is_below};
ghost use Rattle.eventlist.specs.Place.{AreFirst, is_until, is_until_at, of_key, last_event, since, is_before};

use std::cmp::Ordering;
use values::{Event, Instant, KeyBytes, SharedEvent};

/// Whether an event is of a lesser key, or of the key and at the instant or before it.
pub(crate) fn is_until(key: &KeyBytes, instant: Instant, event: &Event) -> bool
    ensures { result ≡ is_until key.now instant event.now }
{
    match event.key().cmp(key) {
        Ordering::Less => true,
        Ordering::Equal => event.at() <= instant,
        Ordering::Greater => false,
    }
}

/// Whether there is an event at a place, of a lesser key, or of the key and at the instant or
/// before it.
pub(crate) fn is_until_at(
    events: &[SharedEvent],
    place: usize,
    key: &KeyBytes,
    instant: Instant,
) -> bool
    ensures { result ≡ is_until_at key.now instant (slice_get events.now place) }
{
    match events.get(place) {
        None => false,
        Some(event) => is_until(key, instant, event.event()),
    }
}

/// Counts the events of lesser keys, and those of the key at the instant or before it.
pub fn place_after(events: &[SharedEvent], key: &KeyBytes, instant: Instant) -> usize
    requires { IsStrictlySortedBy event_cmp events.now }
    ensures bound { result ≤ length events.now }
    ensures first { AreFirst (is_until key.now instant) events.now result }
{
    events.partition_point(|event| is_until(key, instant, event.event()))
}

/// Finds a key's last event at an instant or before it.
pub fn event_until<'a>(
    events: &'a [SharedEvent],
    key: &KeyBytes,
    instant: Instant,
) -> Option<&'a Event>
    requires { IsStrictlySortedBy event_cmp events.now }
    ensures { option_copied result ≡ event_until events.now key.now instant }
{
    let place = place_after(events, key, instant);
    if place == 0 {
        return None;
    }
    of_key(key, events[place - 1].event())
}

fn of_key<'a>(key: &KeyBytes, event: &'a Event) -> Option<&'a Event>
    ensures { option_copied result ≡ of_key key.now (Some event.now) }
{
    if key.cmp(event.key()).is_eq() {
        Some(event)
    } else {
        None
    }
}

/// Finds the instant of a key's last event above `start`, if there is one.
pub fn event_since(events: &[SharedEvent], key: &KeyBytes, start: Instant) -> Option<Instant>
    requires { IsStrictlySortedBy event_cmp events.now }
    ensures { result ≡ event_since events.now start key.now }
{
    since(start, last_event(events, key))
}

/// Finds a key's last event.
pub fn last_event<'a>(events: &'a [SharedEvent], key: &KeyBytes) -> Option<&'a Event>
    requires { IsStrictlySortedBy event_cmp events.now }
    ensures { option_copied result ≡ last_event events.now key.now }
{
    let end = place_behind_key(events, key);
    if end == 0 {
        return None;
    }
    of_key(key, events[end - 1].event())
}

/// The event's instant, where it is above another.
fn since(start: Instant, event: Option<&Event>) -> Option<Instant>
    ensures { result ≡ since start (option_copied event.entry) }
{
    match event {
        Some(event) if start < event.at() => Some(event.at()),
        _ => None,
    }
}

/// Counts the events before another.
pub fn place_of(events: &[SharedEvent], event: &Event) -> usize
    requires { IsStrictlySortedBy event_cmp events.now }
    ensures bound { result ≤ length events.now }
    ensures first { AreFirst (is_before event.now) events.now result }
{
    events.partition_point(|other| other.event().order(event).is_lt())
}

/// Counts the events of lesser keys.
pub fn place_of_key(events: &[SharedEvent], key: &KeyBytes) -> usize
    requires { IsStrictlySortedBy event_cmp events.now }
    ensures bound { result ≤ length events.now }
    ensures first { AreFirst (λ e. is_below e.key key.now) events.now result }
{
    events.partition_point(|event| event.event().key().cmp(key).is_lt())
}

/// Counts the events of the key or of lesser ones.
pub fn place_behind_key(events: &[SharedEvent], key: &KeyBytes) -> usize
    requires { IsStrictlySortedBy event_cmp events.now }
    ensures bound { result ≤ length events.now }
    ensures first { AreFirst (λ e. not (is_below key.now e.key)) events.now result }
{
    events.partition_point(|event| !key.cmp(event.event().key()).is_lt())
}
