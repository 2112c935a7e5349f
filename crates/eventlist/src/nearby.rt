//! Places in lists of events, searched from a place nearby.
ghost use Rattle.std.specs.Prelude.{◌≡◌, ◌≤◌, true, false, length};
ghost use Rattle.std.specs.List.{slice_get};
ghost use Rattle.std.specs.List.Sorted.{IsStrictlySortedBy};
ghost use Rattle.values.specs.Events.{event_cmp};
ghost use Rattle.eventlist.specs.Nearby.{IsPlaceWithin};
ghost use Rattle.eventlist.specs.Place.{AreFirst, is_until, is_until_at};

use crate::place::{is_until_at, place_after};
use values::{Instant, KeyBytes, SharedEvent};

/// Counts the events of lesser keys, and those of the key at the instant or before it, as
/// [`place_after`] does. The place is searched from `near` outward in steps that double, so one
/// that is close by costs few looks. Any number may be `near`: above the length it says nothing of
/// the place, and the whole list is searched in halves.
pub fn place_from(events: &[SharedEvent], key: &KeyBytes, instant: Instant, near: usize) -> usize
    requires { IsStrictlySortedBy event_cmp events.now }
    ensures bound { result ≤ length events.now }
    ensures first { AreFirst (is_until key.now instant) events.now result }
{
    let (low, high) = bounds_around(events, key, instant, near);
    let within = events.split_at(high).0.split_at(low).1;
    low + place_after(within, key, instant)
}

/// Two places that the one in question lies between.
fn bounds_around(
    events: &[SharedEvent],
    key: &KeyBytes,
    instant: Instant,
    near: usize,
) -> (usize, usize)
    requires { IsStrictlySortedBy event_cmp events.now }
    ensures { IsPlaceWithin key.now instant events.now result.0 result.1 }
{
    if near > events.len() {
        (0, events.len())
    } else if is_until_at(events, near, key, instant) {
        bounds_behind(events, key, instant, near)
    } else {
        bounds_before(events, key, instant, near)
    }
}

/// Two places that the one in question lies between, where it is behind `near`.
fn bounds_behind(
    events: &[SharedEvent],
    key: &KeyBytes,
    instant: Instant,
    near: usize,
) -> (usize, usize)
    requires sorted { IsStrictlySortedBy event_cmp events.now }
    requires behind { is_until_at key.now instant (slice_get events.now near) ≡ true }
    ensures { IsPlaceWithin key.now instant events.now result.0 result.1 }
{
    let mut low = near + 1;
    let mut step = 1;
    while is_until_at(events, low + step - 1, key, instant) {
        low += step;
        step *= 2;
    }
    (low, events.len().min(low + step - 1))
}

/// Two places that the one in question lies between, where it is `near` or before it.
fn bounds_before(
    events: &[SharedEvent],
    key: &KeyBytes,
    instant: Instant,
    near: usize,
) -> (usize, usize)
    requires sorted { IsStrictlySortedBy event_cmp events.now }
    requires bound { near ≤ length events.now }
    requires before { is_until_at key.now instant (slice_get events.now near) ≡ false }
    ensures { IsPlaceWithin key.now instant events.now result.0 result.1 }
{
    let mut high = near;
    let mut step = 1;
    while step <= high {
        if is_until_at(events, high - step, key, instant) {
            return (high - step + 1, high);
        }
        high -= step;
        step *= 2;
    }
    (0, high)
}
