//! The events of one key, which stand together.
ghost use Rattle.std.specs.Prelude.{◌≡◌, ◌≤◌, ◌<◌, ◌++◌, false, Some, None, is_some, length, nat_le, not, option_copied, filter, if◌then◌else◌};
ghost use Rattle.std.specs.List.{slice_get, AllWithin};
ghost use Rattle.std.specs.Option.{option_to_list};
ghost use Rattle.std.specs.List.Sorted.{IsStrictlySortedBy};
ghost use Rattle.values.specs.Events.{event_cmp};
ghost use Rattle.keyrange.specs.Range.{is_below};
ghost use Rattle.eventlist.specs.Listing.{stands_at, is_of_key};
ghost use Rattle.eventlist.specs.Place.{AreFirst, is_until};
ghost use Rattle.eventlist.specs.KeyGroup.{is_up_to, first_key, AreOfKey, AreAbove};

use crate::nearby::place_from;
use crate::place::{is_until_at, place_behind_key};
use values::{Instant, KeyBytes, SharedEvent};

/// Splits off the events of the first one's key from those behind them. It takes as long as the
/// first are many, in steps that double.
pub fn split_first_key(events: &[SharedEvent]) -> (&[SharedEvent], &[SharedEvent])
    requires sorted { IsStrictlySortedBy event_cmp events.now }
    requires some { 0 < length events.now }
    ensures whole { result.0.now ++ result.1.now ≡ events.now }
    ensures some { 0 < length result.0.now }
    ensures one_key { AreOfKey (first_key events.now) result.0.now }
    ensures others { AreAbove (first_key events.now) result.1.now }
    ensures front_sorted { IsStrictlySortedBy event_cmp result.0.now }
    ensures back_sorted { IsStrictlySortedBy event_cmp result.1.now }
{
    let key = events[0].event().key();
    events.split_at(end_of_key(events, key))
}

/// How many events are of the key or of lesser ones, where they are few.
fn end_of_key(events: &[SharedEvent], key: &KeyBytes) -> usize
    requires { IsStrictlySortedBy event_cmp events.now }
    ensures bound { result ≤ length events.now }
    ensures first { AreFirst (λ e. not (is_below key.now e.key)) events.now result }
{
    let reach = reach_of(events, key);
    place_behind_key(events.split_at(reach).0, key)
}

/// A place from which on no event is of the key or of a lesser one.
fn reach_of(events: &[SharedEvent], key: &KeyBytes) -> usize
    requires { IsStrictlySortedBy event_cmp events.now }
    ensures bound { result ≤ length events.now }
    ensures none { AllWithin (λ e. not (is_below key.now e.key) ≡ false)
        events.now result (length events.now) }
{
    let mut reach = 1;
    while is_up_to(events, reach, key) {
        reach *= 2;
    }
    reach.min(events.len())
}

/// Whether there is an event at a place, of the key or of a lesser one.
fn is_up_to(events: &[SharedEvent], place: usize, key: &KeyBytes) -> bool
    ensures { result ≡ is_up_to key.now (slice_get events.now place) }
{
    match events.get(place) {
        None => false,
        Some(event) => !key.cmp(event.event().key()).is_lt(),
    }
}

/// Returns a key's events above an instant, up to another and with it, and the place at which they
/// begin. Their place is searched from `near`, as by [`place_from`]: it may be the place in another
/// list, or any number.
pub fn events_of_key<'a>(
    events: &'a [SharedEvent],
    key: &KeyBytes,
    after: Instant,
    last: Instant,
    near: usize,
) -> (&'a [SharedEvent], usize)
    requires { IsStrictlySortedBy event_cmp events.now }
    ensures are { result.0.now ≡ filter (is_of_key key.now after last) events.now }
    ensures place { AreFirst (is_until key.now after) events.now result.1 }
{
    let place = place_from(events, key, after, near);
    let rest = events.split_at(place).1;
    (rest.split_at(place_near(rest, key, last)).0, place)
}

/// How many events are of lesser keys, or of the key and at the instant or before it, where they
/// are few: it takes as long as they are many.
fn place_near(events: &[SharedEvent], key: &KeyBytes, instant: Instant) -> usize
    requires { IsStrictlySortedBy event_cmp events.now }
    ensures bound { result ≤ length events.now }
    ensures first { AreFirst (is_until key.now instant) events.now result }
{
    let mut place = 0;
    while is_until_at(events, place, key, instant) {
        place += 1;
    }
    place
}

/// Counts a key's events at the instant or before it.
pub fn place_until(events: &[SharedEvent], instant: Instant) -> usize
    requires sorted { IsStrictlySortedBy event_cmp events.now }
    requires one_key { AreOfKey (first_key events.now) events.now }
    ensures bound { result ≤ length events.now }
    ensures first { AreFirst (λ e. nat_le e.at instant) events.now result }
{
    events.partition_point(|event| event.event().at() <= instant)
}

/// Returns that of a key's events whose row holds at the instant.
pub(crate) fn standing_of(events: &[SharedEvent], instant: Instant) -> Option<&SharedEvent>
    requires sorted { IsStrictlySortedBy event_cmp events.now }
    requires one_key { AreOfKey (first_key events.now) events.now }
    ensures { option_to_list (option_copied result)
        ≡ filter (stands_at events.now instant) events.now }
{
    let place = place_until(events, instant);
    if place == 0 {
        return None;
    }
    with_row(&events[place - 1])
}

fn with_row(event: &SharedEvent) -> Option<&SharedEvent>
    ensures { option_copied result ≡ (if is_some event.now.row then Some event.now else None) }
{
    if event.event().row().is_some() {
        Some(event)
    } else {
        None
    }
}
