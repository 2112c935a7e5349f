//! The events of a range of keys, which stand together.
ghost use Rattle.std.specs.Prelude.{◌≡◌, ◌≤◌, false, length, filter};
ghost use Rattle.std.specs.List.{slice_get, AllWithin};
ghost use Rattle.std.specs.List.Sorted.{IsStrictlySortedBy};
ghost use Rattle.values.specs.Events.{event_cmp};
ghost use Rattle.keyrange.specs.Range.{is_below, is_before_end, is_key_in};
ghost use Rattle.eventlist.specs.KeyGroup.{is_below_key};
ghost use Rattle.eventlist.specs.Place.{AreFirst};

use crate::place::place_of_key;
use keyrange::KeyRange;
use values::{KeyBytes, SharedEvent};

/// Returns the events of a range of keys.
pub fn of_range<'a>(events: &'a [SharedEvent], range: &KeyRange) -> &'a [SharedEvent]
    requires { IsStrictlySortedBy event_cmp events.now }
    ensures are { result.now ≡ filter (λ e. is_key_in range.now e.key) events.now }
    ensures sorted { IsStrictlySortedBy event_cmp result.now }
{
    let rest = events.split_at(place_of_key(events, &range.lo)).1;
    rest.split_at(place_of_end(rest, &range.hi)).0
}

/// Counts the events of keys before the end, which may be none.
pub(crate) fn place_of_end(events: &[SharedEvent], end: &Option<KeyBytes>) -> usize
    requires { IsStrictlySortedBy event_cmp events.now }
    ensures bound { result ≤ length events.now }
    ensures first { AreFirst (λ e. is_before_end e.key end.now) events.now result }
{
    match end {
        None => events.len(),
        Some(end) => place_of_key(events.split_at(reach_below(events, end)).0, end),
    }
}

/// A place from which on no event is of a lesser key. It takes steps that double: a range of few
/// events costs few looks.
fn reach_below(events: &[SharedEvent], key: &KeyBytes) -> usize
    requires { IsStrictlySortedBy event_cmp events.now }
    ensures bound { result ≤ length events.now }
    ensures none { AllWithin (λ e. is_below e.key key.now ≡ false)
        events.now result (length events.now) }
{
    let mut reach = 1;
    while is_below_at(events, reach, key) {
        reach *= 2;
    }
    reach.min(events.len())
}

/// Whether there is an event at a place, of a lesser key.
fn is_below_at(events: &[SharedEvent], place: usize, key: &KeyBytes) -> bool
    ensures { result ≡ is_below_key key.now (slice_get events.now place) }
{
    match events.get(place) {
        None => false,
        Some(event) => event.event().key().cmp(key).is_lt(),
    }
}
