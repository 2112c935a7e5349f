//! Events of a list, as new lists that share them.
ghost use Rattle.std.specs.Prelude.{◌≡◌, ◌≤◌, ◌&&◌, IfOk, length, nat_le, filter};
ghost use Rattle.std.specs.List.Sorted.{IsStrictlySortedBy};
ghost use Rattle.values.specs.Events.{event_cmp};
ghost use Rattle.values.specs.Memory.{OnlyMemory};
ghost use Rattle.keyrange.specs.Range.{is_key_in};
ghost use Rattle.eventlist.specs.Listing.{events_in, standing, stands_at};

use crate::key_group::{split_first_key, standing_of};
use crate::range::of_range;
use keyrange::KeyRange;
use std::alloc::Global;
use values::{Instant, Mem, SharedEvent};

/// Lists the events of a range of keys, from an instant to another and with it, in order.
pub fn events_in(
    alloc: Global,
    events: &[SharedEvent],
    range: &KeyRange,
    from: Instant,
    to: Instant,
) -> Mem<Vec<SharedEvent>>
    requires { IsStrictlySortedBy event_cmp events.now }
    ensures ok { IfOk result (λ v. v.items ≡ events_in events.now range.now from to) }
    ensures err { OnlyMemory result }
{
    Ok(events_between(alloc, of_range(events, range), from, to)?)
}

/// Of some events, those from an instant to another and with it.
fn events_between(
    alloc: Global,
    events: &[SharedEvent],
    from: Instant,
    to: Instant,
) -> Mem<Vec<SharedEvent>>
    ensures ok { IfOk result (λ v. v.items
        ≡ filter (λ e. nat_le from e.at && nat_le e.at to) events.now) }
    ensures err { OnlyMemory result }
{
    let mut found = Vec::new(alloc);
    for event in events {
        let at = event.event().at();
        if from <= at && at <= to {
            found.push(event.share()?)?;
        }
    }
    Ok(found)
}

/// Lists, by key, the event of each key of a range whose row holds at an instant. It jumps from key
/// to key.
pub fn standing(
    alloc: Global,
    events: &[SharedEvent],
    range: &KeyRange,
    instant: Instant,
) -> Mem<Vec<SharedEvent>>
    requires { IsStrictlySortedBy event_cmp events.now }
    ensures ok { IfOk result (λ v. v.items ≡ standing events.now (is_key_in range.now) instant) }
    ensures err { OnlyMemory result }
{
    Ok(all_standing(alloc, of_range(events, range), instant)?)
}

fn all_standing(alloc: Global, events: &[SharedEvent], instant: Instant) -> Mem<Vec<SharedEvent>>
    requires { IsStrictlySortedBy event_cmp events.now }
    ensures ok { IfOk result (λ v. v.items ≡ filter (stands_at events.now instant) events.now) }
    ensures err { OnlyMemory result }
{
    let mut found = Vec::new(alloc);
    let mut rest = events;
    while !rest.is_empty() {
        let (of_key, behind) = split_first_key(rest);
        if let Some(event) = standing_of(of_key, instant) {
            found.push(event.share()?)?;
        }
        rest = behind;
    }
    Ok(found)
}
