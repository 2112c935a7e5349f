//! Which events a rectangle holds.
ghost use Rattle.std.specs.Prelude.{◌≡◌, ◌<◌, IfOk, HoldsAt, length, filter, option_copied};
ghost use Rattle.values.specs.Memory.{OnlyMemory};
ghost use Rattle.datanode.specs.Cut.{IsMap, is_carried, is_held_in, cut, stays_to};

use eventlist::{is_overtaken, of_range};
use keyrange::{Rect, TimeRange};
use std::alloc::Global;
use values::{Event, Instant, Mem, SharedEvent};

/// Tells whether the event at a place is carried to an instant, as the event after it shows.
pub fn is_carried(events: &[SharedEvent], place: usize, instant: Instant) -> bool
    requires map { IsMap events.now }
    requires inside { place < length events.now }
    ensures { HoldsAt (λ e. result ≡ is_carried events.now instant e) events.now place }
{
    stays_to(events[place].event(), instant, events.get(place + 1))
}

/// Whether an event is carried to an instant; `next` is the event after it.
fn stays_to(event: &Event, instant: Instant, next: Option<&SharedEvent>) -> bool
    ensures { result ≡ stays_to event.now instant (option_copied next.entry) }
{
    event.at() < instant && event.row().is_some() && !is_overtaken(event, instant, next)
}

/// Whether the event at a place is at an instant of the range, or is carried to the first.
fn is_held_in(events: &[SharedEvent], place: usize, time: TimeRange) -> bool
    requires map { IsMap events.now }
    requires inside { place < length events.now }
    ensures { HoldsAt (λ e. result ≡ is_held_in time events.now e) events.now place }
{
    time.contains(events[place].event().at()) || is_carried(events, place, time.from)
}

/// Lists the events that the rectangle holds, without copying events. The events of its keys show
/// which of them are carried: an event is overtaken only by one of its own key.
pub(crate) fn cut(alloc: Global, events: &[SharedEvent], rect: &Rect) -> Mem<Vec<SharedEvent>>
    requires { IsMap events.now }
    ensures ok { IfOk result (λ v. v.items ≡ cut rect.now events.now) }
    ensures err { OnlyMemory result }
{
    held_events(alloc, of_range(events, rect.keys()), rect.time())
}

/// Lists the events at the instants of a range, and those carried to the first. The list has no
/// more room than they need: most of them are history, and come to be no more.
fn held_events(alloc: Global, events: &[SharedEvent], time: TimeRange) -> Mem<Vec<SharedEvent>>
    requires { IsMap events.now }
    ensures ok { IfOk result (λ v. v.items ≡ filter (is_held_in time events.now) events.now) }
    ensures err { OnlyMemory result }
{
    let mut found = Vec::with_capacity(alloc, events.len())?;
    for place in 0..events.len() {
        if is_held_in(events, place, time) {
            found.push(events[place].share()?)?;
        }
    }
    found.shrink_to_fit();
    Ok(found)
}
