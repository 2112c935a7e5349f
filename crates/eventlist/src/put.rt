//! An event is put in its place.
ghost use Rattle.std.specs.Prelude.{◌≡◌, OnOk, OnErr};
ghost use Rattle.std.specs.List.{slice_get};
ghost use Rattle.std.specs.List.Sorted.{IsStrictlySortedBy};
ghost use Rattle.values.specs.Events.{event_cmp, put_event};
ghost use Rattle.values.specs.Memory.{OnlyMemory};
ghost use Rattle.eventlist.specs.Put.{is_same};

use crate::place::place_of;
use values::{Mem, SharedEvent};

fn is_there(events: &[SharedEvent], place: usize, event: &SharedEvent) -> bool
    ensures { result ≡ is_same event.now (slice_get events.now place) }
{
    match events.get(place) {
        None => false,
        Some(other) => event == other,
    }
}

/// Puts an event in its place; it replaces one of its key and instant. Where memory runs out
/// nothing has changed.
pub fn put_event(events: &mut Vec<SharedEvent>, event: SharedEvent) -> Mem<()>
    requires { IsStrictlySortedBy event_cmp events.old.items }
    ensures ok { OnOk result (events.new.items ≡ put_event event events.old.items) }
    ensures err { OnErr result (events.new.items ≡ events.old.items) }
    ensures sorted { IsStrictlySortedBy event_cmp events.new.items }
    ensures memory { OnlyMemory result }
{
    let place = place_of(events, event.event());
    if is_there(events, place, &event) {
        events[place] = event;
    } else {
        events.insert(place, event)?;
    }
    Ok(())
}
