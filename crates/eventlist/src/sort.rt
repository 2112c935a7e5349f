//! Events from several lists are put in order.
ghost use Rattle.std.specs.Prelude.{◌≡◌, Contains, OnOk, OnErr};
ghost use Rattle.std.specs.List.Sorted.{IsStrictlySortedBy};
ghost use Rattle.values.specs.Event.{Event as Change};
ghost use Rattle.values.specs.Events.{event_cmp};
ghost use Rattle.values.specs.Memory.{OnlyMemory};
ghost use Rattle.eventlist.specs.Sort.{HasTie};

use values::{Mem, SharedEvent};

/// Puts events in order, and keeps one for each key and instant. Where memory runs out nothing has
/// changed.
pub fn sort_events(events: &mut Vec<SharedEvent>) -> Mem<()>
    ensures sorted { OnOk result (IsStrictlySortedBy event_cmp events.new.items) }
    ensures from { OnOk result ((e : Change) →
        Contains events.new.items e → Contains events.old.items e) }
    ensures kept { OnOk result ((e : Change) →
        Contains events.old.items e → HasTie e events.new.items) }
    ensures err { OnErr result (events.new.items ≡ events.old.items) }
    ensures memory { OnlyMemory result }
{
    events.sort()?;
    events.dedup();
    Ok(())
}
