//! How many events the current half of a split would hold.
ghost use Rattle.std.specs.Prelude.{◌≡◌, ◌<◌, IfSome, HoldsAt, length, nat_le, ◌||◌, filter};
ghost use Rattle.keyrange.specs.Cut.{halves_by_time};
ghost use Rattle.datanode.specs.Cut.{IsMap, is_carried, cut};

use datanode::{DataNode, is_carried};
use values::{Instant, SharedEvent};

/// Whether the event at a place is of the current half.
fn stays(events: &[SharedEvent], place: usize, instant: Instant) -> bool
    requires map { IsMap events.now }
    requires inside { place < length events.now }
    ensures { HoldsAt (λ e. result ≡ (nat_le instant e.at || is_carried events.now instant e))
        events.now place }
{
    instant <= events[place].event().at() || is_carried(events, place, instant)
}

/// Counts the events from an instant on or carried to it: those that the current half would hold,
/// of a node that is split there.
pub fn stay_count(node: &DataNode, instant: Instant) -> usize
    ensures count { result
        ≡ length (filter (λ e. nat_le instant e.at || is_carried node.now.events instant e)
        node.now.events) }
    ensures half { IfSome (halves_by_time node.now.rect instant) (λ h.
        result ≡ length (cut h.1 node.now.events)) }
{
    let events = node.events();
    let mut count = 0;
    for place in 0..events.len() {
        if stays(events, place, instant) {
            count += 1;
        }
    }
    count
}
