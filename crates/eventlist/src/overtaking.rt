//! Whether an event's row still holds, as the event after it shows.
ghost use Rattle.std.specs.Prelude.{◌≡◌, option_copied};
ghost use Rattle.eventlist.specs.Overtaking.{overtakes, is_overtaken};

use values::{Event, Instant, SharedEvent};

/// Whether an event is a later one of another's key, at the instant or before it.
#[tactic(auto, unfolding(crate::specs::Overtaking::overtakes))]
fn overtakes(event: &Event, instant: Instant, other: &Event) -> bool
    ensures { result ≡ overtakes event.now instant other.now }
{
    event.key().cmp(other.key()).is_eq() && event.at() < other.at() && other.at() <= instant
}

/// Tells whether the next event is a later one of an event's key, at the instant or before it.
pub fn is_overtaken(event: &Event, instant: Instant, next: Option<&SharedEvent>) -> bool
    ensures { result ≡ is_overtaken event.now instant (option_copied next.entry) }
{
    match next {
        None => false,
        Some(other) => overtakes(event, instant, other.event()),
    }
}
