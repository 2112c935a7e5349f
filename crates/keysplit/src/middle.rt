//! The key at which a full data node is split.
ghost use Rattle.std.specs.Prelude.{◌≡◌, ◌<◌, ◌≤◌, ◌↔◌, None, IsTrue, IfSome, length, option_copied};
ghost use Rattle.values.specs.Events.{event_cmp};
ghost use Rattle.std.specs.List.Sorted.{IsStrictlySortedBy};
ghost use Rattle.keyrange.specs.Cut.{is_key_inside, halves_by_key};
ghost use Rattle.datanode.specs.Cut.{cut};
ghost use Rattle.keysplit.specs.Middle.{IsOfOneKey, key_at, next_key, middle_key};

use datanode::DataNode;
use eventlist::place_behind_key;
use values::{KeyBytes, SharedEvent};

/// Returns the key at place 32 of the events, or the next above it where it is the first one's.
pub fn middle_key(node: &DataNode) -> Option<&KeyBytes>
    requires { 33 ≤ length node.now.events }
    ensures key { option_copied result ≡ middle_key node.now.events }
    ensures none { option_copied result ≡ None ↔ IsOfOneKey node.now.events }
    ensures inside { IfSome (option_copied result) (λ k. IsTrue (is_key_inside node.now.rect k)) }
    ensures both { IfSome (option_copied result) (λ k.
        IfSome (halves_by_key node.now.rect k) (λ h.
        (0 < length (cut h.0 node.now.events)) × (0 < length (cut h.1 node.now.events)))) }
{
    middle_of(node.events())
}

fn middle_of(events: &[SharedEvent]) -> Option<&KeyBytes>
    requires sorted { IsStrictlySortedBy event_cmp events.now }
    requires enough { 33 ≤ length events.now }
    ensures { option_copied result ≡ middle_key events.now }
{
    let first = events[0].event().key();
    let middle = events[32].event().key();
    if first.cmp(middle).is_eq() {
        next_key(events, first)
    } else {
        Some(middle)
    }
}

/// The least key of an event above another.
fn next_key<'a>(events: &'a [SharedEvent], key: &KeyBytes) -> Option<&'a KeyBytes>
    requires { IsStrictlySortedBy event_cmp events.now }
    ensures { option_copied result ≡ next_key key.now events.now }
{
    key_at(events, place_behind_key(events, key))
}

fn key_at<'a>(events: &'a [SharedEvent], place: usize) -> Option<&'a KeyBytes>
    ensures { option_copied result ≡ key_at events.now place }
{
    match events.get(place) {
        None => None,
        Some(event) => Some(event.event().key()),
    }
}
