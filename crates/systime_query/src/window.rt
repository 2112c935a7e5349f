//! The events that a form asks of, and the versions that they begin.
ghost use Rattle.std.specs.Prelude.{◌≡◌, ◌≤◌, ◌&&◌, IfOk, IsTrue, filter};
ghost use Rattle.std.specs.List.Sorted.{IsStrictlySortedBy};
ghost use Rattle.values.specs.Events.{event_cmp, is_bytes};
ghost use Rattle.values.specs.KeyEncoding.{IsShortKey, bytes_of_key};
ghost use Rattle.values.specs.Memory.{OnlyMemory};
ghost use Rattle.keyrange.specs.Range.{is_key_in};
ghost use Rattle.eventlist.specs.Listing.{is_in_window};
ghost use Rattle.staging.specs.Staged.{AreInSearch};
ghost use Rattle.staging.specs.tsbtree.View.{events};
ghost use Rattle.systime_query.specs.Selection.{next_of};
ghost use Rattle.systime_query.specs.Window.{end_of, shown_in};

use crate::period::{is_same, shown_of};
use crate::push::push_some;
use blocks::Blocks;
use eventlist::sort_events;
use keyrange::KeyRange;
use searchrange::Search;
use staging::View;
use std::alloc::Global;
use values::{Event, Form, Instant, Key, Mem, SharedEvent, Shown, key_bytes};

/// Lists the events of a range of keys whose rows stand at the first instant, and those after it up
/// to the last, by key and then by instant.
pub(crate) fn window_events<B: Blocks>(
    alloc: Global,
    blocks: &mut B,
    view: &View,
    range: &KeyRange,
    first: Instant,
    last: Instant,
) -> Mem<Vec<SharedEvent>>
    requires { first ≤ last }
    ensures ok { IfOk result (λ v. v.items
        ≡ filter (λ e. is_in_window (events view.now) first last e && is_key_in range.now e.key)
        (events view.now)) }
    ensures ordered { IfOk result (λ _. IsStrictlySortedBy event_cmp (events view.now)) }
    ensures err { OnlyMemory result }
{
    let mut found = view.standing_with(alloc, blocks, range, first)?;
    if first < last {
        let mut later = view.events_with(alloc, blocks, range, first + 1, last)?;
        found.append(&mut later)?;
    }
    sort_events(&mut found)?;
    Ok(found)
}

/// Lists the same events of one key, whose bytes are in a range.
pub(crate) fn key_events<B: Blocks>(
    alloc: Global,
    blocks: &mut B,
    view: &View,
    key: &Key,
    range: &KeyRange,
    first: Instant,
    last: Instant,
) -> Mem<Vec<SharedEvent>>
    requires short { IsShortKey key.now }
    requires inside { IsTrue (is_key_in range.now (bytes_of_key key.now)) }
    ensures ok { IfOk result (λ v. v.items ≡ filter
        (λ e. is_in_window (events view.now) first last e && is_bytes (bytes_of_key key.now) e.key)
        (events view.now)) }
    ensures ordered { IfOk result (λ _. IsStrictlySortedBy event_cmp (events view.now)) }
    ensures err { OnlyMemory result }
{
    let bytes = key_bytes(alloc, key)?;
    let found = view.key_window(alloc, blocks, &bytes, range, first, last)?;
    Ok(found)
}

/// Returns the versions that a query selects, of events in a window that ends with an instant.
pub(crate) fn shown_in(
    alloc: Global,
    view: &View,
    found: &[SharedEvent],
    last: Instant,
    form: Form,
    search: &Search<'_>,
) -> Mem<Vec<Shown>>
    ensures ok { IfOk result (λ v. AreInSearch search.now.table search.now.range found.now
        → v.items
        ≡ shown_in (events view.now) last search.now.table form search.now.keys found.now) }
    ensures err { OnlyMemory result }
{
    let mut shown = Vec::with_capacity(alloc, found.len())?;
    let mut rest = found;
    while let [event, behind @ ..] = rest {
        rest = behind;
        let end = end_of(view, last, event.event(), behind);
        push_some(&mut shown, shown_of(alloc, event, end, form, search)?)?;
    }
    Ok(shown)
}

/// Returns when the version of an event ends: at the event behind it, or else at its key's first
/// change after the last instant.
fn end_of(view: &View, last: Instant, event: &Event, behind: &[SharedEvent]) -> Option<Instant>
    ensures { result ≡ end_of (events view.now) last event.now behind.now }
{
    match next_of(event, behind) {
        Some(next) => Some(next),
        None => view.next_change(event.key(), last),
    }
}

/// Returns the instant of the first of the events, where it is of the same key.
fn next_of(event: &Event, behind: &[SharedEvent]) -> Option<Instant>
    ensures { result ≡ next_of event.now behind.now }
{
    match behind {
        [next, ..] => {
            let next = next.event();
            if is_same(event.key(), next.key()) {
                Some(next.at())
            } else {
                None
            }
        }
        [] => None,
    }
}
