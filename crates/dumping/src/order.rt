//! The order of changes by instant.
ghost use Rattle.std.specs.Prelude.{◌≡◌, ◌≤◌, ◌==◌, IfOk, length};
ghost use Rattle.std.specs.List.{prefix_len, range_with_len};
ghost use Rattle.dumping.specs.Order.{AreByInstant, instant_at};

use std::alloc::{AllocError, Global};
use values::{Instant, SharedEvent};

/// Lists the places of changes by instant, and at one instant by place.
pub(crate) fn places_by_instant(
    alloc: Global,
    events: &[SharedEvent],
) -> Result<Vec<usize>, AllocError>
    ensures { IfOk result (λ v. AreByInstant events.now v.items) }
{
    let mut places = all_places(alloc, events.len())?;
    places.sort_unstable_by_key(|place: &usize| -> (Instant, usize) {
        (instant_at(events, *place), *place)
    });
    Ok(places)
}

fn all_places(alloc: Global, count: usize) -> Result<Vec<usize>, AllocError>
    ensures { IfOk result (λ v. v.items ≡ range_with_len 0 count) }
{
    let mut places = Vec::with_capacity(alloc, count)?;
    for place in 0..count {
        places.push(place)?;
    }
    Ok(places)
}

/// Returns the instant of the change at a place; 0 where there is none.
pub(crate) fn instant_at(events: &[SharedEvent], place: usize) -> Instant
    ensures { result ≡ instant_at events.now place }
{
    match events.get(place) {
        None => 0,
        Some(shared) => shared.event().at(),
    }
}

/// Counts the first places whose changes are at an instant.
pub(crate) fn run_length(events: &[SharedEvent], places: &[usize], at: Instant) -> usize
    ensures is { result ≡ prefix_len (λ place. instant_at events.now place == at) places.now }
    ensures bound { result ≤ length places.now }
{
    places
        .iter()
        .take_while(|place| instant_at(events, **place) == at)
        .count()
}
