//! Ranges are listed in place: an event is made only where it is asked for, and no node.
ghost use Rattle.std.specs.Prelude.{◌≡◌, ◌++◌, OnOk, IfOk};
ghost use Rattle.values.specs.Memory.{OnlyMemory};
ghost use Rattle.values.specs.RowReading.{Parses};
ghost use Rattle.eventlist.specs.Listing.{events_in};
ghost use Rattle.keyrange.specs.Range.{is_before_end, is_key_in};
ghost use Rattle.datanode.specs.Node.{Node};
ghost use Rattle.blocks.specs.Block.{IsBlockOf};
ghost use Rattle.blocks.specs.Listing.{is_asked, next_asked, asked_of, events_asked};

use crate::event::{Parsed, event_from, point_from};
use crate::lookup::{events_place, past_row_field};
use keyrange::KeyRange;
use std::alloc::Global;
use values::{Event, Instant, KeyBytes, Mem, SharedEvent};

fn is_before_end(key: &[u8], end: &Option<KeyBytes>) -> bool
    ensures { result ≡ is_before_end key.now end.now }
{
    match end {
        None => true,
        Some(end) => key.cmp(end.bytes()).is_lt(),
    }
}

fn is_key_in(range: &KeyRange, key: &[u8]) -> bool
    ensures { result ≡ is_key_in range.now key.now }
{
    !key.cmp(range.lo.bytes()).is_lt() && is_before_end(key, &range.hi)
}

#[tactic(auto, unfolding(crate::specs::Listing::is_asked))]
fn is_asked(range: &KeyRange, from: Instant, to: Instant, key: &[u8], at: Instant) -> bool
    ensures { result ≡ is_asked range.now from to (key.now, at) }
{
    is_key_in(range, key) && from <= at && at <= to
}

/// The event at the start of bytes, where it is asked for, and the bytes after it; none from the
/// end of the range on.
#[tactic(auto, unfolding(crate::specs::Listing::next_asked))]
fn next_asked<'a>(
    alloc: Global,
    bytes: &'a [u8],
    range: &KeyRange,
    from: Instant,
    to: Instant,
) -> Mem<Parsed<'a, Option<Event>>>
    ensures ok { IfOk result (λ taken.
        Parses (λ event. event) taken (next_asked range.now from to bytes.now)) }
    ensures err { OnlyMemory result }
{
    let Some(((key, at), row)) = point_from(bytes) else {
        return Ok(None);
    };
    if is_asked(range, from, to, key, at) {
        return match event_from(alloc, bytes)? {
            None => Ok(None),
            Some((event, left)) => Ok(Some((Some(event), left))),
        };
    }
    if !is_before_end(key, &range.hi) {
        return Ok(None);
    }
    match past_row_field(row) {
        None => Ok(None),
        Some(left) => Ok(Some((None, left))),
    }
}

/// Adds an event, where there is one.
fn push_asked(alloc: Global, found: &mut Vec<SharedEvent>, event: Option<Event>) -> Mem<()>
    ensures ok { OnOk result (found.new.items ≡ found.old.items ++ asked_of event) }
    ensures err { OnlyMemory result }
{
    match event {
        None => Ok(()),
        Some(event) => Ok(found.push(SharedEvent::new(alloc, event)?)?),
    }
}

/// Of so many events, those that are asked for.
fn events_asked(
    alloc: Global,
    n: u8,
    bytes: &[u8],
    range: &KeyRange,
    from: Instant,
    to: Instant,
) -> Mem<Vec<SharedEvent>>
    ensures ok { IfOk result (λ v. v.items ≡ events_asked n bytes.now range.now from to) }
    ensures err { OnlyMemory result }
{
    let mut found = Vec::new(alloc);
    let mut rest = bytes;
    for _ in 0..n {
        match next_asked(alloc, rest, range, from, to)? {
            None => return Ok(found),
            Some((event, left)) => {
                push_asked(alloc, &mut found, event)?;
                rest = left;
            }
        }
    }
    Ok(found)
}

/// Lists the events of a range of keys, from an instant to another and with it, carried ones too,
/// of the node of a block.
pub(crate) fn events_in(
    alloc: Global,
    bytes: &[u8],
    range: &KeyRange,
    from: Instant,
    to: Instant,
) -> Mem<Vec<SharedEvent>>
    ensures ok { IfOk result (λ v. (n : Node) →
        IsBlockOf bytes.now n → v.items ≡ events_in n.events range.now from to) }
    ensures err { OnlyMemory result }
{
    match events_place(bytes) {
        None => Ok(Vec::new(alloc)),
        Some((n, events)) => events_asked(alloc, n, events, range, from, to),
    }
}
