//! The events of a block.
ghost use Rattle.std.specs.Prelude.{◌≡◌, ◌≤◌, ◌++◌, length, OnOk, IfOk, IfSome, All, option_copied};
ghost use Rattle.values.specs.KeyEncoding.{longest_key};
ghost use Rattle.values.specs.RowEncoding.{IsStoredRow, IsHeld};
ghost use Rattle.values.specs.RowReading.{Parses};
ghost use Rattle.values.specs.Memory.{OnlyMemory};
ghost use Rattle.blocks.specs.Event.{row_field, event_field, IsKept, point_from, row_tagged, row_field_from, event_of, event_from};

use crate::field::{byte_from, instant_from, key_from, key_of, push_instant, push_key};
use std::alloc::{AllocError, Global};
use values::{Event, Instant, Mem, Row, read_row, read_values, row_bytes};

/// Adds a row, or that there is none.
fn push_row(alloc: Global, bytes: &mut Vec<u8>, row: Option<&Row>) -> Mem<()>
    ensures ok { OnOk result (bytes.new.items
        ≡ bytes.old.items ++ row_field (option_copied row.entry)) }
    ensures stored { OnOk result (IfSome (option_copied row.entry) IsStoredRow) }
    ensures held { OnOk result (IfSome (option_copied row.entry) (All IsHeld)) }
    ensures err { OnlyMemory result }
{
    match row {
        None => bytes.push(0)?,
        Some(row) => {
            bytes.push(1)?;
            read_values(row.values());
            let row = row_bytes(alloc, row)?;
            bytes.extend_from_slice(row.as_slice())?;
        }
    }
    Ok(())
}

/// Appends an event.
pub(crate) fn push_event(alloc: Global, bytes: &mut Vec<u8>, event: &Event) -> Mem<()>
    ensures ok { OnOk result (bytes.new.items ≡ bytes.old.items ++ event_field event.now) }
    ensures kept { OnOk result (IsKept event.now) }
    ensures err { OnlyMemory result }
{
    push_key(bytes, event.key())?;
    push_instant(bytes, event.at())?;
    push_row(alloc, bytes, event.row())
}

/// Reads a key and an instant.
#[tactic(auto, unfolding(crate::specs::Event::point_from))]
pub(crate) fn point_from(bytes: &[u8]) -> Option<((&[u8], Instant), &[u8])>
    ensures taken { Parses (λ point. (point.0.now, point.1)) result (point_from bytes.now) }
    ensures short { IfSome result (λ x. length x.0.0.now ≤ longest_key) }
{
    let (key, rest) = key_from(bytes)?;
    let (at, left) = instant_from(rest)?;
    Some(((key, at), left))
}

/// What was read at the start of bytes, and the bytes after it.
pub(crate) type Parsed<'a, T> = Option<(T, &'a [u8])>;

#[tactic(auto, unfolding(crate::specs::Event::row_tagged))]
fn row_tagged(alloc: Global, tag: u8, bytes: &[u8]) -> Mem<Parsed<'_, Option<Row>>>
    ensures ok { IfOk result (λ parsed. Parses (λ row. row) parsed (row_tagged tag bytes.now)) }
    ensures err { OnlyMemory result }
{
    match tag {
        0 => Ok(Some((None, bytes))),
        1 => match read_row(alloc, bytes)? {
            None => Ok(None),
            Some((row, n)) => Ok(Some((Some(row), bytes.split_at(n).1))),
        },
        _ => Ok(None),
    }
}

/// Reads a row, or that there is none.
pub(crate) fn row_field_from(alloc: Global, bytes: &[u8]) -> Mem<Parsed<'_, Option<Row>>>
    ensures ok { IfOk result (λ parsed. Parses (λ row. row) parsed (row_field_from bytes.now)) }
    ensures err { OnlyMemory result }
{
    match byte_from(bytes) {
        None => Ok(None),
        Some((tag, rest)) => row_tagged(alloc, tag, rest),
    }
}

/// Reads an event, and the bytes behind it.
#[tactic(auto, unfolding(crate::specs::Event::event_from, crate::specs::Event::event_of))]
pub(crate) fn event_from(alloc: Global, bytes: &[u8]) -> Mem<Parsed<'_, Event>>
    ensures ok { IfOk result (λ parsed. Parses (λ event. event) parsed (event_from bytes.now)) }
    ensures first { IfOk result (λ taken. IfSome taken (λ x. 1 ≤ x.0.at)) }
    ensures err { OnlyMemory result }
{
    let Some(((key, at), rest)) = point_from(bytes) else {
        return Ok(None);
    };
    let Some((row, left)) = row_field_from(alloc, rest)? else {
        return Ok(None);
    };
    if at == 0 {
        return Ok(None);
    }
    match Event::new(key_of(alloc, key)?, at, row) {
        None => Ok(None),
        Some(event) => Ok(Some((event, left))),
    }
}
