//! What a block begins with: the mark of its form, and in form 2 the width of its widest row.
ghost use Rattle.std.specs.Prelude.{◌≡◌, ◌++◌, Some, OnOk, option_copied};
ghost use Rattle.values.specs.RowReading.{Parses};
ghost use Rattle.blocks.specs.Start.{first_mark, second_mark, row_width, greatest_width, is_right, start_field, mark_from, start_from};

use crate::event::Parsed;
use crate::field::byte_from;
use std::alloc::AllocError;
use values::{Row, SharedEvent};

/// What a block of form 1 begins with.
const FIRST_MARK: &[u8] = b"TSB1";

/// What a block of form 2 begins with.
const SECOND_MARK: &[u8] = b"TSB2";

fn row_width(row: Option<&Row>) -> u8
    ensures { result ≡ row_width (option_copied row.entry) }
{
    match row {
        None => 0,
        Some(row) => row.values().len() as u8,
    }
}

/// Finds the greatest number of values of a row, 0 where no event has one.
pub(crate) fn greatest_width(events: &[SharedEvent]) -> u8
    ensures { result ≡ greatest_width events.now }
{
    let mut greatest = 0;
    for event in events {
        let width = row_width(event.event().row());
        if greatest < width {
            greatest = width;
        }
    }
    greatest
}

/// Tells whether what a block states of its node's events is right.
pub(crate) fn is_right(stated: Option<u8>, events: &[SharedEvent]) -> bool
    ensures { result ≡ is_right stated events.now }
{
    match stated {
        None => true,
        Some(width) => width == greatest_width(events),
    }
}

/// Appends what a block of form 2 begins with.
pub(crate) fn push_start(bytes: &mut Vec<u8>, width: u8) -> Result<(), AllocError>
    ensures { OnOk result (bytes.new.items ≡ bytes.old.items ++ start_field (Some width)) }
{
    bytes.extend_from_slice(SECOND_MARK)?;
    bytes.extend_from_slice(&[width])
}

#[tactic(auto, unfolding(crate::specs::Start::mark_from))]
fn first_mark_from(bytes: &[u8]) -> Option<&[u8]>
    ensures { option_copied result ≡ mark_from first_mark bytes.now }
{
    bytes.strip_prefix(FIRST_MARK)
}

#[tactic(auto, unfolding(crate::specs::Start::mark_from))]
fn second_mark_from(bytes: &[u8]) -> Option<&[u8]>
    ensures { option_copied result ≡ mark_from second_mark bytes.now }
{
    bytes.strip_prefix(SECOND_MARK)
}

/// Reads what a block states, nothing in form 1 and a width in form 2: and the bytes of its body.
#[tactic(auto, unfolding(crate::specs::Start::start_from))]
pub(crate) fn start_from(bytes: &[u8]) -> Parsed<'_, Option<u8>>
    ensures { Parses (λ stated. stated) result (start_from bytes.now) }
{
    match first_mark_from(bytes) {
        Some(rest) => Some((None, rest)),
        None => {
            let rest = second_mark_from(bytes)?;
            let (width, left) = byte_from(rest)?;
            Some((Some(width), left))
        }
    }
}
