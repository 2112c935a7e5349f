//! The rectangle of a block, as it is written.
ghost use Rattle.std.specs.Prelude.{◌≡◌, ◌++◌, OnOk};
ghost use Rattle.blocks.specs.Rect.{keys_field, time_field, rect_field, AreShortKeys};

use crate::field::{push_end, push_instant, push_key};
use keyrange::{KeyRange, Rect, TimeRange};
use std::alloc::AllocError;

fn push_keys(bytes: &mut Vec<u8>, keys: &KeyRange) -> Result<(), AllocError>
    ensures ok { OnOk result (bytes.new.items ≡ bytes.old.items ++ keys_field keys.now) }
    ensures short { OnOk result (AreShortKeys keys.now) }
{
    push_key(bytes, &keys.lo)?;
    push_end(bytes, &keys.hi)
}

fn push_time(bytes: &mut Vec<u8>, time: TimeRange) -> Result<(), AllocError>
    ensures { OnOk result (bytes.new.items ≡ bytes.old.items ++ time_field time) }
{
    push_instant(bytes, time.from)?;
    match time.to {
        None => Ok(()),
        Some(end) => push_instant(bytes, end),
    }
}

/// Appends the ranges of a rectangle.
pub(crate) fn push_rect(bytes: &mut Vec<u8>, rect: &Rect) -> Result<(), AllocError>
    ensures ok { OnOk result (bytes.new.items ≡ bytes.old.items ++ rect_field rect.now) }
    ensures short { OnOk result (AreShortKeys rect.now.keys) }
{
    push_keys(bytes, rect.keys())?;
    push_time(bytes, rect.time())
}
