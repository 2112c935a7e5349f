//! The head of a block, read in place: what it states, and behind that the body's ranges and count.
ghost use Rattle.std.specs.Prelude.{◌≡◌, ◌≤◌, length, IfOk, IfSome, option_copied};
ghost use Rattle.values.specs.KeyEncoding.{longest_key};
ghost use Rattle.values.specs.RowReading.{Parses};
ghost use Rattle.keyrange.specs.Cut.{rect_of};
ghost use Rattle.blocks.specs.Head.{body_from, head_from, area_of, body_of, head_of, IsShortBody};
ghost use Rattle.blocks.specs.Rect.{keys_from, time_from};

use crate::event::Parsed;
use crate::field::{byte_from, end_from, instant_from, key_from, key_of};
use crate::start::start_from;
use keyrange::{KeyRange, Rect, TimeRange};
use std::alloc::{AllocError, Global};
use values::KeyBytes;

/// What the body of a block says before its events. Its ranges need not be a rectangle's.
#[derive(Clone, Copy)]
pub(crate) struct Body<'a> {
    lo: &'a [u8],
    hi: Option<&'a [u8]>,
    time: TimeRange,
    /// The number of events.
    pub(crate) count: u8,
}

/// What a block says before its events.
#[derive(Clone, Copy)]
pub(crate) struct Head<'a> {
    /// The number of values of the widest row; none in form 1.
    pub(crate) stated: Option<u8>,
    pub(crate) body: Body<'a>,
}

/// Reads a lower key, and an upper one where there is one.
#[tactic(auto, unfolding(crate::specs::Rect::keys_from))]
fn keys_from(bytes: &[u8]) -> Parsed<'_, (&[u8], Option<&[u8]>)>
    ensures taken { Parses (λ keys. record { lo = keys.0.now; hi = option_copied keys.1 })
        result (keys_from bytes.now) }
    ensures lower { IfSome result (λ x. length x.0.0.now ≤ longest_key) }
    ensures upper { IfSome result (λ x. IfSome x.0.1 (λ key. length key.now ≤ longest_key)) }
{
    let (lo, rest) = key_from(bytes)?;
    let (hi, left) = end_from(rest)?;
    Some(((lo, hi), left))
}

/// Reads the instants of a node of history, which has an end.
#[tactic(auto, unfolding(crate::specs::Rect::time_from))]
fn time_from(bytes: &[u8]) -> Parsed<'_, TimeRange>
    ensures { Parses (λ time. time) result (time_from bytes.now) }
{
    let (from, rest) = instant_from(bytes)?;
    let (to, left) = instant_from(rest)?;
    let time = TimeRange { from, to: Some(to) };
    Some((time, left))
}

/// Reads the ranges and the count of a body, alike in both forms, and the bytes from the first
/// event on.
#[tactic(auto, unfolding(crate::specs::Head::body_from))]
fn body_from(bytes: &[u8]) -> Parsed<'_, Body<'_>>
    ensures taken { Parses body_of result (body_from bytes.now) }
    ensures short { IfSome result (λ x. IsShortBody x.0) }
{
    let ((lo, hi), rest) = keys_from(bytes)?;
    let (time, left) = time_from(rest)?;
    let (count, events) = byte_from(left)?;
    let body = Body {
        lo,
        hi,
        time,
        count,
    };
    Some((body, events))
}

/// Reads the head of a block of either form, and the bytes from the first event on.
#[tactic(auto, unfolding(crate::specs::Head::head_from))]
pub(crate) fn head_from(bytes: &[u8]) -> Parsed<'_, Head<'_>>
    ensures taken { Parses head_of result (head_from bytes.now) }
    ensures short { IfSome result (λ x. IsShortBody x.0.body) }
{
    let (stated, rest) = start_from(bytes)?;
    let (body, events) = body_from(rest)?;
    Some((Head { stated, body }, events))
}

fn end_of(alloc: Global, end: Option<&[u8]>) -> Result<Option<KeyBytes>, AllocError>
    requires { IfSome end (λ key. length key.now ≤ longest_key) }
    ensures { IfOk result (λ key. key ≡ option_copied end.entry) }
{
    match end {
        None => Ok(None),
        Some(key) => Ok(Some(key_of(alloc, key)?)),
    }
}

/// Makes the rectangle of a body, where its ranges are one's.
pub(crate) fn rect_of(alloc: Global, body: &Body<'_>) -> Result<Option<Rect>, AllocError>
    requires { IsShortBody body.now }
    ensures { IfOk result (λ rect. rect
        ≡ rect_of (area_of body.now).keys (area_of body.now).time) }
{
    let keys = KeyRange {
        lo: key_of(alloc, body.lo)?,
        hi: end_of(alloc, body.hi)?,
    };
    Ok(Rect::new(keys, body.time))
}
