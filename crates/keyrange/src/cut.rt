//! Cuts of a rectangle at a key or at an instant.
ghost use Rattle.std.specs.Prelude.{◌≡◌, Some, IfOk, IfSome};
ghost use Rattle.values.specs.Memory.{OnlyMemory};
ghost use Rattle.keyrange.specs.Cut.{pair_of, rect_of, is_key_inside, is_time_inside};

use crate::range::{KeyRange, TimeRange, is_before_end, is_below, is_early};
use crate::rect::Rect;
use values::{Instant, KeyBytes, MAX_INSTANT, Mem};

impl Rect {
    ghost use Rattle.keyrange.specs.Cut.{halves_by_key, halves_by_time, PartsKeys, PartsTime};

    /// Cuts at a key: the half below it and the half from it on; none where it is not strictly
    /// inside.
    pub fn cut_key(&self, key: &KeyBytes) -> Mem<Option<(Rect, Rect)>>
        ensures halves { IfOk result (λ h. h ≡ halves_by_key self.now key.now) }
        ensures parts { IfOk result (λ h. IfSome h (λ p. PartsKeys self.now p.0 p.1 key.now)) }
        ensures err { OnlyMemory result }
    {
        if !is_key_inside(self, key) {
            return Ok(None);
        }
        let whole = self.keys().copy()?;
        let end = key.copy()?;
        let start = key.copy()?;
        Ok(key_halves(whole, end, start, self.time()))
    }

    /// Cuts at an instant: the half before it and the half from it on; none where it is not
    /// strictly inside, or is above the greatest.
    pub fn cut_time(&self, instant: Instant) -> Mem<Option<(Rect, Rect)>>
        ensures halves { IfOk result (λ h. h ≡ halves_by_time self.now instant) }
        ensures parts { IfOk result (λ h. IfSome h (λ p. PartsTime self.now p.0 p.1 instant)) }
        ensures err { OnlyMemory result }
    {
        if !is_time_inside(self, instant) {
            return Ok(None);
        }
        let past = self.keys().copy()?;
        Ok(time_halves(past, self.keys().copy()?, self.time(), instant))
    }
}

/// The rectangles of the keys below a cut and of those from it on.
fn key_halves(
    whole: KeyRange,
    end: KeyBytes,
    start: KeyBytes,
    time: TimeRange,
) -> Option<(Rect, Rect)>
    ensures { result
        ≡ pair_of
        (rect_of (record { lo = whole.lo; hi = Some end }) time)
        (rect_of (record { lo = start; hi = whole.hi }) time) }
{
    let below = KeyRange {
        lo: whole.lo,
        hi: Some(end),
    };
    let above = KeyRange {
        lo: start,
        hi: whole.hi,
    };
    both(Rect::new(below, time), Rect::new(above, time))
}

/// The rectangles of the instants before a cut and of those from it on, each with its keys.
fn time_halves(
    past_keys: KeyRange,
    keys: KeyRange,
    time: TimeRange,
    cut: Instant,
) -> Option<(Rect, Rect)>
    ensures { result
        ≡ pair_of
        (rect_of past_keys (record { from = time.from; to = Some cut }))
        (rect_of keys (record { from = cut; to = time.to })) }
{
    let past = TimeRange {
        from: time.from,
        to: Some(cut),
    };
    let now = TimeRange {
        from: cut,
        to: time.to,
    };
    both(Rect::new(past_keys, past), Rect::new(keys, now))
}

/// Tells whether a key is strictly inside.
fn is_key_inside(rect: &Rect, key: &KeyBytes) -> bool
    ensures { result ≡ is_key_inside rect.now key.now }
{
    is_below(&rect.keys().lo, key) && is_before_end(key, &rect.keys().hi)
}

/// Tells whether an instant is strictly inside, and not above the greatest.
fn is_time_inside(rect: &Rect, instant: Instant) -> bool
    ensures { result ≡ is_time_inside rect.now instant }
{
    let time = rect.time();
    time.from < instant && is_early(instant, time.to) && instant <= MAX_INSTANT
}

/// Both halves, where both are rectangles.
fn both(first: Option<Rect>, second: Option<Rect>) -> Option<(Rect, Rect)>
    ensures { result ≡ pair_of first second }
{
    match (first, second) {
        (Some(first), Some(second)) => Some((first, second)),
        _ => None,
    }
}
