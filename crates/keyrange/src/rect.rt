//! Rectangles: a range of keys and one of instants.
ghost use Rattle.std.specs.Prelude.{◌≡◌, IsTrue, IfOk};
ghost use Rattle.values.specs.Memory.{OnlyMemory};
ghost use Rattle.keyrange.specs.Rect.{IsArea, is_area, has_point, Common};
ghost use Rattle.keyrange.specs.Cut.{rect_of};

use crate::range::{KeyRange, TimeRange, is_before_end, is_early};
use std::marker::Model;
use values::{Instant, KeyBytes, MAX_INSTANT, Mem};

/// A range of keys and one of instants, neither of them empty, with instants from 1 to the
/// greatest.
#[derive(Debug, Drop)]
pub struct Rect {
    keys: KeyRange,
    time: TimeRange,
}

impl Model for Rect {
    ghost use Rattle.std.specs.Prelude.{IsTrue};
    ghost use Rattle.keyrange.specs.Rect.{Area, is_area};

    ghost Value = { Area };

    ghost view = { λ r. record { keys = r.keys; time = r.time } };

    ghost invariant = { λ r. IsTrue (is_area r.keys r.time) };
}

impl Rect {
    /// Makes a rectangle; none where a range is empty, or an instant is not from 1 to the greatest.
    pub fn new(keys: KeyRange, time: TimeRange) -> Option<Rect>
        ensures { result ≡ rect_of keys time }
    {
        if is_area(&keys, time) {
            Some(Rect { keys, time })
        } else {
            None
        }
    }

    /// Returns the range of keys, which is not empty.
    pub fn keys(&self) -> &KeyRange
        ensures keys { result.now ≡ self.now.keys }
        ensures area { IsArea self.now }
    {
        &self.keys
    }

    /// Returns the range of instants, which is not empty.
    pub fn time(&self) -> TimeRange
        ensures time { result ≡ self.now.time }
        ensures area { IsArea self.now }
    {
        self.time
    }

    /// Tells whether the point of a key and an instant lies in the rectangle. The instant is asked
    /// first: it costs less.
    pub fn contains(&self, key: &KeyBytes, instant: Instant) -> bool
        ensures { result ≡ has_point self.now key.now instant }
    {
        self.time.contains(instant) && self.keys.contains(key)
    }

    /// Tells whether the two have a point in common.
    pub fn meets(&self, other: &Rect) -> bool
        ensures common { IsTrue result → Common self.now other.now }
        ensures apart { Common self.now other.now → IsTrue result }
    {
        self.time.meets(&other.time) && self.keys.meets(&other.keys)
    }

    /// Copies the rectangle.
    pub fn copy(&self) -> Mem<Rect>
        ensures ok { IfOk result (λ r. r ≡ self.now) }
        ensures err { OnlyMemory result }
    {
        Ok(Rect {
            keys: self.keys.copy()?,
            time: self.time,
        })
    }
}

impl PartialEq for Rect {
    ghost use Rattle.std.specs.Prelude.{◌≡◌, ◌↔◌, IsTrue};
    ghost use Rattle.keyrange.specs.Equality.{area_eq, area_eq_laws};

    ghost eq = { area_eq };

    ghost laws = { area_eq_laws };

    fn eq(&self, other: &Rect) -> bool
        ensures test { result ≡ area_eq self.now other.now }
        ensures same { IsTrue result ↔ (self.now ≡ other.now) }
    {
        self.keys == other.keys && self.time == other.time
    }
}

fn is_area(keys: &KeyRange, time: TimeRange) -> bool
    ensures { result ≡ is_area keys.now time }
{
    is_before_end(&keys.lo, &keys.hi)
        && 1 <= time.from
        && time.from <= MAX_INSTANT
        && is_early(time.from, time.to)
        && time.to.is_none_or(|to| to <= MAX_INSTANT)
}
