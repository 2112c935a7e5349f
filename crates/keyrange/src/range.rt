//! Ranges of keys and of instants.
ghost use Rattle.std.specs.Prelude.{◌≡◌, IfOk, option_copied};
ghost use Rattle.values.specs.Memory.{OnlyMemory};
ghost use Rattle.keyrange.specs.Range.{is_below, is_before_end, is_key_in, is_time_in, key_ranges_meet, time_ranges_meet, is_early};

use std::alloc::AllocError;
use values::{Instant, KeyBytes, Mem};

/// The keys from `lo` on, and below `hi` where there is one.
#[derive(Debug, PartialEq, Eq, Drop)]
pub struct KeyRange {
    pub lo: KeyBytes,
    pub hi: Option<KeyBytes>,
}

/// The instants from `from` on, and before `to` where there is one.
#[derive(Clone, Copy, Debug, PartialEq, Eq)]
pub struct TimeRange {
    pub from: Instant,
    pub to: Option<Instant>,
}

/// Tells whether the first key is below the second.
pub fn is_below(key: &KeyBytes, other: &KeyBytes) -> bool
    ensures { result ≡ is_below key.now other.now }
{
    key.cmp(other).is_lt()
}

/// Tells whether a key lies below an end, which may be none.
pub fn is_before_end(key: &KeyBytes, end: &Option<KeyBytes>) -> bool
    ensures { result ≡ is_before_end key.now end.now }
{
    match end {
        None => true,
        Some(end) => is_below(key, end),
    }
}

fn copy_end(end: &Option<KeyBytes>) -> Result<Option<KeyBytes>, AllocError>
    ensures { IfOk result (λ e. e ≡ end.now) }
{
    match end {
        None => Ok(None),
        Some(end) => Ok(Some(end.clone()?)),
    }
}

impl KeyRange {
    /// Tells whether a key lies in the range.
    pub fn contains(&self, key: &KeyBytes) -> bool
        ensures { result ≡ is_key_in self.now key.now }
    {
        !is_below(key, &self.lo) && is_before_end(key, &self.hi)
    }

    /// Tells whether each begins before the other ends.
    pub(crate) fn meets(&self, other: &KeyRange) -> bool
        ensures { result ≡ key_ranges_meet self.now other.now }
    {
        is_before_end(&self.lo, &other.hi) && is_before_end(&other.lo, &self.hi)
    }

    /// Copies the range.
    pub fn copy(&self) -> Mem<KeyRange>
        ensures ok { IfOk result (λ r. r ≡ self.now) }
        ensures err { OnlyMemory result }
    {
        Ok(KeyRange {
            lo: self.lo.clone()?,
            hi: copy_end(&self.hi)?,
        })
    }
}

impl TimeRange {
    /// Tells whether an instant lies in the range.
    pub fn contains(&self, instant: Instant) -> bool
        ensures { result ≡ is_time_in self.now instant }
    {
        self.from <= instant && is_early(instant, self.to)
    }

    /// Tells whether each begins before the other ends.
    pub(crate) fn meets(&self, other: &TimeRange) -> bool
        ensures { result ≡ time_ranges_meet self.now other.now }
    {
        is_early(self.from, other.to) && is_early(other.from, self.to)
    }
}

/// Tells whether an instant is before an end, which may be none.
pub fn is_early(instant: Instant, end: Option<Instant>) -> bool
    ensures { result ≡ is_early instant end }
{
    match end {
        None => true,
        Some(end) => instant < end,
    }
}
