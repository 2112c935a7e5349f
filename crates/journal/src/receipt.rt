//! The receipt of an entry.
ghost use Rattle.std.specs.Prelude.{◌≡◌, ◌≤◌, ◌-◌, length, slice_get, Some, true};
ghost use Rattle.journal.specs.Entries.{begun_of};

use crate::entry::{Begun, SharedEntry};
use growlog::{Prefix, StoreName};

/// An entry with its number, from 1. The prefix that it keeps has the entry in its place, unless it
/// ends before.
///
/// It cannot be dropped: whoever has one moves it on, until it ends with its journal.
pub struct Receipt<J: StoreName> {
    pub number: u64,
    pub entry: SharedEntry,
    prefix: Prefix<SharedEntry, J>,
    pub ghost counts: { 1 ≤ number },
    pub ghost stands: { number ≤ length prefix → slice_get prefix (number - 1) ≡ Some entry },
}

impl<J: StoreName> Receipt<J> {
    /// Makes the receipt of the entry with a number, by a prefix of the log that has the entry or ends before it.
    pub(crate) fn new(number: u64, entry: SharedEntry, prefix: Prefix<SharedEntry, J>) -> Receipt<J>
        requires counts { 1 ≤ number }
        requires stands { number ≤ length prefix → slice_get prefix (number - 1) ≡ Some entry }
        ensures number { result.number ≡ number }
        ensures entry { result.entry ≡ entry }
    {
        Receipt {
            number,
            entry,
            prefix,
        }
    }

    /// Ends the receipt.
    pub(crate) fn end(self) {
        let Receipt {
            number: _,
            entry: _,
            prefix: _,
        } = self;
    }

    /// Returns what a session keeps of its begin, if the entry is a begin.
    pub fn begun(&self) -> Option<Begun>
        ensures { result ≡ begun_of self.now.number self.now.entry }
    {
        self.entry.entry().begun(self.number)
    }

    /// Tells whether the prefix reaches the number, and so has the entry.
    pub fn is_in(&self, whole: &Prefix<SharedEntry, J>) -> bool
        ensures has { result ≡ true →
            slice_get whole.now (self.now.number - 1) ≡ Some self.now.entry }
        ensures reaches { result ≡ true → self.now.number ≤ length whole.now }
    {
        whole.agrees(&self.prefix);
        self.number <= self.prefix.len() && self.number <= whole.len()
    }
}
