//! The entries of a store, in the order in which they happened.
ghost use Rattle.std.specs.Prelude.{◌≡◌, ℕ, ◌<◌, ◌+◌, ◌∷◌, ◌^◌, [], All, IsPermutation, MatchOption, None, OnOk, Some, false, length, map, reverse, slice_get, true};
ghost use Rattle.values.specs.Memory.{OnlyMemory};
ghost use Rattle.journal.specs.Entries.{entry_at, has_entry_of, has_ended, is_open, numbers};
ghost use Rattle.journal.specs.JournalState.{IsGrown, marked};

use crate::entry::{Begun, Entry, SharedEntry};
use crate::gone::JournalGone;
use crate::receipt::Receipt;
use growlog::{Log, NewLog, Prefix, StoreName};
use std::alloc::Global;
use std::marker::Model;
use values::Mem;

/// The entries of a store. They are numbered from 1, the oldest first, and stay for good. Contracts see them as a list,
/// the newest first.
#[derive(Drop)]
pub struct Journal<J: StoreName> {
    entries: Vec<SharedEntry>,
    /// For each entry whether a commit names it.
    ended: Vec<bool>,
    log: Log<SharedEntry, J>,
    prefix: Prefix<SharedEntry, J>,
}

impl<J: StoreName> Model for Journal<J> {
    ghost use Rattle.std.specs.Prelude.{◌-◌, min, reverse, vec_capacity, vec_len};
    ghost use Rattle.journal.specs.JournalState.{JournalState, IsJournal};

    ghost Value = { JournalState };

    ghost view = { λ j. record {
      entries = reverse j.entries.items;
      room = min (vec_capacity j.entries - vec_len j.entries)
          (vec_capacity j.ended - vec_len j.ended);
    } };

    ghost invariant = { λ j. IsJournal j.entries.items j.ended.items j.prefix };
}

impl<J: StoreName> Journal<J> {
    /// Makes the journal of a store to which nothing has happened.
    pub fn new(alloc: Global, opened: NewLog<SharedEntry>) -> Journal<J>
        requires { opened.seen.book ≡ J.book }
        ensures { result.entries ≡ [] }
    {
        let (log, prefix) = opened.for_store::<J>();
        Journal {
            entries: Vec::new(alloc),
            ended: Vec::new(alloc),
            log,
            prefix,
        }
    }

    /// Returns how many entries there are.
    pub fn len(&self) -> usize
        ensures { result ≡ length self.now.entries }
    {
        self.entries.len()
    }

    /// Returns the entry with a number, if there is one.
    pub fn at(&self, number: u64) -> Option<&Entry>
        ensures { MatchOption result (entry_at self.now.entries number ≡ None) (λ e.
            entry_at self.now.entries number ≡ Some e.now) }
    {
        if number == 0 {
            return None;
        }
        match self.entries.get(number as usize - 1) {
            None => None,
            Some(shared) => Some(shared.entry()),
        }
    }

    /// Tells whether the entry with a number is one of a session.
    pub fn has_entry_of(&self, session: u8, number: u64) -> bool
        ensures { result ≡ has_entry_of self.now.entries session number }
    {
        match self.at(number) {
            None => false,
            Some(entry) => entry.is_of(session),
        }
    }

    /// Tells whether the transaction of a session is open here, by what the session keeps of its begin. It walks over no
    /// entries.
    pub fn is_open(&self, session: u8, begun: &Begun) -> bool
        ensures { result ≡ is_open self.now.entries session begun.now }
    {
        match self.at(begun.number) {
            None => false,
            Some(entry) => entry.is_begin(session, begun) && !self.has_ended(begun.number),
        }
    }

    /// Whether a commit names an entry.
    fn has_ended(&self, number: u64) -> bool
        requires { (e : Entry) × (entry_at self.now.entries number ≡ Some e) }
        ensures { result ≡ has_ended self.now.entries number }
    {
        self.ended[number as usize - 1]
    }

    /// Makes room for one more entry. `Memory` where it runs out; the entries are then what they were.
    pub fn reserve(&mut self) -> Mem<()>
        ensures ok { OnOk result (0 < self.new.room) }
        ensures same { self.new.entries ≡ self.old.entries }
        ensures memory { OnlyMemory result }
    {
        self.entries.reserve(1)?;
        self.ended.reserve(1)?;
        Ok(())
    }

    /// Adds an entry, of which the journal keeps one share and the receipt the other.
    pub fn push(&mut self, entry: SharedEntry, kept: SharedEntry) -> Receipt<J>
        requires room { 0 < self.old.room }
        requires same { kept ≡ entry }
        requires fresh { has_ended (entry ∷ self.old.entries)
            (length self.old.entries + 1) ≡ false }
        requires few { length self.old.entries < 2 ^ 62 }
        ensures entries { self.new.entries ≡ entry ∷ self.old.entries }
        ensures number { result.number ≡ length self.new.entries }
        ensures entry { result.entry ≡ entry }
    {
        let number = self.entries.len() as u64;
        mark(self.ended.as_mut_slice(), entry.entry().begin());
        grow(&mut self.prefix, &self.log, number, &kept);
        self.entries.push_reserved(kept);
        self.ended.push_reserved(false);
        Receipt::new(number + 1, entry, self.prefix.again())
    }

    /// Tells whether the receipts are those of the entries, one for each, in whatever order they come. It takes no memory,
    /// and looks at numbers alone: by its type a receipt has the entry at its number.
    #[tactic(auto, using(crate::proofs::JournalNumbering::all_once))]
    pub fn is_covered(&self, receipts: &mut Vec<Receipt<J>>) -> bool
        ensures same { IsPermutation receipts.old.items receipts.new.items }
        ensures stand { result ≡ true → All (λ r.
            entry_at self.now.entries r.number ≡ Some r.entry) receipts.old.items }
        ensures once { result ≡ true → IsPermutation
            (map (λ r. r.number) receipts.old.items) (numbers (length self.now.entries)) }
    {
        let held = self.holds(receipts.as_slice());
        receipts.sort_unstable_by_key(|receipt| -> u64 { receipt.number });
        if !held || receipts.len() != self.len() {
            return false;
        }
        is_numbered(receipts.as_slice())
    }

    /// Whether each receipt's entry is known to stand at its number.
    fn holds(&self, receipts: &[Receipt<J>]) -> bool
        ensures { result ≡ true → All (λ r.
            entry_at self.now.entries r.number ≡ Some r.entry) receipts.now }
    {
        receipts.iter().all(
            |receipt| -> bool
                ensures { result ≡ true →
                    entry_at self.entry.now.entries receipt.now.number
                    ≡ Some receipt.now.entry }
            { self.has(receipt) },
        )
    }

    /// Tells whether a receipt's entry is known to be the one at its number. No entry is looked at.
    pub fn has(&self, receipt: &Receipt<J>) -> bool
        ensures { result ≡ true →
            entry_at self.now.entries receipt.now.number ≡ Some receipt.now.entry }
    {
        receipt.is_in(&self.prefix)
    }

    /// Ends the journal and these receipts, whichever they are, and returns the entries, the oldest
    /// first.
    pub fn into_entries(self, receipts: Vec<Receipt<J>>) -> Vec<SharedEntry>
        ensures { reverse result.items ≡ self.entries }
    {
        let Journal {
            entries,
            ended,
            log,
            prefix,
        } = self;
        drop(ended);
        drop(log);
        drop(prefix);
        let gone = JournalGone::new();
        gone.end(receipts);
        entries
    }

    /// Gives the journal up with its entries, and ends these receipts, whichever they are: for who
    /// cannot go on.
    pub fn give_up(self, receipts: Vec<Receipt<J>>) -> JournalGone<J> {
        let _entries = self.into_entries(receipts);
        JournalGone::new()
    }
}

/// Notes that a commit names a begin, if it is one.
fn mark(ended: &mut [bool], begin: Option<u64>)
    ensures { (n : ℕ) → n < length ended.old
        → slice_get ended.new n ≡ marked begin n (slice_get ended.old n) }
{
    let Some(number) = begin else {
        return;
    };
    if number == 0 {
        return;
    }
    let place = number as usize - 1;
    if place < ended.len() {
        ended[place] = true;
    }
}

/// Adds an entry to the log, where the prefix has all entries before it.
fn grow<J: StoreName>(
    prefix: &mut Prefix<SharedEntry, J>,
    log: &Log<SharedEntry, J>,
    before: u64,
    entry: &SharedEntry,
)
    requires { length prefix.old < 2 ^ 62 }
    ensures { IsGrown before prefix.old entry.now prefix.new }
{
    if prefix.len() == before {
        // It fails where somebody else adds entries to this log, which nobody does.
        let _added = prefix.add(log, entry);
    }
}

/// Whether the numbers are 1, 2, 3 and so on.
fn is_numbered<J: StoreName>(receipts: &[Receipt<J>]) -> bool
    ensures { result ≡ true → map (λ r. r.number) receipts.now ≡ numbers (length receipts.now) }
{
    let mut next = 0;
    for receipt in receipts {
        if receipt.number != next + 1 {
            return false;
        }
        next += 1;
    }
    true
}
