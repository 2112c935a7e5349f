//! What happened to a store, and what a session keeps of its begin.
ghost use Rattle.std.specs.Prelude.{◌≡◌, IfOk};
ghost use Rattle.values.specs.Memory.{OnlyMemory};

use bytes::Bytes;
use keyrange::Rect;
use std::alloc::Global;
use std::marker::Model;
use std::sync::Arc;
use validation::{Cut, Net, View};
use values::{Instant, Mem, Refusal};

/// What happened to a store.
#[derive(Drop)]
pub enum Entry {
    /// A session's transaction began: the number of an earlier entry of the session, or 0, and what the transaction sees
    /// of what was committed.
    Begin {
        session: u8,
        earlier: u64,
        view: View,
    },
    /// A session's transaction ended: the number of its begin, what it changes, the clock's reading, and how it ended.
    Commit {
        session: u8,
        begin: u64,
        net: Net,
        reading: Instant,
        end: Result<Option<Instant>, Refusal>,
    },
    /// A node was to be split, and whether it was.
    Split {
        cut: Cut,
        done: bool,
    },
    /// A node was to be replaced by the block that it is packed in, and whether it was.
    Install {
        rect: Rect,
        block: Bytes,
        done: bool,
    },
}

/// An entry that the journal and its receipt have in common. It never changes. Contracts see the entry.
#[derive(Drop)]
pub struct SharedEntry {
    entry: Arc<Entry>,
}

impl Model for SharedEntry {
    ghost use Rattle.journal.specs.declared.entry.Entry.{Entry as Shared};

    ghost Value = { Shared };

    ghost view = { λ s. s.entry.value };
}

impl SharedEntry {
    /// Puts an entry where it can be shared. `Memory` where it runs out.
    pub fn new(alloc: Global, entry: Entry) -> Mem<SharedEntry>
        ensures ok { IfOk result (λ s. s ≡ entry) }
        ensures err { OnlyMemory result }
    {
        let entry = Arc::new(alloc, entry)?;
        Ok(SharedEntry { entry })
    }

    /// Returns the same entry, without copying it. `Memory` where it runs out.
    pub fn share(&self) -> Mem<SharedEntry>
        ensures ok { IfOk result (λ s. s ≡ self.now) }
        ensures err { OnlyMemory result }
    {
        let entry = Arc::try_clone(&self.entry)?;
        Ok(SharedEntry { entry })
    }

    /// Returns the entry.
    pub fn entry(&self) -> &Entry
        ensures { result.now ≡ self.now }
    {
        &self.entry
    }
}

/// What a session keeps of its begin: the begin's number, the number of the session's entry before that the begin names,
/// and the instant of its snapshot. The begin's receipt makes it, and nothing else.
#[derive(Drop)]
pub struct Begun {
    pub(crate) number: u64,
    pub(crate) earlier: u64,
    pub(crate) start: Instant,
}

impl Model for Begun {
    ghost use Rattle.journal.specs.BegunState.{BegunState};

    ghost Value = { BegunState };

    ghost view = { λ b. record { number = b.number; earlier = b.earlier; start = b.start } };
}

impl Begun {
    /// Returns the number of the begin.
    pub fn number(&self) -> u64
        ensures { result ≡ self.now.number }
    {
        self.number
    }

    /// Returns the instant of the begin's snapshot.
    pub fn start(&self) -> Instant
        ensures { result ≡ self.now.start }
    {
        self.start
    }
}

impl Entry {
    ghost use Rattle.std.specs.Prelude.{ℕ};
    ghost use Rattle.journal.specs.Entries.{begun_of, is_entry_of, is_commit_of, is_begin, is_number};

    /// Tells whether it is a begin or a commit of a session.
    pub fn is_of(&self, session: u8) -> bool
        ensures { result ≡ is_entry_of session self.now }
    {
        match self {
            Entry::Begin { session: own, .. } => *own == session,
            Entry::Commit { session: own, .. } => *own == session,
            Entry::Split { .. } => false,
            Entry::Install { .. } => false,
        }
    }

    /// Returns the number of the begin that it is the commit of, if it is one.
    pub fn begin(&self) -> Option<u64>
        ensures { (number : ℕ) → is_commit_of number self.now ≡ is_number number result }
    {
        match self {
            Entry::Commit { begin, .. } => Some(*begin),
            Entry::Begin { .. } => None,
            Entry::Split { .. } => None,
            Entry::Install { .. } => None,
        }
    }

    /// Returns what a session keeps of it at a number, if it is a begin.
    pub(crate) fn begun(&self, number: u64) -> Option<Begun>
        ensures { result ≡ begun_of number self.now }
    {
        match self {
            Entry::Begin { earlier, view, .. } => Some(Begun {
                number,
                earlier: *earlier,
                start: view.last(),
            }),
            Entry::Commit { .. } => None,
            Entry::Split { .. } => None,
            Entry::Install { .. } => None,
        }
    }

    /// Tells whether it is the begin that a session keeps.
    pub fn is_begin(&self, session: u8, begun: &Begun) -> bool
        ensures { result ≡ is_begin session begun.now self.now }
    {
        match self {
            Entry::Begin {
                session: own,
                earlier,
                view,
            } => *own == session && *earlier == begun.earlier && view.last() == begun.start,
            Entry::Commit { .. } => false,
            Entry::Split { .. } => false,
            Entry::Install { .. } => false,
        }
    }
}
