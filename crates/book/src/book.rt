//! What was committed and the journal, in step.
ghost use Rattle.std.specs.Prelude.{◌≡◌, ◌≤◌, [], IfOk, length};
ghost use Rattle.values.specs.Memory.{OnlyMemory};
ghost use Rattle.values.specs.Log.{changes, last as last_of};
ghost use Rattle.validation.specs.staging.View.{Holds};
ghost use Rattle.validation.specs.tsbtree.View.{last};
ghost use Rattle.book.specs.Book.{IsBook};

use growlog::{NewLog, StoreName};
use journal::{Entry, Journal, SharedEntry};
use std::alloc::Global;
use std::marker::Model;
use validation::{Engine, Tree};
use values::Mem;

/// What was committed, and the journal of all that led to it. Contracts see the engine, and the entries, the newest
/// first.
#[derive(Drop)]
pub struct Book<J: StoreName> {
    pub(crate) alloc: Global,
    pub(crate) engine: Engine,
    pub(crate) journal: Journal<J>,
    pub(crate) most_entries: usize,
    pub(crate) ghost most_is: { most_entries ≡ J.origin.most_entries },
}

impl<J: StoreName> Model for Book<J> {
    ghost use Rattle.book.specs.Book.{BookState, IsBook};

    ghost Value = { BookState };

    ghost view = { λ b. record { engine = b.engine; entries = b.journal.entries } };

    ghost invariant = { λ b.
        IsBook J.origin (record { engine = b.engine; entries = b.journal.entries }) };
}

impl<J: StoreName> Book<J> {
    /// Makes the book of a store that begins with what this engine has, whose journal may have so many
    /// entries: nothing has happened to it yet.
    pub fn over(
        alloc: Global,
        engine: Engine,
        most_entries: usize,
        opened: NewLog<SharedEntry>,
    ) -> Book<J>
        requires most { most_entries ≡ J.origin.most_entries }
        requires log { opened.seen.book ≡ J.book }
        requires holds { Holds J.origin.schema engine (changes J.origin.log) }
        requires clock { last engine ≡ last_of J.origin.log }
        ensures empty { result.entries ≡ [] }
        ensures book { IsBook J.origin result }
    {
        // Who asks for the tree knows that it is sound.
        let _tree = engine.tree();
        Book {
            alloc,
            engine,
            journal: Journal::new(alloc, opened),
            most_entries,
        }
    }

    /// Returns the tree of what was committed.
    pub fn tree(&self) -> &Tree
        ensures { result.now ≡ self.now.engine }
    {
        self.engine.tree()
    }

    /// Returns how many entries there are, which is no more than there may be.
    pub fn len(&self) -> usize
        ensures count { result ≡ length self.now.entries }
        ensures room { result ≤ J.origin.most_entries }
    {
        self.journal.len()
    }
}

/// An entry, of which the journal keeps one share and the receipt the other.
pub(crate) fn twice(alloc: Global, entry: Entry) -> Mem<(SharedEntry, SharedEntry)>
    ensures is { IfOk result (λ pair. pair.0 ≡ entry) }
    ensures twice { IfOk result (λ pair. pair.1 ≡ entry) }
    ensures memory { OnlyMemory result }
{
    let entry = SharedEntry::new(alloc, entry)?;
    let kept = entry.share()?;
    Ok((entry, kept))
}
