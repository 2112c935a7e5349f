//! The end of a book.
ghost use Rattle.std.specs.Prelude.{◌≡◌, All, IsPermutation, Some, length, map, true};
ghost use Rattle.journal.specs.Entries.{entry_at, numbers};
ghost use Rattle.book.specs.Book.{IsBook};

use crate::book::Book;
use growlog::StoreName;
use journal::{JournalGone, Receipt, SharedEntry};
use std::marker::Model;
use validation::{Engine, Tree};

/// A book that is closed: the tree, and all entries. Contracts see what they see of a book.
#[derive(Drop)]
pub struct Closed {
    engine: Engine,
    entries: Vec<SharedEntry>,
}

impl Model for Closed {
    ghost use Rattle.std.specs.Prelude.{reverse};
    ghost use Rattle.book.specs.Book.{BookState};

    ghost Value = { BookState };

    ghost view = { λ c. record { engine = c.engine; entries = reverse c.entries.items } };
}

impl Closed {
    ghost use Rattle.std.specs.Prelude.{reverse};

    /// Returns the entries, the oldest first.
    pub fn journal(&self) -> &[SharedEntry]
        ensures { reverse result.now ≡ self.now.entries }
    {
        self.entries.as_slice()
    }

    /// Returns how many entries there are.
    pub fn entries(&self) -> usize
        ensures { result ≡ length self.now.entries }
    {
        self.entries.len()
    }

    /// Returns the tree of what was committed.
    pub fn tree(&self) -> &Tree
        ensures { result.now ≡ self.now.engine }
    {
        self.engine.tree()
    }
}

impl<J: StoreName> Book<J> {
    /// Tells whether the receipts are those of the entries, one for each, in whatever order they come. It takes no memory,
    /// and looks at numbers alone.
    pub fn is_covered(&self, receipts: &mut Vec<Receipt<J>>) -> bool
        ensures same { IsPermutation receipts.old.items receipts.new.items }
        ensures stand { result ≡ true → All (λ r.
            entry_at self.now.entries r.number ≡ Some r.entry) receipts.old.items }
        ensures once { result ≡ true → IsPermutation
            (map (λ r. r.number) receipts.old.items) (numbers (length self.now.entries)) }
    {
        self.journal.is_covered(receipts)
    }

    /// Ends the book and these receipts, whichever they are: the tree and the entries, to which no
    /// more are added.
    pub fn close(self, receipts: Vec<Receipt<J>>) -> Closed
        ensures is { result ≡ self }
        ensures book { IsBook J.origin result }
    {
        let Book {
            alloc: _alloc,
            engine,
            journal,
            most_entries: _,
        } = self;
        Closed {
            engine,
            entries: journal.into_entries(receipts),
        }
    }

    /// Gives the book up, and ends these receipts, whichever they are: for who cannot go on.
    pub fn give_up(self, receipts: Vec<Receipt<J>>) -> JournalGone<J> {
        let Book {
            alloc: _,
            engine: _,
            journal,
            most_entries: _,
        } = self;
        journal.give_up(receipts)
    }
}
