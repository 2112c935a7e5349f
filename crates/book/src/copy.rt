//! A data node that was copied before the book is locked.
ghost use Rattle.std.specs.Prelude.{◌≡◌};
ghost use Rattle.book.specs.Copy.{IsCopyFor};

use crate::book::Book;
use growlog::StoreName;
use journal::{Entry, Receipt};
use validation::LeafCopy;

impl<J: StoreName> Book<J> {
    /// Keeps a copy of a data node, which was made of what a begin shows, if no commit has changed the
    /// node since: the next commit then writes into the copy, and copies nothing while the book is
    /// locked. Else the copy is given back. Nothing else has changed.
    pub fn take_copy(&mut self, begin: &Receipt<J>, copy: LeafCopy) -> Option<LeafCopy>
        requires { IsCopyFor begin.now.entry copy }
        ensures { self.new ≡ self.old }
    {
        let Entry::Begin { view, .. } = begin.entry.entry() else {
            return Some(copy);
        };
        if !self.journal.has(begin) {
            return Some(copy);
        }
        let view = view.sound();
        self.engine.take_copy(copy, view.last())
    }
}
