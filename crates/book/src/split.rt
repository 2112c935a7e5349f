//! A split of a node, which changes nothing that was committed.
ghost use Rattle.std.specs.Prelude.{◌≡◌, ◌<◌, Bool, Err, IfOk, OnErr, length};
ghost use Rattle.values.specs.Memory.{OnlyMemory};
ghost use Rattle.values.specs.declared.refusal.Refusal.TheVariants.{JournalFull};
ghost use Rattle.validation.specs.treenodes.History.{KeepsHistory};
ghost use Rattle.validation.specs.tsbtree.Growth.{HoldsSame};
ghost use Rattle.journal.specs.declared.entry.Entry.TheVariants.{Split};
ghost use Rattle.book.specs.Book.{Adds, IsBook, IsSplitEntry, OnlyRoom};
ghost use Rattle.book.specs.Outcomes.{entry_of};

use crate::book::{Book, twice};
use crate::outcomes::{Outcomes, note};
use crate::refusal::{BookRefusal, make_room};
use growlog::StoreName;
use journal::{Entry, Receipt, SharedEntry};
use std::alloc::Global;
use validation::Cut;
use values::Mem;

impl<J: StoreName> Book<J> {
    /// Splits the current data node of a key, where its cut lies inside the node and is no instant after the last commit:
    /// whether it did is in the entry. `JournalFull` where there is no room for one more entry. After a refusal nothing has
    /// changed.
    pub fn split(&mut self, cut: Cut) -> Result<Receipt<J>, BookRefusal>
        ensures entry { IfOk result (λ r.
            IsSplitEntry cut self.old.engine self.new.engine r.entry) }
        ensures adds { IfOk result (λ r. Adds r.entry r.number self.old self.new) }
        ensures same { HoldsSame self.old.engine self.new.engine }
        ensures history { KeepsHistory self.old.engine.nodes self.new.engine.nodes }
        ensures book { IsBook J.origin self.new }
        ensures full { length self.old.entries ≡ J.origin.most_entries
            → result ≡ Err JournalFull }
        ensures room { length self.old.entries < J.origin.most_entries → OnlyMemory result }
        ensures why { OnlyRoom result }
        ensures refused { OnErr result (self.new ≡ self.old) }
    {
        make_room(&mut self.journal, self.most_entries)?;
        let outcomes = split_outcomes(self.alloc, &cut)?;
        let is_done = self.engine.split(&cut)?;
        // Who asks for the tree knows that it is sound.
        let _tree = self.engine.tree();
        Ok(note(&mut self.journal, outcomes, is_done))
    }
}

/// The entries of a split.
fn split_outcomes(alloc: Global, cut: &Cut) -> Mem<Outcomes>
    ensures are { IfOk result (λ o. (done : Bool) → entry_of o done ≡ Split cut.now done) }
    ensures twice { IfOk result (λ o. (o.done.1 ≡ o.done.0) × (o.left.1 ≡ o.left.0)) }
    ensures memory { OnlyMemory result }
{
    let done = split_entry(alloc, cut, true)?;
    let left = split_entry(alloc, cut, false)?;
    Ok(Outcomes { done, left })
}

/// The entry of a split, twice.
fn split_entry(alloc: Global, cut: &Cut, done: bool) -> Mem<(SharedEntry, SharedEntry)>
    ensures is { IfOk result (λ pair. pair.0 ≡ Split cut.now done) }
    ensures twice { IfOk result (λ pair. pair.1 ≡ Split cut.now done) }
    ensures memory { OnlyMemory result }
{
    let cut = copy_of(cut)?;
    twice(alloc, Entry::Split { cut, done })
}

/// An equal cut.
fn copy_of(cut: &Cut) -> Mem<Cut>
    ensures ok { IfOk result (λ c. c ≡ cut.now) }
    ensures memory { OnlyMemory result }
{
    match cut {
        Cut::Key(key) => Ok(Cut::Key(key.copy()?)),
        Cut::Time(key, instant) => Ok(Cut::Time(key.copy()?, *instant)),
    }
}
