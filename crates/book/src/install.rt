//! An install of a packed node, which changes nothing that was committed.
ghost use Rattle.std.specs.Prelude.{◌≡◌, ◌<◌, Bool, Err, IfOk, OnErr, length};
ghost use Rattle.values.specs.Memory.{OnlyMemory};
ghost use Rattle.values.specs.declared.refusal.Refusal.TheVariants.{JournalFull};
ghost use Rattle.validation.specs.treenodes.History.{KeepsPast};
ghost use Rattle.validation.specs.tsbtree.Growth.{HoldsSame};
ghost use Rattle.journal.specs.declared.entry.Entry.TheVariants.{Install};
ghost use Rattle.book.specs.Book.{Adds, IsBook, IsInstallEntry, OnlyRoom};
ghost use Rattle.book.specs.Outcomes.{entry_of};

use crate::book::{Book, twice};
use crate::outcomes::{Outcomes, note};
use crate::refusal::{BookRefusal, make_room};
use growlog::StoreName;
use journal::{Entry, Receipt, SharedEntry};
use std::alloc::Global;
use validation::PackedNode;
use values::Mem;

impl<J: StoreName> Book<J> {
    /// Puts a block in the place of its node, where that is in the tree unpacked: whether it was is in the entry, beside the
    /// node's rectangle and the block's bytes. `JournalFull` where there is no room for one more entry. After a refusal
    /// nothing has changed.
    pub fn install(&mut self, packed: PackedNode) -> Result<Receipt<J>, BookRefusal>
        ensures entry { IfOk result (λ r.
            IsInstallEntry packed self.old.engine self.new.engine r.entry) }
        ensures adds { IfOk result (λ r. Adds r.entry r.number self.old self.new) }
        ensures same { HoldsSame self.old.engine self.new.engine }
        ensures past { KeepsPast self.old.engine.nodes self.new.engine.nodes }
        ensures book { IsBook J.origin self.new }
        ensures full { length self.old.entries ≡ J.origin.most_entries
            → result ≡ Err JournalFull }
        ensures room { length self.old.entries < J.origin.most_entries → OnlyMemory result }
        ensures why { OnlyRoom result }
        ensures refused { OnErr result (self.new ≡ self.old) }
    {
        make_room(&mut self.journal, self.most_entries)?;
        let outcomes = install_outcomes(self.alloc, &packed)?;
        let is_done = self.engine.install(packed)?;
        // Who asks for the tree knows that it is sound.
        let _tree = self.engine.tree();
        Ok(note(&mut self.journal, outcomes, is_done))
    }
}

/// The entries of an install.
fn install_outcomes(alloc: Global, packed: &PackedNode) -> Mem<Outcomes>
    ensures are { IfOk result (λ o. (done : Bool) →
        entry_of o done ≡ Install packed.now.node.rect packed.now.bytes done) }
    ensures twice { IfOk result (λ o. (o.done.1 ≡ o.done.0) × (o.left.1 ≡ o.left.0)) }
    ensures memory { OnlyMemory result }
{
    let done = install_entry(alloc, packed, true)?;
    let left = install_entry(alloc, packed, false)?;
    Ok(Outcomes { done, left })
}

/// The entry of an install, twice.
fn install_entry(alloc: Global, packed: &PackedNode, done: bool) -> Mem<(SharedEntry, SharedEntry)>
    ensures is { IfOk result (λ pair.
        pair.0 ≡ Install packed.now.node.rect packed.now.bytes done) }
    ensures twice { IfOk result (λ pair.
        pair.1 ≡ Install packed.now.node.rect packed.now.bytes done) }
    ensures memory { OnlyMemory result }
{
    let rect = packed.rect().copy()?;
    let block = packed.block().bytes().clone()?;
    twice(alloc, Entry::Install { rect, block, done })
}
