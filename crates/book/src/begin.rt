//! A transaction begins.
ghost use Rattle.std.specs.Prelude.{◌≡◌, ◌<◌, [], Err, IfOk, OnErr, length};
ghost use Rattle.values.specs.Memory.{OnlyMemory};
ghost use Rattle.values.specs.declared.refusal.Refusal.TheVariants.{JournalFull};
ghost use Rattle.journal.specs.declared.entry.Entry.TheVariants.{Begin};
ghost use Rattle.book.specs.Book.{Adds, IsBook, OnlyRoom, begin_entry, begun_now};

use crate::book::{Book, twice};
use crate::refusal::{BookRefusal, make_room};
use growlog::StoreName;
use journal::{Begun, Entry, Receipt, SharedEntry};
use std::alloc::Global;
use transaction::OpenTransaction;
use validation::Engine;
use values::Mem;

/// A transaction that begins: what its session keeps of the begin, the begin's receipt, and the transaction.
pub struct Opening<J: StoreName> {
    pub begun: Begun,
    pub receipt: Receipt<J>,
    pub transaction: OpenTransaction,
}

impl<J: StoreName> Book<J> {
    /// Begins a transaction of a session, which sees all that was committed. The entry names an earlier one of the session,
    /// by its number, if that is one, or else 0. `JournalFull` where there is no room for one more entry. After a refusal
    /// nothing has changed.
    pub fn begin(&mut self, session: u8, earlier: u64) -> Result<Opening<J>, BookRefusal>
        ensures entry { IfOk result (λ o.
            o.receipt.entry ≡ begin_entry self.old session earlier) }
        ensures adds { IfOk result (λ o. Adds o.receipt.entry o.receipt.number self.old self.new) }
        ensures begun { IfOk result (λ o.
            o.begun ≡ begun_now self.old session earlier o.receipt.number) }
        ensures view { IfOk result (λ o.
            o.transaction ≡ record { view = self.old.engine; writes = [] }) }
        ensures engine { self.new.engine ≡ self.old.engine }
        ensures book { IsBook J.origin self.new }
        ensures full { length self.old.entries ≡ J.origin.most_entries
            → result ≡ Err JournalFull }
        ensures room { length self.old.entries < J.origin.most_entries → OnlyMemory result }
        ensures why { OnlyRoom result }
        ensures refused { OnErr result (self.new ≡ self.old) }
    {
        make_room(&mut self.journal, self.most_entries)?;
        let earlier = if self.journal.has_entry_of(session, earlier) {
            earlier
        } else {
            0
        };
        let (entry, kept) = begin_entry(self.alloc, &self.engine, session, earlier)?;
        let transaction = begin_transaction(self.alloc, &self.engine)?;
        let receipt = self.journal.push(entry, kept);
        let Some(begun) = receipt.begun() else {
            unreachable!()
        };
        Ok(Opening {
            begun,
            receipt,
            transaction,
        })
    }
}

/// The entry of a begin, twice.
fn begin_entry(
    alloc: Global,
    engine: &Engine,
    session: u8,
    earlier: u64,
) -> Mem<(SharedEntry, SharedEntry)>
    ensures is { IfOk result (λ pair. pair.0 ≡ Begin session earlier engine.now) }
    ensures twice { IfOk result (λ pair. pair.1 ≡ Begin session earlier engine.now) }
    ensures memory { OnlyMemory result }
{
    let view = engine.begin()?;
    let entry = Entry::Begin {
        session,
        earlier,
        view,
    };
    twice(alloc, entry)
}

/// A transaction that sees all that was committed.
fn begin_transaction(alloc: Global, engine: &Engine) -> Mem<OpenTransaction>
    ensures ok { IfOk result (λ o. o ≡ record { view = engine.now; writes = [] }) }
    ensures memory { OnlyMemory result }
{
    OpenTransaction::begin(alloc, engine.begin()?)
}
