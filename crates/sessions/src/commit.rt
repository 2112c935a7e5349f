//! The end of a session's transaction, in the book that was locked for it.
ghost use Rattle.std.specs.Prelude.{◌≡◌, Err, IfOk, IsSome, None, OnErr, false, true};
ghost use Rattle.values.specs.Events.{AreKeysIn};
ghost use Rattle.values.specs.Log.{Changes};
ghost use Rattle.values.specs.Memory.{OnlyMemory};
ghost use Rattle.values.specs.Tables.{Schema as Tables};
ghost use Rattle.book.specs.staging.Own.{net_over};
ghost use Rattle.book.specs.staging.View.{Holds};
ghost use Rattle.book.specs.Book.{Adds};
ghost use Rattle.values.specs.declared.refusal.Refusal.TheVariants.{NoTransaction};
ghost use Rattle.sessions.specs.declared.refusal.StoreRefusal.TheVariants as refused;
ghost use Rattle.sessions.specs.Refusal.{OnlyBookRoom};
ghost use Rattle.sessions.specs.Store.{IsCommitAt, IsNetOf, is_open_at};

use crate::refusal::StoreRefusal;
use crate::session::{Session, SessionTransaction};
use book::{Book, KeyedNet, Net, OpenTransaction, Receipt};
use growlog::StoreName;
use std::alloc::Global;
use values::{Instant, Mem, Refusal};

/// A commit that is in the book: its receipt, and the transaction that it ended, which is let go
/// once the lock is free.
pub struct Ended<J: StoreName> {
    pub receipt: Receipt<J>,
    transaction: Option<SessionTransaction>,
}

impl<J: StoreName> Ended<J> {
    /// Lets go of the transaction, and returns the receipt.
    pub fn into_receipt(self) -> Receipt<J>
        ensures { result ≡ self.receipt }
    {
        let Ended {
            receipt,
            transaction,
        } = self;
        drop(transaction);
        receipt
    }
}

impl Session {
    /// Returns the net changes of the open transaction, twice, once with the bytes of their keys.
    /// `NoTransaction` where none is open.
    pub(crate) fn nets(&self) -> Result<(Net, KeyedNet), Refusal>
        ensures net { IfOk result (λ nets. IsNetOf self.now nets.0) }
        ensures keys { IfOk result (λ nets. AreKeysIn self.now.schema nets.0) }
        ensures twice { IfOk result (λ nets. nets.1 ≡ nets.0) }
        ensures none { self.now.transaction ≡ None → result ≡ Err NoTransaction }
        ensures why { IsSome self.now.transaction → OnlyMemory result }
    {
        match &self.transaction {
            None => Err(Refusal::NoTransaction),
            Some(own) => nets(self.alloc, &own.transaction),
        }
    }

    /// Ends the open transaction at a book of the same tables, by this reading of the clock: the
    /// step of `LockedStore::commit` that runs under the lock. Its net changes are handed in twice,
    /// once with the bytes of their keys. `NoTransaction` where none is open, or none at this book,
    /// `JournalFull` where there is no room for one more entry. After a refusal neither the book nor the
    /// session has changed.
    pub fn commit_at<J: StoreName>(
        &mut self,
        book: &mut Book<J>,
        net: Net,
        changes: KeyedNet,
        reading: Instant,
    ) -> Result<Ended<J>, StoreRefusal>
        requires tables { self.old.schema ≡ J.origin.schema }
        requires keys { AreKeysIn J.origin.schema net }
        requires twice { changes ≡ net }
        ensures committed { IfOk result (λ e. IsCommitAt J.origin book.old self.old self.new net
            reading e.receipt.number e.receipt.entry) }
        ensures adds { IfOk result (λ e.
            Adds e.receipt.entry e.receipt.number book.old book.new) }
        ensures none { self.old.transaction ≡ None
            → result ≡ Err (refused.Session NoTransaction) }
        ensures elsewhere { IsSome self.old.transaction
            → is_open_at book.old.entries self.old ≡ false
            → result ≡ Err (refused.Book NoTransaction) }
        ensures why { is_open_at book.old.entries self.old ≡ true → OnlyBookRoom result }
        ensures book { OnErr result (book.new ≡ book.old) }
        ensures refused { OnErr result (self.new ≡ self.old) }
    {
        let Some(own) = &self.transaction else {
            return Err(StoreRefusal::Session(Refusal::NoTransaction));
        };
        let receipt = book.commit(&self.schema, self.number, &own.begun, net, changes, reading)?;
        self.receipt = receipt.number;
        Ok(Ended {
            receipt,
            transaction: self.transaction.take(),
        })
    }
}

/// Returns the net changes of a transaction, twice, once with the bytes of their keys.
fn nets(alloc: Global, transaction: &OpenTransaction) -> Mem<(Net, KeyedNet)>
    ensures ok { IfOk result (λ nets. (schema : Tables) (m : Changes)
        → Holds schema transaction.now.view m → AreKeysIn schema transaction.now.writes
        → nets.0 ≡ net_over m transaction.now.writes) }
    ensures keys { IfOk result (λ nets. (schema : Tables)
        → AreKeysIn schema transaction.now.writes → AreKeysIn schema nets.0) }
    ensures twice { IfOk result (λ nets. nets.1 ≡ nets.0) }
    ensures err { OnlyMemory result }
{
    let changes = transaction.net()?;
    let net = changes.net(alloc)?;
    Ok((net, changes))
}
