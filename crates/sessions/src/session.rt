//! A session: what its transaction sees, and its own writes. Nothing here takes a lock.
ghost use Rattle.std.specs.Prelude.{◌≡◌, ◌<◌, ◌≤◌, [], Err, IfOk, IsOk, MatchOption, None, Some};
ghost use Rattle.steps.specs.Misfit.{max_session};
ghost use Rattle.values.specs.Log.{Changes};
ghost use Rattle.book.specs.tsbtree.View.{last};
ghost use Rattle.book.specs.staging.View.{Holds};
ghost use Rattle.sessions.specs.SessionState.{session_transaction, start_of, with_transaction};

use book::{Begun, BlockCache, OpenTransaction, Opening, Receipt};
use growlog::StoreName;
use std::alloc::Global;
use std::marker::Model;
use steps::MAX_SESSION;
use values::{Instant, Refusal, Schema};

/// A transaction that a session has open, and where it began.
#[derive(Drop)]
pub(crate) struct SessionTransaction {
    pub(crate) begun: Begun,
    pub(crate) transaction: OpenTransaction,
}

impl Model for SessionTransaction {
    ghost use Rattle.sessions.specs.SessionState.{SessionTransactionState};

    ghost Value = { SessionTransactionState };

    ghost view = { λ r. record {
      begun = r.begun;
      view = r.transaction.view;
      writes = r.transaction.writes;
    } };
}

/// A session of a store, with a transaction open or none. It belongs to no store: at another than
/// the one at which it began, its transaction is open only where that has an equal begin of it
/// which has not ended.
#[derive(Drop)]
pub struct Session {
    pub(crate) alloc: Global,
    pub(crate) number: u8,
    pub(crate) schema: Schema,
    pub(crate) receipt: u64,
    pub(crate) transaction: Option<SessionTransaction>,
    /// Unpacked blocks that were asked for last: no answer shows which.
    pub(crate) cache: BlockCache,
}

impl Model for Session {
    ghost use Rattle.sessions.specs.SessionState.{SessionState, IsSession};

    ghost Value = { SessionState };

    ghost view = { λ s. record {
      number = s.number;
      schema = s.schema;
      receipt = s.receipt;
      transaction = s.transaction;
    } };

    ghost invariant = { λ s. IsSession s.number s.schema s.transaction };
}

impl Session {
    /// Makes a session of these tables, with no transaction open. `NoSession` where the number is
    /// above 64; 0 is the service's own.
    pub fn new(alloc: Global, number: u8, schema: Schema) -> Result<Session, Refusal>
        ensures ok { IfOk result (λ s. s
            ≡ record { number = number; schema = schema; receipt = 0; transaction = None }) }
        ensures above { max_session < number → result ≡ Err Refusal.NoSession }
        ensures upto { number ≤ max_session → IsOk result }
    {
        if number > MAX_SESSION {
            return Err(Refusal::NoSession);
        }
        Ok(Session {
            alloc,
            number,
            schema,
            receipt: 0,
            transaction: None,
            cache: BlockCache::new(alloc),
        })
    }

    /// Returns the session's number, from 0 to 64.
    pub fn number(&self) -> u8
        ensures { result ≡ self.now.number }
    {
        self.number
    }

    /// Returns the tables that the session speaks of.
    pub fn schema(&self) -> &Schema
        ensures { result.now ≡ self.now.schema }
    {
        &self.schema
    }

    /// Returns the last instant that the open transaction sees, or none where none is open.
    pub fn start(&self) -> Option<Instant>
        ensures { result ≡ start_of self.now }
    {
        match &self.transaction {
            None => None,
            Some(own) => Some(own.begun.start()),
        }
    }

    /// Returns the number of the last receipt that a store gave the session, 0 at first.
    pub fn last_receipt(&self) -> u64
        ensures { result ≡ self.now.receipt }
    {
        self.receipt
    }

    /// Ends the open transaction with no trace. `NoTransaction` where none is open. It takes no
    /// memory.
    pub fn rollback(&mut self) -> Result<(), Refusal>
        ensures which { MatchOption self.old.transaction
            (result ≡ Err Refusal.NoTransaction) (λ _. IsOk result) }
        ensures ok { self.new ≡ with_transaction self.old None }
    {
        if self.transaction.is_none() {
            return Err(Refusal::NoTransaction);
        }
        self.transaction = None;
        Ok(())
    }

    /// Takes up a transaction that a store has begun, and hands on its receipt.
    pub(crate) fn take<J: StoreName>(&mut self, opening: Opening<J>) -> Receipt<J>
        requires shown { (m : Changes) × Holds self.old.schema opening.transaction.view m }
        requires unwritten { opening.transaction.writes ≡ [] }
        requires start { opening.begun.start ≡ last opening.transaction.view }
        ensures receipt { result ≡ opening.receipt }
        ensures session { self.new ≡ record {
          number = self.old.number;
          schema = self.old.schema;
          receipt = opening.receipt.number;
          transaction = Some (session_transaction opening.begun opening.transaction);
        } }
    {
        let Opening {
            begun,
            receipt,
            transaction,
        } = opening;
        self.receipt = receipt.number;
        self.transaction = Some(SessionTransaction { begun, transaction });
        receipt
    }
}
