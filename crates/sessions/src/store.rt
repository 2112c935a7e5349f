//! The store: the book under its lock.
ghost use Rattle.std.specs.Prelude.{◌≡◌, ◌≢◌, ◌<◌, ◌≤◌, ◌⊎◌, ◌↔◌, All, [], Err, IfErr, IfOk, IsPermutation, IsSome, IsTrue, None, OnErr, Some, length, map};
ghost use Rattle.values.specs.Log.{changes, last as last_of};
ghost use Rattle.values.specs.Memory.{OnlyMemory};
ghost use Rattle.steps.specs.Misfit.{max_session};
ghost use Rattle.book.specs.journal.Entries.{entry_at, numbers};
ghost use Rattle.book.specs.Book.{IsBook};
ghost use Rattle.book.specs.staging.View.{Holds};
ghost use Rattle.book.specs.tsbtree.View.{last};
ghost use Rattle.values.specs.declared.refusal.Refusal.TheVariants.{InTransaction, NoTable, NoTransaction};
ghost use Rattle.sessions.specs.declared.refusal.StoreRefusal.TheVariants as refused;
ghost use Rattle.sessions.specs.Refusal.{OnlyBook, OnlyBookRoom};
ghost use Rattle.sessions.specs.Store.{IsBegun, IsCommitted, IsCommittedBy, IsInstallOf, IsSplitOf};

use crate::copy::{leaf_copy, take_copy};
use crate::readings::Readings;
use crate::refusal::StoreRefusal;
use crate::session::Session;
use book::{Book, Closed, Cut, Engine, JournalGone, PackedNode, Receipt, SharedEntry};
use growlog::{NewLog, StoreName};
use std::alloc::Global;
use std::hint::spin_loop;
use std::sync::atomic::{AtomicU64, Ordering};
use std::sync::{Mutex, MutexGuard, Wait};
use std::thread::yield_now;
use values::{Instant, Mem, Refusal, Schema};

/// A store round which many threads run sessions. What its calls promise holds if they return.
#[derive(Drop)]
pub struct LockedStore<J: StoreName> {
    schema: Schema,
    most_entries: usize,
    book: Mutex<Book<J>>,
    /// How many threads have found the book locked, and waited for it.
    arrived: AtomicU64,
    /// How many of them have had it.
    passed: AtomicU64,
    /// Whose turn it is among commits of many rows.
    turn: Mutex<()>,
    pub ghost named: { schema ≡ J.origin.schema },
    pub ghost most_is: { most_entries ≡ J.origin.most_entries },
}

/// A store that is not closed, since the receipts are not one for each entry. They are handed back
/// in some order. Closing can be tried again, or the store given up.
pub struct Unclosed<J: StoreName> {
    pub store: LockedStore<J>,
    pub receipts: Vec<Receipt<J>>,
}

/// How often the lock is tried before a thread sleeps until it is free.
const TRIES: u32 = 200;

/// How many of these tries come before other threads are let run between them.
const TRIES_AT_ONCE: u32 = 100;

/// From how many rows on a commit lets others go first.
const MANY_ROWS: usize = 50;

/// How often such a commit looks whether they have gone, at most: who sleeps has to be woken.
const MOST_YIELDS: u32 = 100_000;

impl<J: StoreName> LockedStore<J> {
    /// Makes a store of these tables in which nothing was committed, and whose journal may have so many
    /// entries. Out of memory is the only refusal.
    pub fn new(
        alloc: Global,
        schema: Schema,
        most_entries: usize,
        opened: NewLog<SharedEntry>,
    ) -> Mem<LockedStore<J>>
        requires log { opened.seen.book ≡ J.book }
        requires origin { J.origin
            ≡ record { schema = schema; log = []; most_entries = most_entries } }
        ensures memory { OnlyMemory result }
    {
        let engine = Engine::new(alloc)?;
        Ok(LockedStore::over(alloc, schema, engine, most_entries, opened))
    }

    /// Makes a store of these tables that begins with what the engine has, and whose journal may have so
    /// many entries: nothing has happened to it yet, and its entries are numbered from 1.
    pub fn over(
        alloc: Global,
        schema: Schema,
        engine: Engine,
        most_entries: usize,
        opened: NewLog<SharedEntry>,
    ) -> LockedStore<J>
        requires log { opened.seen.book ≡ J.book }
        requires tables { schema ≡ J.origin.schema }
        requires most { most_entries ≡ J.origin.most_entries }
        requires holds { Holds J.origin.schema engine (changes J.origin.log) }
        requires clock { last engine ≡ last_of J.origin.log }
    {
        let book = Book::over(alloc, engine, most_entries, opened);
        LockedStore {
            schema,
            most_entries,
            book: Mutex::new(book),
            arrived: AtomicU64::new(0),
            passed: AtomicU64::new(0),
            turn: Mutex::new(()),
        }
    }

    /// Returns how many entries the journal may have.
    pub fn most_entries(&self) -> usize
        ensures { result ≡ J.origin.most_entries }
    {
        self.most_entries
    }

    /// Returns how many entries the journal has, for who looks on: it may have more when this is read, and
    /// never more than it may have.
    pub fn entries<R: Wait>(&self, rt: &R) -> usize
        ensures { result ≤ J.origin.most_entries }
    {
        self.locked(rt).len()
    }

    /// Makes a session of the store's tables, with no transaction open. `NoSession` or out of
    /// memory where the number is above 64; otherwise out of memory is the only refusal.
    pub fn session(&self, alloc: Global, number: u8) -> Result<Session, Refusal>
        ensures ok { IfOk result (λ s. s
            ≡ record { number = number; schema = J.origin.schema; receipt = 0; transaction = None }) }
        ensures above { max_session < number → IfOk result (λ s. ⊥) }
        ensures upto { number ≤ max_session → OnlyMemory result }
        ensures why { IfErr result (λ e. (e ≡ Refusal.NoSession) ⊎ (e ≡ Refusal.Memory)) }
    {
        Session::new(alloc, number, self.schema.copy(alloc)?)
    }

    /// Tells whether a session is of the store's tables.
    fn has_tables_of(&self, session: &Session) -> bool
        ensures { IsTrue result ↔ (session.now.schema ≡ J.origin.schema) }
    {
        self.schema == session.schema
    }

    /// Takes the lock.
    fn locked<R: Wait>(&self, rt: &R) -> MutexGuard<'_, Book<J>> {
        if let Some(book) = self.book.try_lock() {
            return book;
        }
        self.arrived.fetch_add(1, Ordering::SeqCst);
        let book = self.locked_in_time(rt);
        self.passed.fetch_add(1, Ordering::SeqCst);
        book
    }

    /// Waits for the lock. Who has it has it for some microseconds, and a thread takes longer to sleep
    /// and to be woken; so before it sleeps it tries for a while, and then lets others run between.
    fn locked_in_time<R: Wait>(&self, rt: &R) -> MutexGuard<'_, Book<J>> {
        for turn in 0..TRIES {
            if let Some(book) = self.book.try_lock() {
                return book;
            }
            if turn < TRIES_AT_ONCE {
                spin_loop();
            } else {
                yield_now();
            }
        }
        self.book.lock(rt)
    }

    /// Waits until a commit of so many rows may take the lock. One of many rows has it for long: there is
    /// one at a time, and before it go as many others as wait already.
    fn turn<R: Wait>(&self, rt: &R, rows: usize) -> Option<MutexGuard<'_, ()>> {
        if rows < MANY_ROWS {
            return None;
        }
        let turn = self.turn.lock(rt);
        let arrived = self.arrived.load(Ordering::SeqCst);
        for _ in 0..MOST_YIELDS {
            if self.passed.load(Ordering::SeqCst) >= arrived {
                break;
            }
            yield_now();
        }
        Some(turn)
    }

    /// Begins a session's transaction, which sees what its receipt's entry shows. `NoTable` where
    /// the session is of other tables, `InTransaction` where one is open, `JournalFull` where there
    /// is no room for one more entry. After a refusal nothing has changed.
    pub fn begin<R: Wait>(&self, rt: &R, session: &mut Session) -> Result<Receipt<J>, StoreRefusal>
        ensures begun { IfOk result (λ r. IsBegun session.old session.new r.number r.entry) }
        ensures other { session.old.schema ≢ J.origin.schema → result ≡ Err (refused.Session NoTable) }
        ensures open_before { session.old.schema ≡ J.origin.schema → IsSome session.old.transaction
            → result ≡ Err (refused.Session InTransaction) }
        ensures why { session.old.schema ≡ J.origin.schema → session.old.transaction ≡ None
            → OnlyBookRoom result }
        ensures refused { OnErr result (session.new ≡ session.old) }
    {
        if !self.has_tables_of(session) {
            return Err(StoreRefusal::Session(Refusal::NoTable));
        }
        self.begin_lent(rt, session)
    }

    /// Begins a transaction like `begin`, of a session that is known to be of the store's tables, as
    /// one that `session` has made: no tables are compared. `InTransaction` where one is open,
    /// `JournalFull` where there is no room for one more entry. After a refusal nothing has changed.
    pub fn begin_lent<R: Wait>(
        &self,
        rt: &R,
        session: &mut Session,
    ) -> Result<Receipt<J>, StoreRefusal>
        requires { session.old.schema ≡ J.origin.schema }
        ensures begun { IfOk result (λ r. IsBegun session.old session.new r.number r.entry) }
        ensures open_before { IsSome session.old.transaction
            → result ≡ Err (refused.Session InTransaction) }
        ensures why { session.old.transaction ≡ None → OnlyBookRoom result }
        ensures refused { OnErr result (session.new ≡ session.old) }
    {
        if session.transaction.is_some() {
            return Err(StoreRefusal::Session(Refusal::InTransaction));
        }
        let opening = self.locked(rt).begin(session.number, session.receipt)?;
        Ok(session.take(opening))
    }

    /// Ends a session's transaction, by this reading of the clock: how it ended is in the receipt's
    /// entry. `NoTable` where the session is of other tables, `NoTransaction` where none is open,
    /// or none at this store, `JournalFull` where there is no room for one more entry. After a
    /// refusal nothing has changed, and the transaction is still open.
    pub fn commit<R: Wait>(
        &self,
        rt: &R,
        session: &mut Session,
        reading: Instant,
    ) -> Result<Receipt<J>, StoreRefusal>
        ensures committed { IfOk result (λ r.
            IsCommitted session.old session.new reading r.number r.entry) }
        ensures other { session.old.schema ≢ J.origin.schema → result ≡ Err (refused.Session NoTable) }
        ensures none { session.old.schema ≡ J.origin.schema → session.old.transaction ≡ None
            → result ≡ Err (refused.Session NoTransaction) }
        ensures why { session.old.schema ≡ J.origin.schema → IsSome session.old.transaction
            → OnlyBook result }
        ensures refused { OnErr result (session.new ≡ session.old) }
    {
        if !self.has_tables_of(session) {
            return Err(StoreRefusal::Session(Refusal::NoTable));
        }
        let (net, changes) = session.nets()?;
        let _turn = self.turn(rt, changes.changes().len());
        let ended = session.commit_at(&mut *self.locked(rt), net, changes, reading)?;
        Ok(ended.into_receipt())
    }

    /// Ends a transaction like `commit`, of a session that is known to be of the store's tables, as
    /// one that `session` has made: no tables are compared. The reading is taken under the lock:
    /// where the clock does not run back, it is no earlier than the clock was when any earlier call on
    /// the store returned. `NoTransaction` where none is open, or none at this store,
    /// `JournalFull` where there is no room for one more entry. After a refusal nothing has changed,
    /// and the transaction is still open. With the receipt of its begin, a commit of one row has the node
    /// that it changes copied before the lock is taken.
    pub fn commit_lent<R: Wait, C: Readings>(
        &self,
        rt: &R,
        session: &mut Session,
        begin: Option<&Receipt<J>>,
        readings: &mut C,
    ) -> Result<Receipt<J>, StoreRefusal>
        requires { session.old.schema ≡ J.origin.schema }
        ensures committed { IfOk result (λ r.
            IsCommittedBy C.may_give session.old session.new r.number r.entry) }
        ensures none { session.old.transaction ≡ None → result ≡ Err (refused.Session NoTransaction) }
        ensures why { IsSome session.old.transaction → OnlyBook result }
        ensures refused { OnErr result (session.new ≡ session.old) }
    {
        let (net, changes) = session.nets()?;
        let turn = self.turn(rt, changes.changes().len());
        let copy = leaf_copy(begin, &changes)?;
        let mut book = self.locked(rt);
        let unused = take_copy(&mut *book, begin, copy);
        let reading = readings.reading();
        let ended = session.commit_at(&mut *book, net, changes, reading);
        drop(book);
        drop(turn);
        drop(unused);
        Ok(ended?.into_receipt())
    }

    /// Splits the current data node of a key, where its cut lies inside the node and is no instant
    /// after the last commit: whether it did is in the receipt's entry. `JournalFull` where there
    /// is no room for one more entry. After a refusal nothing has changed.
    pub fn split<R: Wait>(&self, rt: &R, cut: Cut) -> Result<Receipt<J>, StoreRefusal>
        ensures split { IfOk result (λ r. IsSplitOf cut r.entry) }
        ensures why { OnlyBookRoom result }
    {
        let receipt = self.locked(rt).split(cut)?;
        Ok(receipt)
    }

    /// Puts a block in the place of its node, where that is in the tree unpacked: whether it was is
    /// in the receipt's entry, beside the node's rectangle and the block's bytes. `JournalFull`
    /// where there is no room for one more entry. After a refusal nothing has changed.
    pub fn install<R: Wait>(&self, rt: &R, packed: PackedNode) -> Result<Receipt<J>, StoreRefusal>
        ensures install { IfOk result (λ r. IsInstallOf packed r.entry) }
        ensures why { OnlyBookRoom result }
    {
        let receipt = self.locked(rt).install(packed)?;
        Ok(receipt)
    }

    /// Closes the store where the receipts are those of its entries, one for each, in whatever
    /// order they come. It takes no memory.
    pub fn close(self, receipts: Vec<Receipt<J>>) -> Result<Closed, Unclosed<J>>
        ensures book { IfOk result (IsBook J.origin) }
        ensures stand { IfOk result (λ c. All (λ r.
            entry_at c.entries r.number ≡ Some r.entry) receipts.items) }
        ensures once { IfOk result (λ c. IsPermutation
            (map (λ r. r.number) receipts.items) (numbers (length c.entries))) }
        ensures unclosed { IfErr result (λ u. IsPermutation receipts.items u.receipts.items) }
    {
        let mut receipts = receipts;
        let LockedStore {
            schema,
            most_entries,
            book,
            arrived: _,
            passed: _,
            turn: _,
        } = self;
        let book = book.into_inner();
        if book.is_covered(&mut receipts) {
            return Ok(book.close(receipts));
        }
        let store = LockedStore {
            schema,
            most_entries,
            book: Mutex::new(book),
            arrived: AtomicU64::new(0),
            passed: AtomicU64::new(0),
            turn: Mutex::new(()),
        };
        Err(Unclosed { store, receipts })
    }

    /// Gives the store up unclosed, and ends these receipts, whichever they are: for a server that
    /// cannot go on, as where memory ran out. What it returns ends the receipts that are not among
    /// them. It takes no memory.
    pub fn give_up(self, receipts: Vec<Receipt<J>>) -> JournalGone<J> {
        let LockedStore {
            schema: _,
            most_entries: _,
            book,
            arrived: _,
            passed: _,
            turn: _,
        } = self;
        book.into_inner().give_up(receipts)
    }
}
