//! Rows that a store has before the first connection.
ghost use Rattle.std.specs.Prelude.{◌≡◌, ◌≤◌, ℕ, [], IfErr, IfOk, IfSome, IsSome, None, map, vec_capacity};
ghost use Rattle.sessions.specs.Store.{IsBegun};
ghost use Rattle.listening.specs.Loading.{HasEnded, IsCommitAt, IsFirstCommit, IsLoadAt, IsLoadedAt, IsUnended, IsUnloaded, unbegun};

use growlog::StoreName;
use sessions::{Entry, LockedStore, Receipt, Session};
use std::alloc::Global;
use std::sync::Wait;
use values::{Instant, Refusal, Row, Write};

/// What a load left: its receipts, and the instant of its commit, 0 where there was none.
pub struct Loaded<J: StoreName> {
    pub receipts: Vec<Receipt<J>>,
    pub instant: Instant,
}

/// Why rows were not loaded, and the receipts that were taken before.
pub struct Unloaded<J: StoreName> {
    pub refusal: Refusal,
    pub receipts: Vec<Receipt<J>>,
}

/// The receipts of a load: of its begin and of its commit.
const MOST_RECEIPTS: usize = 2;

/// Inserts rows of a table, by its number, in one transaction of session 0 that is committed at the
/// reading 0. Without rows there is no transaction.
///
/// It is refused as BEGIN and INSERT are, as COMMIT is if there is no room, and with
/// `NoTransaction` if the commit has no instant, or where the store is not new: the receipts are those
/// of its entries 1 and 2. A refusal comes with the receipts that were taken: none before the begin,
/// then that of the begin, and behind a commit both.
pub fn load_into<J: StoreName, R: Wait>(
    rt: &R,
    alloc: Global,
    store: &LockedStore<J>,
    table: u8,
    rows: &[Row],
) -> Result<Loaded<J>, Unloaded<J>>
    ensures ok { IfOk result (λ l. IsLoadedAt J.origin.schema table rows.now
        (map (λ r. record { number = r.number; entry = r.entry }) l.receipts.items) l.instant) }
    ensures err { IfErr result (λ u. IsUnloaded J.origin.schema table rows.now u.refusal
        (map (λ r. record { number = r.number; entry = r.entry }) u.receipts.items)) }
{
    if rows.is_empty() {
        return Ok(Loaded {
            receipts: Vec::new(alloc),
            instant: 0,
        });
    }
    let mut session = match store.session(alloc, 0) {
        Ok(session) => session,
        Err(refusal) => return unbegun(Vec::new(alloc), refusal),
    };
    let Ok(receipts) = Vec::with_capacity(alloc, MOST_RECEIPTS) else {
        return unbegun(Vec::new(alloc), Refusal::Memory);
    };
    match store.begin(rt, &mut session) {
        Ok(begun) => load_begun(rt, store, &mut session, begun, receipts, table, rows),
        Err(refusal) => unbegun(receipts, Refusal::from(refusal)),
    }
}

/// Returns a refusal without receipts.
fn unbegun<J: StoreName>(
    receipts: Vec<Receipt<J>>,
    refusal: Refusal,
) -> Result<Loaded<J>, Unloaded<J>>
    requires { receipts.items ≡ [] }
    ensures ok { IfOk result (λ _. ⊥) }
    ensures err { IfErr result (λ u. (u.refusal ≡ refusal) × (u.receipts.items ≡ [])) }
{
    Err(Unloaded { refusal, receipts })
}

/// Inserts rows in a transaction that has just begun, and commits it.
fn load_begun<J: StoreName, R: Wait>(
    rt: &R,
    store: &LockedStore<J>,
    session: &mut Session,
    begun: Receipt<J>,
    receipts: Vec<Receipt<J>>,
    table: u8,
    rows: &[Row],
) -> Result<Loaded<J>, Unloaded<J>>
    requires begun { IsBegun (unbegun J.origin.schema) session.old begun.number begun.entry }
    requires none { receipts.items ≡ [] }
    requires room { MOST_RECEIPTS ≤ vec_capacity receipts }
    ensures ok { IfOk result (λ l. IsLoadAt J.origin.schema table rows.now
        (map (λ r. record { number = r.number; entry = r.entry }) l.receipts.items) l.instant) }
    ensures err { IfErr result (λ u. IsUnloaded J.origin.schema table rows.now u.refusal
        (map (λ r. record { number = r.number; entry = r.entry }) u.receipts.items)) }
{
    let mut receipts = receipts;
    match session.write(Write::Insert(table, rows)) {
        Ok(_) => commit_begun(rt, store, session, begun, receipts),
        Err(refusal) => {
            receipts.push_reserved(begun);
            Err(Unloaded { refusal, receipts })
        }
    }
}

/// Commits a transaction at the reading 0.
fn commit_begun<J: StoreName, R: Wait>(
    rt: &R,
    store: &LockedStore<J>,
    session: &mut Session,
    begun: Receipt<J>,
    receipts: Vec<Receipt<J>>,
) -> Result<Loaded<J>, Unloaded<J>>
    requires tables { session.old.schema ≡ J.origin.schema }
    requires open { IsSome session.old.transaction }
    requires none { receipts.items ≡ [] }
    requires room { MOST_RECEIPTS ≤ vec_capacity receipts }
    ensures ok { IfOk result (λ l. HasEnded session.old
        (record { number = begun.number; entry = begun.entry })
        (map (λ r. record { number = r.number; entry = r.entry }) l.receipts.items) l.instant) }
    ensures err { IfErr result (λ u. IsUnended
        (record { number = begun.number; entry = begun.entry }) u.refusal
        (map (λ r. record { number = r.number; entry = r.entry }) u.receipts.items)) }
{
    let mut receipts = receipts;
    let begin = begun.number;
    receipts.push_reserved(begun);
    let done = match store.commit(rt, session, 0) {
        Ok(done) => done,
        Err(refused) => {
            let refusal = Refusal::from(refused);
            return Err(Unloaded { refusal, receipts });
        }
    };
    let ended = load_instant(begin, done.number, done.entry.entry());
    receipts.push_reserved(done);
    match ended {
        Some(instant) => Ok(Loaded { receipts, instant }),
        None => Err(Unloaded {
            refusal: Refusal::NoTransaction,
            receipts,
        }),
    }
}

/// Returns the instant of a load from the numbers of its receipts and the entry of its commit, if they
/// are those of the first two entries and the commit has one. A store that was just made gives no
/// others; a later one would.
fn load_instant(begin: u64, end: u64, entry: &Entry) -> Option<Instant>
    ensures some { IfSome result (IsFirstCommit begin end entry.now) }
    ensures none { result ≡ None → (instant : ℕ) → IsFirstCommit begin end entry.now instant → ⊥ }
{
    if begin != 1 || end != 2 {
        return None;
    }
    commit_instant(entry)
}

/// Returns the instant of a commit from its entry, if it has one.
fn commit_instant(entry: &Entry) -> Option<Instant>
    ensures some { IfSome result (IsCommitAt entry.now) }
    ensures none { result ≡ None → (instant : ℕ) → IsCommitAt entry.now instant → ⊥ }
{
    match entry {
        Entry::Commit {
            end: Ok(Some(instant)),
            ..
        } => Some(*instant),
        _ => None,
    }
}
