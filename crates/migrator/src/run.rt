//! Rounds of the migrator.
ghost use Rattle.std.specs.Prelude.{◌≡◌, ◌≢◌, ◌∷◌, [], Err, IfErr, IfOk, IsErrAnd, None, OnErr, Some, map, ℕ, ◌<◌};
ghost use Rattle.sessions.specs.journal.declared.entry.Entry.TheVariants.{Begin};
ghost use Rattle.sessions.specs.tsbtree.View.{TreeState};
ghost use Rattle.migrator.specs.Fault.{IsNoRoom, IsNoStart};
ghost use Rattle.migrator.specs.Round.{HasBegun, IsBroken, IsOne, IsPart, IsPartOf, IsRound, IsWhole, IsWholeOf};

use crate::bench::{make_ends, work};
use crate::fault::{Cause, MigrateFault};
use crate::name::RoundName;
use crate::round::Round;
use crate::store_calls::begin_at;
use growlog::StoreName;
use keyrange::Rect;
use sessions::{Entry, Gate, LockedStore, Receipt, Session, View};
use std::alloc::Global;
use std::marker::Brand;
use std::sync::Wait;
use std::thread;
use std::thread::Threads;
use values::Mem;

/// The most workers of a round.
const MOST_WORKERS: u8 = 8;

/// The most nodes that a round packs on the thread of its caller. More have workers.
const MOST_AT_ONCE: usize = 4;

/// Runs one round: a begin of the session, and the installs of all data nodes of history that its
/// view shows unpacked, packed by `workers` workers, at least 1 and at most 8. Where the view shows
/// at most 4, there is one worker, which is the thread of the caller. Each worker passes the gate
/// before it packs a node, and blocks are installed as they come. At the end no transaction of the
/// session is open.
///
/// A round that is broken off hands back the receipts that it took, and its workers have ended.
/// Before its begin it is broken off where memory runs out, the journal is full, or the session is
/// of other tables than the store.
pub fn run_migrator<J, R, G>(
    rt: &R,
    alloc: Global,
    store: &LockedStore<J>,
    session: &mut Session,
    workers: u8,
    gate: &G,
) -> Result<Vec<Receipt<J>>, MigrateFault<J>>
where
    J: StoreName,
    R: Threads + Wait + Sync,
    G: Gate + Sync,
    requires none { session.old.transaction ≡ None }
    ensures none { session.new.transaction ≡ None }
    ensures round { IfOk result (λ receipts. IsRound session.old session.new
        (map (λ r. (r.number, r.entry)) receipts.items)) }
    ensures broken { IfErr result (λ fault. IsBroken session.old session.new
        (map (λ r. (r.number, r.entry)) fault.receipts.items)) }
    ensures own { session.old.schema ≡ J.origin.schema → IfErr result (λ fault.
        fault.receipts.items ≡ [] → IsNoRoom fault.cause) }
    ensures other { session.old.schema ≢ J.origin.schema → IsErrAnd result (λ fault.
        (fault.receipts.items ≡ []) × IsNoStart fault.cause) }
{
    let mut receipts = Vec::new(alloc);
    if receipts.reserve(1).is_err() {
        return Err(MigrateFault {
            cause: Cause::Memory,
            receipts,
        });
    }
    match begin(rt, store, session) {
        Ok(receipt) => receipts.push_reserved(receipt),
        Err(cause) => return Err(MigrateFault { cause, receipts }),
    }
    pack_begun(rt, alloc, store, workers, gate, receipts)
}

/// Begins a session's transaction and ends it: the view is in the receipt's entry.
fn begin<J: StoreName, R: Wait>(
    rt: &R,
    store: &LockedStore<J>,
    session: &mut Session,
) -> Result<Receipt<J>, Cause>
    requires { session.old.transaction ≡ None }
    ensures ok { IfOk result (λ r. HasBegun session.old session.new (r.number, r.entry)) }
    ensures other { session.old.schema ≢ J.origin.schema → result ≡ Err Cause.Worker }
    ensures own { session.old.schema ≡ J.origin.schema → IfErr result IsNoRoom }
    ensures err { OnErr result (session.new ≡ session.old) }
{
    let receipt = begin_at(rt, store, session)?;
    let _open = session.rollback();
    Ok(receipt)
}

/// Packs what the begin of a receipt shows unpacked, and returns the receipts of the round.
fn pack_begun<J, R, G>(
    rt: &R,
    alloc: Global,
    store: &LockedStore<J>,
    workers: u8,
    gate: &G,
    receipts: Vec<Receipt<J>>,
) -> Result<Vec<Receipt<J>>, MigrateFault<J>>
where
    J: StoreName,
    R: Threads + Wait + Sync,
    G: Gate + Sync,
    requires { IsOne (map (λ r. (r.number, r.entry)) receipts.items) }
    ensures whole { IfOk result (λ rs. IsWholeOf
        (map (λ r. (r.number, r.entry)) receipts.items) (map (λ r. (r.number, r.entry)) rs.items)) }
    ensures part { IfErr result (λ f. IsPartOf (map (λ r. (r.number, r.entry)) receipts.items)
        (map (λ r. (r.number, r.entry)) f.receipts.items)) }
{
    match view_of(receipts[0].entry.entry()) {
        Ok(Some(view)) => pack_all::<Brand, J, R, G>(
            rt,
            alloc,
            store,
            &view,
            workers.max(1).min(MOST_WORKERS),
            gate,
            receipts,
        ),
        Ok(None) => Err(MigrateFault {
            cause: Cause::Worker,
            receipts,
        }),
        Err(_) => Err(MigrateFault {
            cause: Cause::Memory,
            receipts,
        }),
    }
}

/// Returns the view that a begin shows.
fn view_of(entry: &Entry) -> Mem<Option<View>>
    ensures { IfOk result (λ found. (session earlier : ℕ) (shown : TreeState)
        → entry.now ≡ Begin session earlier shown → found ≡ Some shown) }
{
    match entry {
        Entry::Begin { view, .. } => Ok(Some(view.share()?)),
        _ => Ok(None),
    }
}

/// Runs the workers of a round over its view, and returns the receipts of the round.
fn pack_all<N, J, R, G>(
    rt: &R,
    alloc: Global,
    store: &LockedStore<J>,
    view: &View,
    workers: u8,
    gate: &G,
    receipts: Vec<Receipt<J>>,
) -> Result<Vec<Receipt<J>>, MigrateFault<J>>
where
    N: RoundName,
    J: StoreName,
    R: Threads + Wait + Sync,
    G: Gate + Sync,
    requires some { 0 < workers }
    requires view { view.now ≡ N.shown }
    requires begun { map (λ r. (r.number, r.entry)) receipts.items ≡ N.begin ∷ [] }
    ensures ok { IfOk result (λ rs.
        IsWhole N.begin N.shown (map (λ r. (r.number, r.entry)) rs.items)) }
    ensures err { IfErr result (λ f.
        IsPart N.begin N.shown (map (λ r. (r.number, r.entry)) f.receipts.items)) }
{
    let mut round = Round::<J, N>::new(alloc, receipts);
    let packed = if are_few(view) {
        round.pack_here(rt, alloc, store, view, gate)
    } else {
        pack_by_workers(rt, alloc, store, view, workers, gate, &mut round)
    };
    round.finish(view, packed)
}

/// Tells whether a view shows at most `MOST_AT_ONCE` data nodes of history unpacked.
fn are_few(view: &View) -> bool {
    let mut after: Option<&Rect> = None;
    for _ in 0..MOST_AT_ONCE {
        match view.first_unpacked(after) {
            None => return true,
            Some(node) => after = Some(node.rect()),
        }
    }
    view.first_unpacked(after).is_none()
}

/// Runs the workers of a round.
fn pack_by_workers<N, J, R, G>(
    rt: &R,
    alloc: Global,
    store: &LockedStore<J>,
    view: &View,
    workers: u8,
    gate: &G,
    round: &mut Round<J, N>,
) -> Result<(), Cause>
where
    N: RoundName,
    J: StoreName,
    R: Threads + Wait + Sync,
    G: Gate + Sync,
    requires some { 0 < workers }
    requires view { view.now ≡ N.shown }
{
    let (desk, benches) = make_ends::<N>(alloc, workers)?;
    // A closure may not hold what cannot be dropped, as a round, but may borrow it.
    thread::scope(
        thread::scope_env(),
        rt,
        move |scope| -> Result<(), Cause>
            requires some { 0 < workers }
            requires view { view.now ≡ N.shown }
        {
            for bench in benches {
                if scope.spawn(move || work(rt, alloc, gate, bench)).is_err() {
                    return Err(Cause::Memory);
                }
            }
            round.pack(rt, store, view, usize::from(workers), &desk)
        },
    )
}
