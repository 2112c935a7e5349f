//! Connections, each served in a thread of its own.
ghost use Rattle.std.specs.Prelude.{◌≡◌, ◌≢◌, ℕ, All, IfErr, IfOk, List, OnOk, Some, length, map, true};
ghost use Rattle.values.specs.Log.{Row};
ghost use Rattle.values.specs.Tables.{Schema};
ghost use Rattle.histories.specs.History.{History};
ghost use Rattle.sessions.specs.journal.Entries.{entry_at};
ghost use Rattle.sessions.specs.book.Book.{IsBook};
ghost use Rattle.serving.specs.Progress.{Given};
ghost use Rattle.runs.specs.OneHistory.{Carries};
ghost use Rattle.runs.specs.Run.{IsLoaded};
ghost use Rattle.listening.specs.Connection.{HasRead, IsOneRun, IsServedRun};

use crate::accepting::take_connections;
use crate::control::Control;
use crate::desk::Desk;
use crate::ending::await_end;
use crate::limit::Limit;
use crate::migration::run_rounds;
use crate::pile::Pile;
use crate::round_trigger::Call;
use crate::service::Service;
use crate::stop::Stop;
use crate::watch::Watch;
use growlog::StoreName;
use runs::served_runs_are_histories;
use sessions::{Closed, Gate, LockedStore, Receipt, Unclosed};
use std::alloc::{AllocError, Global};
use std::io::{Read, Write};
use std::net::{Net, TcpListener, TcpStream};
use std::sync::{Mutex, Wait};
use std::thread;
use std::thread::Threads;
use std::time::Clock;

/// Why sessions were not served to a closed store.
#[derive(Clone, Copy, Debug, PartialEq, Eq)]
pub enum ListenFault {
    /// The port could not be listened at.
    Socket,
    /// Memory ran out before the first connection was taken.
    Memory,
    /// The receipts are not those of the store's entries, one for each; or those of a session do not rise;
    /// or there are more connections than the limit has it; or a line was refused for a full journal that
    /// is not full, or the end of an open transaction as one that is not.
    NotClosed,
}

/// Takes connections at a socket that listens, and serves each in a thread of its own, as a session whose
/// number no other has meanwhile: so many as the limit has it. Then nobody listens any more; and when all
/// have ended, the store is closed with their receipts and those of what was done before.
///
/// Numbers are given from 1 on, and used again in the order in which they came free; a connection waits
/// while there is none. What a session had open is let go before its number is given on. Where the limit
/// is `Connections(0)`, the reader is read: when it ends, or fails, the server is stopped, which ends each
/// session as where its client had ended. The same is done when a line was refused since the journal is
/// full. Where a number of seconds is given, 1 or more, a client that has sent nothing for so long is at
/// its end while another waits for a number. Where it is logged, the log has a line when the server
/// listens, for each connection that is refused, for marks that the journal passes, and when all have
/// ended; nothing of what users said.
///
/// The closed store is a book (`IsBook`), and the receipts of what was done before are of its
/// entries. Where those are a load's, there is one history (`IsOneRun`), which goes on from any that
/// the store began with (`Carries`): its entries are the store's in their order, and each session was
/// sent its replies at the places of its lines, connection by connection; `E10` was among them
/// only for lines that take memory, and `E13` only if the journal has all entries that it may have. How
/// each session was served, receipt by receipt, `IsServedRun` says besides. Which bytes a socket had is
/// not known: of a session it is said of some lines.
///
/// A session that ends in a fault is not a fault here: its receipts count, and the others go on.
/// Nor is a connection that cannot be served, as there is no memory, no thread or no descriptor for
/// it: it is answered `E10 memory` where that can be sent, and counts as one of `Sessions`. `Memory`
/// if there is no room for the receipts before the first connection, or no thread that takes them.
pub fn listen<J, R, I, L, G>(
    rt: &R,
    alloc: Global,
    bound: (TcpListener, u16),
    limit: Limit,
    idle: Option<u32>,
    reader: &mut I,
    is_logged: bool,
    log: &mut L,
    store: LockedStore<J>,
    before: Vec<Receipt<J>>,
    gate: &G,
) -> Result<Closed, ListenFault>
where
    J: StoreName,
    R: Net<Listener = TcpListener, Stream = TcpStream> + Clock + Threads + Wait + Sync,
    I: Control + Read,
    L: Write,
    G: Gate + Sync,
    ensures book { IfOk result (IsBook J.origin) }
    ensures stand { IfOk result (λ c. All (λ r.
        entry_at c.entries r.number ≡ Some r.entry) before.items) }
    ensures history { IfOk result (λ c. (start : Schema) (earlier : History)
        → Carries start earlier J.origin → (table : ℕ) (rows : List Row)
        → IsLoaded J.origin.schema table rows
        (map (λ r. record { number = r.number; entry = r.entry }) before.items)
        → IsOneRun start earlier limit J.origin.most_entries table rows c) }
    ensures run { IfOk result (λ c. (table : ℕ) (rows : List Row)
        → IsLoaded J.origin.schema table rows
        (map (λ r. record { number = r.number; entry = r.entry }) before.items)
        → IsServedRun J.origin limit table rows
        (map (λ r. record { number = r.number; entry = r.entry }) before.items) c) }
    ensures why { IfErr result (λ fault. fault ≢ ListenFault.Socket) }
    ensures read { HasRead limit (I.remaining reader.old) (I.remaining reader.new) }
{
    served_runs_are_histories();
    let mut receipts = before;
    // A store has one receipt for each entry of its journal, and the room for all of them is made before
    // a session runs. Nobody touches what is not used of it.
    let most_entries = store.most_entries();
    if receipts.reserve(most_entries).is_err() {
        return give_up(store, receipts, ListenFault::Memory);
    }
    let Ok(pile) = Pile::with_room(alloc, most_entries) else {
        return give_up(store, receipts, ListenFault::Memory);
    };
    let pile = Mutex::new(pile);
    let served = serve_connections(
        rt, alloc, bound, limit, idle, reader, is_logged, log, &store, gate, &pile,
    );
    let (mut others, is_run, has_full) = pile.into_inner().into_receipts(limit);
    if served.is_err() || receipts.append(&mut others).is_err() {
        let gone = store.give_up(receipts);
        gone.end(others);
        return Err(ListenFault::Memory);
    }
    others.destroy_empty();
    if !is_run {
        return give_up(store, receipts, ListenFault::NotClosed);
    }
    match store.close(receipts) {
        Ok(closed) => confirm(closed, has_full, most_entries),
        Err(Unclosed { store, receipts }) => give_up(store, receipts, ListenFault::NotClosed),
    }
}

/// Returns a closed store. Where a line was refused since the journal is full, the journal is to be
/// full.
fn confirm(closed: Closed, has_full: bool, most_entries: usize) -> Result<Closed, ListenFault>
    ensures same { IfOk result (λ c. c ≡ closed) }
    ensures why { IfErr result (λ fault. fault ≢ ListenFault.Socket) }
    ensures full { OnOk result (has_full ≡ true → length closed.entries ≡ most_entries) }
{
    if has_full && closed.entries() != most_entries {
        return Err(ListenFault::NotClosed);
    }
    Ok(closed)
}

/// Gives up a store, and its receipts with it, for a fault.
fn give_up<J: StoreName>(
    store: LockedStore<J>,
    receipts: Vec<Receipt<J>>,
    fault: ListenFault,
) -> Result<Closed, ListenFault>
    ensures ok { IfOk result (λ _. ⊥) }
    ensures why { fault ≢ ListenFault.Socket
        → IfErr result (λ fault. fault ≢ ListenFault.Socket) }
{
    let _gone = store.give_up(receipts);
    Err(fault)
}

/// Serves the connections, with rounds beside them, until all have ended, and has all their
/// receipts handed over. An error comes before the first connection.
fn serve_connections<J, R, I, L, G>(
    rt: &R,
    alloc: Global,
    bound: (TcpListener, u16),
    limit: Limit,
    idle: Option<u32>,
    reader: &mut I,
    is_logged: bool,
    log: &mut L,
    store: &LockedStore<J>,
    gate: &G,
    pile: &Mutex<Pile<J>>,
) -> Result<(), AllocError>
where
    J: StoreName,
    R: Net<Listener = TcpListener, Stream = TcpStream> + Clock + Threads + Wait + Sync,
    I: Control + Read,
    L: Write,
    G: Gate + Sync,
    ensures read { HasRead limit (I.remaining reader.old) (I.remaining reader.new) }
{
    let (listener, port) = bound;
    let mut watch = Watch::start(is_logged, port, store.most_entries(), log);
    match limit {
        Limit::Connections(0) => serve_to_end(
            rt, alloc, listener, port, idle, reader, &mut watch, log, store, gate, pile,
        ),
        _ if is_logged => serve_logged(
            rt, alloc, listener, limit, idle, &mut watch, log, store, gate, pile,
        ),
        _ => serve_limited(rt, alloc, listener, limit, idle, store, gate, pile),
    }
}

/// Serves so many connections as a limit has it.
fn serve_limited<J, R, G>(
    rt: &R,
    alloc: Global,
    listener: TcpListener,
    limit: Limit,
    idle: Option<u32>,
    store: &LockedStore<J>,
    gate: &G,
    pile: &Mutex<Pile<J>>,
) -> Result<(), AllocError>
where
    J: StoreName,
    R: Net<Listener = TcpListener, Stream = TcpStream> + Clock + Threads + Wait + Sync,
    G: Gate + Sync,
{
    let (calls, called) = crossbeam_channel::unbounded::<Call, Global>(alloc)?;
    let desk = Desk::new(rt, alloc, limit)?;
    let counts_all = matches!(limit, Limit::Connections(_));
    let stop = Stop::new(alloc, None, None)?;
    let service = Service::new(rt, alloc, store, gate, pile, idle, counts_all, stop);
    let service = &service;
    thread::scope(thread::scope_env(), rt, move |scope| {
        // Without a thread for them there are no rounds, which no reply shows.
        let _ = scope.spawn(move || run_rounds(rt, alloc, store, gate, called, pile));
        take_connections(scope, service, listener, desk, calls);
    });
    Ok(())
}

/// Serves so many connections as a limit has it, while this thread writes the log.
fn serve_logged<J, R, L, G>(
    rt: &R,
    alloc: Global,
    listener: TcpListener,
    limit: Limit,
    idle: Option<u32>,
    watch: &mut Watch,
    log: &mut L,
    store: &LockedStore<J>,
    gate: &G,
    pile: &Mutex<Pile<J>>,
) -> Result<(), AllocError>
where
    J: StoreName,
    R: Net<Listener = TcpListener, Stream = TcpStream> + Clock + Threads + Wait + Sync,
    L: Write,
    G: Gate + Sync,
{
    let (calls, called) = crossbeam_channel::unbounded::<Call, Global>(alloc)?;
    let desk = Desk::new(rt, alloc, limit)?;
    let counts_all = matches!(limit, Limit::Connections(_));
    let stop = Stop::new(alloc, None, None)?;
    let service = Service::new(rt, alloc, store, gate, pile, idle, counts_all, stop);
    let service = &service;
    thread::scope(thread::scope_env(), rt, move |scope| {
        // Without a thread for them there are no rounds, which no reply shows.
        let _ = scope.spawn(move || run_rounds(rt, alloc, store, gate, called, pile));
        let accepting = scope.spawn(move || take_connections(
            scope, service, listener, desk, calls,
        ));
        if accepting.is_err() {
            return Err(AllocError);
        }
        watch.look_on(service, log);
        Ok(())
    })
}

/// Serves connections until a reader ends, which this thread reads meanwhile, and writes the log.
fn serve_to_end<J, R, I, L, G>(
    rt: &R,
    alloc: Global,
    listener: TcpListener,
    port: u16,
    idle: Option<u32>,
    reader: &mut I,
    watch: &mut Watch,
    log: &mut L,
    store: &LockedStore<J>,
    gate: &G,
    pile: &Mutex<Pile<J>>,
) -> Result<(), AllocError>
where
    J: StoreName,
    R: Net<Listener = TcpListener, Stream = TcpStream> + Clock + Threads + Wait + Sync,
    I: Control + Read,
    L: Write,
    G: Gate + Sync,
{
    let (calls, called) = crossbeam_channel::unbounded::<Call, Global>(alloc)?;
    let desk = Desk::new(rt, alloc, Limit::Connections(0))?;
    let stop = Stop::new(alloc, Some(port), listener.try_clone().ok())?;
    let service = Service::new(rt, alloc, store, gate, pile, idle, true, stop);
    let service = &service;
    thread::scope(thread::scope_env(), rt, move |scope| {
        // Without a thread for them there are no rounds, which no reply shows.
        let _ = scope.spawn(move || run_rounds(rt, alloc, store, gate, called, pile));
        let accepting = scope.spawn(move || take_connections(
            scope, service, listener, desk, calls,
        ));
        if accepting.is_err() {
            return Err(AllocError);
        }
        await_end(reader, service, watch, log);
        service.stop();
        watch.look_on(service, log);
        Ok(())
    })
}
