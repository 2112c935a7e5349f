//! A store that is loaded, served and closed, and what is written of it.
ghost use Rattle.std.specs.Prelude.{◌≡◌, ◌⊎◌, ℕ, [], List, Some, IfOk, IfErr, OnOk, map, codes, length, true};
ghost use Rattle.std.specs.Io.KnownBytes.{Appends, Keeps};
ghost use Rattle.values.specs.Commits.{max_instant};
ghost use Rattle.values.specs.Log.{Row, changes, last as last_of};
ghost use Rattle.values.specs.Memory.{OnlyMemory};
ghost use Rattle.values.specs.Tables.{table_at};
ghost use Rattle.values.specs.TableRules.{IsTable};
ghost use Rattle.values.specs.Versions.{answer};
ghost use Rattle.values.specs.declared.query.Form.TheVariants.{Between};
ghost use Rattle.growlog.specs.Origin.{Origin};
ghost use Rattle.steps.specs.Idle.{is_idle};
ghost use Rattle.histories.specs.History.{History, has_open, schema_after};
ghost use Rattle.interleaving.specs.SystemState.{Stands};
ghost use Rattle.statement.specs.Print.{numbered};
ghost use Rattle.statement.specs.Writer.{AppendsPrefix};
ghost use Rattle.sessions.specs.journal.Entries.{log};
ghost use Rattle.sessions.specs.book.Book.{IsBook};
ghost use Rattle.sessions.specs.staging.View.{Holds};
ghost use Rattle.sessions.specs.tsbtree.View.{last};
ghost use Rattle.serving.specs.Progress.{Given};
ghost use Rattle.runs.specs.OneHistory.{Carries};
ghost use Rattle.runs.specs.Run.{IsLoaded};
ghost use Rattle.listening.specs.Connection.{HasRead, IsOneRun, IsServedRun};
ghost use Rattle.listening.specs.Server.{EndsAfter, HasFirst, HasListened, HasNoFirst, HasReported, HasServed, HasStopped, IsClosedWith, IsExportOf, IsOfExport, StopsListening, StopsLate, versions_text};

use crate::always_open::AlwaysOpen;
use crate::connection::{ListenFault, listen};
use crate::control::Control;
use crate::limit::Limit;
use crate::loading::{Loaded, Unloaded, load_into};
use crate::socket::bind;
use growlog::{NewLog, StoreName};
use interchange::{ExportFault, export, report_loaded, report_number};
use interleaving::System;
use restoring::histories_are_of_changes;
use searchrange::Search;
use sessions::{Closed, Engine, LockedStore, Receipt, SharedEntry};
use std::alloc::Global;
use std::io::{Read, Write};
use std::marker::Brand;
use std::net::{Net, TcpListener, TcpStream};
use std::sync::Wait;
use std::thread::Threads;
use std::time::Clock;
use systime_query::{BlockCache, answer};
use values::{FittingKeys, Form, Keys, MAX_INSTANT, Mem, Refusal, Row, Schema, Shown, Table};

/// Why a server stopped before its end.
#[derive(Debug, Drop)]
pub enum ServerFault {
    /// The rows were refused.
    Load(Refusal),
    /// The writer failed.
    Write,
    /// Connections could not be served to a closed store.
    Listen(ListenFault),
}

/// Rows of the table with a number.
#[derive(Drop)]
pub struct TableRows {
    pub number: u8,
    pub rows: Vec<Row>,
}

/// What a server does: the port at which it listens, 0 where the system chooses; how many
/// connections it takes; how many entries its journal may have; the seconds, 1 or more, after which
/// a client that has sent nothing makes room for another that waits, where it does; whether what
/// happens is logged; and the number of the table that is exported at the end, where one is.
#[derive(Clone, Copy, Debug, PartialEq, Eq)]
pub struct Plan {
    pub port: u16,
    pub limit: Limit,
    pub entries: usize,
    pub idle: Option<u32>,
    pub is_logged: bool,
    pub export: Option<u8>,
}

/// A store that was served to its end, and its tables.
#[derive(Drop)]
pub struct Served {
    pub tables: Schema,
    pub closed: Closed,
}

/// Why a server stopped while it had receipts, and these.
struct Stopped<J: StoreName> {
    fault: ServerFault,
    receipts: Vec<Receipt<J>>,
}

const OUT_OF_MEMORY: ServerFault = ServerFault::Listen(ListenFault::Memory);

/// Serves connections round a store that begins with what a system has come to, and reports its
/// progress as it happens: if rows are to be loaded, `loaded N at I`; once it listens,
/// `listening P`, where P is the port; when all connections have ended, `closed J`, where J is the
/// number of entries; and then the table that is exported, with all its versions. Returns the closed
/// store with its tables. What all sessions were sent, with the load before them, goes on from the
/// system's history as one with it, and of each session its receipts are said besides (`HasServed`).
/// The system is to have no transaction open: one that is, is let go, and nothing is said of what
/// follows.
///
/// Where it is logged, the log has a line when the server listens, for each connection that is refused,
/// for marks that the journal passes, and when all connections have ended (`log.rt`). The reader is read
/// only where the limit is `Connections(0)`: the server is stopped when it ends (`HasRead`).
pub fn serve<R, I, O, L>(
    rt: &R,
    alloc: Global,
    reader: &mut I,
    out: &mut O,
    log: &mut L,
    system: System,
    first: Option<TableRows>,
    plan: Plan,
) -> Result<Served, ServerFault>
where
    R: Net<Listener = TcpListener, Stream = TcpStream> + Clock + Threads + Wait + Sync,
    I: Control + Read,
    O: Write,
    L: Write,
    requires export { IsExportOf system.schema plan.export }
    requires known { (start : Schema) × (before : History) × Stands start system before }
    ensures ok { IfOk result (λ s. (start : Schema) (before : History)
        → Stands start system before → is_idle (has_open before) ≡ true
        → (s.tables ≡ schema_after start before)
        × HasServed start before first plan s.closed (O.contents out.old) (O.contents out.new)) }
    ensures err { IfErr result (λ fault. (start : Schema) (before : History)
        → Stands start system before → is_idle (has_open before) ≡ true
        → HasStopped fault start before first plan (O.contents out.old) (O.contents out.new)) }
    ensures read { HasRead plan.limit (I.remaining reader.old) (I.remaining reader.new) }
{
    histories_are_of_changes();
    let (schema, engine) = system.into_parts();
    serve_store::<Brand, R, I, O, L>(
        rt,
        alloc,
        reader,
        out,
        log,
        schema,
        engine,
        first,
        plan,
        NewLog::new(),
    )
}

fn serve_store<J, R, I, O, L>(
    rt: &R,
    alloc: Global,
    reader: &mut I,
    out: &mut O,
    log: &mut L,
    schema: Schema,
    engine: Engine,
    first: Option<TableRows>,
    plan: Plan,
    opened: NewLog<SharedEntry>,
) -> Result<Served, ServerFault>
where
    J: StoreName,
    R: Net<Listener = TcpListener, Stream = TcpStream> + Clock + Threads + Wait + Sync,
    I: Control + Read,
    O: Write,
    L: Write,
    requires log { opened.seen.book ≡ J.book }
    requires tables { schema ≡ J.origin.schema }
    requires holds { Holds J.origin.schema engine (changes J.origin.log) }
    requires clock { last engine ≡ last_of J.origin.log }
    requires most { plan.entries ≡ J.origin.most_entries }
    requires export { IsExportOf schema plan.export }
    ensures ok { IfOk result (λ s. (start : Schema) (before : History)
        → Carries start before J.origin
        → (s.tables ≡ schema_after start before)
        × HasServed start before first plan s.closed (O.contents out.old) (O.contents out.new)) }
    ensures err { IfErr result (λ fault. (start : Schema) (before : History)
        → Carries start before J.origin
        → HasStopped fault start before first plan (O.contents out.old) (O.contents out.new)) }
    ensures read { HasRead plan.limit (I.remaining reader.old) (I.remaining reader.new) }
{
    let Ok(tables) = schema.copy(alloc) else {
        return Err(OUT_OF_MEMORY);
    };
    let store = LockedStore::<J>::over(alloc, schema, engine, plan.entries, opened);
    let receipts = match load_first(rt, alloc, out, &store, first) {
        Ok(receipts) => receipts,
        Err(Stopped { fault, receipts }) => {
            let _gone = store.give_up(receipts);
            return Err(fault);
        }
    };
    let closed = match serve_to_close(rt, alloc, reader, out, log, plan, store, receipts) {
        Ok(closed) => closed,
        Err(fault) => return Err(fault),
    };
    match close_with(alloc, out, &tables, plan.export, &closed) {
        Ok(()) => Ok(Served { tables, closed }),
        Err(fault) => Err(fault),
    }
}

/// Loads and reports the rows that are to be loaded, if any, and returns their receipts.
fn load_first<J: StoreName, R: Wait, O: Write>(
    rt: &R,
    alloc: Global,
    out: &mut O,
    store: &LockedStore<J>,
    first: Option<TableRows>,
) -> Result<Vec<Receipt<J>>, Stopped<J>>
    ensures ok { IfOk result (λ receipts. HasFirst J.origin.schema first
        (map (λ r. record { number = r.number; entry = r.entry }) receipts.items)
        (O.contents out.old) (O.contents out.new)) }
    ensures err { IfErr result (λ stopped. HasNoFirst stopped.fault J.origin.schema first
        (O.contents out.old) (O.contents out.new)) }
{
    match first {
        Some(first) => load_and_report(rt, alloc, out, store, &first),
        None => Ok(Vec::new(alloc)),
    }
}

fn load_and_report<J: StoreName, R: Wait, O: Write>(
    rt: &R,
    alloc: Global,
    out: &mut O,
    store: &LockedStore<J>,
    first: &TableRows,
) -> Result<Vec<Receipt<J>>, Stopped<J>>
    ensures ok { IfOk result (λ receipts. HasReported J.origin.schema first.now
        (map (λ r. record { number = r.number; entry = r.entry }) receipts.items)
        (O.contents out.old) (O.contents out.new)) }
    ensures err { IfErr result (λ stopped. HasNoFirst stopped.fault J.origin.schema (Some first.now)
        (O.contents out.old) (O.contents out.new)) }
{
    let rows = first.rows.as_slice();
    let loaded = match load_into(rt, alloc, store, first.number, rows) {
        Ok(loaded) => loaded,
        Err(Unloaded { refusal, receipts }) => {
            let fault = ServerFault::Load(refusal);
            return Err(Stopped { fault, receipts });
        }
    };
    match report_loaded(out, rows.len(), loaded.instant) {
        Ok(()) => Ok(receipts_of(loaded)),
        Err(_) => {
            let fault = ServerFault::Write;
            let receipts = receipts_of(loaded);
            Err(Stopped { fault, receipts })
        }
    }
}

/// Returns the receipts of a load.
fn receipts_of<J: StoreName>(loaded: Loaded<J>) -> Vec<Receipt<J>>
    ensures { result.items ≡ loaded.receipts.items }
{
    let Loaded {
        receipts,
        instant: _,
    } = loaded;
    receipts
}

/// Writes a label and a number as a line. It takes no memory.
fn report<O: Write>(out: &mut O, label: &[u8], number: u64) -> Result<(), ServerFault>
    ensures ok { OnOk result (Appends (O.contents out.old) (O.contents out.new)
        (numbered label.now number)) }
    ensures err { IfErr result (λ fault. (fault ≡ ServerFault.Write) × AppendsPrefix
        (O.contents out.old) (O.contents out.new) (numbered label.now number)) }
{
    match report_number(out, label, number) {
        Ok(()) => Ok(()),
        Err(_) => Err(ServerFault::Write),
    }
}

/// Listens, reports the port, and serves connections until the store closes.
fn serve_to_close<J, R, I, O, L>(
    rt: &R,
    alloc: Global,
    reader: &mut I,
    out: &mut O,
    log: &mut L,
    plan: Plan,
    store: LockedStore<J>,
    receipts: Vec<Receipt<J>>,
) -> Result<Closed, ServerFault>
where
    J: StoreName,
    R: Net<Listener = TcpListener, Stream = TcpStream> + Clock + Threads + Wait + Sync,
    I: Control + Read,
    O: Write,
    L: Write,
    ensures ok { IfOk result (λ closed. HasListened plan.port
        (O.contents out.old) (O.contents out.new) × IsClosedWith J.origin
        (map (λ r. record { number = r.number; entry = r.entry }) receipts.items) closed) }
    ensures history { IfOk result (λ closed. (start : Schema) (before : History)
        → Carries start before J.origin → (table : ℕ) (rows : List Row)
        → IsLoaded J.origin.schema table rows
        (map (λ r. record { number = r.number; entry = r.entry }) receipts.items)
        → IsOneRun start before plan.limit J.origin.most_entries table rows closed) }
    ensures run { IfOk result (λ closed. (table : ℕ) (rows : List Row)
        → IsLoaded J.origin.schema table rows
        (map (λ r. record { number = r.number; entry = r.entry }) receipts.items)
        → IsServedRun J.origin plan.limit table rows
        (map (λ r. record { number = r.number; entry = r.entry }) receipts.items) closed) }
    ensures err { IfErr result (λ fault. StopsListening fault plan.port
        (O.contents out.old) (O.contents out.new)) }
    ensures read { HasRead plan.limit (I.remaining reader.old) (I.remaining reader.new) }
{
    let Ok((listener, port)) = bind(rt, plan.port) else {
        let _gone = store.give_up(receipts);
        return Err(ServerFault::Listen(ListenFault::Socket));
    };
    match report(out, b"listening ", u64::from(port)) {
        Ok(()) => {}
        Err(fault) => {
            let _gone = store.give_up(receipts);
            return Err(fault);
        }
    }
    match listen(
        rt,
        alloc,
        (listener, port),
        plan.limit,
        plan.idle,
        reader,
        plan.is_logged,
        log,
        store,
        receipts,
        &AlwaysOpen,
    ) {
        Ok(closed) => Ok(closed),
        Err(fault) => Err(ServerFault::Listen(fault)),
    }
}

/// Reports a store that is closed, and exports a table of it, where one is to be.
fn close_with<O: Write>(
    alloc: Global,
    out: &mut O,
    tables: &Schema,
    number: Option<u8>,
    closed: &Closed,
) -> Result<(), ServerFault>
    requires { IsExportOf tables.now number }
    ensures ok { OnOk result ((o : Origin) → o.schema ≡ tables.now → IsBook o closed.now
        → EndsAfter o number closed.now (O.contents out.old) (O.contents out.new)) }
    ensures err { IfErr result (λ fault. (o : Origin) → o.schema ≡ tables.now
        → IsBook o closed.now
        → StopsLate fault o number closed.now (O.contents out.old) (O.contents out.new)) }
{
    match report(out, b"closed ", closed.entries() as u64) {
        Ok(()) => {}
        Err(fault) => return Err(fault),
    }
    let Some(number) = number else {
        return Ok(());
    };
    match tables.table_at(number) {
        Some(table) => export_closed(alloc, out, table, closed),
        None => unreachable!(),
    }
}

/// Writes a table with all its versions as CSV.
fn export_closed<O: Write>(
    alloc: Global,
    out: &mut O,
    table: &Table,
    closed: &Closed,
) -> Result<(), ServerFault>
    requires { IsTable table.now.number table.now }
    ensures ok { OnOk result ((o : Origin) → IsBook o closed.now
        → table_at o.schema table.now.number ≡ Some table.now
        → Appends (O.contents out.old) (O.contents out.new)
        (versions_text o closed.now table.now)) }
    ensures err { IfErr result (λ fault. (o : Origin) → IsBook o closed.now
        → table_at o.schema table.now.number ≡ Some table.now
        → IsOfExport fault × AppendsPrefix (O.contents out.old) (O.contents out.new)
        (versions_text o closed.now table.now)) }
{
    let Ok(shown) = versions_of(alloc, closed, table) else {
        return Err(OUT_OF_MEMORY);
    };
    match export(alloc, out, table, shown.as_slice()) {
        Ok(()) => match out.flush() {
            Ok(()) => Ok(()),
            Err(_) => Err(ServerFault::Write),
        },
        Err(ExportFault::Write) => Err(ServerFault::Write),
        Err(ExportFault::Memory) => Err(OUT_OF_MEMORY),
    }
}

/// Returns all versions of a table.
fn versions_of(alloc: Global, closed: &Closed, table: &Table) -> Mem<Vec<Shown>>
    requires { IsTable table.now.number table.now }
    ensures ok { IfOk result (λ shown. (o : Origin) → IsBook o closed.now
        → table_at o.schema table.now.number ≡ Some table.now
        → shown.items ≡ answer (changes (log o closed.now.entries)) table.now
        (Between 0 max_instant) (record { table = table.now.number; comparisons = [] })) }
    ensures err { OnlyMemory result }
{
    let keys = Keys::all(alloc, table.number);
    let search = Search::new(alloc, FittingKeys { table, keys: &keys })?;
    let mut cache = BlockCache::new(alloc);
    let view = closed.tree().current();
    answer(
        alloc,
        &mut cache,
        view,
        Form::Between(0, MAX_INSTANT),
        &search,
    )
}
