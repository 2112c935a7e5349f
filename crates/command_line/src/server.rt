//! Connections that are served, instead of a script.
ghost use Rattle.std.specs.Prelude.{◌≡◌, IfOk, IfErr, OnOk, option_map, true};
ghost use Rattle.values.specs.Tables.{Schema};
ghost use Rattle.steps.specs.Idle.{is_idle};
ghost use Rattle.histories.specs.History.{History, has_open};
ghost use Rattle.interleaving.specs.SystemState.{Stands};
ghost use Rattle.listening.specs.Server.{IsExportOf};
ghost use Rattle.sessions.specs.book.Book.{BookState};
ghost use Rattle.command_line.specs.Dumped.{HasLeft};
ghost use Rattle.command_line.specs.Server.{HaltsServing, HasServedAll, IsFirst, IsNoFirst, left_of};

use crate::dumped::{Left, Store};
use crate::fault::{Fault, server_fault};
use crate::load::rows_for;
use dump_reading::histories_can_be_read;
use interleaving::System;
use listening::{Control, Plan, Served, ServerFault, TableRows, serve};
use std::io::{Read, Write};
use std::net::{Net, TcpListener, TcpStream};
use std::rt::Files;
use std::sync::Wait;
use std::thread::Threads;
use std::time::Clock;
use values::Schema;

/// Reads the rows that are loaded before the first connection, if a file is named.
fn first_of<R: AllocGlobal + Files>(
    rt: &R,
    text: Option<&str>,
    schema: &Schema,
) -> Result<Option<TableRows>, Fault>
    ensures ok { IfOk result (λ first.
        IsFirst schema.now (option_map (λ text. text.now) text.entry) first) }
    ensures err { IfErr result (λ fault.
        IsNoFirst fault (option_map (λ text. text.now) text.entry) schema.now) }
{
    let Some(text) = text else {
        return Ok(None);
    };
    match rows_for(rt, text, schema) {
        Ok(first) => Ok(Some(first)),
        Err(fault) => Err(fault),
    }
}

/// Serves connections round a store that begins with what a system has come to, and exports a table
/// of it at the end, if one is to be. What happens meanwhile is written to the log, where the plan asks
/// for one. Returns what it leaves. Standard input is read only where the server goes on until it ends.
pub fn run_server<R, I, O, L>(
    rt: &R,
    text: Option<&str>,
    plan: Plan,
    reader: &mut I,
    out: &mut O,
    log: &mut L,
    system: System,
) -> Result<Left, Fault>
where
    R: AllocGlobal
        + Files
        + Net<Listener = TcpListener, Stream = TcpStream>
        + Clock
        + Threads
        + Wait
        + Sync,
    I: Control + Read,
    O: Write,
    L: Write,
    requires known { (start : Schema) × (before : History) × Stands start system before
        × IsExportOf start plan.export }
    ensures done { IfOk result (λ left. (start : Schema) (before : History)
        → Stands start system before → is_idle (has_open before) ≡ true
        → HasLeft start left (λ end. (b : BookState)
        × HasServedAll (option_map (λ text. text.now) text.entry) plan start before end b
        (I.remaining reader.old) (I.remaining reader.new)
        (O.contents out.old) (O.contents out.new))) }
    ensures halts { IfErr result (λ fault. (start : Schema) (before : History)
        → Stands start system before → is_idle (has_open before) ≡ true
        → HaltsServing fault (option_map (λ text. text.now) text.entry) plan start before
        (I.remaining reader.old) (I.remaining reader.new)
        (O.contents out.old) (O.contents out.new)) }
{
    histories_can_be_read();
    let first = match first_of(rt, text, system.schema()) {
        Ok(first) => first,
        Err(fault) => return Err(fault),
    };
    ended(serve(rt, rt.alloc(), reader, out, log, system, first, plan))
}

/// Returns what a server leaves, or the program's fault for the server's.
fn ended(served: Result<Served, ServerFault>) -> Result<Left, Fault>
    ensures { result ≡ left_of served }
{
    match served {
        Ok(Served { tables, closed }) => Ok(Left {
            tables,
            store: Store::Closed(closed),
        }),
        Err(stopped) => Err(server_fault(stopped)),
    }
}
