//! What the program does with its words and streams.
ghost use Rattle.std.specs.Prelude.{◌≡◌, ◌≤◌, ℕ, List, IfOk, IfErr, OnOk, length, map, option_map, true, false};
ghost use Rattle.std.specs.Io.KnownBytes.{Appends};
ghost use Rattle.clap.specs.Words.{IsAmong, Text, kind_of};
ghost use Rattle.values.specs.Tables.{Schema};
ghost use Rattle.steps.specs.Idle.{is_idle};
ghost use Rattle.histories.specs.History.{History, has_open};
ghost use Rattle.interleaving.specs.SystemState.{Stands, changes_in};
ghost use Rattle.listening.specs.Server.{IsExportOf};
ghost use Rattle.sessions.specs.staging.View.{Holds};
ghost use Rattle.sessions.specs.tsbtree.View.{events};
ghost use Rattle.command_line.specs.Dumped.{HasLeft, tree_of};
ghost use Rattle.command_line.specs.Options.{Refuses, asked_of, faults, mode_of};
ghost use Rattle.command_line.specs.Program.{Halts, HaltsAfter, HaltsAt, HaltsMode, HaltsOn, HaltsOrUndumped, HasAnswered, HasDone, HasRun, HasRunAll, HasRunLoaded, HasRunMode, HasRunOn, IsComplete, IsDone, IsFaulty, IsRefused, IsStuck, IsUnanswered, IsUnshown, Leaves};
ghost use Rattle.command_line.specs.Fault.{is_of_words, outcome_of};

use crate::dumped::{Left, Store, dump_to};
use crate::export::{export_number, export_table};
use crate::fault::{FAULT, Fault, WORDS, run_fault, tell};
use crate::load::load;
use crate::options;
use crate::options::{Mode, Options, WordsFault};
use crate::output::print;
use crate::replay::store_after;
use crate::schema_file::schema_of;
use crate::server::run_server;
use clap::error::ErrorKind;
use dump_reading::{dumps_are_replayed, histories_can_be_read};
use interleaving::System;
use listening::{Control, Plan};
use scripts::{RunFault, run_script_in};
use std::alloc::Global;
use std::convert::AsStr;
use std::fs::File;
use std::io::{Read, Write};
use std::net::{Net, TcpListener, TcpStream};
use std::rt::Files;
use std::sync::Wait;
use std::thread::Threads;
use std::time::Clock;
use values::Schema;

/// The status if all was done. Refused lines are replies, not faults.
pub const DONE: u8 = 0;

/// Runs the program: reads a script, from standard input or a file, over the schema of a file or
/// the sample, as the words ask for, and writes its transcript, or serves connections; before it
/// another script may be replayed, and the rows of a file loaded, and after it a table may be
/// exported, and what was committed dumped to a file. Returns the exit status:
/// 0 done, 1 a fault, 2 words that are refused; a fault is reported on standard error, and before it
/// the log of a server, where one is asked for. Help and the version are written like other output.
pub fn program<R, S, I, O, E>(rt: &R, words: &[S], reader: &mut I, out: &mut O, err: &mut E) -> u8
where
    R: AllocGlobal
        + Files
        + Net<Listener = TcpListener, Stream = TcpStream>
        + Clock
        + Threads
        + Wait
        + Sync,
    S: AsStr,
    I: Control + Read,
    O: Write,
    E: Write,
    ensures done { result ≡ DONE → IsDone (map S.text words.now)
        (I.remaining reader.old) (I.remaining reader.new)
        (O.contents out.old) (O.contents out.new) }
    ensures words { result ≡ WORDS → IsRefused (map S.text words.now)
        (I.remaining reader.old) (I.remaining reader.new)
        (O.contents out.old) (O.contents out.new) }
    ensures fault { result ≡ FAULT → IsFaulty (map S.text words.now)
        (I.remaining reader.old) (I.remaining reader.new)
        (O.contents out.old) (O.contents out.new) }
    ensures status { result ≤ WORDS }
{
    match run(rt, words, reader, out, err) {
        Ok(()) => DONE,
        Err(fault) => tell(err, &fault),
    }
}

/// Runs the program up to its first fault: of the words, of the schema, of the table to be
/// exported, of the replay, of the load, of the script, of the export, of the dump.
fn run<R, S, I, O, E>(
    rt: &R,
    words: &[S],
    reader: &mut I,
    out: &mut O,
    err: &mut E,
) -> Result<(), Fault>
where
    R: AllocGlobal
        + Files
        + Net<Listener = TcpListener, Stream = TcpStream>
        + Clock
        + Threads
        + Wait
        + Sync,
    S: AsStr,
    I: Control + Read,
    O: Write,
    E: Write,
    ensures done { OnOk result (IsDone (map S.text words.now)
        (I.remaining reader.old) (I.remaining reader.new)
        (O.contents out.old) (O.contents out.new)) }
    ensures words { IfErr result (λ fault. is_of_words fault ≡ true
        → IsRefused (map S.text words.now)
        (I.remaining reader.old) (I.remaining reader.new)
        (O.contents out.old) (O.contents out.new)) }
    ensures fault { IfErr result (λ fault. is_of_words fault ≡ false
        → IsFaulty (map S.text words.now)
        (I.remaining reader.old) (I.remaining reader.new)
        (O.contents out.old) (O.contents out.new)) }
{
    match options::words(rt.alloc(), words) {
        Ok(options) => run_options(rt, options, reader, out, err),
        Err(fault) => answer(rt.alloc(), out, fault),
    }
}

/// Writes the text of help or of the version. One that is empty is as one for which memory ran out.
fn show<O: Write>(alloc: Global, out: &mut O, error: &clap::Error) -> Result<(), Fault>
    ensures ok { OnOk result ((text : List ℕ) × (1 ≤ length text)
        × Appends (O.contents out.old) (O.contents out.new) text) }
    ensures err { IfErr result (λ fault.
        IsUnshown fault (O.contents out.old) (O.contents out.new)) }
{
    match format!(in alloc; "{error}") {
        Ok(text) => print_some(out, text.as_str().as_bytes()),
        Err(_) => Err(Fault::Memory),
    }
}

/// Writes a text that is not empty. `Memory` if it is.
fn print_some<O: Write>(out: &mut O, text: &[u8]) -> Result<(), Fault>
    ensures ok { OnOk result ((1 ≤ length text.now)
        × Appends (O.contents out.old) (O.contents out.new) text.now) }
    ensures err { IfErr result (λ fault.
        IsUnshown fault (O.contents out.old) (O.contents out.new)) }
{
    if text.is_empty() {
        return Err(Fault::Memory);
    }
    print(out, text)
}

/// Writes help or the version, which are not faults.
fn answer_clap<O: Write>(alloc: Global, out: &mut O, error: clap::Error) -> Result<(), Fault>
    ensures ok { OnOk result ((words : List Text) → IsAmong (kind_of error) (faults words)
        → HasAnswered words (O.contents out.old) (O.contents out.new)) }
    ensures err { IfErr result (λ fault. (words : List Text)
        → IsAmong (kind_of error) (faults words)
        → IsUnanswered fault words (O.contents out.old) (O.contents out.new)) }
{
    match error.kind() {
        ErrorKind::DisplayHelp => show(alloc, out, &error),
        ErrorKind::DisplayVersion => show(alloc, out, &error),
        _ => Err(Fault::Words(WordsFault::Clap(error))),
    }
}

/// Answers words that were refused, or that ask for help or the version.
fn answer<O: Write>(alloc: Global, out: &mut O, fault: WordsFault) -> Result<(), Fault>
    ensures ok { OnOk result ((words : List Text) → Refuses words fault
        → HasAnswered words (O.contents out.old) (O.contents out.new)) }
    ensures err { IfErr result (λ stop. (words : List Text) → Refuses words fault
        → IsUnanswered stop words (O.contents out.old) (O.contents out.new)) }
{
    match fault {
        WordsFault::Clap(error) => answer_clap(alloc, out, error),
        WordsFault::Words(text) => Err(Fault::Words(WordsFault::Words(text))),
        WordsFault::Memory => Err(Fault::Memory),
    }
}

/// Runs what is asked for.
fn run_options<R, I, O, E>(
    rt: &R,
    options: Options<'_>,
    reader: &mut I,
    out: &mut O,
    err: &mut E,
) -> Result<(), Fault>
where
    R: AllocGlobal
        + Files
        + Net<Listener = TcpListener, Stream = TcpStream>
        + Clock
        + Threads
        + Wait
        + Sync,
    I: Control + Read,
    O: Write,
    E: Write,
    ensures done { OnOk result (IsComplete (asked_of options.entry)
        (I.remaining reader.old) (I.remaining reader.new)
        (O.contents out.old) (O.contents out.new)) }
    ensures stuck { IfErr result (λ fault. IsStuck fault (asked_of options.entry)
        (I.remaining reader.old) (I.remaining reader.new)
        (O.contents out.old) (O.contents out.new)) }
{
    histories_can_be_read();
    dumps_are_replayed();
    match schema_of(rt, options.schema) {
        Ok(schema) => run_over(rt, options, reader, out, err, schema),
        Err(fault) => Err(fault),
    }
}

/// Runs what is asked for over a schema: the table to be exported is looked up first.
fn run_over<R, I, O, E>(
    rt: &R,
    options: Options<'_>,
    reader: &mut I,
    out: &mut O,
    err: &mut E,
    schema: Schema,
) -> Result<(), Fault>
where
    R: AllocGlobal
        + Files
        + Net<Listener = TcpListener, Stream = TcpStream>
        + Clock
        + Threads
        + Wait
        + Sync,
    I: Control + Read,
    O: Write,
    E: Write,
    ensures done { OnOk result (HasDone (asked_of options.entry) schema
        (I.remaining reader.old) (I.remaining reader.new)
        (O.contents out.old) (O.contents out.new)) }
    ensures halts { IfErr result (λ fault. Halts fault (asked_of options.entry) schema
        (I.remaining reader.old) (I.remaining reader.new)
        (O.contents out.old) (O.contents out.new)) }
{
    match export_number(&schema, options.export) {
        Ok(number) => run_to_the_dump(rt, options, number, reader, out, err, schema),
        Err(fault) => Err(fault),
    }
}

/// Runs all that is asked for, and last of all dumps what was committed, if it is to be. The first
/// tables are kept for that.
fn run_to_the_dump<R, I, O, E>(
    rt: &R,
    options: Options<'_>,
    number: Option<u8>,
    reader: &mut I,
    out: &mut O,
    err: &mut E,
    schema: Schema,
) -> Result<(), Fault>
where
    R: AllocGlobal
        + Files
        + Net<Listener = TcpListener, Stream = TcpStream>
        + Clock
        + Threads
        + Wait
        + Sync,
    I: Control + Read,
    O: Write,
    E: Write,
    requires export { IsExportOf schema number }
    ensures done { OnOk result ((end : History) × HasRunAll (asked_of options.entry).mode
        (asked_of options.entry).after (asked_of options.entry).load number schema end
        (I.remaining reader.old) (I.remaining reader.new)
        (O.contents out.old) (O.contents out.new)) }
    ensures halts { IfErr result (λ fault. HaltsOrUndumped fault (asked_of options.entry) number
        schema (I.remaining reader.old) (I.remaining reader.new)
        (O.contents out.old) (O.contents out.new)) }
{
    let Some(file) = options.dump else {
        return match run_all(rt, options, number, reader, out, err, schema) {
            Ok(_left) => Ok(()),
            Err(fault) => Err(fault),
        };
    };
    let Ok(first) = schema.copy(rt.alloc()) else {
        return Err(Fault::Memory);
    };
    match run_all(rt, options, number, reader, out, err, schema) {
        Ok(left) => dump_to(rt, file, &first, &left),
        Err(fault) => Err(fault),
    }
}

/// Runs the replay, and then what is asked for.
fn run_all<R, I, O, E>(
    rt: &R,
    options: Options<'_>,
    number: Option<u8>,
    reader: &mut I,
    out: &mut O,
    err: &mut E,
    schema: Schema,
) -> Result<Left, Fault>
where
    R: AllocGlobal
        + Files
        + Net<Listener = TcpListener, Stream = TcpStream>
        + Clock
        + Threads
        + Wait
        + Sync,
    I: Control + Read,
    O: Write,
    E: Write,
    requires export { IsExportOf schema number }
    ensures done { IfOk result (λ left. HasLeft schema left (λ end.
        HasRunAll (asked_of options.entry).mode
        (asked_of options.entry).after (asked_of options.entry).load number schema end
        (I.remaining reader.old) (I.remaining reader.new)
        (O.contents out.old) (O.contents out.new))) }
    ensures halts { IfErr result (λ fault. HaltsAt fault (asked_of options.entry).mode
        (asked_of options.entry).after (asked_of options.entry).load number schema
        (I.remaining reader.old) (I.remaining reader.new)
        (O.contents out.old) (O.contents out.new)) }
{
    match store_after(rt, options.after, schema) {
        Ok(system) => run_mode(
            rt,
            options.mode,
            options.load,
            number,
            reader,
            out,
            err,
            system,
        ),
        Err(fault) => Err(fault),
    }
}

/// Runs a script or a server over a store.
fn run_mode<R, I, O, E>(
    rt: &R,
    mode: Mode<'_>,
    text: Option<&str>,
    number: Option<u8>,
    reader: &mut I,
    out: &mut O,
    err: &mut E,
    system: System,
) -> Result<Left, Fault>
where
    R: AllocGlobal
        + Files
        + Net<Listener = TcpListener, Stream = TcpStream>
        + Clock
        + Threads
        + Wait
        + Sync,
    I: Control + Read,
    O: Write,
    E: Write,
    requires known { (first : Schema) × (before : History) × Stands first system before
        × IsExportOf first number }
    ensures done { IfOk result (λ left. (first : Schema) (before : History)
        → Stands first system before → is_idle (has_open before) ≡ true
        → HasLeft first left (λ end. HasRunMode (mode_of mode.entry)
        (option_map (λ text. text.now) text.entry) number first before end
        (I.remaining reader.old) (I.remaining reader.new)
        (O.contents out.old) (O.contents out.new))) }
    ensures halts { IfErr result (λ fault. (first : Schema) (before : History)
        → Stands first system before → is_idle (has_open before) ≡ true
        → HaltsMode fault (mode_of mode.entry) (option_map (λ text. text.now) text.entry) number
        first before (I.remaining reader.old) (I.remaining reader.new)
        (O.contents out.old) (O.contents out.new)) }
{
    match mode {
        Mode::Script(file) => run_loaded(rt, text, file, number, reader, out, system),
        Mode::Listen {
            port,
            limit,
            entries,
            idle,
            is_logged,
        } => {
            let plan = Plan {
                port,
                limit,
                entries,
                idle,
                is_logged,
                export: number,
            };
            run_server(rt, text, plan, reader, out, err, system)
        }
    }
}

/// Runs the load over a store, then the script, then the export.
fn run_loaded<R: AllocGlobal + Files, I: Read, O: Write>(
    rt: &R,
    text: Option<&str>,
    file: Option<&str>,
    number: Option<u8>,
    reader: &mut I,
    out: &mut O,
    system: System,
) -> Result<Left, Fault>
    ensures done { IfOk result (λ left. (first : Schema) (before : History)
        → Stands first system before → HasLeft first left (λ end. HasRunLoaded
        (option_map (λ text. text.now) text.entry)
        (option_map (λ text. text.now) file.entry) number first before end
        (I.remaining reader.old) (I.remaining reader.new)
        (O.contents out.old) (O.contents out.new))) }
    ensures halts { IfErr result (λ fault. (first : Schema) (before : History)
        → Stands first system before
        → HaltsAfter fault (option_map (λ text. text.now) text.entry)
        (option_map (λ text. text.now) file.entry) number first before
        (I.remaining reader.old) (I.remaining reader.new)
        (O.contents out.old) (O.contents out.new)) }
{
    let mut system = system;
    match load(rt, text, out, &mut system) {
        Ok(()) => run_on(rt, file, number, reader, out, system),
        Err(fault) => Err(fault),
    }
}

/// Runs the script over a store, then the export.
fn run_on<R: AllocGlobal + Files, I: Read, O: Write>(
    rt: &R,
    file: Option<&str>,
    number: Option<u8>,
    reader: &mut I,
    out: &mut O,
    system: System,
) -> Result<Left, Fault>
    ensures done { IfOk result (λ left. (first : Schema) (h : History) → Stands first system h
        → HasLeft first left (λ end. HasRunOn (option_map (λ text. text.now) file.entry) number
        first h end (I.remaining reader.old) (I.remaining reader.new)
        (O.contents out.old) (O.contents out.new))) }
    ensures halts { IfErr result (λ fault. (first : Schema) (h : History) → Stands first system h
        → HaltsOn fault (option_map (λ text. text.now) file.entry) number first h
        (I.remaining reader.old) (I.remaining reader.new)
        (O.contents out.old) (O.contents out.new)) }
{
    let mut system = match run_script_of(rt, file, reader, out, system) {
        Ok(system) => system,
        Err(fault) => return Err(fault),
    };
    match export_table(rt.alloc(), out, number, &mut system) {
        Ok(()) => Ok(left_by(system)),
        Err(fault) => Err(fault),
    }
}

/// Returns what a system leaves: what transactions that are open have written is not in it.
fn left_by(system: System) -> Left
    ensures tables { result.tables ≡ system.schema }
    ensures tree { tree_of result.store ≡ system.engine }
    ensures holds { Holds system.schema system.engine
        (changes_in system.schema (events system.engine)) }
{
    let (tables, engine) = system.into_parts();
    Left {
        tables,
        store: Store::Engine(engine),
    }
}

/// Runs the script of a file, or of standard input where no file is named, over a store.
fn run_script_of<R: AllocGlobal + Files, I: Read, O: Write>(
    rt: &R,
    file: Option<&str>,
    reader: &mut I,
    out: &mut O,
    system: System,
) -> Result<System, Fault>
    ensures done { IfOk result (λ s. (first : Schema) (h : History) → Stands first system h
        → HasRun (option_map (λ text. text.now) file.entry) first h s
        (I.remaining reader.old) (I.remaining reader.new)
        (O.contents out.old) (O.contents out.new)) }
    ensures fault { IfErr result (λ fault. (first : Schema) (h : History) → Stands first system h
        → Leaves fault (option_map (λ text. text.now) file.entry) first h
        (I.remaining reader.old) (I.remaining reader.new)
        (O.contents out.old) (O.contents out.new)) }
{
    match file {
        Some(path) => match File::open(rt, path) {
            Ok(mut script) => finish(run_script_in(rt.alloc(), system, &mut script, out)),
            Err(_) => Err(Fault::Read),
        },
        None => finish(run_script_in(rt.alloc(), system, reader, out)),
    }
}

/// Returns the store after a run, or the program's fault for the run's.
fn finish(ran: Result<System, RunFault>) -> Result<System, Fault>
    ensures { result ≡ outcome_of ran }
{
    match ran {
        Ok(system) => Ok(system),
        Err(stopped) => Err(run_fault(stopped)),
    }
}
