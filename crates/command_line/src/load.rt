//! Rows of a file that are loaded before the script.
ghost use Rattle.std.specs.Prelude.{◌≡◌, ◌≢◌, IfOk, IfErr, IfSome, None, Some, Ok, OnOk, length, option_map, List, ℕ};
ghost use Rattle.std.specs.Io.KnownBytes.{Appends};
ghost use Rattle.clap.specs.Words.{Text};
ghost use Rattle.values.specs.TableNumber.{table_number};
ghost use Rattle.values.specs.Tables.{Schema};
ghost use Rattle.values.specs.TableRules.{IsTable};
ghost use Rattle.values.specs.Log.{last};
ghost use Rattle.histories.specs.History.{History, log};
ghost use Rattle.statement.specs.Writer.{AppendsPrefix};
ghost use Rattle.interleaving.specs.SystemState.{Stands};
ghost use Rattle.interchange.specs.Load.{Loads};
ghost use Rattle.interchange.specs.Report.{loaded_text};
ghost use Rattle.scripts.specs.First.{LeadsTo};
ghost use Rattle.command_line.specs.Options.{name_in};
ghost use Rattle.command_line.specs.Load.{IsLed, IsNamed, FileSays, HasNoRows, IsUnread, IsUntaken, Unloaded, steps_of};

use crate::fault::Fault;
use interchange::{LoadFault, load_from, report_loaded};
use interleaving::System;
use listening::TableRows;
use scripts::take_all;
use std::alloc::Global;
use std::fs::File;
use std::io;
use std::io::{ErrorKind, Read, Write};
use std::rt::Files;
use steps::Step;
use values::{Instant, Mem, Refusal, Row, Rows, Schema, Table};

/// Returns the table's name in the text of `--load`, up to the first `=`.
fn name_of(text: &str) -> &str
    ensures { result.now ≡ name_in text.now }
{
    match text.split_once('=') {
        Some((name, _file)) => name,
        None => text,
    }
}

/// Returns the file in the text of `--load`, after the first `=`.
fn file_of(text: &str) -> &str {
    match text.split_once('=') {
        Some((_name, file)) => file,
        None => "",
    }
}

/// Returns the table with a name.
fn table_named<'a>(schema: &'a Schema, name: &str) -> Option<&'a Table>
    ensures some { IfSome result (λ t. IsNamed schema.now name.now t.now) }
    ensures none { result ≡ None → table_number schema.now name.now ≡ None }
{
    match schema.table(name.as_bytes()) {
        Some(number) => schema.table_at(number),
        None => None,
    }
}

fn file_fault(error: &io::Error) -> Fault
    ensures { (table : Table) → IsUnread result table }
{
    match error.kind() {
        ErrorKind::OutOfMemory => Fault::Load(Refusal::Memory),
        _ => Fault::Read,
    }
}

/// Reads the rows of a table from a file that is open.
fn rows_in<F: Read>(alloc: Global, table: &Table, file: &mut F) -> Result<Vec<Row>, Fault>
    requires good { IsTable table.now.number table.now }
    ensures ok { IfOk result (λ rows. (bytes : List ℕ) × Loads table.now bytes (Ok rows.items)) }
    ensures err { IfErr result (λ fault. IsUnread fault table.now) }
{
    match load_from(alloc, file, table) {
        Ok(rows) => Ok(rows),
        Err(LoadFault::Read) => Err(Fault::Read),
        Err(LoadFault::Refused(refusal)) => Err(Fault::Load(refusal)),
    }
}

/// Reads the rows of a table from a file.
fn table_rows<R: AllocGlobal + Files>(rt: &R, table: &Table, file: &str) -> Result<Vec<Row>, Fault>
    requires good { IsTable table.now.number table.now }
    ensures ok { IfOk result (λ rows. (bytes : List ℕ) × Loads table.now bytes (Ok rows.items)) }
    ensures err { IfErr result (λ fault. IsUnread fault table.now) }
{
    match File::open(rt, file) {
        Ok(mut opened) => rows_in(rt.alloc(), table, &mut opened),
        Err(error) => Err(file_fault(&error)),
    }
}

/// Reads the rows that the text of `--load` asks for, and returns them with their table's number.
pub fn rows_for<R: AllocGlobal + Files>(
    rt: &R,
    text: &str,
    schema: &Schema,
) -> Result<TableRows, Fault>
    ensures ok { IfOk result (λ r. FileSays schema.now text.now r.number (Ok r.rows.items)) }
    ensures err { IfErr result (λ fault. HasNoRows fault schema.now text.now) }
{
    let Some(table) = table_named(schema, name_of(text)) else {
        return Err(Fault::Load(Refusal::NoTable));
    };
    match table_rows(rt, table, file_of(text)) {
        Ok(rows) => Ok(TableRows {
            number: table.number,
            rows,
        }),
        Err(fault) => Err(fault),
    }
}

/// Makes the steps of one transaction of session 0 that inserts the rows at reading 0; none if
/// there are no rows.
fn steps_of(alloc: Global, loaded: TableRows) -> Mem<Vec<Step>>
    ensures { IfOk result (λ v. v.items ≡ steps_of loaded.number loaded.rows.items) }
{
    if loaded.rows.is_empty() {
        return Ok(Vec::new(alloc));
    }
    let insert = Step::Insert(0, loaded.number, Rows::new(loaded.rows));
    Ok(vec![in alloc; Step::Begin(0), insert, Step::Commit(0, 0)]?)
}

/// Loads these rows into a store.
fn load_into(alloc: Global, system: &mut System, loaded: TableRows) -> Result<(), Fault>
    ensures ok { OnOk result (LeadsTo system.old system.new
        (steps_of loaded.number loaded.rows.items)) }
    ensures err { IfErr result (λ fault.
        IsUntaken fault system.old loaded.number loaded.rows.items) }
{
    match steps_of(alloc, loaded) {
        Ok(steps) => match take_all(system, steps) {
            Ok(()) => Ok(()),
            Err(refusal) => Err(Fault::Load(refusal)),
        },
        Err(_) => Err(Fault::Load(Refusal::Memory)),
    }
}

/// Returns the last commit instant, 0 if there is none.
fn last_instant(system: &System) -> Instant
    ensures { (first : Schema) (h : History) → Stands first system.now h
        → result ≡ last (log first h) }
{
    system.tree().current().last()
}

/// Returns the instant at which so many rows were loaded: 0 if there are none.
fn load_instant(count: usize, system: &System) -> Instant
    ensures some { count ≢ 0 → (first : Schema) (h : History) → Stands first system.now h
        → result ≡ last (log first h) }
    ensures none { count ≡ 0 → result ≡ 0 }
{
    if count == 0 {
        return 0;
    }
    last_instant(system)
}

/// Writes how many rows were loaded, and at which instant. It takes no memory.
fn report<O: Write>(out: &mut O, count: usize, instant: Instant) -> Result<(), Fault>
    ensures ok { OnOk result (
        Appends (O.contents out.old) (O.contents out.new) (loaded_text count instant)) }
    ensures err { IfErr result (λ fault. (fault ≡ Fault.Write) × AppendsPrefix
        (O.contents out.old) (O.contents out.new) (loaded_text count instant)) }
{
    match report_loaded(out, count, instant) {
        Ok(()) => Ok(()),
        Err(_) => Err(Fault::Write),
    }
}

fn count_of(loaded: &TableRows) -> usize
    ensures { result ≡ length loaded.now.rows.items }
{
    loaded.rows.as_slice().len()
}

/// Loads the rows that the text of `--load` asks for, and reports them.
fn load_rows_of<O: Write>(
    alloc: Global,
    out: &mut O,
    system: &mut System,
    loaded: TableRows,
) -> Result<(), Fault>
    ensures ok { OnOk result ((text : Text)
        → FileSays system.old.schema text loaded.number (Ok loaded.rows.items)
        → (first : Schema) (before : History) → Stands first system.old before
        → IsLed first (Some text) before system.new (O.contents out.old) (O.contents out.new)) }
    ensures err { IfErr result (λ fault. (text : Text)
        → FileSays system.old.schema text loaded.number (Ok loaded.rows.items)
        → (first : Schema) (before : History) → Stands first system.old before
        → Unloaded fault first (Some text) before (O.contents out.old) (O.contents out.new)) }
{
    let count = count_of(&loaded);
    match load_into(alloc, system, loaded) {
        Ok(()) => {}
        Err(fault) => return Err(fault),
    }
    report(out, count, load_instant(count, system))
}

/// Loads a file.
fn load_file<R: AllocGlobal + Files, O: Write>(
    rt: &R,
    text: &str,
    out: &mut O,
    system: &mut System,
) -> Result<(), Fault>
    ensures ok { OnOk result ((first : Schema) (before : History) → Stands first system.old before
        → IsLed first (Some text.now) before system.new
        (O.contents out.old) (O.contents out.new)) }
    ensures err { IfErr result (λ fault. (first : Schema) (before : History)
        → Stands first system.old before → Unloaded fault first (Some text.now) before
        (O.contents out.old) (O.contents out.new)) }
{
    match rows_for(rt, text, system.schema()) {
        Ok(loaded) => load_rows_of(rt.alloc(), out, system, loaded),
        Err(fault) => Err(fault),
    }
}

/// Loads the rows of a file into a store before the script, if one is to be loaded, in one
/// transaction of session 0. Their number and their instant are then written.
pub fn load<R: AllocGlobal + Files, O: Write>(
    rt: &R,
    text: Option<&str>,
    out: &mut O,
    system: &mut System,
) -> Result<(), Fault>
    ensures ok { OnOk result ((first : Schema) (before : History) → Stands first system.old before
        → IsLed first (option_map (λ text. text.now) text.entry) before system.new
        (O.contents out.old) (O.contents out.new)) }
    ensures err { IfErr result (λ fault. (first : Schema) (before : History)
        → Stands first system.old before
        → Unloaded fault first (option_map (λ text. text.now) text.entry) before
        (O.contents out.old) (O.contents out.new)) }
{
    match text {
        Some(text) => load_file(rt, text, out, system),
        None => Ok(()),
    }
}
