//! A table with all its versions, after the script.
ghost use Rattle.std.specs.Prelude.{◌≡◌, IfOk, IfErr, OnOk, option_map};
ghost use Rattle.std.specs.Io.KnownBytes.{Appends};
ghost use Rattle.values.specs.Tables.{Schema};
ghost use Rattle.histories.specs.History.{History, reply};
ghost use Rattle.steps.specs.declared.step.Listing.TheVariants.{Periods};
ghost use Rattle.steps.specs.declared.step.Reply.TheVariants.{Shown as Shows};
ghost use Rattle.interchange.specs.Version.{export_text};
ghost use Rattle.interleaving.specs.SystemState.{Stands};
ghost use Rattle.listening.specs.Server.{IsExportOf};
ghost use Rattle.statement.specs.Writer.{AppendsPrefix};
ghost use Rattle.command_line.specs.Export.{Exports, HasExported, IsOfWriting, IsUnknown, Unexported, all_versions};

use crate::fault::{Fault, export_fault};
use crate::output::flush;
use interchange::export;
use interleaving::System;
use std::alloc::Global;
use std::io::Write;
use steps::{Listing, Reply, Step};
use values::{Form, Keys, MAX_INSTANT, Schema, Shown, ShownRows, Table};

/// Returns the number of the table that is to be exported, if one is. `NoExport` if no table has
/// the name.
pub fn export_number(schema: &Schema, name: Option<&str>) -> Result<Option<u8>, Fault>
    ensures ok { IfOk result (λ number.
        Exports schema.now (option_map (λ text. text.now) name.entry) number) }
    ensures there { IfOk result (IsExportOf schema.now) }
    ensures err { IfErr result (λ fault. (fault ≡ Fault.NoExport)
        × IsUnknown schema.now (option_map (λ text. text.now) name.entry)) }
{
    let Some(name) = name else {
        return Ok(None);
    };
    match schema.table(name.as_bytes()) {
        Some(number) => Ok(Some(number)),
        None => Err(Fault::NoExport),
    }
}

/// Returns all versions of a table with their periods, as the service's session sees them.
fn versions_of(alloc: Global, system: &mut System, number: u8) -> Result<ShownRows, Fault>
    ensures ok { IfOk result (λ shown. (first : Schema) (h : History) → Stands first system.old h
        → reply first h (all_versions number) ≡ Shows (Periods shown)) }
    ensures err { IfErr result (λ fault. fault ≡ Fault.Memory) }
    ensures schema { OnOk result (system.new.schema ≡ system.old.schema) }
    ensures tree { system.new.engine ≡ system.old.engine }
{
    let keys = Keys::all(alloc, number);
    match system.step(Step::Select(0, Form::Between(0, MAX_INSTANT), keys)) {
        Reply::Shown(Listing::Periods(shown)) => Ok(shown),
        _ => Err(Fault::Memory),
    }
}

/// Writes a table with these versions, and passes them on.
fn print_versions<O: Write>(
    alloc: Global,
    out: &mut O,
    table: &Table,
    shown: &[Shown],
) -> Result<(), Fault>
    ensures ok { OnOk result (Appends (O.contents out.old) (O.contents out.new)
        (export_text table.now shown.now)) }
    ensures err { IfErr result (λ fault. IsOfWriting fault
        × AppendsPrefix (O.contents out.old) (O.contents out.new)
        (export_text table.now shown.now)) }
{
    match export(alloc, out, table, shown) {
        Ok(()) => flush(out),
        Err(fault) => Err(export_fault(fault)),
    }
}

/// Writes the table with a number.
fn export_versions<O: Write>(
    alloc: Global,
    out: &mut O,
    number: u8,
    system: &mut System,
) -> Result<(), Fault>
    ensures ok { OnOk result ((first : Schema) (h : History) → Stands first system.old h
        → HasExported first (Some number) h (O.contents out.old) (O.contents out.new)) }
    ensures err { IfErr result (λ fault. (first : Schema) (h : History)
        → Stands first system.old h → Unexported fault first (Some number) h
        (O.contents out.old) (O.contents out.new)) }
    ensures tables { OnOk result (system.new.schema ≡ system.old.schema) }
    ensures tree { system.new.engine ≡ system.old.engine }
{
    let shown = match versions_of(alloc, system, number) {
        Ok(shown) => shown,
        Err(fault) => return Err(fault),
    };
    let Some(table) = system.schema().table_at(number) else {
        return Err(Fault::NoExport);
    };
    print_versions(alloc, out, table, shown.items())
}

/// Writes a table with all its versions as CSV, if one is to be exported. The text is never held
/// whole. The store keeps its tables and its tree.
pub fn export_table<O: Write>(
    alloc: Global,
    out: &mut O,
    number: Option<u8>,
    system: &mut System,
) -> Result<(), Fault>
    ensures ok { OnOk result ((first : Schema) (h : History) → Stands first system.old h
        → HasExported first number h (O.contents out.old) (O.contents out.new)) }
    ensures err { IfErr result (λ fault. (first : Schema) (h : History)
        → Stands first system.old h
        → Unexported fault first number h (O.contents out.old) (O.contents out.new)) }
    ensures tables { OnOk result (system.new.schema ≡ system.old.schema) }
    ensures tree { system.new.engine ≡ system.old.engine }
{
    match number {
        Some(number) => export_versions(alloc, out, number, system),
        None => Ok(()),
    }
}
