//! What was committed, as a script in a file.
ghost use Rattle.std.specs.Prelude.{◌≡◌, IfErr, OnOk};
ghost use Rattle.std.specs.Io.KnownBytes.{Appends};
ghost use Rattle.histories.specs.History.{History, log, schema_after};
ghost use Rattle.dumping.specs.DumpText.{dump_text};
ghost use Rattle.command_line.specs.Dumped.{IsLeftBy, tree_of};
ghost use Rattle.command_line.specs.Export.{IsOfWriting};

use crate::fault::{Fault, dump_fault};
use crate::output::flush;
use dumping::dump;
use histories::log_only_grows;
use restoring::histories_are_of_changes;
use sessions::{Closed, Engine};
use std::alloc::Global;
use std::fs;
use std::fs::{File, OpenFile};
use std::io::{BufWriter, ErrorKind, Write};
use std::rt::Files;
use tsbtree::Tree;
use values::Schema;

/// What a run leaves: the tables, and what was committed.
#[derive(Drop)]
pub struct Left {
    pub tables: Schema,
    pub store: Store,
}

/// What was committed.
#[derive(Drop)]
pub enum Store {
    /// In a script.
    Engine(Engine),
    /// While a server ran that has closed it.
    Closed(Closed),
}

impl Store {
    /// Returns the tree of what was committed.
    fn tree(&self) -> &Tree
        ensures { result.now ≡ tree_of self.now }
    {
        match self {
            Store::Engine(engine) => engine.tree(),
            Store::Closed(closed) => closed.tree(),
        }
    }
}

/// Writes the script that leaves it again, over the first tables, and passes it on: the dump of each
/// history that left it.
fn print_dump<W: Write>(
    alloc: Global,
    writer: &mut W,
    first: &Schema,
    left: &Left,
) -> Result<(), Fault>
    ensures ok { OnOk result ((h : History) → IsLeftBy first.now h left.now
        → Appends (W.contents writer.old) (W.contents writer.new)
        (dump_text first.now (schema_after first.now h) (log first.now h))) }
    ensures err { IfErr result IsOfWriting }
{
    log_only_grows();
    histories_are_of_changes();
    match dump(
        alloc,
        writer,
        first,
        &left.tables,
        left.store.tree().current(),
    ) {
        Ok(()) => flush(writer),
        Err(fault) => Err(dump_fault(fault)),
    }
}

/// Writes the script to a file of its own.
fn write_file<R: AllocGlobal + Files>(
    rt: &R,
    path: &str,
    first: &Schema,
    left: &Left,
) -> Result<(), Fault>
    ensures { IfErr result IsOfWriting }
{
    let Ok(file) = File::create(rt, path) else {
        return Err(Fault::Write);
    };
    let Ok(mut writer) = BufWriter::new(rt.alloc(), file) else {
        return Err(Fault::Memory);
    };
    match print_dump(rt.alloc(), &mut writer, first, left) {
        Ok(()) => {}
        Err(fault) => return Err(fault),
    }
    let Ok(file) = writer.into_inner() else {
        return Err(Fault::Write);
    };
    match file.sync_all() {
        Ok(()) => Ok(()),
        Err(_) => Err(Fault::Write),
    }
}

/// Tells whether a file may be put where a path leads: there is nothing, or a file.
fn may_be_put<R: Files>(rt: &R, path: &str) -> bool {
    match fs::metadata(rt, path) {
        Ok(found) => found.is_file(),
        Err(error) => error.kind() == ErrorKind::NotFound,
    }
}

/// Writes the script of what a history left to a file beside the one that is named, and puts it in its
/// place when it is whole: at a fault before that the file is what it was, and there is none beside it.
pub fn dump_to<R: AllocGlobal + Files>(
    rt: &R,
    path: &str,
    first: &Schema,
    left: &Left,
) -> Result<(), Fault>
    requires left { (h : History) × IsLeftBy first.now h left.now }
    ensures { IfErr result IsOfWriting }
{
    let Ok(part) = format!(in rt.alloc(); "{path}.part") else {
        return Err(Fault::Memory);
    };
    if !may_be_put(rt, path) || !may_be_put(rt, part.as_str()) {
        return Err(Fault::Write);
    }
    match write_file(rt, part.as_str(), first, left) {
        Ok(()) => {}
        Err(fault) => {
            // What is there of it is of no use.
            let _removed = fs::remove_file(rt, part.as_str());
            return Err(fault);
        }
    }
    match fs::rename(rt, part.as_str(), path) {
        Ok(()) => Ok(()),
        Err(_) => Err(Fault::Write),
    }
}
