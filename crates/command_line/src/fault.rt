//! Why the program stops before its end: each text but those of refusals and words.
ghost use Rattle.std.specs.Prelude.{◌≡◌, true, false};
ghost use Rattle.command_line.specs.Fault.{is_of_words, of_dump, of_export, of_replay, of_run, of_schema, of_server};

use crate::options::WordsFault;
use dumping::DumpFault;
use interchange::ExportFault;
use listening::{ListenFault, ServerFault};
use rows::SchemaFault;
use scripts::{ReplayFault, RunFault};
use statement::print_refusal;
use std::io::Write;
use thiserror::Error;
use values::Refusal;

/// A fault of a stream, of a file, of a socket, of a schema, of a load, of an export or of memory.
pub const FAULT: u8 = 1;

/// Words that are none of the program's.
pub const WORDS: u8 = 2;

/// Why the program stops before its end, as standard error tells it.
#[derive(Debug, Drop, Error)]
pub enum Fault {
    #[error(transparent)]
    Words(WordsFault),
    #[error("schema: syntax at {0}")]
    SchemaSyntax(usize),
    #[error("schema: bad table {0}")]
    BadTable(usize),
    #[error("schema: memory")]
    SchemaMemory,
    #[error("export: E2 no table")]
    NoExport,
    /// The refusal's own text follows this one.
    #[error("after: line {0}: ")]
    After(u64, Refusal),
    /// A session has a transaction open at the end of the script that is replayed.
    #[error("after: E16 transactions open")]
    AfterOpen,
    /// The refusal's own text follows this one.
    #[error("load: ")]
    Load(Refusal),
    #[error("read fault")]
    Read,
    #[error("write fault")]
    Write,
    #[error("socket fault")]
    Socket,
    /// The receipts of the sessions are not those of the store's entries, one for each.
    #[error("not closed")]
    NotClosed,
    #[error("memory")]
    Memory,
}

/// Returns the program's fault for a fault of a schema.
pub fn schema_fault(fault: SchemaFault) -> Fault
    ensures { result ≡ of_schema fault }
{
    match fault {
        SchemaFault::Syntax(at) => Fault::SchemaSyntax(at),
        SchemaFault::BadTable(number) => Fault::BadTable(number),
        SchemaFault::Memory => Fault::SchemaMemory,
    }
}

/// Returns the program's fault for a fault of a script.
pub fn run_fault(fault: RunFault) -> Fault
    ensures { result ≡ of_run fault }
{
    match fault {
        RunFault::First(_) => Fault::Memory,
        RunFault::Read => Fault::Read,
        RunFault::Write => Fault::Write,
        RunFault::Memory => Fault::Memory,
    }
}

/// Returns the program's fault for a fault of the script that is replayed.
pub fn replay_fault(fault: ReplayFault) -> Fault
    ensures { result ≡ of_replay fault }
{
    match fault {
        ReplayFault::Refused(line, refusal) => Fault::After(line, refusal),
        ReplayFault::Open => Fault::AfterOpen,
        ReplayFault::Read => Fault::Read,
        ReplayFault::Memory => Fault::Memory,
    }
}

/// Returns the program's fault for a fault of an export.
pub fn export_fault(fault: ExportFault) -> Fault
    ensures { result ≡ of_export fault }
{
    match fault {
        ExportFault::Write => Fault::Write,
        ExportFault::Memory => Fault::Memory,
    }
}

/// Returns the program's fault for a fault of a dump.
pub fn dump_fault(fault: DumpFault) -> Fault
    ensures { result ≡ of_dump fault }
{
    match fault {
        DumpFault::Write => Fault::Write,
        DumpFault::Memory => Fault::Memory,
    }
}

/// Returns the program's fault for a fault of a server.
pub fn server_fault(fault: ServerFault) -> Fault
    ensures { result ≡ of_server fault }
{
    match fault {
        ServerFault::Load(refusal) => Fault::Load(refusal),
        ServerFault::Write => Fault::Write,
        ServerFault::Listen(ListenFault::Socket) => Fault::Socket,
        ServerFault::Listen(ListenFault::Memory) => Fault::Memory,
        ServerFault::Listen(ListenFault::NotClosed) => Fault::NotClosed,
    }
}

impl Fault {
    /// Returns the program's exit status at this fault.
    fn status(&self) -> u8
        ensures words { is_of_words self.now ≡ true → result ≡ WORDS }
        ensures other { is_of_words self.now ≡ false → result ≡ FAULT }
    {
        match self {
            Fault::Words(_) => WORDS,
            _ => FAULT,
        }
    }
}

/// Reports a fault on standard error, and returns its status.
pub fn tell<E: Write>(err: &mut E, fault: &Fault) -> u8
    ensures words { is_of_words fault.now ≡ true → result ≡ WORDS }
    ensures other { is_of_words fault.now ≡ false → result ≡ FAULT }
{
    // There is nowhere left to report it where standard error fails too.
    match fault {
        // The texts of words end their last line themselves.
        Fault::Words(words) => {
            let _ = write!(err, "{words}");
        }
        Fault::After(_, refusal) => {
            let _ = write!(err, "{fault}");
            let _ = print_refusal(err, refusal);
        }
        Fault::Load(refusal) => {
            let _ = write!(err, "{fault}");
            let _ = print_refusal(err, refusal);
        }
        _ => {
            let _ = writeln!(err, "{fault}");
        }
    }
    fault.status()
}
