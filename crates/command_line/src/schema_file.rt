//! The schema that the words ask for.
ghost use Rattle.std.specs.Prelude.{◌≡◌, ℕ, List, IfOk, IfErr, Some, Ok, false, option_map};
ghost use Rattle.clap.specs.Words.{Text};
ghost use Rattle.rows.specs.SchemaTable.{read_schema};
ghost use Rattle.command_line.specs.Fault.{is_of_words};
ghost use Rattle.command_line.specs.Program.{IsSchemaOf, IsOfSchema};

use crate::fault::{Fault, schema_fault};
use rows::{LONGEST_SCHEMA, ReadSchema};
use std::fs::File;
use std::io;
use std::io::{ErrorKind, Read};
use std::rt::Files;
use values::Schema;

/// The bytes of a schema file that are read: one more than a schema may have, which shows that it
/// is too long.
const READ: u64 = LONGEST_SCHEMA as u64 + 1;

/// Returns the schema of a file, or the sample if no file is named.
pub fn schema_of<R: AllocGlobal + Files>(rt: &R, file: Option<&str>) -> Result<Schema, Fault>
    ensures ok { IfOk result (λ schema.
        IsSchemaOf (option_map (λ text. text.now) file.entry) schema) }
    ensures err { IfErr result (λ fault. is_of_words fault ≡ false) }
    ensures why { IfErr result (λ fault.
        IsOfSchema (option_map (λ text. text.now) file.entry) fault) }
{
    match file {
        Some(path) => read_file(rt, path),
        None => match Schema::sample(rt.alloc()) {
            Ok(schema) => Ok(schema),
            Err(_) => Err(Fault::SchemaMemory),
        },
    }
}

/// Reads a schema file.
fn read_file<R: AllocGlobal + Files>(rt: &R, path: &str) -> Result<Schema, Fault>
    ensures ok { IfOk result (λ schema. (text : List ℕ) × (read_schema text ≡ Ok schema)) }
    ensures err { IfErr result (λ fault. is_of_words fault ≡ false) }
    ensures why { IfErr result (λ fault. IsOfSchema (Some path.now) fault) }
{
    let text = match read_front(rt, path) {
        Ok(text) => text,
        Err(error) => return Err(file_fault(&error)),
    };
    match Schema::read(rt.alloc(), text.as_slice()) {
        Ok(schema) => Ok(schema),
        Err(fault) => Err(schema_fault(fault)),
    }
}

/// Reads a file's first bytes.
fn read_front<R: AllocGlobal + Files>(rt: &R, path: &str) -> io::Result<Vec<u8>> {
    let mut text = Vec::new(rt.alloc());
    File::open(rt, path)?.take(READ).read_to_end(&mut text)?;
    Ok(text)
}

fn file_fault(error: &io::Error) -> Fault
    ensures other { is_of_words result ≡ false }
    ensures why { (file : Text) → IsOfSchema (Some file) result }
{
    match error.kind() {
        ErrorKind::OutOfMemory => Fault::SchemaMemory,
        _ => Fault::Read,
    }
}
