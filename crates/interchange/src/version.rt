//! A table with all its versions, as CSV.
ghost use Rattle.std.specs.Prelude.{◌≡◌, ◌++◌, ◌∷◌, [], OnOk, IfOk, map, ℕ, List};
ghost use Rattle.std.specs.Io.KnownBytes.{Appends};
ghost use Rattle.csv.specs.Records.{fields_of, partial_of};
ghost use Rattle.csv.specs.Writing.{default_writer, row_text};
ghost use Rattle.std.specs.List.{flat_map};
ghost use Rattle.statement.specs.Print.{end_text};
ghost use Rattle.statement.specs.Writer.{Prints};
ghost use Rattle.interchange.specs.Version.{IsReady, held, field_of, header_of, version_of, version_text, export_text};

use csv::{ByteRecord, Writer, WriterBuilder};
use itoa::{Buffer, Integer};
use statement::write_all;
use std::alloc::{AllocError, Global};
use std::io::Write;
use values::{Instant, Shown, ShownRow, Table, Value};

/// Why an export stopped.
#[derive(Clone, Copy, Debug, PartialEq, Eq)]
pub enum ExportFault {
    /// The writer failed.
    Write,
    /// Memory ran out.
    Memory,
}

/// The versions whose text is held at once.
const AT_ONCE: usize = 64;

type Printed = Result<(), AllocError>;

fn push_number<N: Integer>(fields: &mut ByteRecord, number: N) -> Printed
    requires { partial_of fields.old ≡ [] }
    ensures fields { OnOk result (fields_of fields.new
        ≡ fields_of fields.old ++ N.text number ∷ []) }
    ensures whole { OnOk result (partial_of fields.new ≡ []) }
{
    let mut buffer = Buffer::new();
    fields.push_field(buffer.format(number).as_bytes())
}

fn print_value(fields: &mut ByteRecord, value: &Value) -> Printed
    requires { partial_of fields.old ≡ [] }
    ensures fields { OnOk result (fields_of fields.new
        ≡ fields_of fields.old ++ field_of value.now ∷ []) }
    ensures whole { OnOk result (partial_of fields.new ≡ []) }
{
    match value {
        Value::Int(number) => push_number(fields, *number),
        Value::Text(text) => fields.push_field(text.text().as_bytes()),
        Value::Bool(true) => fields.push_field(b"true"),
        Value::Bool(false) => fields.push_field(b"false"),
        Value::Null => fields.push_field(b""),
    }
}

fn print_row(fields: &mut ByteRecord, row: &ShownRow) -> Printed
    requires { partial_of fields.old ≡ [] }
    ensures fields { OnOk result (fields_of fields.new
        ≡ fields_of fields.old ++ map field_of row.now) }
    ensures whole { OnOk result (partial_of fields.new ≡ []) }
{
    for value in row.values() {
        print_value(fields, value)?;
    }
    Ok(())
}

fn print_end(fields: &mut ByteRecord, to: Option<Instant>) -> Printed
    requires { partial_of fields.old ≡ [] }
    ensures fields { OnOk result (fields_of fields.new
        ≡ fields_of fields.old ++ end_text to ∷ []) }
    ensures whole { OnOk result (partial_of fields.new ≡ []) }
{
    match to {
        Some(instant) => push_number(fields, instant),
        None => fields.push_field(b"forever"),
    }
}

/// The fields of a version, in the place of those that stand there.
fn print_version(fields: &mut ByteRecord, version: &Shown) -> Printed
    ensures fields { OnOk result (fields_of fields.new ≡ version_of version.now) }
{
    fields.clear();
    print_row(fields, &version.row)?;
    push_number(fields, version.from)?;
    print_end(fields, version.to)
}

fn print_names(fields: &mut ByteRecord, table: &Table) -> Printed
    requires { partial_of fields.old ≡ [] }
    ensures fields { OnOk result (fields_of fields.new
        ≡ fields_of fields.old ++ map (λ column. column.name) table.now.columns) }
    ensures whole { OnOk result (partial_of fields.new ≡ []) }
{
    for column in table.columns.items() {
        fields.push_field(column.name.text().as_bytes())?;
    }
    Ok(())
}

fn print_header(fields: &mut ByteRecord, table: &Table) -> Printed
    ensures fields { OnOk result (fields_of fields.new ≡ header_of table.now) }
{
    fields.clear();
    print_names(fields, table)?;
    fields.push_field(table.row_start.text().as_bytes())?;
    fields.push_field(table.row_end.text().as_bytes())
}

/// Writes a record, into memory: no other error than that it ran out can come of records that each
/// are the first or as wide as the first.
fn write_fields(writer: &mut Writer<Vec<u8>>, fields: &ByteRecord) -> Printed
    requires { IsReady writer.old }
    ensures ok { OnOk result (Appends (held writer.old) (held writer.new)
        (row_text default_writer (fields_of fields.now))) }
    ensures ready { OnOk result (IsReady writer.new) }
{
    match writer.write_byte_record(fields) {
        Ok(()) => Ok(()),
        Err(_) => Err(AllocError),
    }
}

fn write_version(writer: &mut Writer<Vec<u8>>, fields: &mut ByteRecord, version: &Shown) -> Printed
    requires { IsReady writer.old }
    ensures ok { OnOk result (Appends (held writer.old) (held writer.new)
        (version_text version.now)) }
    ensures ready { OnOk result (IsReady writer.new) }
{
    print_version(fields, version)?;
    write_fields(writer, fields)
}

fn write_versions(writer: &mut Writer<Vec<u8>>, fields: &mut ByteRecord, shown: &[Shown]) -> Printed
    requires { IsReady writer.old }
    ensures { OnOk result (Appends (held writer.old) (held writer.new)
        (flat_map version_text shown.now)) }
{
    for version in shown {
        write_version(writer, fields, version)?;
    }
    Ok(())
}

/// The text of a header.
fn header_text(alloc: Global, fields: &mut ByteRecord, table: &Table) -> Result<Vec<u8>, AllocError>
    ensures { IfOk result (λ text.
        text.items ≡ row_text default_writer (header_of table.now)) }
{
    let mut writer = WriterBuilder::new().from_writer(Vec::new(alloc));
    print_header(fields, table)?;
    write_fields(&mut writer, fields)?;
    match writer.into_inner() {
        Ok(text) => Ok(text),
        Err(_) => Err(AllocError),
    }
}

/// The text of versions.
fn versions_text(
    alloc: Global,
    fields: &mut ByteRecord,
    shown: &[Shown],
) -> Result<Vec<u8>, AllocError>
    ensures { IfOk result (λ text. text.items ≡ flat_map version_text shown.now) }
{
    let mut writer = WriterBuilder::new().from_writer(Vec::new(alloc));
    write_versions(&mut writer, fields, shown)?;
    match writer.into_inner() {
        Ok(text) => Ok(text),
        Err(_) => Err(AllocError),
    }
}

/// Passes on a text that was made.
fn pass_on<W: Write>(writer: &mut W, text: Result<Vec<u8>, AllocError>) -> Result<(), ExportFault>
    ensures { (due : List ℕ) → IfOk text (λ t. t.items ≡ due)
        → Prints (W.contents writer.old) (W.contents writer.new) result due }
{
    match text {
        Ok(text) => match write_all(writer, text.as_slice()) {
            Ok(()) => Ok(()),
            Err(_) => Err(ExportFault::Write),
        },
        Err(_) => Err(ExportFault::Memory),
    }
}

fn export_versions<W: Write>(
    alloc: Global,
    writer: &mut W,
    fields: &mut ByteRecord,
    shown: &[Shown],
) -> Result<(), ExportFault>
    ensures { Prints (W.contents writer.old) (W.contents writer.new) result
        (flat_map version_text shown.now) }
{
    let mut rest = shown;
    while !rest.is_empty() {
        let (some, others) = rest.split_at(rest.len().min(AT_ONCE));
        match pass_on(writer, versions_text(alloc, fields, some)) {
            Ok(()) => rest = others,
            Err(fault) => return Err(fault),
        }
    }
    Ok(())
}

/// Writes a table's header and all versions that are shown, each as `csv` writes a record. It holds
/// the text of a few versions at a time. At `Err` a prefix of the text was written.
pub fn export<W: Write>(
    alloc: Global,
    writer: &mut W,
    table: &Table,
    shown: &[Shown],
) -> Result<(), ExportFault>
    ensures { Prints (W.contents writer.old) (W.contents writer.new) result
        (export_text table.now shown.now) }
{
    let mut fields = ByteRecord::new(alloc);
    match pass_on(writer, header_text(alloc, &mut fields, table)) {
        Ok(()) => export_versions(alloc, writer, &mut fields, shown),
        Err(fault) => Err(fault),
    }
}
