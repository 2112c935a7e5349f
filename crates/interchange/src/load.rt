//! The rows of a file.
ghost use Rattle.std.specs.Prelude.{◌≡◌, ◌⊎◌, ◌≤◌, length, map, IfErr, IfOk, [], unwrap_or, false, true};
ghost use Rattle.csv.specs.Records.{fields_of, field_at};
ghost use Rattle.values.specs.Memory.{OnlyMemory};
ghost use Rattle.values.specs.Tables.{widest};
ghost use Rattle.statement.specs.Meaning.{is_column_list};
ghost use Rattle.statement.specs.Memory.{UnlessMemory};
ghost use Rattle.values.specs.declared.refusal.Refusal.{Refusal};
ghost use Rattle.interchange.specs.Load.{column_list, value_in, values_from, row_of, rows_from, rows_of, Loads, vec_items};

use crate::field::field_value;
use crate::record::records_of;
use csv::ByteRecord;
use statement::{is_column_list, place_of, row_in};
use std::alloc::{AllocError, Global};
use values::{Column, ColumnNumber, Mem, Refusal, Row, Table, Value, WIDEST};

/// The field at a place; empty past the end.
fn field_at(fields: &ByteRecord, place: usize) -> &[u8]
    ensures { result.now ≡ unwrap_or (field_at (fields_of fields.now) place) [] }
{
    fields.get(place).unwrap_or(&[])
}

/// The columns that a header names, by their numbers; 0 for what is no user column's name.
fn column_list(
    alloc: Global,
    table: &Table,
    header: &ByteRecord,
) -> Result<Vec<ColumnNumber>, AllocError>
    ensures { IfOk result (λ columns.
        columns.items ≡ column_list table.now (fields_of header.now)) }
{
    let mut columns = Vec::new(alloc);
    for i in 0..header.len() {
        columns.push(table.column(field_at(header, i)).unwrap_or(0))?;
    }
    Ok(columns)
}

/// The columns that a header names, which are a column list; `BadRow` of 0 where they are none.
pub(crate) fn columns_of(
    alloc: Global,
    table: &Table,
    header: &ByteRecord,
) -> Mem<Vec<ColumnNumber>>
    ensures ok { IfOk result (λ columns.
        columns.items ≡ column_list table.now (fields_of header.now)) }
    ensures list { IfOk result (λ columns. is_column_list columns.items ≡ true) }
    ensures err { IfErr result (λ why. (why ≡ Refusal.Memory) ⊎ ((why ≡ Refusal.BadRow 0)
        × (is_column_list (column_list table.now (fields_of header.now)) ≡ false))) }
{
    let columns = column_list(alloc, table, header)?;
    if is_column_list(columns.as_slice()) {
        Ok(columns)
    } else {
        Err(Refusal::BadRow(0))
    }
}

/// The value that a record gives a column; NULL where the header does not name it.
fn value_in(
    alloc: Global,
    columns: &[ColumnNumber],
    fields: &ByteRecord,
    number: ColumnNumber,
    column: &Column,
) -> Mem<Value>
    ensures ok { IfOk result (λ value.
        value ≡ value_in columns.now (fields_of fields.now) number column.now) }
    ensures err { OnlyMemory result }
{
    match place_of(columns, number) {
        Some(place) => field_value(alloc, column.of, field_at(fields, place)),
        None => Ok(Value::Null),
    }
}

/// The values that a record gives a table's columns.
fn values_of(
    alloc: Global,
    table: &Table,
    columns: &[ColumnNumber],
    fields: &ByteRecord,
) -> Mem<Vec<Value>>
    ensures ok { IfOk result (λ values. values.items
        ≡ values_from columns.now (fields_of fields.now) [] 1 table.now.columns) }
    ensures err { OnlyMemory result }
{
    let mut values = Vec::with_capacity(alloc, table.columns.items().len())?;
    for (i, column) in table.columns.items().iter().enumerate() {
        values.push(value_in(alloc, columns, fields, i + 1, column)?)?;
    }
    Ok(values)
}

/// The row that a record writes.
pub(crate) fn row_of(
    alloc: Global,
    table: &Table,
    columns: &[ColumnNumber],
    fields: &ByteRecord,
) -> Mem<Row>
    requires some { 1 ≤ length table.now.columns }
    requires few { length table.now.columns ≤ widest }
    ensures { UnlessMemory result (row_of table.now columns.now (fields_of fields.now)) }
{
    if columns.len() != fields.len() {
        return Err(Refusal::BadRow(0));
    }
    match values_of(alloc, table, columns, fields) {
        Ok(values) => row_in(table, values),
        Err(refusal) => Err(refusal),
    }
}

/// The rows that records write in turn.
fn rows_from(
    alloc: Global,
    table: &Table,
    columns: &[ColumnNumber],
    records: &[ByteRecord],
) -> Mem<Vec<Row>>
    requires some { 1 ≤ length table.now.columns }
    requires few { length table.now.columns ≤ widest }
    ensures { UnlessMemory (vec_items result)
        (rows_from table.now columns.now [] (map fields_of records.now)) }
{
    let mut rows = Vec::new(alloc);
    for fields in records {
        match row_of(alloc, table, columns, fields) {
            Ok(row) => rows.push(row)?,
            Err(refusal) => return Err(refusal),
        }
    }
    Ok(rows)
}

/// The rows of a file's records, of which the first names columns.
fn rows_of(alloc: Global, table: &Table, records: &[ByteRecord]) -> Mem<Vec<Row>>
    requires some { 1 ≤ length table.now.columns }
    requires few { length table.now.columns ≤ widest }
    ensures { UnlessMemory (vec_items result) (rows_of table.now (map fields_of records.now)) }
{
    let [header, records @ ..] = records else {
        return Err(Refusal::BadRow(0));
    };
    let columns = column_list(alloc, table, header)?;
    if !is_column_list(columns.as_slice()) {
        return Err(Refusal::BadRow(0));
    }
    rows_from(alloc, table, columns.as_slice(), records)
}

/// Reads the rows that a file of CSV writes for a table of 1 to 16 columns: its first record
/// names columns of the table, and each further record is a row.
///
/// `BadRow` names the first field that is not a value of its column, or that does not fit the
/// table, by its column; it is 0 where the file has no record, where a name is not a user column's
/// or is repeated, and where a record has another width than the first. Which rows have one key is
/// left to the INSERT.
pub fn load_rows(alloc: Global, bytes: &[u8], table: &Table) -> Mem<Vec<Row>>
    ensures { (1 ≤ length table.now.columns) → (length table.now.columns ≤ widest)
        → Loads table.now bytes.now (vec_items result) }
{
    let width = table.columns.items().len();
    if width == 0 || width > WIDEST {
        return Err(Refusal::BadRow(0));
    }
    match records_of(alloc, bytes) {
        Ok(records) => rows_of(alloc, table, records.as_slice()),
        Err(_) => Err(Refusal::Memory),
    }
}
