//! The lines that insert a row.
ghost use Rattle.std.specs.Prelude.{◌≡◌, ◌++◌};
ghost use Rattle.values.specs.KeyReading.{key_from};
ghost use Rattle.values.specs.Tables.{column_at};
ghost use Rattle.statement.specs.Print.{value_text};
ghost use Rattle.statement.specs.Writer.{Prints};
ghost use Rattle.dump_steps.specs.Pieces.{is_set_apart, stand_in};
ghost use Rattle.dumping.specs.Row.{insert_line, pieces_text, row_text, setting_text, settings_text, short_text, shown_row, shown_value, update_line, values_end};

use crate::deletion::{print_pair, print_where};
use crate::fault::{DumpFault, Dumped};
use crate::name::{Printed, print_named};
use lines::LONGEST_LINE;
use statement::{print_value, write_all};
use std::alloc::Global;
use std::io::Write;
use values::{ColumnNumber, Key, KeyBytes, Table, Value, read_key};

/// Writes the lines that insert a row: one, or where that is too long one with what stands for its
/// texts, and then one that sets each of them. `line` is used to put the first one together.
pub(crate) fn print_row<W: Write>(
    alloc: Global,
    writer: &mut W,
    table: &Table,
    key: &KeyBytes,
    values: &[Value],
    line: &mut Vec<u8>,
) -> Dumped
    ensures { Prints (W.contents writer.old) (W.contents writer.new) result
        (row_text table.now key.now values.now) }
{
    line.clear();
    match print_insert(line, table, values, false) {
        Ok(()) => {}
        Err(_) => return Err(DumpFault::Memory),
    }
    if line.len() <= LONGEST_LINE + 1 {
        write_all(writer, line.as_slice())?;
        Ok(())
    } else {
        print_pieces(alloc, writer, table, key, values)
    }
}

fn print_pieces<W: Write>(
    alloc: Global,
    writer: &mut W,
    table: &Table,
    key: &KeyBytes,
    values: &[Value],
) -> Dumped
    ensures { Prints (W.contents writer.old) (W.contents writer.new) result
        (pieces_text table.now (key_from table.now key.now) values.now) }
{
    if let Some(key) = read_key(alloc, table, key)? {
        print_short(writer, table, &key, values)?;
    }
    Ok(())
}

fn print_short<W: Write>(writer: &mut W, table: &Table, key: &Key, values: &[Value]) -> Printed
    ensures { Prints (W.contents writer.old) (W.contents writer.new) result
        (short_text table.now key.now values.now) }
{
    print_insert(writer, table, values, true)?;
    print_settings(writer, table, key, values)
}

/// Writes the line that inserts a row; a short one has what stands for the texts that lines of
/// their own set.
fn print_insert<W: Write>(
    writer: &mut W,
    table: &Table,
    values: &[Value],
    is_short: bool,
) -> Printed
    ensures { Prints (W.contents writer.old) (W.contents writer.new) result
        (insert_line is_short table.now values.now) }
{
    print_named(writer, b"1: INSERT INTO ", &table.name, b" VALUES (")?;
    print_values(writer, table, values, is_short)
}

/// Writes values one after another, what closes them, and a line feed.
fn print_values<W: Write>(
    writer: &mut W,
    table: &Table,
    values: &[Value],
    is_short: bool,
) -> Printed
    ensures { Prints (W.contents writer.old) (W.contents writer.new) result
        (values_end (shown_row is_short table.now 1 values.now)) }
{
    let mut label: &[u8] = b"";
    for (i, value) in values.iter().enumerate() {
        print_next(writer, label, table, i + 1, value, is_short)?;
        label = b", ";
    }
    write_all(writer, b")\n")
}

/// Writes the value of a column behind a label.
fn print_next<W: Write>(
    writer: &mut W,
    label: &[u8],
    table: &Table,
    column: ColumnNumber,
    value: &Value,
    is_short: bool,
) -> Printed
    ensures { Prints (W.contents writer.old) (W.contents writer.new) result
        (label.now ++ value_text (shown_value is_short table.now column value.now)) }
{
    write_all(writer, label)?;
    print_shown(writer, table, column, value, is_short)
}

/// Writes the value of a column; in a short line what stands for it, where a line of its own sets it.
fn print_shown<W: Write>(
    writer: &mut W,
    table: &Table,
    column: ColumnNumber,
    value: &Value,
    is_short: bool,
) -> Printed
    ensures { Prints (W.contents writer.old) (W.contents writer.new) result
        (value_text (shown_value is_short table.now column value.now)) }
{
    if is_short && is_set_apart(table, column, value) {
        print_stand_in(writer, table, column)
    } else {
        print_value(writer, value)
    }
}

fn print_stand_in<W: Write>(writer: &mut W, table: &Table, column: ColumnNumber) -> Printed
    ensures { Prints (W.contents writer.old) (W.contents writer.new) result
        (value_text (stand_in (column_at table.now column))) }
{
    match table.column_at(column) {
        Some(column) if column.not_null => write_all(writer, b"''"),
        _ => write_all(writer, b"null"),
    }
}

/// Tells whether a line of its own may set a value: it is a text, and its column can be set.
fn is_set_apart(table: &Table, column: ColumnNumber, value: &Value) -> bool
    ensures { result ≡ is_set_apart table.now column value.now }
{
    matches!(value, Value::Text(_)) && !table.is_fixed_column(column)
}

/// Writes the lines that set the texts of a row.
fn print_settings<W: Write>(writer: &mut W, table: &Table, key: &Key, values: &[Value]) -> Printed
    ensures { Prints (W.contents writer.old) (W.contents writer.new) result
        (settings_text table.now key.now 1 values.now) }
{
    for (i, value) in values.iter().enumerate() {
        print_setting(writer, table, key, i + 1, value)?;
    }
    Ok(())
}

/// Writes the line that sets a column, where its value is set apart.
fn print_setting<W: Write>(
    writer: &mut W,
    table: &Table,
    key: &Key,
    column: ColumnNumber,
    value: &Value,
) -> Printed
    ensures { Prints (W.contents writer.old) (W.contents writer.new) result
        (setting_text table.now key.now column value.now) }
{
    if is_set_apart(table, column, value) {
        print_update(writer, table, key, column, value)
    } else {
        Ok(())
    }
}

fn print_update<W: Write>(
    writer: &mut W,
    table: &Table,
    key: &Key,
    column: ColumnNumber,
    value: &Value,
) -> Printed
    ensures { Prints (W.contents writer.old) (W.contents writer.new) result
        (update_line table.now key.now column value.now) }
{
    print_named(writer, b"1: UPDATE ", &table.name, b" SET ")?;
    print_pair(writer, b"", table, column, value)?;
    print_where(writer, table, key)
}
