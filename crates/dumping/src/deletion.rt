//! The line that deletes the row of a key, and the comparisons that take that key.
ghost use Rattle.std.specs.Prelude.{◌++◌, codes};
ghost use Rattle.statement.specs.Print.{line, value_text};
ghost use Rattle.statement.specs.Writer.{Prints};
ghost use Rattle.dump_steps.specs.Dump.{keys_of};
ghost use Rattle.dumping.specs.DumpText.{where_text};
ghost use Rattle.dumping.specs.Deletion.{delete_line, pair_of};

use crate::name::{Printed, column_name, print_named};
use statement::{print_value, write_all};
use std::io::Write;
use values::{ColumnNumber, Key, Table, Value};

/// Writes the line that deletes the row of a key.
pub(crate) fn print_delete<W: Write>(writer: &mut W, table: &Table, key: &Key) -> Printed
    ensures { Prints (W.contents writer.old) (W.contents writer.new) result
        (delete_line table.now key.now) }
{
    print_named(writer, b"1: DELETE FROM ", &table.name, b"")?;
    print_where(writer, table, key)
}

/// Writes the comparisons that take a key and no other, and ends the line.
pub(crate) fn print_where<W: Write>(writer: &mut W, table: &Table, key: &Key) -> Printed
    ensures { Prints (W.contents writer.old) (W.contents writer.new) result
        (line (where_text table.now (keys_of table.now key.now).comparisons)) }
{
    let mut label: &[u8] = b" WHERE ";
    for (column, part) in table.key.items().iter().zip(key.parts.items()) {
        print_pair(writer, label, table, *column, part)?;
        label = b" AND ";
    }
    write_all(writer, b"\n")
}

/// Writes a column and its value, behind a label.
pub(crate) fn print_pair<W: Write>(
    writer: &mut W,
    label: &[u8],
    table: &Table,
    column: ColumnNumber,
    value: &Value,
) -> Printed
    ensures { Prints (W.contents writer.old) (W.contents writer.new) result
        (label.now ++ pair_of table.now column value.now) }
{
    write_all(writer, label)?;
    write_all(writer, column_name(table, column))?;
    print_equal(writer, value)
}

fn print_equal<W: Write>(writer: &mut W, value: &Value) -> Printed
    ensures { Prints (W.contents writer.old) (W.contents writer.new) result
        (codes " = " ++ value_text value.now) }
{
    write_all(writer, b" = ")?;
    print_value(writer, value)
}
