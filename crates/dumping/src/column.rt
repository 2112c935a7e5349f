//! The lines that add columns to a table.
ghost use Rattle.std.specs.Prelude.{◌≡◌, ◌++◌, codes};
ghost use Rattle.statement.specs.Print.{line};
ghost use Rattle.statement.specs.Writer.{Prints};
ghost use Rattle.dumping.specs.DumpText.{type_text};
ghost use Rattle.dumping.specs.Column.{column_line, columns_between, columns_text};

use crate::name::{Printed, print_named};
use statement::{print_number, write_all};
use std::io::Write;
use values::{Column, ColumnType, Table};

/// Writes the lines that add a table's columns from one width up to another.
pub(crate) fn print_columns<W: Write>(
    writer: &mut W,
    table: &Table,
    from: usize,
    to: usize,
) -> Printed
    ensures { Prints (W.contents writer.old) (W.contents writer.new) result
        (columns_text table.now from to) }
{
    for column in columns_between(table, from, to) {
        print_column(writer, table, column)?;
    }
    Ok(())
}

/// Returns a table's columns from one width up to another.
fn columns_between(table: &Table, from: usize, to: usize) -> &[Column]
    ensures { result.now ≡ columns_between table.now from to }
{
    let columns = table.columns.items();
    let columns = columns.split_at(to.min(columns.len())).0;
    columns.split_at(from.min(columns.len())).1
}

fn print_column<W: Write>(writer: &mut W, table: &Table, column: &Column) -> Printed
    ensures { Prints (W.contents writer.old) (W.contents writer.new) result
        (column_line table.now column.now) }
{
    print_named(writer, b"1: ALTER TABLE ", &table.name, b" ADD COLUMN ")?;
    write_all(writer, column.name.text().as_bytes())?;
    print_type(writer, column.of)
}

fn print_type<W: Write>(writer: &mut W, of: ColumnType) -> Printed
    ensures { Prints (W.contents writer.old) (W.contents writer.new) result
        (codes " " ++ line (type_text of)) }
{
    match of {
        ColumnType::Int => write_all(writer, b" INT\n"),
        ColumnType::Text => write_all(writer, b" TEXT\n"),
        ColumnType::Boolean => write_all(writer, b" BOOLEAN\n"),
        ColumnType::Varchar(most) => print_varchar(writer, most),
    }
}

fn print_varchar<W: Write>(writer: &mut W, most: u16) -> Printed
    ensures { Prints (W.contents writer.old) (W.contents writer.new) result
        (codes " " ++ line (type_text (ColumnType.Varchar most))) }
{
    write_all(writer, b" VARCHAR(")?;
    print_number(writer, most)?;
    write_all(writer, b")\n")
}
