//! Names in the text of a dump.
ghost use Rattle.std.specs.Prelude.{◌≡◌};
ghost use Rattle.statement.specs.Writer.{Prints};
ghost use Rattle.dumping.specs.DumpText.{column_name};
ghost use Rattle.dumping.specs.Name.{named};

use statement::{WriteFault, write_all};
use std::io::Write;
use values::{Chars, ColumnNumber, Table};

/// Nothing, or that the writer failed.
pub(crate) type Printed = Result<(), WriteFault>;

/// Writes a name between two texts.
pub(crate) fn print_named<W: Write>(
    writer: &mut W,
    before: &[u8],
    name: &Chars,
    after: &[u8],
) -> Printed
    ensures { Prints (W.contents writer.old) (W.contents writer.new) result
        (named before.now name.now after.now) }
{
    write_all(writer, before)?;
    write_all(writer, name.text().as_bytes())?;
    write_all(writer, after)
}

/// Returns the name of a column; an empty one where the table has no such column.
pub(crate) fn column_name(table: &Table, column: ColumnNumber) -> &[u8]
    ensures { result.now ≡ column_name table.now column }
{
    match table.column_at(column) {
        None => &[],
        Some(column) => column.name.text().as_bytes(),
    }
}
