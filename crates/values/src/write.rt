//! What an INSERT, an UPDATE or a DELETE writes.
ghost use Rattle.std.specs.Prelude.{◌≡◌};
ghost use Rattle.values.specs.Fitting.{table_of};

use crate::period::Span;
use crate::query::{Keys, Set};
use crate::row::Row;

/// What a statement writes, and of which table, by its number from 1.
#[derive(Clone, Copy)]
pub enum Write<'a> {
    /// Inserts rows into a table.
    Insert(u8, &'a [Row]),
    /// Sets columns of the rows whose keys meet all comparisons.
    Update(&'a Keys, &'a [Set]),
    /// Deletes the rows whose keys meet all comparisons.
    Delete(&'a Keys),
    /// Sets columns, for a span of time, of the rows whose keys meet all comparisons and whose
    /// periods overlap it; before and behind the span they stay as they are.
    UpdatePortion(&'a Keys, Span, &'a [Set]),
    /// Deletes, for a span of time, the rows whose keys meet all comparisons and whose periods
    /// overlap it.
    DeletePortion(&'a Keys, Span),
}

impl Write<'_> {
    /// Returns the number of the table that is written, from 1.
    pub fn table(&self) -> u8
        ensures { result ≡ table_of self.now }
    {
        match self {
            Write::Insert(table, _) => *table,
            Write::Update(keys, _) => keys.table,
            Write::Delete(keys) => keys.table,
            Write::UpdatePortion(keys, _, _) => keys.table,
            Write::DeletePortion(keys, _) => keys.table,
        }
    }
}
