//! Changes by their places, and what is written of each.
ghost use Rattle.std.specs.Prelude.{◌≡◌, ◌-◌, OnOk, option_copied, slice_get, slice_set};
ghost use Rattle.statement.specs.Writer.{Prints};
ghost use Rattle.dump_steps.specs.Widths.{width_at};
ghost use Rattle.dumping.specs.Change.{delete_text, deletion_text, event_before, insertion_text, leaves_row, table_of, widened, widening_text, with_width};
ghost use Rattle.dumping.specs.Column.{columns_text};

use crate::column::print_columns;
use crate::deletion::print_delete;
use crate::fault::Dumped;
use crate::name::Printed;
use crate::row::print_row;
use std::alloc::Global;
use std::io::Write;
use values::{Event, KeyBytes, Schema, SharedEvent, Table, read_key};

/// Changes by key and then by instant, and the tables that they are of, with all their columns.
#[derive(Clone, Copy)]
pub(crate) struct Changes<'a> {
    pub(crate) tables: &'a Schema,
    pub(crate) events: &'a [SharedEvent],
}

impl<'a> Changes<'a> {
    /// Writes the line that deletes the key of the change at a place, if it had a row before.
    pub(crate) fn print_deletion<W: Write>(
        &self,
        alloc: Global,
        writer: &mut W,
        place: usize,
    ) -> Dumped
        ensures { Prints (W.contents writer.old) (W.contents writer.new) result
            (deletion_text self.now.tables.now self.now.events.now place) }
    {
        match self.event(place) {
            Some(event) if self.has_row_before(place, event.key()) => {
                self.print_key(alloc, writer, event.key())
            }
            _ => Ok(()),
        }
    }

    fn print_key<W: Write>(&self, alloc: Global, writer: &mut W, key: &KeyBytes) -> Dumped
        ensures { Prints (W.contents writer.old) (W.contents writer.new) result
            (delete_text self.now.tables.now key.now) }
    {
        let Some(table) = self.table(key) else {
            return Ok(());
        };
        if let Some(key) = read_key(alloc, table, key)? {
            print_delete(writer, table, &key)?;
        }
        Ok(())
    }

    /// Writes the lines that insert the row of the change at a place, if there is one.
    pub(crate) fn print_insertion<W: Write>(
        &self,
        alloc: Global,
        writer: &mut W,
        place: usize,
        line: &mut Vec<u8>,
    ) -> Dumped
        ensures { Prints (W.contents writer.old) (W.contents writer.new) result
            (insertion_text self.now.tables.now self.now.events.now place) }
    {
        let Some(event) = self.event(place) else {
            return Ok(());
        };
        match (event.row(), self.table(event.key())) {
            (Some(row), Some(table)) => {
                print_row(alloc, writer, table, event.key(), row.values(), line)
            }
            _ => Ok(()),
        }
    }

    /// Writes the lines that add the columns which the row of the change at a place has and its
    /// table has not.
    pub(crate) fn widen<W: Write>(
        &self,
        writer: &mut W,
        widths: &mut [usize],
        place: usize,
    ) -> Printed
        ensures text { Prints (W.contents writer.old) (W.contents writer.new) result
            (widening_text self.now.tables.now self.now.events.now widths.old place) }
        ensures widths { OnOk result (widths.new
            ≡ widened self.now.tables.now self.now.events.now widths.old place) }
    {
        let Some(event) = self.event(place) else {
            return Ok(());
        };
        match (event.row(), self.table(event.key())) {
            (Some(row), Some(table)) => widen_to(writer, widths, table, row.values().len()),
            _ => Ok(()),
        }
    }

    /// Returns the change at a place.
    fn event(&self, place: usize) -> Option<&'a Event>
        ensures { option_copied result ≡ slice_get self.now.events.now place }
    {
        match self.events.get(place) {
            None => None,
            Some(shared) => Some(shared.event()),
        }
    }

    /// Tells whether the change before a place, by key, left the key a row.
    fn has_row_before(&self, place: usize, key: &KeyBytes) -> bool
        ensures { result ≡ leaves_row (event_before self.now.events.now place) key.now }
    {
        let Some(before) = place.checked_sub(1) else {
            return false;
        };
        match self.event(before) {
            None => false,
            Some(event) => event.key() == key && event.row().is_some(),
        }
    }

    /// Returns the table of a key, whose bytes begin with the table's number.
    fn table(&self, key: &KeyBytes) -> Option<&'a Table>
        ensures { option_copied result ≡ table_of self.now.tables.now key.now }
    {
        match key.bytes().first() {
            None => None,
            Some(number) => self.tables.table_at(*number),
        }
    }
}

/// Writes the lines that add a table's columns up to a width, where it is not as wide.
fn widen_to<W: Write>(writer: &mut W, widths: &mut [usize], table: &Table, width: usize) -> Printed
    ensures text { Prints (W.contents writer.old) (W.contents writer.new) result
        (columns_text table.now (width_at widths.old table.now.number) width) }
    ensures widths { OnOk result (widths.new ≡ with_width widths.old table.now.number width) }
{
    let from = width_of(widths, table);
    print_columns(writer, table, from, width)?;
    set_width(widths, table, from.max(width));
    Ok(())
}

fn set_width(widths: &mut [usize], table: &Table, width: usize)
    ensures { widths.new ≡ slice_set widths.old (table.now.number - 1) width }
{
    let place = (table.number as usize).saturating_sub(1);
    if place < widths.len() {
        widths[place] = width;
    }
}

/// Returns how many columns a table has so far.
pub(crate) fn width_of(widths: &[usize], table: &Table) -> usize
    ensures { result ≡ width_at widths.now table.now.number }
{
    match widths.get((table.number as usize).saturating_sub(1)) {
        None => 0,
        Some(width) => *width,
    }
}
