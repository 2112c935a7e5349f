//! A history as a script that leaves it again.
ghost use Rattle.std.specs.Prelude.{◌≡◌, ℕ, List, IfOk, OnOk};
ghost use Rattle.std.specs.List.{flat_map};
ghost use Rattle.values.specs.Law.{IsLog};
ghost use Rattle.values.specs.Log.{Log};
ghost use Rattle.statement.specs.Writer.{Prints};
ghost use Rattle.tsbtree.specs.View.{events};
ghost use Rattle.restoring.specs.FromChanges.{AreNets};
ghost use Rattle.dump_steps.specs.Widths.{widths_of};
ghost use Rattle.dumping.specs.DumpText.{dump_text};
ghost use Rattle.dumping.specs.History.{AreRuns, HoldsLog, last_columns_text, instant_text, instants_text, widths_behind};
ghost use Rattle.dumping.specs.Transaction.{all_widened};

use crate::change::{Changes, width_of};
use crate::column::print_columns;
use crate::fault::{DumpFault, Dumped};
use crate::name::Printed;
use crate::order::{instant_at, places_by_instant, run_length};
use keyrange::KeyRange;
use std::alloc::{AllocError, Global};
use std::io::Write;
use tsbtree::View;
use values::{Instant, KeyBytes, Mem, Schema, SharedEvent, Table};

/// Writes a script that leaves what was committed, over the tables that came first: for each
/// transaction its instant as a reading of the clock, `BEGIN`, a `DELETE` of each key that it
/// changed and that had a row, an `INSERT` of each row that it left, and `COMMIT`. A column that was
/// added comes before the first transaction with a row that has it, or at the end. A row whose line
/// would be too long is inserted without its texts, which an `UPDATE` each then sets.
///
/// `first` are the tables that came first, and `last` the same with all their columns. The writer
/// is not flushed.
///
/// The order of the changes takes 16 bytes per version, and changes in packed nodes are unpacked.
/// Where the writer fails (`Write`) or memory runs out (`Memory`), the writer took a prefix of the
/// script.
pub fn dump<W: Write>(
    alloc: Global,
    writer: &mut W,
    first: &Schema,
    last: &Schema,
    view: &View,
) -> Result<(), DumpFault>
    ensures { (log : Log) → IsLog log → AreNets log → HoldsLog last.now view.now log
        → Prints (W.contents writer.old) (W.contents writer.new) result
        (dump_text first.now last.now log) }
{
    let tables = last.tables();
    let events = all_events(alloc, view)?;
    let places = places_by_instant(alloc, events.as_slice())?;
    let mut widths = widths_of(alloc, first)?;
    let changes = Changes {
        tables: last,
        events: events.as_slice(),
    };
    changes.print_instants(alloc, writer, &mut widths, places.as_slice())?;
    print_last_columns(writer, tables, &widths)?;
    Ok(())
}

/// Lists all changes, by key and then by instant.
fn all_events(alloc: Global, view: &View) -> Mem<Vec<SharedEvent>>
    ensures { IfOk result (λ v. v.items ≡ events view.now) }
{
    let range = KeyRange {
        lo: KeyBytes::least(alloc),
        hi: None,
    };
    view.events(alloc, &range, 0, view.last())
}

/// Returns how many columns each table has.
fn widths_of(alloc: Global, schema: &Schema) -> Result<Vec<usize>, AllocError>
    ensures { IfOk result (λ v. v.items ≡ widths_of schema.now) }
{
    let tables = schema.tables();
    let mut widths = Vec::with_capacity(alloc, tables.len())?;
    for table in tables {
        widths.push(table.columns.items().len())?;
    }
    Ok(widths)
}

/// Writes the lines that add the columns which no row has.
fn print_last_columns<W: Write>(writer: &mut W, tables: &[Table], widths: &[usize]) -> Printed
    ensures { Prints (W.contents writer.old) (W.contents writer.new) result
        (flat_map (last_columns_text widths.now) tables.now) }
{
    for table in tables {
        print_columns(
            writer,
            table,
            width_of(widths, table),
            table.columns.items().len(),
        )?;
    }
    Ok(())
}

impl Changes<'_> {
    /// Writes all transactions, where the places of all changes are given by instant.
    fn print_instants<W: Write>(
        &self,
        alloc: Global,
        writer: &mut W,
        widths: &mut [usize],
        places: &[usize],
    ) -> Dumped
        ensures text { (instants : List ℕ) → AreRuns self.now.events.now instants places.now
            → Prints (W.contents writer.old) (W.contents writer.new) result
            (instants_text self.now.tables.now self.now.events.now widths.old instants) }
        ensures widths { (instants : List ℕ) → AreRuns self.now.events.now instants places.now
            → OnOk result (widths.new
            ≡ widths_behind self.now.tables.now self.now.events.now widths.old instants) }
    {
        let mut line = Vec::new(alloc);
        let mut rest = places;
        while let Some(place) = rest.first() {
            let at = instant_at(self.events, *place);
            let (some, others) = rest.split_at(run_length(self.events, rest, at));
            self.print_instant(alloc, writer, widths, at, some, &mut line)?;
            rest = others;
        }
        Ok(())
    }

    /// Writes the transaction at an instant, and before it the columns that its rows have and their
    /// tables have not.
    fn print_instant<W: Write>(
        &self,
        alloc: Global,
        writer: &mut W,
        widths: &mut [usize],
        at: Instant,
        places: &[usize],
        line: &mut Vec<u8>,
    ) -> Dumped
        ensures text { Prints (W.contents writer.old) (W.contents writer.new) result
            (instant_text self.now.tables.now self.now.events.now widths.old at places.now) }
        ensures widths { OnOk result (widths.new
            ≡ all_widened self.now.tables.now self.now.events.now widths.old places.now) }
    {
        self.widen_all(writer, widths, places)?;
        self.print_transaction(alloc, writer, at, places, line)
    }
}
