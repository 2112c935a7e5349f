//! Rows that one INSERT is to take, as they come.
ghost use Rattle.std.specs.Prelude.{◌≡◌, ◌≤◌, ◌++◌, ◌∷◌, [], List, None, Ok, OnOk, length};
ghost use Rattle.values.specs.declared.key.Key.{Key as TableKey};
ghost use Rattle.values.specs.Fit.{row_fault};
ghost use Rattle.values.specs.Log.{Row as Values};
ghost use Rattle.values.specs.Memory.{OnlyMemory};
ghost use Rattle.values.specs.TableRules.{IsTable};
ghost use Rattle.values.specs.Write.{has_bad_span};
ghost use Rattle.values.specs.Writes.{add_keys, most_written};
ghost use Rattle.interchange.specs.Insertion.{AreKeyed, HasCome, HasKeys};
ghost use Rattle.interchange.specs.Load.{vec_items, inserted};

use crate::key_set::KeySet;
use crate::overlaps::Overlaps;
use std::alloc::Global;
use values::{Key, Mem, Refusal, Row, Table};

/// The rows that an INSERT may have.
const MOST_ROWS: usize = 1000;

/// Rows of a table as they come: those that one INSERT may have are kept, of the others only their
/// keys, and where the table has a period of application time their spans. Nothing is kept any more
/// once a row has the key of an earlier one, or a span without a start below its end.
#[derive(Drop)]
pub(crate) struct Insertion {
    rows: Vec<Row>,
    keys: KeySet,
    overlaps: Overlaps,
    repeated: Option<Key>,
    has_bad_span: bool,
}

impl Insertion {
    /// Makes an INSERT of no rows.
    pub(crate) fn new(alloc: Global) -> Insertion
        ensures { (table : Table) → HasCome table [] result }
    {
        Insertion {
            rows: Vec::new(alloc),
            keys: KeySet::new(alloc),
            overlaps: Overlaps::new(alloc),
            repeated: None,
            has_bad_span: false,
        }
    }

    /// Takes the next row, which fits the table.
    pub(crate) fn take(&mut self, alloc: Global, table: &Table, row: Row) -> Mem<()>
        requires table { IsTable table.now.number table.now }
        requires fits { row_fault table.now row ≡ None }
        ensures ok { OnOk result ((rows : List Values) → HasCome table.now rows self.old
            → HasCome table.now (rows ++ row ∷ []) self.new) }
        ensures err { OnlyMemory result }
    {
        if self.has_bad_span {
            return Ok(());
        }
        if is_bad_span(table, &row) {
            self.has_bad_span = true;
            return Ok(());
        }
        self.take_key(alloc, table, row)
    }

    /// Takes the next row, by its key and its span.
    fn take_key(&mut self, alloc: Global, table: &Table, row: Row) -> Mem<()>
        requires table { IsTable table.now.number table.now }
        requires fits { row_fault table.now row ≡ None }
        ensures ok { OnOk result ((rows : List Values) → AreKeyed table.now rows self.old
            → AreKeyed table.now (rows ++ row ∷ []) self.new) }
        ensures spans { self.new.has_bad_span ≡ self.old.has_bad_span }
        ensures err { OnlyMemory result }
    {
        if self.repeated.is_some() {
            return Ok(());
        }
        if self.keys.add(alloc, table, &row)? {
            self.overlaps.take(alloc, table, &row)?;
            self.keep(row)
        } else {
            self.repeated = Some(table.key(alloc, &row)?);
            Ok(())
        }
    }

    /// Keeps a row whose key was added, where there are not too many.
    fn keep(&mut self, row: Row) -> Mem<()>
        ensures kept { OnOk result ((table : Table) (keys : List TableKey)
            → HasKeys table keys self.old.keys → length (add_keys keys []) ≤ most_written
            → self.new.rows.items ≡ self.old.rows.items ++ row ∷ []) }
        ensures keys { self.new.keys ≡ self.old.keys }
        ensures overlaps { self.new.overlaps ≡ self.old.overlaps }
        ensures repeated { self.new.repeated ≡ self.old.repeated }
        ensures spans { self.new.has_bad_span ≡ self.old.has_bad_span }
        ensures err { OnlyMemory result }
    {
        if self.keys.len() > MOST_ROWS {
            return Ok(());
        }
        self.rows.push(row)?;
        Ok(())
    }

    /// Returns the rows if the INSERT of them over no rows is not refused.
    pub(crate) fn finish(self) -> Result<Vec<Row>, Refusal>
        ensures { (table : Table) (rows : List Values) → HasCome table rows self
            → vec_items result ≡ inserted table (Ok rows) }
    {
        let Insertion {
            rows,
            keys,
            overlaps,
            repeated,
            has_bad_span,
        } = self;
        if has_bad_span {
            return Err(Refusal::BadPeriod);
        }
        if let Some(key) = repeated {
            return Err(Refusal::DuplicateKey(key));
        }
        if let Some(key) = overlaps.into_first() {
            return Err(Refusal::Overlap(key));
        }
        if keys.len() > MOST_ROWS {
            return Err(Refusal::TooManyWrites);
        }
        Ok(rows)
    }
}

/// Tells whether the span of a row has no start below its end; without a period it has none.
fn is_bad_span(table: &Table, row: &Row) -> bool
    ensures { result ≡ has_bad_span table.now.period (row.now ∷ []) }
{
    match &table.period {
        None => false,
        Some(period) => !period.span(row).is_proper(),
    }
}
