//! UPDATE.
ghost use Rattle.std.specs.Prelude.{◌≡◌, ◌≤◌, [], All, IfOk, None, OnErr, length};
ghost use Rattle.values.specs.Memory.{OnlyMemory};
ghost use Rattle.values.specs.Tables.{widest};
ghost use Rattle.values.specs.RowEncoding.{IsStored};
ghost use Rattle.values.specs.Fit.{sets_fault};
ghost use Rattle.values.specs.Writes.{set_all, update_in, full_rows};
ghost use Rattle.values.specs.Events.{AreKeysIn};
ghost use Rattle.staging.specs.Own.{WhenRead, IsAnswered, own};
ghost use Rattle.staging.specs.Staged.{updates, SetsOneOf};

use crate::staged::Staged;
use searchrange::Search;
use std::alloc::{AllocError, Global};
use tsbtree::View;
use values::{FittingKeys, Key, Mem, Refusal, Row, Set, Table};

impl Staged {
    /// Sets columns of the rows that keys take. The new values fit the table. A row that was stored
    /// before columns were added gets NULL in them first.
    pub(crate) fn update(
        &mut self,
        view: &View,
        keys: FittingKeys<'_>,
        sets: &[Set],
    ) -> Result<usize, Refusal>
        requires { sets_fault keys.table.now [] sets.now ≡ None }
        ensures answers { WhenRead keys.entry.table.now view.now self.old (λ schema m.
            IsAnswered result m self.new
            (update_in keys.entry.table.now keys.entry.keys.now sets.now (own m self.old))) }
        ensures keys { WhenRead keys.entry.table.now view.now self.old (λ schema m.
            AreKeysIn schema self.new) }
        ensures refused { OnErr result (self.new ≡ self.old) }
    {
        let table = keys.table;
        let search = Search::new(self.alloc, keys)?;
        let found = self.rows_found(view, &search)?;
        let count = found.len();
        let changes = updates(self.alloc, table, sets, found)?;
        self.put(changes, count)
    }
}

/// Makes new rows for keys: each as wide as the table, with some columns set.
fn updates(
    alloc: Global,
    table: &Table,
    sets: &[Set],
    rows: Vec<(Key, Row)>,
) -> Mem<Vec<(Key, Option<Row>)>>
    requires few { length table.now.columns ≤ widest }
    requires fit { sets_fault table.now [] sets.now ≡ None }
    ensures ok { IfOk result (λ v.
        v.items ≡ updates sets.now (full_rows table.now rows.items)) }
    ensures err { OnlyMemory result }
{
    let width = table.columns.items().len();
    let mut changes = Vec::with_capacity(alloc, rows.len())?;
    for (key, row) in rows {
        let row = row.widen(width)?;
        changes.push((key, Some(set_all(sets, row)?)))?;
    }
    Ok(changes)
}

/// Sets columns of a row, which has them, to new values in turn.
pub(crate) fn set_all(sets: &[Set], row: Row) -> Result<Row, AllocError>
    requires stored { All (λ s. IsStored s.value) sets.now }
    requires within { All (SetsOneOf (length row)) sets.now }
    ensures { IfOk result (λ r. r ≡ set_all sets.now row) }
{
    let mut values = row.into_values();
    for set in sets {
        values[set.column - 1] = set.value.clone()?;
    }
    match Row::new(values) {
        Some(row) => Ok(row),
        None => unreachable!(),
    }
}
