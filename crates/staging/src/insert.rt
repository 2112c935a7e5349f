//! INSERT.
ghost use Rattle.std.specs.Prelude.{◌≡◌, All, None, IfOk, OnErr, length, map};
ghost use Rattle.values.specs.TableRules.{IsTable};
ghost use Rattle.values.specs.Fit.{rows_fault};
ghost use Rattle.values.specs.Memory.{OnlyMemory};
ghost use Rattle.values.specs.KeyReading.{IsKeyOf};
ghost use Rattle.values.specs.Writes.{insert_into, key_of};
ghost use Rattle.values.specs.Events.{AreKeysIn};
ghost use Rattle.staging.specs.Own.{WhenRead, IsAnswered, own};
ghost use Rattle.staging.specs.Staged.{insertions};

use crate::staged::Staged;
use std::alloc::{AllocError, Global};
use tsbtree::View;
use values::{Key, Mem, Refusal, Row, Table};

impl Staged {
    /// Inserts rows that fit their table.
    pub(crate) fn insert(
        &mut self,
        view: &View,
        table: &Table,
        rows: &[Row],
    ) -> Result<usize, Refusal>
        requires good { IsTable table.now.number table.now }
        requires fit { rows_fault table.now rows.now ≡ None }
        ensures answers { WhenRead table.now view.now self.old (λ schema m.
            IsAnswered result m self.new (insert_into table.now rows.now (own m self.old))) }
        ensures keys { WhenRead table.now view.now self.old (λ schema m.
            AreKeysIn schema self.new) }
        ensures refused { OnErr result (self.new ≡ self.old) }
    {
        let keys = keys_of(self.alloc, table, rows)?;
        if let Some(key) = self.first_seen(view, view.last(), &keys)? {
            return Err(Refusal::DuplicateKey(key));
        }
        if let Some(key) = self.first_overlap(view, table, &keys, rows)? {
            return Err(Refusal::Overlap(key));
        }
        let changes = insertions(self.alloc, keys, rows)?;
        self.put(changes, rows.len())
    }
}

fn keys_of(alloc: Global, table: &Table, rows: &[Row]) -> Mem<Vec<Key>>
    requires table { IsTable table.now.number table.now }
    requires fit { rows_fault table.now rows.now ≡ None }
    ensures ok { IfOk result (λ keys. keys.items ≡ map (key_of table.now) rows.now) }
    ensures own { IfOk result (λ keys. All (IsKeyOf table.now) keys.items) }
    ensures err { OnlyMemory result }
{
    let mut keys = Vec::with_capacity(alloc, rows.len())?;
    for row in rows {
        keys.push(table.key(alloc, row)?)?;
    }
    Ok(keys)
}

/// Makes the changes that put rows at their keys.
fn insertions(
    alloc: Global,
    keys: Vec<Key>,
    rows: &[Row],
) -> Result<Vec<(Key, Option<Row>)>, AllocError>
    requires { length keys.items ≡ length rows.now }
    ensures { IfOk result (λ v. v.items ≡ insertions keys.items rows.now) }
{
    let mut changes = Vec::with_capacity(alloc, rows.len())?;
    for key in keys {
        let row = rows[changes.len()].clone()?;
        changes.push((key, Some(row)))?;
    }
    Ok(changes)
}
