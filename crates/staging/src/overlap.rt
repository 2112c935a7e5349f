//! INSERT into a table with a period of application time: no two rows of an entity overlap.
ghost use Rattle.std.specs.Prelude.{◌≡◌, All, IfOk, OnOk, Some, length, map};
ghost use Rattle.std.specs.List.{list_any};
ghost use Rattle.values.specs.TableRules.{IsTable};
ghost use Rattle.values.specs.Memory.{OnlyMemory};
ghost use Rattle.values.specs.KeyReading.{IsKeyOf};
ghost use Rattle.values.specs.Period.{span_of, overlap};
ghost use Rattle.values.specs.Entity.{clash_by, entity_of};
ghost use Rattle.values.specs.Writes.{key_of, overlapping};
ghost use Rattle.staging.specs.Own.{WhenRead, rows_seen};
ghost use Rattle.staging.specs.Staged.{keyed_rows, AreRead, AreSpansOf};

use crate::staged::Staged;
use searchrange::{Search, entity_keys};
use std::alloc::{AllocError, Global};
use std::collections::BTreeMap;
use tsbtree::View;
use values::{FittingKeys, Key, Mem, Period, Row, Span, Table};

impl Staged {
    /// Finds the key of the first of some rows whose period overlaps that of another row of its
    /// entity: one that the transaction sees, or an earlier one of them. In a table without a
    /// period there is none.
    pub(crate) fn first_overlap(
        &self,
        view: &View,
        table: &Table,
        keys: &[Key],
        rows: &[Row],
    ) -> Mem<Option<Key>>
        requires good { IsTable table.now.number table.now }
        requires own { All (IsKeyOf table.now) keys.now }
        requires keys { keys.now ≡ map (key_of table.now) rows.now }
        ensures ok { IfOk result (λ found. WhenRead table.now view.now self.now (λ schema m.
            found ≡ overlapping table.now rows.now (rows_seen m self.now))) }
        ensures err { OnlyMemory result }
    {
        let Some(period) = &table.period else {
            return Ok(None);
        };
        let mut read = BTreeMap::new(self.alloc);
        for (i, key) in keys.iter().enumerate() {
            let row = &rows[i];
            let seen = self.overlaps_seen(view, table, period, key, row, &mut read)?;
            let earlier = overlaps_earlier(
                period,
                key,
                row,
                keys.split_at(i).0,
                rows.split_at(i).0,
            );
            if seen || earlier {
                return Ok(Some(key.clone()?));
            }
        }
        Ok(None)
    }

    /// Tells whether the period of a row overlaps that of a row of its entity which the transaction
    /// sees. What is read of an entity is kept.
    fn overlaps_seen(
        &self,
        view: &View,
        table: &Table,
        period: &Period,
        key: &Key,
        row: &Row,
        read: &mut BTreeMap<Key, Vec<Span>>,
    ) -> Mem<bool>
        requires good { IsTable table.now.number table.now }
        requires own { IsKeyOf table.now key.now }
        requires has { table.now.period ≡ Some period.now }
        ensures seen { IfOk result (λ seen. WhenRead table.now view.now self.now (λ schema m.
            AreRead period.now (rows_seen m self.now) read.old
            → seen ≡ list_any (clash_by (Some period.now) (key.now, row.now))
            (rows_seen m self.now))) }
        ensures kept { OnOk result (WhenRead table.now view.now self.now (λ schema m.
            AreRead period.now (rows_seen m self.now) read.old
            → AreRead period.now (rows_seen m self.now) read.new)) }
        ensures err { OnlyMemory result }
    {
        let span = period.span(row);
        let entity = key.entity(self.alloc)?;
        if let Some(spans) = read.get(&entity) {
            return Ok(span.overlaps_any(spans));
        }
        let spans = self.spans_seen(view, table, period, key)?;
        let seen = span.overlaps_any(&spans);
        read.insert(entity, spans)?;
        Ok(seen)
    }

    /// Returns the spans of the rows of a key's entity that the transaction sees.
    fn spans_seen(&self, view: &View, table: &Table, period: &Period, key: &Key) -> Mem<Vec<Span>>
        requires good { IsTable table.now.number table.now }
        requires own { IsKeyOf table.now key.now }
        requires has { table.now.period ≡ Some period.now }
        ensures ok { IfOk result (λ spans. WhenRead table.now view.now self.now (λ schema m.
            AreSpansOf period.now (entity_of key.now) (rows_seen m self.now) spans.items)) }
        ensures err { OnlyMemory result }
    {
        let keys = entity_keys(self.alloc, table, key)?;
        let search = Search::new(self.alloc, FittingKeys { table, keys: &keys })?;
        let found = self.rows_found(view, &search)?;
        Ok(spans_of(self.alloc, period, &found)?)
    }
}

/// Returns the spans of rows, by key.
fn spans_of(alloc: Global, period: &Period, rows: &[(Key, Row)]) -> Result<Vec<Span>, AllocError>
    ensures { IfOk result (λ spans. spans.items ≡ map (λ e. span_of period.now e.1) rows.now) }
{
    let mut spans = Vec::new(alloc);
    for (_key, row) in rows {
        spans.push(period.span(row))?;
    }
    Ok(spans)
}

/// Tells whether a row is of one entity with an earlier one, and their periods overlap.
fn overlaps_earlier(period: &Period, key: &Key, row: &Row, keys: &[Key], rows: &[Row]) -> bool
    requires { length keys.now ≡ length rows.now }
    ensures { result ≡ list_any (clash_by (Some period.now) (key.now, row.now))
        (keyed_rows keys.now rows.now) }
{
    let span = period.span(row);
    for (i, other) in keys.iter().enumerate() {
        if key.is_of_entity(other) && span.overlaps(period.span(&rows[i])) {
            return true;
        }
    }
    false
}
