//! UPDATE and DELETE for a portion of application time.
ghost use Rattle.std.specs.Prelude.{◌≡◌, ◌≤◌, ◌++◌, [], All, IfOk, None, OnErr, OnOk, length};
ghost use Rattle.std.specs.Option.{ForSome, option_map};
ghost use Rattle.std.specs.List.{flat_map};
ghost use Rattle.values.specs.Memory.{OnlyMemory};
ghost use Rattle.values.specs.Fit.{sets_fault};
ghost use Rattle.values.specs.Period.{with_span};
ghost use Rattle.values.specs.Writes.{full_rows};
ghost use Rattle.values.specs.Portion.{piece, pieces, portion_in};
ghost use Rattle.values.specs.Tables.{widest};
ghost use Rattle.values.specs.TableRules.{HasPeriod};
ghost use Rattle.values.specs.Events.{AreKeysIn};
ghost use Rattle.staging.specs.Own.{WhenRead, IsAnswered, own};
ghost use Rattle.staging.specs.Staged.{deletions, puts, overlap_rows, KeepsKeys, KeepsAllKeys};

use crate::staged::Staged;
use crate::update::set_all;
use searchrange::Search;
use std::alloc::{AllocError, Global};
use tsbtree::View;
use values::{FittingKeys, Key, Mem, Period, Refusal, Row, Set, Span, Table, Value};

/// A portion of application time, of a table, and what an UPDATE sets in it; a DELETE sets nothing.
#[derive(Clone, Copy)]
struct Portion<'a> {
    table: &'a Table,
    period: &'a Period,
    span: Span,
    sets: Option<&'a [Set]>,
    ghost has: { HasPeriod table.now period.now },
    ghost few: { length table.now.columns ≤ widest },
    ghost fits: { ForSome sets (λ s. sets_fault table.now [] s.now ≡ None) },
}

impl Staged {
    /// Sets columns, or deletes, for a span of time, of the rows that keys take and whose periods
    /// overlap the span; the new values fit the table. Before and behind the span the rows stay as
    /// they are. Returns how many rows it took.
    pub(crate) fn change_portion(
        &mut self,
        view: &View,
        keys: FittingKeys<'_>,
        span: Span,
        sets: Option<&[Set]>,
    ) -> Result<usize, Refusal>
        requires { ForSome sets (λ s. sets_fault keys.table.now [] s.now ≡ None) }
        ensures answers { WhenRead keys.entry.table.now view.now self.old (λ schema m.
            IsAnswered result m self.new
            (portion_in keys.entry.table.now keys.entry.keys.now span
            (option_map (λ s. s.now) sets.entry) (own m self.old))) }
        ensures keys { WhenRead keys.entry.table.now view.now self.old (λ schema m.
            AreKeysIn schema self.new) }
        ensures refused { OnErr result (self.new ≡ self.old) }
    {
        let table = keys.table;
        let Some(period) = &table.period else {
            return Ok(0);
        };
        let portion = Portion {
            table,
            period,
            span,
            sets,
        };
        let search = Search::new(self.alloc, keys)?;
        let found = self.rows_found(view, &search)?;
        let taken = portion.taken(self.alloc, found)?;
        let changes = portion.changes(self.alloc, &taken)?;
        self.put(changes, taken.len())
    }
}

impl Portion<'_> {
    /// Returns the rows whose periods overlap the span, each as wide as the table.
    fn taken(&self, alloc: Global, found: Vec<(Key, Row)>) -> Mem<Vec<(Key, Row)>>
        ensures ok { IfOk result (λ v. v.items ≡ full_rows self.now.table.now
            (overlap_rows self.now.period.now self.now.span found.items)) }
        ensures err { OnlyMemory result }
    {
        let width = self.table.columns.items().len();
        let mut rows = Vec::new(alloc);
        for (key, row) in found {
            if self.period.span(&row).overlaps(self.span) {
                rows.push((key, row.widen(width)?))?;
            }
        }
        Ok(rows)
    }

    /// Makes the changes of rows that are taken: all of them are removed, and then what is left of
    /// each is put.
    fn changes(&self, alloc: Global, taken: &[(Key, Row)]) -> Mem<Vec<(Key, Option<Row>)>>
        requires { All (λ e. length self.now.table.now.columns ≤ length e.1) taken.now }
        ensures ok { IfOk result (λ v. v.items ≡ deletions taken.now
            ++ puts (flat_map (pieces self.now.period.now self.now.span
            (option_map (λ s. s.now) self.now.sets)) taken.now)) }
        ensures keys { IfOk result (λ v. KeepsAllKeys self.now.table.now taken.now v.items) }
        ensures err { OnlyMemory result }
    {
        let mut changes = Vec::new(alloc);
        for (key, _row) in taken {
            changes.push((key.clone()?, None))?;
        }
        for (key, row) in taken {
            self.push_pieces(alloc, &mut changes, key, row)?;
        }
        Ok(changes)
    }

    /// Adds what is left of a row: the old values before the span, the new ones in it, and the old
    /// ones behind it.
    fn push_pieces(
        &self,
        alloc: Global,
        changes: &mut Vec<(Key, Option<Row>)>,
        key: &Key,
        row: &Row,
    ) -> Mem<()>
        requires { length self.now.table.now.columns ≤ length row.now }
        ensures ok { OnOk result (changes.new.items ≡ changes.old.items
            ++ puts (pieces self.now.period.now self.now.span
            (option_map (λ s. s.now) self.now.sets) (key.now, row.now))) }
        ensures keys { OnOk result
            (KeepsKeys self.now.table.now key.now changes.old.items changes.new.items) }
        ensures err { OnlyMemory result }
    {
        let own = self.period.span(row);
        self.push_piece(alloc, changes, key, row, own.before(self.span))?;
        if let Some(sets) = self.sets {
            let changed = set_all(sets, row.copy()?)?;
            self.push_piece(alloc, changes, key, &changed, own.common(self.span))?;
        }
        self.push_piece(alloc, changes, key, row, own.behind(self.span))
    }

    /// Adds the row for a span, at the key that it has then, unless the span is empty.
    fn push_piece(
        &self,
        alloc: Global,
        changes: &mut Vec<(Key, Option<Row>)>,
        key: &Key,
        row: &Row,
        span: Span,
    ) -> Mem<()>
        requires { length self.now.table.now.columns ≤ length row.now }
        ensures ok { OnOk result (changes.new.items ≡ changes.old.items
            ++ puts (piece self.now.period.now key.now row.now span)) }
        ensures keys { OnOk result
            (KeepsKeys self.now.table.now key.now changes.old.items changes.new.items) }
        ensures err { OnlyMemory result }
    {
        if span.is_proper() {
            let row = self.with_span(row.copy()?, span)?;
            changes.push((key.with_start(alloc, span.from)?, Some(row)))?;
        }
        Ok(())
    }

    /// Gives a row another span.
    fn with_span(&self, row: Row, span: Span) -> Result<Row, AllocError>
        requires { length self.now.table.now.columns ≤ length row }
        ensures { IfOk result (λ r. r ≡ with_span self.now.period.now span row) }
    {
        let start = Set {
            column: self.period.from,
            value: Value::Int(span.from),
        };
        let end = Set {
            column: self.period.to,
            value: Value::Int(span.to),
        };
        set_all(&[start, end], row)
    }
}
