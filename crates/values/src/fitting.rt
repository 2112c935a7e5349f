//! Statements that fit their table: each is checked once, and its type keeps that it fits.
ghost use Rattle.std.specs.Prelude.{◌≡◌, ℕ, Option, None, Some, IfOk, IfErr};
ghost use Rattle.values.specs.TableRules.{IsTable};
ghost use Rattle.values.specs.Fitting.{no_fault, unless_refused, table_of, write_refusal};
ghost use Rattle.values.specs.Fit.{comparisons_fault, update_fault};
ghost use Rattle.values.specs.Write.{portion_refusal, rows_refusal, has_bad_span};

use crate::period::{Period, Span};
use crate::query::{Keys, Set};
use crate::refusal::Refusal;
use crate::row::Row;
use crate::table::Table;
use crate::write::Write;

/// A search condition over the keys of a table, which fits the table.
#[derive(Clone, Copy)]
pub struct FittingKeys<'a> {
    pub table: &'a Table,
    pub keys: &'a Keys,
    pub ghost good: { IsTable table.now.number table.now },
    pub ghost own: { keys.now.table ≡ table.now.number },
    pub ghost fits: { comparisons_fault table.now keys.now.comparisons ≡ None },
}

/// What is written of a table, which fits the table.
#[derive(Clone, Copy)]
pub struct FittingWrite<'a> {
    pub table: &'a Table,
    pub write: Write<'a>,
    pub ghost good: { IsTable table.now.number table.now },
    pub ghost own: { table_of write ≡ table.now.number },
    pub ghost fits: { write_refusal table.now write ≡ None },
}

impl Table {
    /// Checks a search condition over the table's keys. `BadRow` with the column, from 1, of the
    /// first comparison that does not fit, or 0 where that names no column.
    pub fn fit_keys<'a>(&'a self, keys: &'a Keys) -> Result<FittingKeys<'a>, Refusal>
        requires good { IsTable self.now.number self.now }
        requires own { keys.now.table ≡ self.now.number }
        ensures table { IfOk result (λ f. f.table.now ≡ self.now) }
        ensures keys { IfOk result (λ f. f.keys.now ≡ keys.now) }
        ensures refused { IfErr result (λ e.
            no_fault (comparisons_fault self.now keys.now.comparisons) ≡ Err e) }
    {
        if let Err(refusal) = self.check_comparisons(keys.comparisons.items()) {
            return Err(refusal);
        }
        Ok(FittingKeys { table: self, keys })
    }

    /// Checks what is written of the table. `BadRow` with the first column at fault, from 1: rows
    /// in their order, and new values before comparisons; 0 for a width, a name that is no column,
    /// or a portion where the table has no period. Then `BadPeriod` where the span of a row, or
    /// the portion, has no start below its end.
    pub fn fit_write<'a>(&'a self, write: Write<'a>) -> Result<FittingWrite<'a>, Refusal>
        requires good { IsTable self.now.number self.now }
        requires own { table_of write ≡ self.now.number }
        ensures table { IfOk result (λ f. f.table.now ≡ self.now) }
        ensures write { IfOk result (λ f. f.write ≡ write.entry) }
        ensures refused { IfErr result (λ e. write_refusal self.now write.entry ≡ Some e) }
    {
        if let Err(refusal) = self.check_write(&write) {
            return Err(refusal);
        }
        Ok(FittingWrite { table: self, write })
    }

    fn check_write(&self, write: &Write<'_>) -> Result<(), Refusal>
        ensures { result ≡ unless_refused (write_refusal self.now write.now) }
    {
        match write {
            Write::Insert(_, rows) => self.check_insert(rows),
            Write::Update(keys, sets) => self.check_update(keys, sets),
            Write::Delete(keys) => self.check_comparisons(keys.comparisons.items()),
            Write::UpdatePortion(keys, span, sets) => {
                self.check_portion(*span, self.check_update(keys, sets))
            }
            Write::DeletePortion(keys, span) => {
                self.check_portion(*span, self.check_comparisons(keys.comparisons.items()))
            }
        }
    }

    fn check_update(&self, keys: &Keys, sets: &[Set]) -> Result<(), Refusal>
        ensures { result ≡ no_fault (update_fault self.now keys.now sets.now) }
    {
        if let Err(refusal) = self.check_sets(sets) {
            return Err(refusal);
        }
        self.check_comparisons(keys.comparisons.items())
    }

    fn check_insert(&self, rows: &[Row]) -> Result<(), Refusal>
        ensures { result ≡ unless_refused (rows_refusal self.now rows.now) }
    {
        if let Err(refusal) = self.check_rows(rows) {
            return Err(refusal);
        }
        if self.has_bad_span(rows) {
            return Err(Refusal::BadPeriod);
        }
        Ok(())
    }

    /// Tells whether the span of one of the rows has no start below its end.
    fn has_bad_span(&self, rows: &[Row]) -> bool
        ensures { result ≡ has_bad_span self.now.period rows.now }
    {
        match &self.period {
            None => false,
            Some(period) => has_bad_span(period, rows),
        }
    }

    /// Checks a portion, whose columns were checked: a table without a period has none.
    fn check_portion(&self, span: Span, columns: Result<(), Refusal>) -> Result<(), Refusal>
        ensures { (fault : Option ℕ) → columns ≡ no_fault fault
            → result ≡ unless_refused (portion_refusal self.now span fault) }
    {
        if self.period.is_none() {
            return Err(Refusal::BadRow(0));
        }
        if let Err(refusal) = columns {
            return Err(refusal);
        }
        if !span.is_proper() {
            return Err(Refusal::BadPeriod);
        }
        Ok(())
    }
}

fn has_bad_span(period: &Period, rows: &[Row]) -> bool
    ensures { result ≡ has_bad_span (Some period.now) rows.now }
{
    for row in rows {
        if !period.span(row).is_proper() {
            return true;
        }
    }
    false
}
