//! SELECT.
ghost use Rattle.std.specs.Prelude.{◌≡◌, IfOk, map};
ghost use Rattle.values.specs.Memory.{OnlyMemory};
ghost use Rattle.values.specs.Versions.{answer};
ghost use Rattle.systime_query.specs.staging.Own.{WhenRead};
ghost use Rattle.systime_query.specs.Selection.{WhenShown};
ghost use Rattle.transaction.specs.Listing.{as_listing, listing_in};

use crate::open_transaction::OpenTransaction;
use blocks::Blocks;
use searchrange::Search;
use std::alloc::Global;
use steps::Listing;
use systime_query::{View, answer, current_rows, rows_at};
use values::{FittingKeys, Form, Key, Mem, Row, Sequence, ShownRow, ShownRows};

impl OpenTransaction {
    /// Returns what a query of a table shows: a plain one the rows that the transaction sees, any
    /// other what was committed until its start. The events of packed nodes are those that `blocks`
    /// gives.
    pub fn select<B: Blocks>(
        &self,
        alloc: Global,
        blocks: &mut B,
        form: Form,
        keys: FittingKeys<'_>,
    ) -> Mem<Listing>
        ensures ok { IfOk result (λ l. WhenRead keys.entry.table.now self.now.view self.now.writes
            (λ schema m. l
            ≡ listing_in m self.now.writes keys.entry.table.now form keys.entry.keys.now)) }
        ensures memory { OnlyMemory result }
    {
        match form {
            Form::Plain => {
                let search = Search::new(alloc, keys)?;
                let found = self.staged.rows(&self.view, &search)?;
                Ok(Listing::Rows(Sequence::new(rows_of(alloc, found)?)))
            }
            Form::AsOf(_) | Form::FromTo(_, _) | Form::Between(_, _) => {
                listing_of(alloc, blocks, &self.view, form, keys)
            }
        }
    }
}

/// Returns what a query of a table shows of what was committed. The events of packed nodes are
/// those that `blocks` gives.
pub fn listing_of<B: Blocks>(
    alloc: Global,
    blocks: &mut B,
    view: &View,
    form: Form,
    keys: FittingKeys<'_>,
) -> Mem<Listing>
    ensures ok { IfOk result (λ l. WhenShown view.now keys.entry.table.now keys.entry.keys.now (λ m.
        l ≡ as_listing form (answer m keys.entry.table.now form keys.entry.keys.now))) }
    ensures memory { OnlyMemory result }
{
    let search = Search::new(alloc, keys)?;
    match form {
        Form::Plain => {
            let rows = current_rows(alloc, view, &search)?;
            Ok(Listing::Rows(Sequence::new(rows)))
        }
        Form::AsOf(instant) => {
            let rows = rows_at(alloc, blocks, view, instant, &search)?;
            Ok(Listing::Rows(Sequence::new(rows)))
        }
        Form::FromTo(_, _) | Form::Between(_, _) => {
            let shown = answer(alloc, blocks, view, form, &search)?;
            Ok(Listing::Periods(ShownRows::new(shown)))
        }
    }
}

/// The rows, by their keys.
fn rows_of(alloc: Global, found: Vec<(Key, Row)>) -> Mem<Vec<ShownRow>>
    ensures ok { IfOk result (λ v. v.items ≡ map (λ e. e.1) found.items) }
    ensures memory { OnlyMemory result }
{
    let mut rows = Vec::with_capacity(alloc, found.len())?;
    for (_key, row) in found {
        rows.push(ShownRow::new(row))?;
    }
    Ok(rows)
}
