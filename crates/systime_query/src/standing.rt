//! The rows that stand at an instant.
ghost use Rattle.std.specs.Prelude.{◌≡◌, ◌≤◌, [], IfOk, length};
ghost use Rattle.std.specs.List.{cons_option, filter_map};
ghost use Rattle.std.specs.List.Sorted.{IsStrictlySortedBy};
ghost use Rattle.std.specs.Option.{option_map};
ghost use Rattle.values.specs.declared.query.Form.TheVariants.{AsOf, Plain};
ghost use Rattle.values.specs.Events.{event_cmp, row_until};
ghost use Rattle.values.specs.KeyEncoding.{IsShortKey, bytes_of_key};
ghost use Rattle.values.specs.Law.{shown_rows};
ghost use Rattle.values.specs.Memory.{OnlyMemory};
ghost use Rattle.values.specs.Tables.{full_row, widest};
ghost use Rattle.searchrange.specs.Search.{row_taken};
ghost use Rattle.staging.specs.Staged.{AreInSearch};
ghost use Rattle.staging.specs.tsbtree.View.{events};
ghost use Rattle.systime_query.specs.Selection.{WhenShown};

use crate::push::push_some;
use blocks::Blocks;
use searchrange::Search;
use staging::View;
use std::alloc::Global;
use values::{Instant, Key, Mem, SharedEvent, ShownRow, Table, key_bytes};

/// Returns, by key, the rows of a table that a query as of an instant shows. One key is looked up;
/// of a range the events of packed nodes are those that `blocks` gives.
pub fn rows_at<B: Blocks>(
    alloc: Global,
    blocks: &mut B,
    view: &View,
    instant: Instant,
    search: &Search<'_>,
) -> Mem<Vec<ShownRow>>
    ensures ok { IfOk result (λ v. WhenShown view.now search.now.table search.now.keys (λ m.
        v.items ≡ shown_rows m search.now.table (AsOf instant) search.now.keys)) }
    ensures err { OnlyMemory result }
{
    if let Some(key) = search.key() {
        return row_at(alloc, view, search.table(), key, instant);
    }
    let range = search.range(alloc)?;
    let standing = view.standing_with(alloc, blocks, &range, instant)?;
    Ok(rows_shown(alloc, &standing, search)?)
}

/// Returns, by key, the rows of a table that a query without a form of time shows, the current
/// ones. They are in current nodes, of which none is packed.
pub fn current_rows(alloc: Global, view: &View, search: &Search<'_>) -> Mem<Vec<ShownRow>>
    ensures ok { IfOk result (λ v. WhenShown view.now search.now.table search.now.keys (λ m.
        v.items ≡ shown_rows m search.now.table Plain search.now.keys)) }
    ensures err { OnlyMemory result }
{
    let last = view.last();
    if let Some(key) = search.key() {
        return row_at(alloc, view, search.table(), key, last);
    }
    let range = search.range(alloc)?;
    let standing = view.standing(alloc, &range, last)?;
    Ok(rows_shown(alloc, &standing, search)?)
}

/// The row of a key at an instant, as wide as its table, where it has one: it is looked up.
fn row_at(
    alloc: Global,
    view: &View,
    table: &Table,
    key: &Key,
    instant: Instant,
) -> Mem<Vec<ShownRow>>
    requires few { length table.now.columns ≤ widest }
    requires short { IsShortKey key.now }
    ensures ok { IfOk result (λ v. v.items ≡ cons_option (option_map (full_row table.now)
        (row_until (events view.now) (bytes_of_key key.now) instant)) []) }
    ensures ordered { IsStrictlySortedBy event_cmp (events view.now) }
    ensures err { OnlyMemory result }
{
    // The last instant comes with the order of the events.
    let _last = view.last();
    let bytes = key_bytes(alloc, key)?;
    let (row, _visits) = view.get(&bytes, instant)?;
    match row {
        None => Ok(Vec::new(alloc)),
        Some(row) => {
            let row = row.widen(table.columns.items().len())?;
            Ok(vec![in alloc; ShownRow::new(row)]?)
        }
    }
}

/// The rows of events whose keys the search takes.
fn rows_shown(alloc: Global, events: &[SharedEvent], search: &Search<'_>) -> Mem<Vec<ShownRow>>
    ensures ok { IfOk result (λ v. AreInSearch search.now.table search.now.range events.now
        → v.items ≡ filter_map (row_taken search.now.table search.now.keys) events.now) }
    ensures err { OnlyMemory result }
{
    let mut rows = Vec::with_capacity(alloc, events.len())?;
    for event in events {
        push_some(&mut rows, search.row_in(alloc, event)?)?;
    }
    Ok(rows)
}
