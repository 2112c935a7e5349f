//! The first conflict of a transaction: by entity, of a table with a period of application time,
//! and else by key.
ghost use Rattle.std.specs.Prelude.{◌≡◌, ◌&&◌, IfOk, is_some, option_copied};
ghost use Rattle.std.specs.List.{slice_get};
ghost use Rattle.std.specs.Option.{option_map};
ghost use Rattle.values.specs.ChangedSince.{conflicts};
ghost use Rattle.values.specs.Entity.{entity_of};
ghost use Rattle.values.specs.Events.{AreKeysIn, IsKeyIn, event_since};
ghost use Rattle.values.specs.KeyEncoding.{bytes_of_key};
ghost use Rattle.values.specs.Log.{Changes};
ghost use Rattle.values.specs.Memory.{OnlyMemory};
ghost use Rattle.values.specs.Order.{is_key};
ghost use Rattle.values.specs.Period.{periods_of};
ghost use Rattle.staging.specs.tsbtree.View.{events};
ghost use Rattle.staging.specs.View.{Holds};
ghost use Rattle.validation.specs.Conflict.{HasNoConflict, IsOfEntity, conflict_of};

use searchrange::entity_range;
use staging::{KeyedChange, KeyedNet, View};
use std::alloc::Global;
use values::{Instant, Key, Mem, Schema, Table};

/// Finds the first unit of the net changes that was changed since, with the latest instant: the
/// entity of a key whose table has a period, and of another table the key.
pub(crate) fn first_conflict(
    alloc: Global,
    schema: &Schema,
    view: &View,
    start: Instant,
    net: &KeyedNet,
) -> Mem<Option<(Key, Instant)>>
    ensures ok { IfOk result (λ found. (m : Changes)
        → Holds schema.now view.now m → AreKeysIn schema.now net.now
        → found ≡ slice_get (conflicts (periods_of schema.now) m start net.now) 0) }
    ensures err { OnlyMemory result }
{
    // Where nothing was committed since the start, no key has changed: none is looked up.
    if view.last() <= start {
        return Ok(None);
    }
    let mut before = None;
    for change in net.changes() {
        if let Some(conflict) = conflict_behind(alloc, schema, view, start, before, change)? {
            return Ok(Some(conflict));
        }
        before = Some(change.key());
    }
    Ok(None)
}

/// The unit of a changed key, where it was changed since, with the latest instant. Changes of one
/// entity stand side by side, and it is looked up at the first of them: `before` is the key of the
/// change before this one, which has no conflict.
fn conflict_behind(
    alloc: Global,
    schema: &Schema,
    view: &View,
    start: Instant,
    before: Option<&Key>,
    change: &KeyedChange,
) -> Mem<Option<(Key, Instant)>>
    ensures ok { IfOk result (λ found. (m : Changes)
        → Holds schema.now view.now m → IsKeyIn schema.now change.now.0
        → HasNoConflict (periods_of schema.now) m start (option_copied before.entry)
        → found ≡ conflict_of (periods_of schema.now) m start change.now.0) }
    ensures err { OnlyMemory result }
{
    match before {
        Some(before) if is_one_entity(schema, before, change.key()) => Ok(None),
        _ => conflict_of(alloc, schema, view, start, change),
    }
}

/// Tells whether two keys are of one entity, in a table with a period.
fn is_one_entity(schema: &Schema, key: &Key, other: &Key) -> bool
    ensures { result ≡ (is_some (periods_of schema.now key.now.table)
        && is_key (entity_of key.now) (entity_of other.now)) }
{
    match schema.table_at(key.table) {
        Some(table) => table.period.is_some() && key.is_of_entity(other),
        None => false,
    }
}

/// The unit of a changed key, where it was changed since, with the latest instant.
fn conflict_of(
    alloc: Global,
    schema: &Schema,
    view: &View,
    start: Instant,
    change: &KeyedChange,
) -> Mem<Option<(Key, Instant)>>
    ensures ok { IfOk result (λ found. (m : Changes)
        → Holds schema.now view.now m → IsKeyIn schema.now change.now.0
        → found ≡ conflict_of (periods_of schema.now) m start change.now.0) }
    ensures err { OnlyMemory result }
{
    let key = change.key();
    let Some(table) = schema.table_at(key.table) else {
        return conflict_of_key(view, start, change);
    };
    match &table.period {
        Some(_) => conflict_of_entity(alloc, table, view, start, key),
        None => conflict_of_key(view, start, change),
    }
}

fn conflict_of_key(view: &View, start: Instant, change: &KeyedChange) -> Mem<Option<(Key, Instant)>>
    ensures ok { IfOk result (λ found. found ≡ option_map (λ i. (change.now.0, i))
        (event_since (events view.now) start (bytes_of_key change.now.0))) }
    ensures err { OnlyMemory result }
{
    match view.changed_since(change.bytes(), start) {
        Some(instant) => Ok(Some((change.key().copy()?, instant))),
        None => Ok(None),
    }
}

fn conflict_of_entity(
    alloc: Global,
    table: &Table,
    view: &View,
    start: Instant,
    key: &Key,
) -> Mem<Option<(Key, Instant)>>
    ensures ok { IfOk result (IsOfEntity table.now (events view.now) start key.now) }
    ensures err { OnlyMemory result }
{
    let range = entity_range(alloc, table, key)?;
    match view.changed_in(&range, start)? {
        Some(instant) => Ok(Some((key.entity(alloc)?, instant))),
        None => Ok(None),
    }
}
