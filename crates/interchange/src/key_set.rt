//! The keys of rows that came before.
ghost use Rattle.std.specs.Prelude.{◌≡◌, ◌++◌, ◌∷◌, [], IfOk, List, None, OnOk, length, not};
ghost use Rattle.std.specs.BTreeSet.{insert_key};
ghost use Rattle.std.specs.List.{list_all, list_any};
ghost use Rattle.std.specs.List.Sorted.{IsStrictlySortedBy};
ghost use Rattle.std.specs.Ordering.{is_lt};
ghost use Rattle.values.specs.declared.key.Key.{Key as TableKey};
ghost use Rattle.values.specs.Events.{bytes_cmp, is_bytes};
ghost use Rattle.values.specs.KeyEncoding.{bytes_of_key, part_bytes};
ghost use Rattle.values.specs.KeyReading.{IsKeyOf};
ghost use Rattle.values.specs.Fit.{row_fault};
ghost use Rattle.values.specs.Memory.{OnlyMemory};
ghost use Rattle.values.specs.Order.{is_key};
ghost use Rattle.values.specs.Tables.{value_at};
ghost use Rattle.values.specs.TableRules.{IsTable};
ghost use Rattle.values.specs.Writes.{add_keys, key_of};
ghost use Rattle.interchange.specs.Insertion.{HasKeys, bytes_in};

use std::alloc::{AllocError, Global};
use std::collections::BTreeSet;
use std::mem;
use values::{
    ColumnNumber, KeyBuffer, KeyBytes, Mem, Row, Table, fitting_rows_have_keys, push_part,
    read_values,
};

/// Keys of a table, by their bytes. Most files come in the order of their keys, so the keys are a
/// list as long as each is above the last, and one comparison tells that a key is new.
#[derive(Drop)]
pub(crate) enum KeySet {
    /// Keys that came in their order.
    Rising(Vec<KeyBytes>),
    /// Keys that came in any order.
    Mixed(BTreeSet<KeyBytes>),
}

impl KeySet {
    /// Makes a set of no keys.
    pub(crate) fn new(alloc: Global) -> KeySet
        ensures { (table : Table) → HasKeys table [] result }
    {
        KeySet::Rising(Vec::new(alloc))
    }

    /// Counts the keys.
    pub(crate) fn len(&self) -> usize
        ensures { (table : Table) (keys : List TableKey) → HasKeys table keys self.now
            → result ≡ length (add_keys keys []) }
    {
        match self {
            KeySet::Rising(keys) => keys.len(),
            KeySet::Mixed(keys) => keys.len(),
        }
    }

    /// Adds the key of a row that fits the table, and tells whether it is new.
    pub(crate) fn add(&mut self, alloc: Global, table: &Table, row: &Row) -> Mem<bool>
        requires table { IsTable table.now.number table.now }
        requires fits { row_fault table.now row.now ≡ None }
        ensures new { IfOk result (λ is_new. (keys : List TableKey)
            → HasKeys table.now keys self.old
            → is_new ≡ not (list_any (is_key (key_of table.now row.now)) keys)) }
        ensures added { IfOk result (λ _. (keys : List TableKey)
            → HasKeys table.now keys self.old
            → HasKeys table.now (keys ++ key_of table.now row.now ∷ []) self.new) }
        ensures err { OnlyMemory result }
    {
        let bytes = row_key(alloc, table, row)?;
        self.insert(alloc, bytes)
    }

    /// Adds the bytes of a key, and tells whether they are new. The first key that is not above the
    /// last turns the list into a set; where memory runs out then, the keys are gone.
    fn insert(&mut self, alloc: Global, key: KeyBytes) -> Mem<bool>
        ensures new { IfOk result (λ is_new. IsStrictlySortedBy bytes_cmp (bytes_in self.old)
            → is_new ≡ not (list_any (is_bytes key) (bytes_in self.old))) }
        ensures added { IfOk result (λ _. IsStrictlySortedBy bytes_cmp (bytes_in self.old)
            → bytes_in self.new ≡ insert_key bytes_cmp (bytes_in self.old) key) }
        ensures err { OnlyMemory result }
    {
        match self {
            KeySet::Rising(keys) if is_above(keys, &key) => {
                keys.push(key)?;
                Ok(true)
            }
            KeySet::Rising(keys) => {
                let mut mixed = BTreeSet::from_iter(alloc, mem::try_take(keys)?)?;
                let is_new = mixed.insert(key)?;
                *self = KeySet::Mixed(mixed);
                Ok(is_new)
            }
            KeySet::Mixed(keys) => Ok(keys.insert(key)?),
        }
    }
}

/// Makes the bytes of the key of a row that fits the table, without making the key.
fn row_key(alloc: Global, table: &Table, row: &Row) -> Result<KeyBytes, AllocError>
    requires table { IsTable table.now.number table.now }
    requires fits { row_fault table.now row.now ≡ None }
    ensures own { IsKeyOf table.now (key_of table.now row.now) }
    ensures bytes { IfOk result (λ b. b ≡ bytes_of_key (key_of table.now row.now)) }
{
    fitting_rows_have_keys();
    read_values(row.values());
    let bytes = key_buffer(alloc, table, row)?;
    match KeyBytes::from_buffer(bytes) {
        Some(bytes) => Ok(bytes),
        None => unreachable!(),
    }
}

/// Writes the table's number, and the values of a row in its key columns.
fn key_buffer(alloc: Global, table: &Table, row: &Row) -> Result<KeyBuffer, AllocError>
    ensures { IfOk result (λ b. b.items ≡ bytes_of_key (key_of table.now row.now)) }
{
    let mut bytes = KeyBuffer::new(alloc);
    bytes.push(table.number)?;
    for column in table.key.items() {
        push_value(&mut bytes, row, *column)?;
    }
    Ok(bytes)
}

/// Writes the value of a row in a column; NULL, which is past the end too, has no bytes.
fn push_value(bytes: &mut KeyBuffer, row: &Row, column: ColumnNumber) -> Result<(), AllocError>
    ensures { OnOk result (bytes.new.items
        ≡ bytes.old.items ++ part_bytes (value_at row.now column)) }
{
    match row.values().get(column.saturating_sub(1)) {
        Some(value) => push_part(bytes, value),
        None => Ok(()),
    }
}

/// Tells whether a key is above all of a list in order.
fn is_above(keys: &[KeyBytes], key: &KeyBytes) -> bool
    ensures { IsStrictlySortedBy bytes_cmp keys.now
        → result ≡ list_all (λ k. is_lt (bytes_cmp k key.now)) keys.now }
{
    match keys.last() {
        None => true,
        Some(last) => last < key,
    }
}
