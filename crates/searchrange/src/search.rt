//! What a search condition takes of a table: one key, or those keys of a range that meet it.
ghost use Rattle.std.specs.Prelude.{◌≡◌, true, Ok, IfOk, IfSome, option_copied};
ghost use Rattle.std.specs.Option.{option_map};
ghost use Rattle.values.specs.Tables.{full_row};
ghost use Rattle.values.specs.TableRules.{IsTable};
ghost use Rattle.values.specs.KeyEncoding.{IsShortKey};
ghost use Rattle.values.specs.KeyReading.{key_from};
ghost use Rattle.values.specs.Memory.{OnlyMemory};
ghost use Rattle.searchrange.specs.SearchRange.{search_range, range_of_table, Covers, IsWithin};
ghost use Rattle.searchrange.specs.OnlyKey.{only_key, IsOnly};
ghost use Rattle.searchrange.specs.Search.{IsInSearch, range_says_all, entry_read, entry_taken, is_taken, key_taken, row_taken};

use crate::narrowing::{is_exact, search_range};
use crate::only_key::only_key;
use keyrange::KeyRange;
use std::alloc::Global;
use std::marker::Model;
use values::{
    Event, FittingKeys, Key, KeyBytes, Keys, Mem, Row, SharedEvent, ShownRow, Table,
    fitting_keys_have_bytes, read_key,
};

/// A search condition over a table, with the one key that it takes, where it has each key column
/// equal to a value. Where each key of its range meets the condition, none is decoded.
#[derive(Drop)]
pub struct Search<'a> {
    table: &'a Table,
    keys: &'a Keys,
    key: Option<Key>,
    is_exact: bool,
}

impl<'a> Model for Search<'a> {
    ghost use Rattle.searchrange.specs.Search.{SearchState, IsSearch};
    ghost use Rattle.searchrange.specs.SearchRange.{search_range};

    ghost Value = { SearchState };

    ghost view = { λ s. record {
      table = s.table.now;
      keys = s.keys.now;
      range = search_range s.table.now s.keys.now;
    } };

    ghost invariant = { λ s. IsSearch s.table.now s.keys.now s.key s.is_exact };
}

impl<'a> Search<'a> {
    /// Looks for the one key that a search condition takes of a table. Out of memory is the only
    /// refusal.
    pub fn new(alloc: Global, keys: FittingKeys<'a>) -> Mem<Search<'a>>
        ensures table { IfOk result (λ s. s.table ≡ keys.entry.table.now) }
        ensures keys { IfOk result (λ s. s.keys ≡ keys.entry.keys.now) }
        ensures err { OnlyMemory result }
    {
        let FittingKeys { table, keys } = keys;
        let key = only_key(alloc, table, keys)?;
        Ok(Search {
            table,
            keys,
            is_exact: table.number < 255 && is_exact(table, keys, key.as_ref()),
            key,
        })
    }

    /// Returns the key that has in each column the value that the column is to be equal to, where
    /// the condition asks that of each, and the key fits the table and meets the whole condition.
    /// Of the table's keys the condition takes this one and no other.
    pub fn key(&self) -> Option<&Key>
        ensures is { option_copied result ≡ only_key self.now.table self.now.keys }
        ensures only { IfSome result (λ key. IsOnly self.now.table self.now.keys key.now) }
        ensures short { IfSome result (λ key. IsShortKey key.now) }
        ensures own { self.now.keys.table ≡ self.now.table.number }
    {
        fitting_keys_have_bytes();
        self.key.as_ref()
    }

    /// Narrows the range of the table's keys by the condition: each key of the table that meets the
    /// condition is in it. Out of memory is the only refusal.
    pub fn range(&self, alloc: Global) -> Mem<KeyRange>
        ensures range { IfOk result (λ range. range ≡ self.now.range) }
        ensures is { IfOk result (λ range. range ≡ search_range self.now.table self.now.keys) }
        ensures covers { IfOk result (Covers self.now.table self.now.keys) }
        ensures within { IfOk result (λ range.
            IsWithin range (range_of_table self.now.table.number)) }
        ensures own { self.now.keys.table ≡ self.now.table.number }
        ensures err { OnlyMemory result }
    {
        search_range(alloc, self.table, self.keys)
    }

    /// Returns the table.
    pub fn table(&self) -> &Table
        ensures table { result.now ≡ self.now.table }
        ensures good { IsTable result.now.number result.now }
    {
        self.table
    }

    /// Returns the search condition.
    pub fn keys(&self) -> &Keys
        ensures { result.now ≡ self.now.keys }
    {
        self.keys
    }

    /// Returns whether the condition takes a key of the table that is in the range, by its bytes.
    /// Where the range says all that the condition does, the answer is yes whatever the bytes are,
    /// and takes no memory.
    pub fn takes(&self, alloc: Global, bytes: &KeyBytes) -> Mem<bool>
        ensures ok { IfOk result (λ b. IsInSearch self.now.table self.now.range bytes.now
            → b ≡ is_taken self.now.table self.now.keys bytes.now) }
        ensures all { range_says_all self.now.table self.now.keys ≡ true → result ≡ Ok true }
        ensures err { OnlyMemory result }
    {
        if self.is_exact {
            return Ok(true);
        }
        match read_key(alloc, self.table, bytes)? {
            Some(key) => Ok(self.keys.matches(self.table, &key)),
            None => Ok(false),
        }
    }

    /// Returns the key with these bytes, of the table and in the range, where the condition takes
    /// it.
    fn key_in(&self, alloc: Global, bytes: &KeyBytes) -> Mem<Option<Key>>
        ensures ok { IfOk result (λ key. IsInSearch self.now.table self.now.range bytes.now
            → key ≡ key_taken self.now.table self.now.keys bytes.now) }
        ensures all { IfOk result (λ key. range_says_all self.now.table self.now.keys ≡ true
            → key ≡ key_from self.now.table bytes.now) }
        ensures short { IfOk result (λ key. IfSome key IsShortKey) }
        ensures err { OnlyMemory result }
    {
        fitting_keys_have_bytes();
        let Some(key) = read_key(alloc, self.table, bytes)? else {
            return Ok(None);
        };
        if self.is_exact || self.keys.matches(self.table, &key) {
            Ok(Some(key))
        } else {
            Ok(None)
        }
    }

    /// Returns the row of an event whose key is of the table and in the range, where the condition
    /// takes the key: the event is shared, and its row is not copied. A row that was stored before
    /// columns were added is copied, and has NULL in them.
    pub fn row_in(&self, alloc: Global, event: &SharedEvent) -> Mem<Option<ShownRow>>
        ensures ok { IfOk result (λ row. IsInSearch self.now.table self.now.range event.now.key
            → row ≡ row_taken self.now.table self.now.keys event.now) }
        ensures all { IfOk result (λ row. range_says_all self.now.table self.now.keys ≡ true
            → row ≡ option_map (full_row self.now.table) event.now.row) }
        ensures err { OnlyMemory result }
    {
        if self.takes(alloc, event.event().key())? {
            self.shown_row(event)
        } else {
            Ok(None)
        }
    }

    /// The row of an event, as wide as the table, where it has one.
    fn shown_row(&self, event: &SharedEvent) -> Mem<Option<ShownRow>>
        ensures ok { IfOk result (λ row. row
            ≡ option_map (full_row self.now.table) event.now.row) }
        ensures err { OnlyMemory result }
    {
        let width = self.table.columns.items().len();
        match event.event().row() {
            None => Ok(None),
            Some(row) if width <= row.values().len() => ShownRow::of_event(event),
            Some(row) => Ok(Some(ShownRow::new(row.copy()?.widen(width)?))),
        }
    }

    /// Reads an event like [`Search::row_in`], and returns the key with the row as it is stored.
    /// Where the range says all that the condition does, no key is compared.
    pub fn entry_in(&self, alloc: Global, event: &Event) -> Mem<Option<(Key, Row)>>
        ensures ok { IfOk result (λ entry. IsInSearch self.now.table self.now.range event.now.key
            → entry ≡ entry_taken self.now.table self.now.keys event.now) }
        ensures all { IfOk result (λ entry. range_says_all self.now.table self.now.keys ≡ true
            → entry ≡ entry_read self.now.table event.now) }
        ensures short { IfOk result (λ entry. IfSome entry (λ e. IsShortKey e.0)) }
        ensures err { OnlyMemory result }
    {
        let Some(row) = event.row() else {
            return Ok(None);
        };
        match self.key_in(alloc, event.key())? {
            Some(key) => Ok(Some((key, row.copy()?))),
            None => Ok(None),
        }
    }
}
