//! A transaction's own writes.
ghost use Rattle.std.specs.Prelude.{◌≡◌, ◌≢◌, ◌↔◌, IsTrue, ◌<◌, ◌≤◌, ◌||◌, [], ◌∷◌, ◌++◌, All, None, IfOk, IfErr, IfSome, IfNone, OnOk, OnErr, Result, Err, true, filter, find, is_some, length, option_copied};
ghost use Rattle.std.specs.BTreeMap.{IsOrdered, insert_entry, is_at};
ghost use Rattle.std.specs.Map.{keys_of, lookup};
ghost use Rattle.std.specs.List.{filter_map, list_any};
ghost use Rattle.std.specs.Option.{option_map};
ghost use Rattle.std.specs.List.Sorted.{IsStrictlySortedBy};
ghost use Rattle.values.specs.Log.{Changes, row_at, apply_net};
ghost use Rattle.values.specs.Order.{key_cmp, is_key};
ghost use Rattle.values.specs.Tables.{Schema, full_row, widened, widest};
ghost use Rattle.values.specs.TableRules.{IsTable};
ghost use Rattle.values.specs.Memory.{OnlyMemory};
ghost use Rattle.values.specs.Versions.{matches};
ghost use Rattle.values.specs.Writes.{most_written, full_rows};
ghost use Rattle.values.specs.KeyEncoding.{IsShortKey, bytes_of_key};
ghost use Rattle.values.specs.Fit.{key_fault};
ghost use Rattle.values.specs.Events.{AreKeysIn, row_until};
ghost use Rattle.tsbtree.specs.View.{events};
ghost use Rattle.searchrange.specs.Search.{entry_taken};
ghost use Rattle.staging.specs.View.{Holds};
ghost use Rattle.staging.specs.Own.{WhenRead, rows_seen, net_over};
ghost use Rattle.staging.specs.Staged.{put_all, put_back_one, put_back, put_answer, row_in, sees, first_seen, net_in, row_alone, starts_upto, AreInSearch, AreShort, PutsNext};

use crate::bound::{is_past, least_key};
use crate::keyed_net::{KeyedChange, KeyedNet};
use searchrange::Search;
use std::alloc::{AllocError, Global};
use std::collections::{BTreeMap, BTreeSet, VecDeque};
use std::marker::Model;
use tsbtree::View;
use values::{Instant, Key, Keys, Mem, Refusal, Row, SharedEvent, Table, key_bytes, read_values};

/// The keys that a transaction may write.
const MOST_WRITTEN: usize = 1000;

/// Each key that a transaction wrote, with its row, or none. Contracts see it as a list by key.
#[derive(Drop)]
pub struct Staged {
    pub(crate) alloc: Global,
    writes: BTreeMap<Key, Option<Row>>,
}

impl Model for Staged {
    ghost use Rattle.std.specs.Prelude.{All};
    ghost use Rattle.values.specs.Log.{Net as Writes};
    ghost use Rattle.values.specs.KeyEncoding.{IsShortKey};

    ghost Value = { Writes };

    ghost view = { λ s. s.writes.entries };

    ghost invariant = { λ s. All (λ w. IsShortKey w.0) s.writes.entries };
}

impl Staged {
    /// Makes the writes of a transaction that has written nothing.
    pub fn new(alloc: Global) -> Mem<Staged>
        ensures ok { IfOk result (λ s. s ≡ []) }
        ensures err { OnlyMemory result }
    {
        Ok(Staged {
            alloc,
            writes: BTreeMap::new(alloc),
        })
    }

    /// Returns, by key, the rows that the transaction sees and that a search takes, each as wide as
    /// its table: a row that was stored before columns were added has NULL in them.
    pub fn rows(&self, view: &View, search: &Search<'_>) -> Mem<Vec<(Key, Row)>>
        ensures ok { IfOk result (λ rows. WhenRead search.now.table view.now self.now (λ schema m.
            rows.items ≡ full_rows search.now.table
            (filter (λ e. matches search.now.table search.now.keys e.0) (rows_seen m self.now)))) }
        ensures short { IfOk result (λ rows. All (λ e. IsShortKey e.0) rows.items) }
        ensures err { OnlyMemory result }
    {
        let found = self.rows_found(view, search)?;
        Ok(full_rows(self.alloc, search.table(), found)?)
    }

    /// Returns, by key, the rows that the transaction sees and that a search takes, as they are
    /// stored. One key is looked up.
    pub(crate) fn rows_found(&self, view: &View, search: &Search<'_>) -> Mem<Vec<(Key, Row)>>
        ensures ok { IfOk result (λ found. WhenRead search.now.table view.now self.now (λ schema m.
            found.items
            ≡ filter (λ e. matches search.now.table search.now.keys e.0) (rows_seen m self.now))) }
        ensures short { IfOk result (λ found. All (λ e. IsShortKey e.0) found.items) }
        ensures err { OnlyMemory result }
    {
        let last = view.last();
        if let Some(key) = search.key() {
            return self.row_alone(view, last, key);
        }
        let range = search.range(self.alloc)?;
        let standing = view.standing(self.alloc, &range, last)?;
        let found = rows_taken(self.alloc, search, &standing)?;
        Ok(with_writes(
            self.alloc,
            search.table(),
            search.keys(),
            &self.writes,
            found,
        )?)
    }

    /// Returns a key with its row, what was written or else what the view has at an instant, where
    /// there is one: it is looked up.
    fn row_alone(&self, view: &View, last: Instant, key: &Key) -> Mem<Vec<(Key, Row)>>
        requires { IsShortKey key.now }
        ensures ok { IfOk result (λ found. found.items
            ≡ row_alone (events view.now) last self.now key.now) }
        ensures short { IfOk result (λ found. All (λ e. IsShortKey e.0) found.items) }
        ensures err { OnlyMemory result }
        ensures ordered { IsStrictlySortedBy key_cmp (keys_of self.now) }
    {
        let mut found = Vec::new(self.alloc);
        if let Some(row) = self.row_found(view, last, key)? {
            found.push((key.clone()?, row))?;
        }
        Ok(found)
    }

    /// Returns the row that the transaction sees at a key of the table, which fits it: what the
    /// transaction wrote, or else what the view has. It is as wide as the table.
    pub fn get(&self, view: &View, table: &Table, key: &Key) -> Mem<Option<Row>>
        requires table { IsTable table.now.number table.now }
        requires own { key.now.table ≡ table.now.number }
        requires fits { key_fault table.now key.now.parts ≡ None }
        ensures ok { IfOk result (λ row. WhenRead table.now view.now self.now (λ schema m.
            row ≡ option_map (full_row table.now) (row_at (rows_seen m self.now) key.now))) }
        ensures err { OnlyMemory result }
    {
        read_values(key.parts.items());
        let found = self.row_found(view, view.last(), key)?;
        Ok(widen(table.columns.items().len(), found)?)
    }

    /// Returns what the transaction changes: what each key that it wrote has in the end, without
    /// those that are absent both then and in the view. The bytes of each key are with it.
    /// `Memory` where it runs out.
    pub fn net(&self, view: &View) -> Mem<KeyedNet>
        ensures ok { IfOk result (λ net. (schema : Schema) (m : Changes)
            → Holds schema view.now m → AreKeysIn schema self.now → net ≡ net_over m self.now) }
        ensures keys { IfOk result (λ net. (schema : Schema)
            → AreKeysIn schema self.now → AreKeysIn schema net) }
        ensures err { OnlyMemory result }
    {
        let net = net_of(self.alloc, view, view.last(), &self.writes)?;
        KeyedNet::of(self.alloc, net)
    }

    /// Returns what was written of a key, where it was. A key behind all that were written takes
    /// one comparison.
    fn written(&self, key: &Key) -> Option<&Option<Row>>
        ensures { option_copied result ≡ lookup (is_at (key_cmp key.now)) self.now }
    {
        match self.writes.last_key_value() {
            Some((greatest, _row)) if greatest.cmp(key).is_lt() => None,
            _ => self.writes.get(key),
        }
    }

    /// Returns the row of a key: what was written, or else what the view has at an instant.
    fn row_found(&self, view: &View, last: Instant, key: &Key) -> Mem<Option<Row>>
        requires { IsShortKey key.now }
        ensures ok { IfOk result (λ row. row ≡ row_in (events view.now) last self.now key.now) }
        ensures err { OnlyMemory result }
        ensures ordered { IsStrictlySortedBy key_cmp (keys_of self.now) }
    {
        // The length of a map comes with its order.
        let _written = self.writes.len();
        match self.written(key) {
            Some(row) => Ok(row.clone()?),
            None => Ok(committed_row(self.alloc, view, last, key)?),
        }
    }

    /// Tells whether the transaction sees a row of a key: what it wrote, or else what the view has
    /// at an instant.
    fn sees(&self, view: &View, last: Instant, key: &Key) -> Mem<bool>
        requires { IsShortKey key.now }
        ensures ok { IfOk result (λ b. b ≡ sees (events view.now) last self.now key.now) }
        ensures err { OnlyMemory result }
    {
        match self.written(key) {
            Some(row) => Ok(row.is_some()),
            None => Ok(has_row(self.alloc, view, last, key)?),
        }
    }

    /// Tells whether the transaction sees a row of a key, or the key came before.
    fn is_taken(&self, view: &View, last: Instant, key: &Key, earlier: &BTreeSet<Key>) -> Mem<bool>
        requires { IsShortKey key.now }
        ensures ok { IfOk result (λ b. b ≡ (sees (events view.now) last self.now key.now
            || list_any (is_key key.now) earlier.now.keys)) }
        ensures err { OnlyMemory result }
    {
        let seen = self.sees(view, last, key)?;
        Ok(seen || earlier.contains(key))
    }

    /// Finds the first of the keys that the transaction sees, or that came before. No key came
    /// before where they rise.
    pub(crate) fn first_seen(&self, view: &View, last: Instant, keys: &[Key]) -> Mem<Option<Key>>
        requires { All IsShortKey keys.now }
        ensures ok { IfOk result (λ found. found
            ≡ first_seen (sees (events view.now) last self.now) [] keys.now) }
        ensures err { OnlyMemory result }
        ensures ordered { IsStrictlySortedBy key_cmp (keys_of self.now) }
    {
        // The length of a map comes with its order.
        let _written = self.writes.len();
        if rise(keys) {
            return self.first_there(view, last, keys);
        }
        self.first_taken(view, last, keys)
    }

    /// Finds the first of the keys that the transaction sees.
    fn first_there(&self, view: &View, last: Instant, keys: &[Key]) -> Mem<Option<Key>>
        requires { All IsShortKey keys.now }
        ensures ok { IfOk result (λ found. found
            ≡ find (sees (events view.now) last self.now) keys.now) }
        ensures err { OnlyMemory result }
    {
        for key in keys {
            if self.sees(view, last, key)? {
                return Ok(Some(key.clone()?));
            }
        }
        Ok(None)
    }

    /// Finds the first of the keys that the transaction sees, or that came before.
    fn first_taken(&self, view: &View, last: Instant, keys: &[Key]) -> Mem<Option<Key>>
        requires { All IsShortKey keys.now }
        ensures ok { IfOk result (λ found. found
            ≡ first_seen (sees (events view.now) last self.now) [] keys.now) }
        ensures err { OnlyMemory result }
    {
        let mut earlier = BTreeSet::new(self.alloc);
        for key in keys {
            if self.is_taken(view, last, key, &earlier)? {
                return Ok(Some(key.clone()?));
            }
            earlier.insert(key.clone()?)?;
        }
        Ok(None)
    }

    /// Puts changes of so many rows over what was written, unless the keys would be too many.
    pub(crate) fn put(
        &mut self,
        changes: Vec<(Key, Option<Row>)>,
        count: usize,
    ) -> Result<usize, Refusal>
        requires { All (λ c. IsShortKey c.0) changes.items }
        ensures answer { result ≢ Err Refusal.Memory → result ≡ put_answer count changes.items self.old }
        ensures ok { OnOk result (self.new ≡ put_all changes.items self.old) }
        ensures err { OnErr result (self.new ≡ self.old) }
        ensures ordered { IsStrictlySortedBy key_cmp (keys_of self.old) }
    {
        if self.writes.len() == 0 {
            self.writes = put_first(self.alloc, changes)?;
            return Ok(count);
        }
        let mut earlier = Vec::new(self.alloc);
        if let Err(refusal) = put_few(&mut self.writes, changes, &mut earlier) {
            put_back(&mut self.writes, earlier);
            return Err(refusal);
        }
        Ok(count)
    }
}

/// Tells whether keys strictly rise.
fn rise(keys: &[Key]) -> bool
    ensures { IsTrue result ↔ IsStrictlySortedBy key_cmp keys.now }
{
    for i in 1..keys.len() {
        if keys[i - 1].cmp(&keys[i]).is_ge() {
            return false;
        }
    }
    true
}

/// Makes rows as wide as their table.
fn full_rows(alloc: Global, table: &Table, found: Vec<(Key, Row)>) -> Mem<Vec<(Key, Row)>>
    requires { length table.now.columns ≤ widest }
    ensures ok { IfOk result (λ rows. rows.items ≡ full_rows table.now found.items) }
    ensures err { OnlyMemory result }
{
    let width = table.columns.items().len();
    let mut rows = Vec::with_capacity(alloc, found.len())?;
    for (key, row) in found {
        rows.push((key, row.widen(width)?))?;
    }
    Ok(rows)
}

/// Widens a row, where there is one.
fn widen(width: usize, row: Option<Row>) -> Mem<Option<Row>>
    requires { width ≤ widest }
    ensures ok { IfOk result (λ r. r ≡ option_map (widened width) row) }
    ensures err { OnlyMemory result }
{
    match row {
        Some(row) => Ok(Some(row.widen(width)?)),
        None => Ok(None),
    }
}

/// Puts the first changes of a transaction, where there is nothing to put back: all at once, which
/// compares each key of a rising list with the next alone. `TooManyWrites` where the keys are too
/// many.
fn put_first(
    alloc: Global,
    changes: Vec<(Key, Option<Row>)>,
) -> Result<BTreeMap<Key, Option<Row>>, Refusal>
    ensures ok { IfOk result (λ writes. writes.entries ≡ put_all changes.items []) }
    ensures few { IfOk result (λ writes. length writes.entries ≤ most_written) }
    ensures err { IfErr result (λ refusal. refusal ≢ Refusal.Memory
        → (refusal ≡ Refusal.TooManyWrites)
        × (most_written < length (put_all changes.items []))) }
{
    let writes = map_of(alloc, changes)?;
    check_few(&writes)?;
    Ok(writes)
}

/// Puts changes into a map, in turn.
fn map_of(
    alloc: Global,
    changes: Vec<(Key, Option<Row>)>,
) -> Result<BTreeMap<Key, Option<Row>>, AllocError>
    ensures { IfOk result (λ writes. writes.entries ≡ put_all changes.items []) }
{
    changes.into_iter().collect(alloc)
}

/// Puts changes over what was written, and keeps what was there before. `TooManyWrites` as soon as
/// the keys are too many.
#[tactic(auto, using(crate::proofs::StagedPutBack::grown_all))]
fn put_few(
    writes: &mut BTreeMap<Key, Option<Row>>,
    changes: Vec<(Key, Option<Row>)>,
    earlier: &mut Vec<(Key, Option<Option<Row>>)>,
) -> Result<(), Refusal>
    ensures ok { OnOk result (writes.new.entries ≡ put_all changes.items writes.old.entries) }
    ensures few { OnOk result (length writes.new.entries ≤ most_written) }
    ensures err { IfErr result (λ refusal. refusal ≢ Refusal.Memory
        → (refusal ≡ Refusal.TooManyWrites)
        × (most_written < length (put_all changes.items writes.old.entries))) }
    ensures back { put_back earlier.new.items writes.new.entries
        ≡ put_back earlier.old.items writes.old.entries }
{
    for (key, row) in changes {
        put_one(writes, key, row, earlier)?;
        check_few(writes)?;
    }
    check_few(writes)
}

/// Refuses with `TooManyWrites` where there are more keys than a transaction may write.
fn check_few(writes: &BTreeMap<Key, Option<Row>>) -> Result<(), Refusal>
    ensures ok { OnOk result (length writes.now.entries ≤ most_written) }
    ensures err { IfErr result (λ refusal. (refusal ≡ Refusal.TooManyWrites)
        × (most_written < length writes.now.entries)) }
{
    if writes.len() > MOST_WRITTEN {
        return Err(Refusal::TooManyWrites);
    }
    Ok(())
}

/// Puts a change, and keeps what its key had before. After a refusal no write has changed.
fn put_one(
    writes: &mut BTreeMap<Key, Option<Row>>,
    key: Key,
    row: Option<Row>,
    earlier: &mut Vec<(Key, Option<Option<Row>>)>,
) -> Result<(), AllocError>
    ensures ok { OnOk result
        (writes.new.entries ≡ insert_entry key_cmp writes.old.entries key row) }
    ensures back { put_back earlier.new.items writes.new.entries
        ≡ put_back earlier.old.items writes.old.entries }
{
    let kept = key.clone()?;
    earlier.reserve(1)?;
    let before = writes.insert(key, row)?;
    earlier.push_reserved((kept, before));
    Ok(())
}

/// Makes the writes what they were before changes, from the last change to the first.
fn put_back(writes: &mut BTreeMap<Key, Option<Row>>, mut earlier: Vec<(Key, Option<Option<Row>>)>)
    ensures { writes.new.entries ≡ put_back earlier.items writes.old.entries }
{
    while let Some((key, before)) = earlier.pop() {
        put_back_one(writes, &key, before);
    }
}

fn put_back_one(writes: &mut BTreeMap<Key, Option<Row>>, key: &Key, before: Option<Option<Row>>)
    ensures { writes.new.entries ≡ put_back_one key.now before writes.old.entries }
{
    match before {
        Some(row) => {
            if let Some(place) = writes.get_mut(key) {
                *place = row;
            }
        }
        None => {
            writes.remove(key);
        }
    }
}

/// Reads the rows of events that a search takes.
fn rows_taken(alloc: Global, search: &Search<'_>, events: &[SharedEvent]) -> Mem<Vec<(Key, Row)>>
    ensures ok { IfOk result (λ found. AreInSearch search.now.table search.now.range events.now
        → found.items
        ≡ filter_map (entry_taken search.now.table search.now.keys) events.now) }
    ensures short { IfOk result (λ found. All (λ e. IsShortKey e.0) found.items) }
    ensures err { OnlyMemory result }
{
    let mut found = Vec::with_capacity(alloc, events.len())?;
    for event in events {
        if let Some(entry) = search.entry_in(alloc, event.event())? {
            found.push(entry)?;
        }
    }
    Ok(found)
}

/// Puts what was written over rows, both in order by key, as far as search keys take it.
fn with_writes(
    alloc: Global,
    table: &Table,
    keys: &Keys,
    writes: &BTreeMap<Key, Option<Row>>,
    found: Vec<(Key, Row)>,
) -> Result<Vec<(Key, Row)>, AllocError>
    requires short { All (λ e. IsShortKey e.0) found.items }
    requires short_writes { All (λ c. IsShortKey c.0) writes.now.entries }
    ensures put { IfOk result (λ rows. IsStrictlySortedBy key_cmp (keys_of found.items)
        → rows.items ≡ apply_net found.items
        (filter (λ c. matches table.now keys.now c.0) writes.now.entries)) }
    ensures short { IfOk result (λ rows. All (λ e. IsShortKey e.0) rows.items) }
    ensures ordered { OnOk result (IsOrdered key_cmp writes.now) }
{
    if writes.len() == 0 {
        return Ok(found);
    }
    let mut rest = VecDeque::from_vec(found);
    let mut rows = Vec::with_capacity(alloc, rest.len())?;
    put_taken(alloc, table, keys, writes, &mut rows, &mut rest)?;
    rows.append(&mut Vec::from(rest))?;
    Ok(rows)
}

/// Puts the writes that search keys take over the rest of some rows: those up to the last of these
/// keys are moved behind other rows. Of the writes, which are in order by key, those are looked at
/// that the first key column can have.
fn put_taken(
    alloc: Global,
    table: &Table,
    keys: &Keys,
    writes: &BTreeMap<Key, Option<Row>>,
    rows: &mut Vec<(Key, Row)>,
    rest: &mut VecDeque<(Key, Row)>,
) -> Result<(), AllocError>
    requires short { AreShort rows.old.items rest.old.items }
    requires short_writes { All (λ c. IsShortKey c.0) writes.now.entries }
    ensures put { OnOk result (IsStrictlySortedBy key_cmp (keys_of rest.old.items)
        → rows.new.items ++ rest.new.items ≡ rows.old.items ++ apply_net rest.old.items
        (filter (λ c. matches table.now keys.now c.0) writes.now.entries)) }
    ensures short { OnOk result (AreShort rows.new.items rest.new.items) }
    ensures ordered { OnOk result (IsOrdered key_cmp writes.now) }
{
    let least = least_key(alloc, table, keys)?;
    for (key, row) in writes.range(least..) {
        if keys.matches(table, key) {
            put_next(rows, rest, key, row)?;
        } else if is_past(table, keys, key) {
            return Ok(());
        }
    }
    Ok(())
}

/// Moves the rows of lesser keys from the rest of some rows behind others, and puts what was
/// written of a key there in place of the row that it had.
fn put_next(
    rows: &mut Vec<(Key, Row)>,
    rest: &mut VecDeque<(Key, Row)>,
    key: &Key,
    row: &Option<Row>,
) -> Result<(), AllocError>
    requires short { AreShort rows.old.items rest.old.items }
    requires short_key { IsShortKey key.now }
    ensures put { OnOk result (IsStrictlySortedBy key_cmp (keys_of rest.old.items) → PutsNext key.now
        row.now rows.old.items rest.old.items rows.new.items rest.new.items) }
    ensures short { OnOk result (AreShort rows.new.items rest.new.items) }
{
    while let Some(entry) = pop_upto(rest, key) {
        if entry.0.cmp(key).is_lt() {
            rows.push(entry)?;
        }
    }
    if let Some(row) = row {
        rows.push((key.clone()?, row.clone()?))?;
    }
    Ok(())
}

/// Takes the first row, where its key is not above another.
fn pop_upto(rest: &mut VecDeque<(Key, Row)>, key: &Key) -> Option<(Key, Row)>
    ensures some { IfSome result (λ e. rest.old.items ≡ e ∷ rest.new.items) }
    ensures none { IfNone result (rest.new.items ≡ rest.old.items) }
    ensures upto { is_some result ≡ starts_upto key.now rest.old.items }
{
    if starts_upto(rest, key) {
        rest.pop_front()
    } else {
        None
    }
}

/// Tells whether the first row's key is not above another.
fn starts_upto(rest: &VecDeque<(Key, Row)>, key: &Key) -> bool
    ensures { result ≡ starts_upto key.now rest.now.items }
{
    match rest.front() {
        Some((first, _row)) => first.cmp(key).is_le(),
        None => false,
    }
}

/// Returns the row of a key at an instant.
fn committed_row(alloc: Global, view: &View, instant: Instant, key: &Key) -> Mem<Option<Row>>
    requires { IsShortKey key.now }
    ensures ok { IfOk result (λ row. row
        ≡ row_until (events view.now) (bytes_of_key key.now) instant) }
    ensures err { OnlyMemory result }
{
    let bytes = key_bytes(alloc, key)?;
    let (row, _visits) = view.get(&bytes, instant)?;
    Ok(row)
}

/// Tells whether a key has a row at an instant.
fn has_row(alloc: Global, view: &View, instant: Instant, key: &Key) -> Mem<bool>
    requires { IsShortKey key.now }
    ensures ok { IfOk result (λ b. b
        ≡ is_some (row_until (events view.now) (bytes_of_key key.now) instant)) }
    ensures err { OnlyMemory result }
{
    let bytes = key_bytes(alloc, key)?;
    view.has_row(&bytes, instant)
}

fn net_of(
    alloc: Global,
    view: &View,
    last: Instant,
    writes: &BTreeMap<Key, Option<Row>>,
) -> Mem<Vec<KeyedChange>>
    requires { All (λ w. IsShortKey w.0) writes.now.entries }
    ensures ok { IfOk result (λ net. net.items ≡ net_in (events view.now) last writes.now.entries) }
    ensures err { OnlyMemory result }
    ensures ordered { OnOk result (IsOrdered key_cmp writes.now) }
{
    let mut net = Vec::with_capacity(alloc, writes.len())?;
    for (key, row) in writes {
        if stays(alloc, view, last, key, row)? {
            net.push(KeyedChange::new(alloc, key.clone()?, row.clone()?)?)?;
        }
    }
    Ok(net)
}

/// Tells whether a written key has a row, in the end or in the view.
fn stays(alloc: Global, view: &View, last: Instant, key: &Key, row: &Option<Row>) -> Mem<bool>
    requires { IsShortKey key.now }
    ensures ok { IfOk result (λ b. b ≡ (is_some row.now
        || is_some (row_until (events view.now) (bytes_of_key key.now) last))) }
    ensures err { OnlyMemory result }
{
    if row.is_some() {
        return Ok(true);
    }
    Ok(has_row(alloc, view, last, key)?)
}
