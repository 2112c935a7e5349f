//! Net changes with the bytes of their keys, which become events.
ghost use Rattle.std.specs.Prelude.{◌≡◌, ◌<◌, ◌≤◌, List, [], All, IfOk, OnOk, length};
ghost use Rattle.std.specs.Map.{keys_of};
ghost use Rattle.std.specs.List.{slice_get};
ghost use Rattle.std.specs.List.Sorted.{IsStrictlySortedBy};
ghost use Rattle.values.specs.Order.{key_cmp};
ghost use Rattle.values.specs.Event.{Event as Change};
ghost use Rattle.values.specs.KeyEncoding.{IsShortKey, bytes_of_key};
ghost use Rattle.values.specs.Memory.{OnlyMemory};
ghost use Rattle.values.specs.Events.{event_cmp, put_event, put_net};
ghost use Rattle.eventlist.specs.Place.{AreFirst, is_before};
ghost use Rattle.eventlist.specs.Put.{is_same};
ghost use Rattle.tsbtree.specs.treegrowth.Commit.{put_each, IsCommit};
ghost use Rattle.staging.specs.Net.{IsNet};

use crate::net::Net;
use std::alloc::Global;
use std::marker::Model;
use values::{Event, Instant, Key, KeyBytes, Mem, Row, key_bytes};

/// What a transaction changed of one key, with the key's bytes. Contracts see the key and its row.
#[derive(Drop)]
pub struct KeyedChange {
    key: Key,
    bytes: KeyBytes,
    row: Option<Row>,
}

impl Model for KeyedChange {
    ghost use Rattle.std.specs.Prelude.{◌≡◌, Option};
    ghost use Rattle.values.specs.declared.key.Key.{Key as TableKey};
    ghost use Rattle.values.specs.Log.{Row as Values};
    ghost use Rattle.values.specs.KeyEncoding.{bytes_of_key};

    ghost Value = { TableKey × Option Values };

    ghost view = { λ c. (c.key, c.row) };

    ghost invariant = { λ c. c.bytes ≡ bytes_of_key c.key };
}

impl KeyedChange {
    /// Puts the key's bytes beside a change.
    pub(crate) fn new(alloc: Global, key: Key, row: Option<Row>) -> Mem<KeyedChange>
        requires { IsShortKey key }
        ensures ok { IfOk result (λ c. c ≡ (key, row)) }
        ensures err { OnlyMemory result }
    {
        let bytes = key_bytes(alloc, &key)?;
        Ok(KeyedChange { key, bytes, row })
    }

    /// Returns the key.
    pub fn key(&self) -> &Key
        ensures { result.now ≡ self.now.0 }
    {
        &self.key
    }

    /// Returns the bytes of the key.
    pub fn bytes(&self) -> &KeyBytes
        ensures { result.now ≡ bytes_of_key self.now.0 }
    {
        &self.bytes
    }
}

/// What a transaction changed, with all that its commit needs and that can be made before the
/// instant is known: the bytes of each key, and room for the events. Contracts see it as a list, as
/// they see `Net`.
#[derive(Drop)]
pub struct KeyedNet {
    changes: Vec<KeyedChange>,
    room: Vec<Event>,
}

impl Model for KeyedNet {
    ghost use Rattle.std.specs.Prelude.{◌≡◌, []};
    ghost use Rattle.values.specs.Log.{Net as Changed};
    ghost use Rattle.staging.specs.Net.{IsKeyedNet};

    ghost Value = { Changed };

    ghost view = { λ n. n.changes.items };

    ghost invariant = { λ n. IsKeyedNet n.changes.items n.room.items };
}

impl KeyedNet {
    /// Makes it of changes, with room for as many events.
    pub(crate) fn of(alloc: Global, changes: Vec<KeyedChange>) -> Mem<KeyedNet>
        requires { IsNet changes.items }
        ensures ok { IfOk result (λ n. n ≡ changes.items) }
        ensures err { OnlyMemory result }
    {
        let room = Vec::with_capacity(alloc, changes.len())?;
        Ok(KeyedNet { changes, room })
    }

    /// Returns the changes, by key.
    pub fn changes(&self) -> &[KeyedChange]
        ensures changes { result.now ≡ self.now }
        ensures ordered { IsStrictlySortedBy key_cmp (keys_of result.now) }
        ensures short { All (λ c. IsShortKey c.0) result.now }
    {
        self.changes.as_slice()
    }

    /// Copies the changes, without the bytes of their keys. `Memory` where it runs out.
    pub fn net(&self, alloc: Global) -> Mem<Net>
        ensures ok { IfOk result (λ n. n ≡ self.now) }
        ensures err { OnlyMemory result }
    {
        Ok(Net::of(copies(alloc, self.changes.as_slice())?))
    }

    /// Makes the changes events of an instant, one per key, by the bytes of their keys. `Memory`
    /// where it runs out.
    pub fn into_events(self, instant: Instant) -> Mem<Vec<Event>>
        ensures adds { IfOk result (λ v. (m : List Change)
            → put_each v.items m ≡ put_net instant self m) }
        ensures commit { IfOk result (λ v. IsCommit instant v.items) }
        ensures some { IfOk result (λ v. 0 < length self → 0 < length v.items) }
        ensures err { OnlyMemory result }
    {
        events_of(instant, self.changes, self.room)
    }
}

/// Copies each key and its row.
fn copies(alloc: Global, changes: &[KeyedChange]) -> Mem<Vec<(Key, Option<Row>)>>
    ensures ok { IfOk result (λ v. v.items ≡ changes.now) }
    ensures err { OnlyMemory result }
{
    let mut copies = Vec::with_capacity(alloc, changes.len())?;
    for change in changes {
        copies.push((change.key.clone()?, change.row.clone()?))?;
    }
    Ok(copies)
}

/// Makes changes events of an instant, in order, one per key.
fn events_of(instant: Instant, changes: Vec<KeyedChange>, room: Vec<Event>) -> Mem<Vec<Event>>
    requires empty { room.items ≡ [] }
    ensures ok { IfOk result (λ v. v.items ≡ put_net instant changes.items []) }
    ensures err { OnlyMemory result }
{
    let mut events = room;
    for change in changes {
        let KeyedChange { key: _, bytes, row } = change;
        match Event::new(bytes, instant, row) {
            Some(event) => put_event(&mut events, event)?,
            None => unreachable!(),
        }
    }
    Ok(events)
}

/// Puts an event in its place among others in order; it replaces one of its key and instant.
fn put_event(events: &mut Vec<Event>, event: Event) -> Mem<()>
    requires { IsStrictlySortedBy event_cmp events.old.items }
    ensures ok { OnOk result (events.new.items ≡ put_event event events.old.items) }
    ensures sorted { OnOk result (IsStrictlySortedBy event_cmp events.new.items) }
    ensures err { OnlyMemory result }
{
    let place = place_of(events, &event);
    if is_there(events, place, &event) {
        events[place] = event;
    } else {
        events.insert(place, event)?;
    }
    Ok(())
}

/// Counts the events before one. Keys that rise have bytes that rise where they are of one schema,
/// so the last event is compared first.
fn place_of(events: &[Event], event: &Event) -> usize
    requires { IsStrictlySortedBy event_cmp events.now }
    ensures bound { result ≤ length events.now }
    ensures first { AreFirst (is_before event.now) events.now result }
{
    match events.last() {
        Some(last) if last.order(event).is_lt() => events.len(),
        _ => events.partition_point(|other| other.order(event).is_lt()),
    }
}

/// Tells whether the event at a place has the key and the instant of another.
fn is_there(events: &[Event], place: usize, event: &Event) -> bool
    ensures { result ≡ is_same event.now (slice_get events.now place) }
{
    match events.get(place) {
        None => false,
        Some(other) => event.order(other).is_eq(),
    }
}
