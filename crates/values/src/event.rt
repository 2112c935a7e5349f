//! Changes as the store keeps them: their keys put to bytes.
ghost use Rattle.std.specs.Prelude.{◌≡◌, ◌<◌, IfOk, Some, None, length, nat_lt, option_copied, if◌then◌else◌};
ghost use Rattle.values.specs.Memory.{OnlyMemory};

use crate::key::Instant;
use crate::key_encoding::KeyBytes;
use crate::refusal::Mem;
use crate::row::Row;
use std::alloc::Global;
use std::cmp::Ordering;
use std::marker::Model;
use std::sync::Arc;

/// What a key has from an instant on: a row, or none where its row was deleted. Its key is not
/// empty.
#[derive(Drop)]
pub struct Event {
    key: KeyBytes,
    at: Instant,
    row: Option<Row>,
}

impl Model for Event {
    ghost use Rattle.std.specs.Prelude.{◌<◌, length};
    ghost use Rattle.values.specs.Event.{Event as Change};

    ghost Value = { Change };

    ghost view = { λ e. record { key = e.key; at = e.at; row = e.row } };

    ghost invariant = { λ e. 0 < length e.key };
}

impl Event {
    ghost use Rattle.values.specs.Events.{event_cmp};

    /// Makes an event; none where the key is empty.
    pub fn new(key: KeyBytes, at: Instant, row: Option<Row>) -> Option<Event>
        ensures { result ≡ (if nat_lt 0 (length key)
            then Some (record { key = key; at = at; row = row }) else None) }
    {
        if key.bytes().is_empty() {
            None
        } else {
            Some(Event { key, at, row })
        }
    }

    /// Returns the bytes of the key.
    pub fn key(&self) -> &KeyBytes
        ensures is { result.now ≡ self.now.key }
        ensures some { 0 < length result.now }
    {
        &self.key
    }

    /// Returns the instant.
    pub fn at(&self) -> Instant
        ensures { result ≡ self.now.at }
    {
        self.at
    }

    /// Returns the row; none where it was deleted.
    pub fn row(&self) -> Option<&Row>
        ensures { option_copied result ≡ self.now.row }
    {
        self.row.as_ref()
    }

    /// Compares by key, and then by instant.
    pub fn order(&self, other: &Event) -> Ordering
        ensures { result ≡ event_cmp self.now other.now }
    {
        self.key.cmp(&other.key).then(self.at.cmp(&other.at))
    }

    /// Copies the event, with its key and its row.
    pub fn copy(&self) -> Mem<Event>
        ensures ok { IfOk result (λ e. e ≡ self.now) }
        ensures err { OnlyMemory result }
    {
        Ok(Event {
            key: self.key.clone()?,
            at: self.at,
            row: self.row.clone()?,
        })
    }
}

/// An event that several lists hold, with its key and its row in memory once. It never changes.
/// Two compare as equal where they have one key and one instant.
#[derive(Drop)]
pub struct SharedEvent {
    event: Arc<Event>,
}

impl Model for SharedEvent {
    ghost use Rattle.values.specs.Event.{Event as Change};

    ghost Value = { Change };

    ghost view = { λ s. s.event.value };
}

impl SharedEvent {
    /// Makes an event that can be shared.
    pub fn new(alloc: Global, event: Event) -> Mem<SharedEvent>
        ensures ok { IfOk result (λ s. s ≡ event) }
        ensures err { OnlyMemory result }
    {
        let event = Arc::new(alloc, event)?;
        Ok(SharedEvent { event })
    }

    /// Shares the event, without copying its key or its row.
    pub fn share(&self) -> Mem<SharedEvent>
        ensures ok { IfOk result (λ s. s ≡ self.now) }
        ensures err { OnlyMemory result }
    {
        let event = Arc::try_clone(&self.event)?;
        Ok(SharedEvent { event })
    }

    /// Returns the event.
    pub fn event(&self) -> &Event
        ensures { result.now ≡ self.now }
    {
        &self.event
    }
}

impl PartialEq for SharedEvent {
    ghost use Rattle.std.specs.Ordering.{eq_by_cmp};
    ghost use Rattle.std.specs.Cmp.{partial_equiv_from_equiv, eq_by_cmp_equiv};
    ghost use Rattle.values.specs.Events.{event_cmp};
    ghost use Rattle.values.specs.EventOrder.{event_total};

    ghost eq = { eq_by_cmp event_cmp };

    ghost laws = { partial_equiv_from_equiv (eq_by_cmp_equiv event_total) };

    fn eq(&self, other: &SharedEvent) -> bool {
        self.event().order(other.event()).is_eq()
    }
}

impl Eq for SharedEvent {
    ghost use Rattle.std.specs.Cmp.{eq_by_cmp_equiv};
    ghost use Rattle.values.specs.EventOrder.{event_total};

    ghost laws = { eq_by_cmp_equiv event_total };
}

impl PartialOrd for SharedEvent {
    ghost use Rattle.std.specs.Prelude.{Some};
    ghost use Rattle.std.specs.Cmp.{partial_order_from_total};
    ghost use Rattle.values.specs.Events.{event_cmp};
    ghost use Rattle.values.specs.EventOrder.{event_total};

    ghost partial_cmp = { λ x y. Some (event_cmp x y) };

    ghost laws = { partial_order_from_total event_total };

    fn partial_cmp(&self, other: &SharedEvent) -> Option<Ordering> {
        Some(self.event().order(other.event()))
    }
}

impl Ord for SharedEvent {
    ghost use Rattle.std.specs.Prelude.{refl};
    ghost use Rattle.values.specs.Events.{event_cmp};
    ghost use Rattle.values.specs.EventOrder.{event_total};

    ghost cmp = { event_cmp };

    ghost total = { event_total };

    ghost matches_partial_cmp = { λ _ _. refl };

    ghost matches_eq = { λ _ _. refl };

    fn cmp(&self, other: &SharedEvent) -> Ordering {
        self.event().order(other.event())
    }
}
