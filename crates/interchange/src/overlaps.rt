//! The first row that overlaps an earlier one of its entity.
ghost use Rattle.std.specs.Prelude.{◌≡◌, ◌++◌, ◌∷◌, [], MatchBool, None, Option, OnOk, Some, if◌then◌else◌, true};
ghost use Rattle.std.specs.List.{list_any};
ghost use Rattle.values.specs.declared.key.Key.{Key as TableKey};
ghost use Rattle.values.specs.declared.period.Period.{Period as TablePeriod};
ghost use Rattle.values.specs.Entity.{entity_of};
ghost use Rattle.values.specs.Log.{State};
ghost use Rattle.values.specs.Memory.{OnlyMemory};
ghost use Rattle.values.specs.Order.{is_key};
ghost use Rattle.values.specs.Period.{is_span, overlap};
ghost use Rattle.values.specs.Writes.{keyed, overlap_from};
ghost use Rattle.interchange.specs.ApartSpans.{AreInTurn, HasOneMore};
ghost use Rattle.interchange.specs.Overlaps.{AreProper, HasSpans, spans_at};

use crate::apart_spans::ApartSpans;
use std::alloc::Global;
use std::collections::BTreeMap;
use values::{Key, Mem, Row, Span, Table};

/// The spans of rows of a table with a period of application time, by their entities, up to the
/// first row that overlaps an earlier one of its entity, whose key is kept.
#[derive(Drop)]
pub(crate) struct Overlaps {
    spans: BTreeMap<Key, ApartSpans>,
    first: Option<Key>,
}

impl Overlaps {
    /// Takes no rows.
    pub(crate) fn new(alloc: Global) -> Overlaps
        ensures { (period : Option TablePeriod) → HasSpans period [] result }
    {
        Overlaps {
            spans: BTreeMap::new(alloc),
            first: None,
        }
    }

    /// Takes the next row. It is compared with one earlier row of its entity.
    pub(crate) fn take(&mut self, alloc: Global, table: &Table, row: &Row) -> Mem<()>
        ensures ok { OnOk result ((rows : State) → HasSpans table.now.period rows self.old
            → HasSpans table.now.period (rows ++ keyed table.now row.now ∷ []) self.new) }
        ensures err { OnlyMemory result }
    {
        let Some(period) = &table.period else {
            return Ok(());
        };
        if self.first.is_some() {
            return Ok(());
        }
        let key = table.key(alloc, row)?;
        self.take_span(alloc, &key, period.span(row))
    }

    /// Takes the span of the row with a key.
    fn take_span(&mut self, alloc: Global, key: &Key, span: Span) -> Mem<()>
        requires { self.old.first ≡ None }
        ensures first { OnOk result (AreInTurn (spans_at self.old (entity_of key.now))
            → self.new.first
            ≡ (if list_any (overlap span) (spans_at self.old (entity_of key.now))
            then Some key.now else None)) }
        ensures kept { OnOk result (self.new.first ≡ None → is_span span ≡ true
            → AreInTurn (spans_at self.old (entity_of key.now)) → (entity : TableKey)
            → MatchBool (is_key entity (entity_of key.now))
            (HasOneMore (spans_at self.old entity) span (spans_at self.new entity))
            (spans_at self.new entity ≡ spans_at self.old entity)) }
        ensures err { OnlyMemory result }
    {
        let entity = key.entity(alloc)?;
        let mut spans = self.spans.remove(&entity).unwrap_or(ApartSpans::new(alloc));
        if !spans.add(span)? {
            self.first = Some(key.copy()?);
            return Ok(());
        }
        self.spans.insert(entity, spans)?;
        Ok(())
    }

    /// Returns the key of the first row that overlaps an earlier one of its entity.
    pub(crate) fn into_first(self) -> Option<Key>
        ensures { (period : Option TablePeriod) (rows : State) → AreProper period rows
            → HasSpans period rows self → result ≡ overlap_from period [] rows }
    {
        let Overlaps { spans: _, first } = self;
        first
    }
}
