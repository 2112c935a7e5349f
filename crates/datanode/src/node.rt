//! Data nodes.
ghost use Rattle.std.specs.Prelude.{◌≡◌, ◌↔◌, ◌<◌, ◌≤◌, ◌-◌, [], List, None, Bool, true, false, IsTrue, IfOk, OnOk, OnErr, HoldsAt, length, option_copied};
ghost use Rattle.values.specs.Event.{Event as Change};
ghost use Rattle.values.specs.Memory.{OnlyMemory};
ghost use Rattle.values.specs.Events.{row_until, put_event};
ghost use Rattle.keyrange.specs.Rect.{IsArea, IsInside, has_point};
ghost use Rattle.keyrange.specs.Range.{is_key_in};
ghost use Rattle.eventlist.specs.Place.{AreFirst, last_event, is_before};
ghost use Rattle.eventlist.specs.Listing.{events_in};
ghost use Rattle.eventlist.specs.Overtaking.{overtakes};
ghost use Rattle.datanode.specs.Cut.{IsMap, cut};
ghost use Rattle.datanode.specs.Node.{IsNode, IsCutOf, IsLast, Accepts, last_before, kept_from, is_after, accepts};

use crate::cut::cut;
use eventlist::{event_until, events_in, is_overtaken, last_event, place_of};
use keyrange::{KeyRange, Rect};
use std::alloc::{AllocError, Global};
use std::marker::Model;
use values::{Event, Instant, KeyBytes, Mem, Row, SharedEvent};

/// The most that a node of a tree may have: events, or references.
pub const CAPACITY: usize = 64;

/// The events that a rectangle holds of all changes. They are shared: a node is copied or split
/// without copying events.
#[derive(Drop)]
pub struct DataNode {
    alloc: Global,
    rect: Rect,
    events: Vec<SharedEvent>,
}

impl Model for DataNode {
    ghost use Rattle.datanode.specs.Node.{Node, IsNode};

    ghost Value = { Node };

    ghost view = { λ n. record { rect = n.rect; events = n.events.items } };

    ghost invariant = { λ n. IsNode n.rect n.events.items };
}

impl DataNode {
    /// Makes the node of a rectangle without events.
    pub fn new(alloc: Global, rect: Rect) -> Mem<DataNode>
        ensures ok { IfOk result (λ n. n ≡ record { rect = rect; events = [] }) }
        ensures err { OnlyMemory result }
    {
        Ok(node_of(alloc, rect, Vec::new(alloc)))
    }

    /// Returns the rectangle.
    pub fn rect(&self) -> &Rect
        ensures rect { result.now ≡ self.now.rect }
        ensures area { IsArea result.now }
    {
        &self.rect
    }

    /// Returns the number of events.
    pub fn len(&self) -> usize
        ensures { result ≡ length self.now.events }
    {
        self.events.len()
    }

    /// Returns the events, in order.
    pub fn events(&self) -> &[SharedEvent]
        ensures are { result.now ≡ self.now.events }
        ensures node { IsNode self.now.rect self.now.events }
    {
        &self.events
    }

    /// Finds a key's row at an instant.
    pub fn at(&self, key: &KeyBytes, instant: Instant) -> Option<&Row>
        ensures row { option_copied result ≡ row_until self.now.events key.now instant }
        ensures of_map { (m : List Change) → IsCutOf self.now m
            → IsTrue (has_point self.now.rect key.now instant)
            → option_copied result ≡ row_until m key.now instant }
    {
        match event_until(&self.events, key, instant) {
            None => None,
            Some(event) => event.row(),
        }
    }

    /// Finds a key's last event.
    pub fn latest(&self, key: &KeyBytes) -> Option<&Event>
        ensures last { option_copied result ≡ last_event self.now.events key.now }
        ensures of_map { (m : List Change) → IsCutOf self.now m
            → IsTrue (is_key_in self.now.rect.keys key.now)
            → option_copied result
            ≡ kept_from self.now.rect.time.from (last_before self.now.rect.time.to m key.now) }
    {
        last_event(&self.events, key)
    }

    /// Tells whether an event can be put: the node has no end, its rectangle holds the event's
    /// point, and the event is later than each of its key.
    pub fn accepts(&self, event: &Event) -> bool
        ensures { IsTrue result ↔ Accepts self.now event.now }
    {
        self.is_accepted(event)
    }

    fn is_accepted(&self, event: &Event) -> bool
        ensures map { IsMap self.now.events }
        ensures accepted { result ≡ accepts self.now event.now }
    {
        self.rect.time().to.is_none()
            && self.rect.contains(event.key(), event.at())
            && is_after(event, self.latest(event.key()))
    }

    /// Puts an event that the node accepts. At the first instant it replaces the carried event of
    /// its key. Where memory runs out nothing has changed.
    pub fn put(&mut self, event: Event) -> Mem<()>
        requires { Accepts self.old event }
        ensures ok { OnOk result (self.new ≡ record {
          rect = self.old.rect;
          events = cut self.old.rect (put_event event self.old.events);
        }) }
        ensures of_map { OnOk result ((m : List Change) →
            IsCutOf self.old m → IsCutOf self.new (put_event event m)) }
        ensures err { OnErr result (self.new ≡ self.old) }
        ensures memory { OnlyMemory result }
    {
        let event = SharedEvent::new(self.alloc, event)?;
        put(&mut self.events, &self.rect, event)?;
        Ok(())
    }

    /// Lists the node's events of a range of keys, from an instant to another and with it, carried
    /// ones too.
    pub fn events_in(
        &self,
        alloc: Global,
        range: &KeyRange,
        from: Instant,
        to: Instant,
    ) -> Mem<Vec<SharedEvent>>
        ensures ok { IfOk result (λ v. v.items ≡ events_in self.now.events range.now from to) }
        ensures err { OnlyMemory result }
    {
        events_in(alloc, &self.events, range, from, to)
    }

    /// Copies the node with room for one event more, without copying events.
    pub fn copy(&self) -> Mem<DataNode>
        ensures ok { IfOk result (λ n. n ≡ self.now) }
        ensures err { OnlyMemory result }
    {
        let rect = self.rect.copy()?;
        let events = shares_of(self.alloc, &self.events)?;
        Ok(node_of(self.alloc, rect, events))
    }

    /// Makes the node of a rectangle inside this one, without copying events.
    pub fn part(&self, rect: Rect) -> Mem<DataNode>
        requires { IsInside rect self.now.rect }
        ensures ok { IfOk result (λ p.
            p ≡ record { rect = rect; events = cut rect self.now.events }) }
        ensures of_map { IfOk result (λ p. (m : List Change) → IsCutOf self.now m → IsCutOf p m) }
        ensures err { OnlyMemory result }
    {
        let events = cut(self.alloc, &self.events, &rect)?;
        Ok(node_of(self.alloc, rect, events))
    }
}

fn is_after(event: &Event, last: Option<&Event>) -> bool
    ensures { result ≡ is_after event.now (option_copied last.entry) }
{
    last.is_none_or(|last| last.at() < event.at())
}

fn node_of(alloc: Global, rect: Rect, events: Vec<SharedEvent>) -> DataNode
    requires map { IsMap events.items }
    requires whole { events.items ≡ cut rect events.items }
    ensures { result ≡ record { rect = rect; events = events.items } }
{
    DataNode {
        alloc,
        rect,
        events,
    }
}

/// The same events, of which none is copied. An event is put into a copy next, so the list has room for
/// it: it need not grow to twice its length then.
fn shares_of(alloc: Global, events: &[SharedEvent]) -> Mem<Vec<SharedEvent>>
    ensures ok { IfOk result (λ v. v.items ≡ events.now) }
    ensures err { OnlyMemory result }
{
    let mut shares = Vec::with_capacity(alloc, events.len().saturating_add(1))?;
    for event in events {
        shares.push(event.share()?)?;
    }
    Ok(shares)
}

/// Puts an event in its place, or in that of the carried event of its key.
fn put(events: &mut Vec<SharedEvent>, rect: &Rect, event: SharedEvent) -> Result<(), AllocError>
    requires node { IsNode rect.now events.old.items }
    requires inside { IsTrue (has_point rect.now event.key event.at) }
    requires last { IsLast event events.old.items }
    ensures ok { OnOk result (events.new.items ≡ cut rect.now (put_event event events.old.items)) }
    ensures err { OnErr result (events.new.items ≡ events.old.items) }
{
    let place = place_in(events, event.event());
    if is_replaced(events, place, rect.time().from, &event) {
        events[place - 1] = event;
    } else {
        events.insert(place, event)?;
    }
    Ok(())
}

/// Counts the events before another. Where keys rise these are all, so the last one is compared
/// first.
fn place_in(events: &[SharedEvent], event: &Event) -> usize
    requires { IsMap events.now }
    ensures bound { result ≤ length events.now }
    ensures first { AreFirst (is_before event.now) events.now result }
{
    match events.last() {
        Some(last) if last.event().order(event).is_lt() => events.len(),
        _ => place_of(events, event),
    }
}

/// Whether the event before a place is carried no more, once another one comes.
fn is_replaced(events: &[SharedEvent], place: usize, instant: Instant, event: &SharedEvent) -> bool
    requires { place ≤ length events.now }
    ensures positive { result ≡ true → 0 < place }
    ensures replaced { result ≡ true
        → HoldsAt (λ d. overtakes d instant event.now ≡ true) events.now (place - 1) }
    ensures kept { result ≡ false → 0 < place
        → HoldsAt (λ d. overtakes d instant event.now ≡ false) events.now (place - 1) }
{
    place > 0 && is_overtaken(events[place - 1].event(), instant, Some(event))
}
