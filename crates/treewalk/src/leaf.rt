//! Data nodes are read, packed or not. Of a block one row is made at most, and no node.
ghost use Rattle.std.specs.Prelude.{◌≡◌, ℕ, ◌≤◌, List, IfOk, IsTrue, is_some, option_copied};
ghost use Rattle.std.specs.List.Sorted.{IsStrictlySortedBy};
ghost use Rattle.values.specs.Event.{Event as Change};
ghost use Rattle.values.specs.Events.{event_cmp, event_since, event_until, row_until};
ghost use Rattle.values.specs.Memory.{OnlyMemory};
ghost use Rattle.keyrange.specs.Rect.{IsArea, has_point};
ghost use Rattle.datanode.specs.Cut.{cut};
ghost use Rattle.datanode.specs.NextChange.{event_after};
ghost use Rattle.treenodes.specs.Tree.{IsTree};
ghost use Rattle.treenodes.specs.Map.{HoldsMap};
ghost use Rattle.treenodes.specs.Lookup.{IsData, IsLeafAt};
ghost use Rattle.treewalk.specs.Gather.{events_at, start_at};
ghost use Rattle.treewalk.specs.Leaf.{is_upto, node_in};

use blocks::Block;
use eventlist::{event_since, event_until, place_after};
use std::alloc::{AllocError, Global};
use treenodes::{Child, Nodes, leaf_at};
use values::{Instant, KeyBytes, Mem, Row, SharedEvent};

/// The data node at a point.
pub(crate) fn leaf<'a>(nodes: &'a Nodes, key: &KeyBytes, instant: Instant) -> &'a Child
    requires tree { IsTree nodes.now }
    requires instant { 1 ≤ instant }
    ensures area { IsArea (node_in result.now).rect }
    ensures point { IsTrue (has_point (node_in result.now).rect key.now instant) }
    ensures cut { (m : List Change) → HoldsMap nodes.now m
        → (node_in result.now).events ≡ cut (node_in result.now).rect m }
{
    let (number, _) = leaf_at(nodes, key, instant);
    numbered_leaf(nodes, number)
}

/// The data node of a number, as the cut of the map by its rectangle.
pub(crate) fn numbered_leaf(nodes: &Nodes, number: usize) -> &Child
    requires tree { IsTree nodes.now }
    requires data { IsData nodes.now number }
    ensures area { IsArea (node_in result.now).rect }
    ensures point { (key : List ℕ) (instant : ℕ) → IsLeafAt nodes.now key instant number
        → IsTrue (has_point (node_in result.now).rect key instant) }
    ensures cut { (m : List Change) → HoldsMap nodes.now m
        → (node_in result.now).events ≡ cut (node_in result.now).rect m }
{
    nodes.at(number).child()
}

/// The number of the data node at a point: the one that is given, whatever it is a number of, where
/// its node has the point.
pub(crate) fn leaf_near(nodes: &Nodes, near: usize, key: &KeyBytes, instant: Instant) -> usize
    requires tree { IsTree nodes.now }
    requires instant { 1 ≤ instant }
    ensures { IsLeafAt nodes.now key.now instant result }
{
    if is_leaf_at(nodes, near, key, instant) {
        return near;
    }
    let (number, _) = leaf_at(nodes, key, instant);
    number
}

/// Tells whether a number is that of the data node at a point.
pub(crate) fn is_leaf_at(nodes: &Nodes, number: usize, key: &KeyBytes, instant: Instant) -> bool
    requires { IsTree nodes.now }
    ensures { IsTrue result → IsLeafAt nodes.now key.now instant number }
{
    match nodes.get(number) {
        Some(slot) => slot.level() == 0 && slot.child().rect().contains(key, instant),
        None => false,
    }
}

/// The data node of a number.
pub(crate) fn leaf_of(nodes: &Nodes, number: usize) -> &Child
    requires { IsData nodes.now number }
    ensures events { (node_in result.now).events ≡ events_at nodes.now number }
    ensures start { (node_in result.now).rect.time.from ≡ start_at nodes.now number }
{
    nodes.at(number).child()
}

/// Returns a key's row at an instant, as a data node has it.
pub fn row_in(alloc: Global, child: &Child, key: &KeyBytes, instant: Instant) -> Mem<Option<Row>>
    ensures ok { IfOk result (λ row. row ≡ row_until (node_in child.now).events key.now instant) }
    ensures err { OnlyMemory result }
{
    match child {
        Child::Data(node) => Ok(copy_of(node.at(key, instant))?),
        Child::Packed(block) => block.at(alloc, key, instant),
        Child::Index(_) => Ok(None),
    }
}

/// Tells whether a key has a row at an instant, as a data node has it. Of a node no row is made, of
/// a block one.
pub fn has_row_in(alloc: Global, child: &Child, key: &KeyBytes, instant: Instant) -> Mem<bool>
    ensures ok { IfOk result (λ b. b
        ≡ is_some (row_until (node_in child.now).events key.now instant)) }
    ensures err { OnlyMemory result }
{
    match child {
        Child::Data(node) => Ok(node.at(key, instant).is_some()),
        Child::Packed(block) => Ok(block.at(alloc, key, instant)?.is_some()),
        Child::Index(_) => Ok(false),
    }
}

fn copy_of(row: Option<&Row>) -> Result<Option<Row>, AllocError>
    ensures { IfOk result (λ r. r ≡ option_copied row.entry) }
{
    match row {
        None => Ok(None),
        Some(row) => Ok(Some(row.clone()?)),
    }
}

/// The instant of a key's last event above `start` in a data node, where there is one.
pub(crate) fn last_change_in(child: &Child, key: &KeyBytes, start: Instant) -> Option<Instant>
    ensures { result ≡ event_since (node_in child.now).events start key.now }
{
    match child {
        Child::Data(node) => event_since(node.events(), key, start),
        Child::Packed(block) => block.changed_since(key, start),
        Child::Index(_) => None,
    }
}

/// The instant of a key's first event above `after` in a data node, where there is one.
pub(crate) fn next_change_in(child: &Child, key: &KeyBytes, after: Instant) -> Option<Instant>
    ensures { result ≡ event_after (node_in child.now).events after key.now }
{
    match child {
        Child::Data(node) => first_above(node.events(), key, after),
        Child::Packed(block) => block.next_change(key, after),
        Child::Index(_) => None,
    }
}

/// Whether a data node has an event of a key from an instant or before it.
pub(crate) fn is_known_in(child: &Child, key: &KeyBytes, instant: Instant) -> bool
    ensures { result
        ≡ is_some (event_until (node_in child.now).events key.now instant) }
{
    match child {
        Child::Data(node) => event_until(node.events(), key, instant).is_some(),
        Child::Packed(block) => is_known_in_block(block, key, instant),
        Child::Index(_) => false,
    }
}

/// Whether a block has one. No event is at instant 0.
fn is_known_in_block(block: &Block, key: &KeyBytes, instant: Instant) -> bool
    ensures { result ≡ is_some (event_until block.now.node.events key.now instant) }
{
    // Who asks for the bytes knows that they are a node's.
    let _bytes = block.bytes();
    is_upto(block.next_change(key, 0), instant)
}

fn is_upto(first: Option<Instant>, instant: Instant) -> bool
    ensures { result ≡ is_upto first instant }
{
    match first {
        None => false,
        Some(first) => first <= instant,
    }
}

/// The instant of a key's first event above `after`, where there is one.
fn first_above(events: &[SharedEvent], key: &KeyBytes, after: Instant) -> Option<Instant>
    requires { IsStrictlySortedBy event_cmp events.now }
    ensures { result ≡ event_after events.now after key.now }
{
    let place = place_after(events, key, after);
    if place == events.len() {
        return None;
    }
    let event = events[place].event();
    if key.cmp(event.key()).is_eq() {
        Some(event.at())
    } else {
        None
    }
}
