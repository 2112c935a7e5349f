//! The events of one key in a window, leaf after leaf in the order of time.
ghost use Rattle.std.specs.Prelude.{◌≡◌, ◌<◌, ◌&&◌, ◌++◌, List, IfOk, IsTrue, OnOk, filter};
ghost use Rattle.values.specs.Event.{Event as Change};
ghost use Rattle.values.specs.Events.{is_bytes};
ghost use Rattle.values.specs.Memory.{OnlyMemory};
ghost use Rattle.keyrange.specs.Range.{is_key_in};
ghost use Rattle.eventlist.specs.Listing.{is_in_window, is_of_key, stands_at};
ghost use Rattle.treenodes.specs.Tree.{IsTree};
ghost use Rattle.treenodes.specs.Map.{HoldsMap};
ghost use Rattle.treewalk.specs.Leaf.{node_in};

use crate::cursor::Cursor;
use crate::gather::{Query, asked_of};
use crate::leaf::leaf;
use blocks::{Block, Blocks};
use eventlist::events_of_key;
use keyrange::KeyRange;
use std::alloc::Global;
use treenodes::{Child, Nodes};
use values::{Instant, KeyBytes, Mem, SharedEvent};

/// Lists a key's events by instant: the one whose row holds at the first instant, and those after
/// it up to the last and with it. Each leaf of the key in that time is looked into once, but the
/// first, which may be asked twice: for the row that holds, and for the events behind it. In a leaf
/// the key's place is searched from its place in the leaf before, which is often close by. Of a
/// block the events of a range are read that has the key. `Memory` where it runs out.
pub fn key_window<B: Blocks>(
    alloc: Global,
    blocks: &mut B,
    nodes: &Nodes,
    key: &KeyBytes,
    range: &KeyRange,
    first: Instant,
    last: Instant,
) -> Mem<Vec<SharedEvent>>
    requires tree { IsTree nodes.now }
    requires inside { IsTrue (is_key_in range.now key.now) }
    ensures ok { (m : List Change) → HoldsMap nodes.now m
        → IfOk result (λ v. v.items
        ≡ filter (λ e. is_in_window m first last e && is_bytes key.now e.key) m) }
    ensures err { OnlyMemory result }
{
    let mut found = standing_event(alloc, blocks, nodes, key, range, first)?;
    let mut cursor = Cursor::new();
    // No leaf has this place: the first one is searched in halves.
    let mut near = usize::MAX;
    let mut until = first;
    while until < last {
        let child = cursor.leaf(nodes, key, until + 1);
        add_events(
            blocks, child, key, range, until, last, &mut near, &mut found,
        )?;
        match child.rect().time().to {
            None => return Ok(found),
            Some(end) => until = end - 1,
        }
    }
    Ok(found)
}

/// The event of a key whose row holds at an instant, where there is one.
fn standing_event<B: Blocks>(
    alloc: Global,
    blocks: &mut B,
    nodes: &Nodes,
    key: &KeyBytes,
    range: &KeyRange,
    instant: Instant,
) -> Mem<Vec<SharedEvent>>
    requires tree { IsTree nodes.now }
    requires inside { IsTrue (is_key_in range.now key.now) }
    ensures ok { (m : List Change) → HoldsMap nodes.now m
        → IfOk result (λ v. v.items
        ≡ filter (λ e. stands_at m instant e && is_bytes key.now e.key) m) }
    ensures err { OnlyMemory result }
{
    let child = leaf(nodes, key, instant.max(1));
    let standing = asked_of(alloc, blocks, child, range, Query::At(instant))?;
    let mut found = Vec::new(alloc);
    add_of_key(&standing, key, &mut found)?;
    Ok(found)
}

/// Adds the events of a key.
fn add_of_key(events: &[SharedEvent], key: &KeyBytes, found: &mut Vec<SharedEvent>) -> Mem<()>
    ensures ok { OnOk result (found.new.items
        ≡ found.old.items ++ filter (λ e. is_bytes key.now e.key) events.now) }
    ensures err { OnlyMemory result }
{
    for event in events {
        if key.cmp(event.event().key()).is_eq() {
            found.push(event.share()?)?;
        }
    }
    Ok(())
}

/// Adds a leaf's events of a key above an instant, up to another and with it. Their place is
/// searched from `near`, which is their place from then on; a block leaves it as it was.
fn add_events<B: Blocks>(
    blocks: &mut B,
    child: &Child,
    key: &KeyBytes,
    range: &KeyRange,
    after: Instant,
    last: Instant,
    near: &mut usize,
    found: &mut Vec<SharedEvent>,
) -> Mem<()>
    requires inside { IsTrue (is_key_in range.now key.now) }
    requires order { after < last }
    ensures ok { OnOk result (found.new.items
        ≡ found.old.items ++ filter (is_of_key key.now after last) (node_in child.now).events) }
    ensures err { OnlyMemory result }
{
    match child {
        Child::Data(node) => {
            let (events, place) = events_of_key(node.events(), key, after, last, *near);
            *near = place;
            add_all(events, found)
        }
        Child::Packed(block) => add_of_block(blocks, block, key, range, after, last, found),
        Child::Index(_) => Ok(()),
    }
}

fn add_all(events: &[SharedEvent], found: &mut Vec<SharedEvent>) -> Mem<()>
    ensures ok { OnOk result (found.new.items ≡ found.old.items ++ events.now) }
    ensures err { OnlyMemory result }
{
    for event in events {
        found.push(event.share()?)?;
    }
    Ok(())
}

fn add_of_block<B: Blocks>(
    blocks: &mut B,
    block: &Block,
    key: &KeyBytes,
    range: &KeyRange,
    after: Instant,
    last: Instant,
    found: &mut Vec<SharedEvent>,
) -> Mem<()>
    requires inside { IsTrue (is_key_in range.now key.now) }
    requires order { after < last }
    ensures ok { OnOk result (found.new.items
        ≡ found.old.items ++ filter (is_of_key key.now after last) block.now.node.events) }
    ensures err { OnlyMemory result }
{
    let events = blocks.events(block, range, after + 1, last)?;
    add_of_key(&events, key, found)
}
