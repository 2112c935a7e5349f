//! What is asked of each data node, put together.
ghost use Rattle.std.specs.Prelude.{◌≡◌, IfOk};
ghost use Rattle.values.specs.Memory.{OnlyMemory};
ghost use Rattle.treenodes.specs.Tree.{IsTree};
ghost use Rattle.treewalk.specs.Gather.{instants, area_between, asked, asked_of_all, AreGathered, AreGatheredIn, leaf_query};
ghost use Rattle.treewalk.specs.Leaf.{node_in};
ghost use Rattle.treewalk.specs.Level.{AreLeaves};

use crate::descent::node_around;
use crate::leaf::leaf_of;
use crate::level::leaves_below;
use blocks::{Block, Blocks};
use datanode::DataNode;
use eventlist::standing;
use keyrange::{KeyRange, Rect, TimeRange};
use std::alloc::Global;
use treenodes::{Child, Nodes};
use values::{Instant, MAX_INSTANT, Mem, SharedEvent};

/// What is asked of the events of a range of keys.
#[derive(Clone, Copy)]
pub(crate) enum Query {
    /// Those from an instant to another and with it.
    Between(Instant, Instant),
    /// Of each key the one whose row holds at an instant.
    At(Instant),
}

/// What is asked of the data nodes that have a point in question, one node after the other.
pub(crate) fn gather<B: Blocks>(
    alloc: Global,
    blocks: &mut B,
    nodes: &Nodes,
    range: &KeyRange,
    query: Query,
) -> Mem<Vec<SharedEvent>>
    requires { IsTree nodes.now }
    ensures ok { IfOk result (λ v. AreGathered query range.now nodes.now v.items) }
    ensures err { OnlyMemory result }
{
    let (from, to) = instants(query);
    match rect_between(range, from, to)? {
        None => Ok(Vec::new(alloc)),
        Some(rect) => gather_in(alloc, blocks, nodes, &rect, range, query),
    }
}

/// The same, where there are points in question. A leaf that has them all is asked alone, and no
/// list is made of it.
fn gather_in<B: Blocks>(
    alloc: Global,
    blocks: &mut B,
    nodes: &Nodes,
    rect: &Rect,
    range: &KeyRange,
    query: Query,
) -> Mem<Vec<SharedEvent>>
    requires { IsTree nodes.now }
    ensures ok { IfOk result (λ v. AreGatheredIn query range.now nodes.now rect.now v.items) }
    ensures err { OnlyMemory result }
{
    // Who reads the time knows that the ranges are not empty.
    let _time = rect.time();
    let number = node_around(nodes, rect);
    let child = nodes.at(number).child();
    if let Child::Index(_) = child {
        let leaves = leaves_below(alloc, nodes, number, rect)?;
        return gathered_of(alloc, blocks, nodes, &leaves, range, query);
    }
    asked_of(alloc, blocks, child, range, query)
}

/// The first and the last instant in question.
fn instants(query: Query) -> (Instant, Instant)
    ensures { result ≡ instants query }
{
    match query {
        Query::Between(from, to) => (from, to),
        Query::At(instant) => (instant, instant),
    }
}

/// The rectangle of a range of keys and of the instants from one to another and with it; None where
/// it is empty.
pub(crate) fn rect_between(range: &KeyRange, from: Instant, to: Instant) -> Mem<Option<Rect>>
    ensures ok { IfOk result (λ r. r ≡ area_between range.now from to) }
    ensures err { OnlyMemory result }
{
    let end = if to < MAX_INSTANT { Some(to + 1) } else { None };
    let time = TimeRange {
        from: from.max(1),
        to: end,
    };
    Ok(Rect::new(range.copy()?, time))
}

/// What is asked of the data nodes of some numbers, one after the other.
fn gathered_of<B: Blocks>(
    alloc: Global,
    blocks: &mut B,
    nodes: &Nodes,
    numbers: &[usize],
    range: &KeyRange,
    query: Query,
) -> Mem<Vec<SharedEvent>>
    requires { AreLeaves nodes.now numbers.now }
    ensures ok { IfOk result (λ v. v.items ≡ asked_of_all query range.now nodes.now numbers.now) }
    ensures err { OnlyMemory result }
{
    let mut found = Vec::new(alloc);
    for number in numbers {
        let mut more = asked_of(alloc, blocks, leaf_of(nodes, *number), range, query)?;
        found.append(&mut more)?;
    }
    Ok(found)
}

/// What is asked of a data node: of the events between two instants those at its own points alone.
pub(crate) fn asked_of<B: Blocks>(
    alloc: Global,
    blocks: &mut B,
    child: &Child,
    range: &KeyRange,
    query: Query,
) -> Mem<Vec<SharedEvent>>
    ensures ok { IfOk result (λ v. v.items
        ≡ asked (leaf_query query (node_in child.now).rect.time.from)
        range.now (node_in child.now).events) }
    ensures err { OnlyMemory result }
{
    let query = leaf_query(query, child.rect().time().from);
    match child {
        Child::Data(node) => asked_of_node(alloc, node, range, query),
        Child::Packed(block) => asked_of_block(alloc, blocks, block, range, query),
        Child::Index(_) => Ok(Vec::new(alloc)),
    }
}

/// What a query asks of a leaf that begins at an instant. An event from before it is carried, and
/// is listed of the leaf at its own point. The row that holds at an instant may be a carried one.
fn leaf_query(query: Query, start: Instant) -> Query
    ensures { result ≡ leaf_query query start }
{
    match query {
        Query::Between(from, to) => Query::Between(from.max(start), to),
        Query::At(instant) => Query::At(instant),
    }
}

fn asked_of_node(
    alloc: Global,
    node: &DataNode,
    range: &KeyRange,
    query: Query,
) -> Mem<Vec<SharedEvent>>
    ensures ok { IfOk result (λ v. v.items ≡ asked query range.now node.now.events) }
    ensures err { OnlyMemory result }
{
    match query {
        Query::Between(from, to) => node.events_in(alloc, range, from, to),
        Query::At(instant) => standing(alloc, node.events(), range, instant),
    }
}

/// What is asked of a block. Which row holds at an instant is seen by the events up to it.
fn asked_of_block<B: Blocks>(
    alloc: Global,
    blocks: &mut B,
    block: &Block,
    range: &KeyRange,
    query: Query,
) -> Mem<Vec<SharedEvent>>
    ensures ok { IfOk result (λ v. v.items ≡ asked query range.now block.now.node.events) }
    ensures err { OnlyMemory result }
{
    match query {
        Query::Between(from, to) => blocks.events(block, range, from, to),
        Query::At(instant) => {
            // Who asks for the bytes knows that they are a node's.
            let _bytes = block.bytes();
            let events = blocks.events(block, range, 0, instant)?;
            standing(alloc, &events, range, instant)
        }
    }
}
