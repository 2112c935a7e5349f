//! A tree takes a commit's events.
ghost use Rattle.std.specs.Prelude.{◌≡◌, ◌<◌, ◌≤◌, ◌∷◌, [], IfOk, IsTrue, List, length};
ghost use Rattle.values.specs.Event.{Event as Change};
ghost use Rattle.values.specs.Commits.{max_instant};
ghost use Rattle.values.specs.Events.{put_event};
ghost use Rattle.values.specs.Memory.{OnlyMemory};
ghost use Rattle.datanode.specs.Node.{capacity};
ghost use Rattle.treenodes.specs.Node.{TreeNode, IsAt, count_of};
ghost use Rattle.treenodes.specs.Tree.{IsTree};
ghost use Rattle.treenodes.specs.Lookup.{IsData, IsLeafAt};
ghost use Rattle.treenodes.specs.Map.{IsNext, changes};
ghost use Rattle.treenodes.specs.Sound.{IsSound, IsTreeOf};
ghost use Rattle.treenodes.specs.History.{KeepsHistory};
ghost use Rattle.treegrowth.specs.Commit.{IsCommit, IsBeforeCommit, put_each};
ghost use Rattle.treegrowth.specs.Places.{SplitsOverfull};

use crate::leaf::relieved_leaf;
use datanode::CAPACITY;
use std::alloc::Global;
use treenodes::{Child, Nodes, leaf_at, way, with_event};
use values::{Event, Instant, Mem};

/// Puts the events of a commit into the nodes, at an instant after the last one: by key, one for
/// each key. After each event a node that has too many is split, as at a time at which the last
/// commit is the one before. `Memory` where it runs out.
pub fn with_commit(
    alloc: Global,
    mut nodes: Nodes,
    last: Instant,
    instant: Instant,
    events: Vec<Event>,
) -> Mem<Nodes>
    requires sound { IsSound nodes last }
    requires later { last < instant }
    requires upto { instant ≤ max_instant }
    requires commit { IsCommit instant events.items }
    ensures kept { IfOk result (λ s. IsTreeOf s (put_each events.items (changes nodes))) }
    ensures changes { IfOk result (λ s. changes s ≡ put_each events.items (changes nodes)) }
    ensures sound { 0 < length events.items → IfOk result (λ s. IsSound s instant) }
    ensures history { IfOk result (KeepsHistory nodes) }
    ensures splits { IfOk result (SplitsOverfull events.items [] nodes) }
    ensures err { OnlyMemory result }
{
    let mut near = 0;
    for event in events {
        near = leaf_near(&nodes, near, &event);
        nodes = with_change(alloc, nodes, last, near, event)?;
    }
    Ok(nodes)
}

/// Returns the number of the data node at an event's point: a number that is given, where its node
/// has the point, or the one that the root leads to. Events come by key, so the node of the last
/// one is often that of the next.
fn leaf_near(nodes: &Nodes, near: usize, event: &Event) -> usize
    requires tree { IsTree nodes.now }
    requires instant { 1 ≤ event.now.at }
    ensures { IsLeafAt nodes.now event.now.key event.now.at result }
{
    if is_leaf_at(nodes, near, event) {
        return near;
    }
    let (number, _visits) = leaf_at(nodes, event.key(), event.at());
    number
}

/// Tells whether a number is that of a data node that has an event's point.
fn is_leaf_at(nodes: &Nodes, number: usize, event: &Event) -> bool
    requires { IsTree nodes.now }
    ensures { IsTrue result → IsLeafAt nodes.now event.now.key event.now.at number }
{
    match nodes.get(number) {
        Some(slot) => { slot.level() == 0 && slot.child().rect().contains(event.key(), event.at()) }
        None => false,
    }
}

/// Puts one event of a commit after the last instant into the data node at its point. Where that
/// has room, no way from the root is listed: the nodes above change by a split alone.
fn with_change(
    alloc: Global,
    nodes: Nodes,
    last: Instant,
    number: usize,
    event: Event,
) -> Mem<Nodes>
    requires kept { IsTreeOf nodes (changes nodes) }
    requires takes { IsBeforeCommit (changes nodes) last event.at }
    requires next { IsNext (changes nodes) event }
    requires leaf { IsLeafAt nodes event.key event.at number }
    ensures kept { IfOk result (λ s. IsTreeOf s (put_event event (changes nodes))) }
    ensures history { IfOk result (KeepsHistory nodes) }
    ensures splits { (rest : List Change)
        → IfOk result (SplitsOverfull (event ∷ rest) rest nodes) }
    ensures err { OnlyMemory result }
{
    if has_room(&nodes, number) {
        with_event(nodes, number, event)
    } else {
        with_relief(alloc, nodes, last, event)
    }
}

/// Tells whether a data node has room for one event more.
fn has_room(nodes: &Nodes, number: usize) -> bool
    requires { IsData nodes.now number }
    ensures { IsTrue result → (n : TreeNode) → IsAt nodes.now number n
        → count_of n.content < capacity }
{
    match nodes.at(number).child() {
        Child::Data(node) => node.len() < CAPACITY,
        Child::Packed(_) | Child::Index(_) => false,
    }
}

/// Puts one event of a commit after the last instant into the nodes, and splits what has too many.
fn with_relief(alloc: Global, nodes: Nodes, last: Instant, event: Event) -> Mem<Nodes>
    requires kept { IsTreeOf nodes (changes nodes) }
    requires takes { IsBeforeCommit (changes nodes) last event.at }
    requires next { IsNext (changes nodes) event }
    ensures kept { IfOk result (λ s. IsTreeOf s (put_event event (changes nodes))) }
    ensures history { IfOk result (KeepsHistory nodes) }
    ensures splits { (rest : List Change)
        → IfOk result (SplitsOverfull (event ∷ rest) rest nodes) }
    ensures err { OnlyMemory result }
{
    let numbers = way(alloc, &nodes, event.key(), event.at())?;
    let way = numbers.as_slice();
    let depth = way.len() - 1;
    let nodes = with_event(nodes, way[depth], event)?;
    relieved_leaf(alloc, nodes, way, depth, last)
}
