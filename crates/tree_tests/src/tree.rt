//! Trees of a few nodes, which take events, and are split and packed by hand. The run ends where
//! memory runs out.
ghost use Rattle.std.specs.Prelude.{◌≡◌, ◌<◌, ◌≤◌, [], IfSome};
ghost use Rattle.values.specs.Commits.{max_instant};
ghost use Rattle.treenodes.specs.Node.{IsAt, data_node};
ghost use Rattle.treenodes.specs.Tree.{IsTree};
ghost use Rattle.treenodes.specs.Map.{HoldsMap, changes, latest};
ghost use Rattle.treenodes.specs.Sound.{IsSound};
ghost use Rattle.treenodes.specs.Lookup.{IsParent, IsData};

use blocks::{Block, has_block};
use std::alloc::Global;
use std::process::Abort;
use treenodes::{
    Nodes, can_split_time, leaf_alone, leaf_at, with_block, with_event, with_new_root,
    with_time_split,
};
use values::{Event, Instant, KeyBytes, MAX_INSTANT};

/// A tree of one data node without events.
pub(crate) fn leaf(rt: &impl Abort, alloc: Global) -> Nodes
    ensures sound { IsSound result 0 }
    ensures empty { changes result ≡ [] }
{
    let Ok(nodes) = leaf_alone(alloc) else {
        panic!(rt; "there is memory")
    };
    nodes
}

/// The tree with an event that is later than all.
pub(crate) fn grow_by(rt: &impl Abort, nodes: Nodes, event: Event) -> Nodes
    requires tree { IsTree nodes }
    requires holds { HoldsMap nodes (changes nodes) }
    requires later { latest (changes nodes) < event.at }
    requires upto { event.at ≤ max_instant }
    ensures tree { IsTree result }
    ensures holds { HoldsMap result (changes result) }
    ensures latest { latest (changes result) ≡ event.at }
{
    let (number, _visits) = leaf_at(&nodes, event.key(), event.at());
    let Ok(nodes) = with_event(nodes, number, event) else {
        panic!(rt; "there is memory")
    };
    nodes
}

/// The nodes with a data node, of which the parent is given, split at an instant.
pub(crate) fn time_split(
    rt: &impl Abort,
    alloc: Global,
    nodes: Nodes,
    parent: usize,
    number: usize,
    instant: Instant,
) -> Nodes
    requires tree { IsTree nodes }
    requires parent { IsParent nodes parent number }
    requires data { IsData nodes number }
    ensures { IsTree result }
{
    if can_split_time(&nodes, number, instant) {
        let Ok(nodes) = with_time_split(alloc, nodes, parent, number, instant) else {
            panic!(rt; "there is memory")
        };
        nodes
    } else {
        panic!(rt; "the node can be split there")
    }
}

/// The halves at an instant of a tree of one data node, below a new root.
pub(crate) fn split_root_at(rt: &impl Abort, alloc: Global, nodes: Nodes, instant: Instant) -> Nodes
    requires { IsTree nodes }
    ensures { IsTree result }
{
    let number = nodes.len();
    let Ok(nodes) = with_new_root(alloc, nodes) else {
        panic!(rt; "there is memory")
    };
    let (leaf, _visits) = leaf_at(&nodes, &KeyBytes::least(alloc), MAX_INSTANT);
    assert!(rt; leaf == number);
    time_split(rt, alloc, nodes, 0, leaf, instant)
}

/// The block of a node of history, where one is unpacked at a number.
fn block_at(rt: &impl Abort, alloc: Global, nodes: &Nodes, number: usize) -> Option<Block>
    ensures { IfSome result (λ b. IsAt nodes.now number (data_node b.node)) }
{
    let slot = nodes.get(number)?;
    if slot.level() > 0 || !slot.is_unpacked() || !has_block(slot.data_node()) {
        return None;
    }
    let Ok(block) = Block::pack(alloc, slot.data_node()) else {
        panic!(rt; "there is memory")
    };
    Some(block)
}

/// The nodes with a node of history packed, where one is unpacked at a number.
pub(crate) fn pack_at(rt: &impl Abort, alloc: Global, nodes: Nodes, number: usize) -> Nodes
    requires { IsTree nodes }
    ensures { IsTree result }
{
    let Some(block) = block_at(rt, alloc, &nodes, number) else {
        return nodes;
    };
    let Ok(nodes) = with_block(alloc, nodes, number, block) else {
        panic!(rt; "there is memory")
    };
    nodes
}
