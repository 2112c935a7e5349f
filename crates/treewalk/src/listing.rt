//! The events of a range of keys, as the whole tree holds them.
ghost use Rattle.std.specs.Prelude.{◌≡◌, List, IfOk};
ghost use Rattle.std.specs.List.Sorted.{IsStrictlySortedBy};
ghost use Rattle.values.specs.Event.{Event as Change};
ghost use Rattle.values.specs.Events.{event_cmp};
ghost use Rattle.values.specs.Memory.{OnlyMemory};
ghost use Rattle.keyrange.specs.Range.{is_key_in};
ghost use Rattle.eventlist.specs.Listing.{events_in, standing};
ghost use Rattle.treenodes.specs.Tree.{IsTree};
ghost use Rattle.treenodes.specs.Map.{HoldsMap};

use crate::gather::{Query, gather};
use blocks::Blocks;
use eventlist::sort_events;
use keyrange::KeyRange;
use std::alloc::Global;
use treenodes::Nodes;
use values::{Instant, MAX_INSTANT, Mem, SharedEvent};

/// Lists the events of a range of keys, from an instant to another and with it, by key and then by
/// instant, each once however many nodes hold it.
pub fn events<B: Blocks>(
    alloc: Global,
    blocks: &mut B,
    nodes: &Nodes,
    range: &KeyRange,
    from: Instant,
    to: Instant,
) -> Mem<Vec<SharedEvent>>
    requires { IsTree nodes.now }
    ensures ok { (m : List Change) → HoldsMap nodes.now m
        → IfOk result (λ v. v.items ≡ events_in m range.now from to) }
    ensures sorted { IfOk result (λ v. IsStrictlySortedBy event_cmp v.items) }
    ensures err { OnlyMemory result }
{
    let mut found = gather(alloc, blocks, nodes, range, Query::Between(from, to))?;
    sort_events(&mut found)?;
    Ok(found)
}

/// Lists by key, of each key of a range, the event that shows its row at an instant, where it has
/// one. It looks into the nodes at that instant alone.
pub fn standing<B: Blocks>(
    alloc: Global,
    blocks: &mut B,
    nodes: &Nodes,
    range: &KeyRange,
    instant: Instant,
) -> Mem<Vec<SharedEvent>>
    requires { IsTree nodes.now }
    ensures ok { (m : List Change) → HoldsMap nodes.now m
        → IfOk result (λ v. v.items ≡ standing m (is_key_in range.now) instant) }
    ensures sorted { IfOk result (λ v. IsStrictlySortedBy event_cmp v.items) }
    ensures err { OnlyMemory result }
{
    // No event is after the greatest instant.
    let mut rows = gather(
        alloc,
        blocks,
        nodes,
        range,
        Query::At(instant.min(MAX_INSTANT)),
    )?;
    sort_events(&mut rows)?;
    Ok(rows)
}
