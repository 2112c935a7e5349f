//! The events of a block are gathered to a node.
ghost use Rattle.std.specs.Prelude.{◌≡◌, ◌≤◌, [], IfOk, IfSome, IfNone, option_copied};
ghost use Rattle.values.specs.Memory.{OnlyMemory};
ghost use Rattle.datanode.specs.Node.{IsNode};
ghost use Rattle.blocks.specs.Gather.{at_all_times, is_behind, is_next, IsGathered, NoNodeFrom};

use crate::event::{Parsed, event_from};
use datanode::DataNode;
use keyrange::{Rect, TimeRange};
use std::alloc::Global;
use values::{Event, Mem, SharedEvent};

/// The node of a rectangle's keys at all instants, without events.
fn current_of(alloc: Global, rect: &Rect) -> Mem<DataNode>
    ensures ok { IfOk result (λ n. n ≡ record { rect = at_all_times rect.now; events = [] }) }
    ensures err { OnlyMemory result }
{
    let keys = rect.keys().copy()?;
    let time = TimeRange { from: 1, to: None };
    match Rect::new(keys, time) {
        Some(rect) => DataNode::new(alloc, rect),
        None => unreachable!(),
    }
}

fn is_behind(event: &Event, last: Option<&SharedEvent>) -> bool
    ensures { result ≡ is_behind event.now (option_copied last.entry) }
{
    match last {
        None => true,
        Some(last) => last.event().order(event).is_lt(),
    }
}

/// Whether an event may follow those of a node.
#[tactic(auto, unfolding(crate::specs::Gather::is_next))]
fn is_next(node: &DataNode, event: &Event) -> bool
    ensures is { result ≡ is_next node.now event.now }
    ensures node { IsNode node.now.rect node.now.events }
{
    let last = node.events().last();
    node.rect().keys().contains(event.key()) && is_behind(event, last)
}

/// Gathers so many events to a node, at all instants, and the bytes behind them; none where they
/// are of no node of the rectangle.
pub(crate) fn gather<'a>(
    alloc: Global,
    rect: &Rect,
    n: u8,
    bytes: &'a [u8],
) -> Mem<Parsed<'a, DataNode>>
    ensures some { IfOk result (λ taken. IfSome taken (λ x.
        IsGathered rect.now n bytes.now x.0 x.1.now)) }
    ensures none { IfOk result (λ taken. IfNone taken (NoNodeFrom rect.now n bytes.now)) }
    ensures err { OnlyMemory result }
{
    let mut node = current_of(alloc, rect)?;
    let mut rest = bytes;
    for _ in 0..n {
        let Some((event, left)) = event_from(alloc, rest)? else {
            return Ok(None);
        };
        if !is_next(&node, &event) {
            return Ok(None);
        }
        node.put(event)?;
        rest = left;
    }
    Ok(Some((node, rest)))
}

/// Makes the node of the rectangle itself, where the events are all that it holds of them.
pub(crate) fn node_in(node: &DataNode, rect: Rect) -> Mem<Option<DataNode>>
    requires { node.now.rect ≡ at_all_times rect }
    ensures some { IfOk result (λ found. IfSome found (λ n.
        n ≡ record { rect = rect; events = node.now.events })) }
    ensures node { IfOk result (λ found. IfSome found (λ n. IsNode n.rect n.events)) }
    ensures none { IfOk result (λ found. IfNone found (IsNode rect node.now.events → ⊥)) }
    ensures err { OnlyMemory result }
{
    let part = node.part(rect)?;
    if part.events().len() == node.len() {
        Ok(Some(part))
    } else {
        Ok(None)
    }
}
