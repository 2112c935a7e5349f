//! Where a data node with too many events is split.
ghost use Rattle.std.specs.Prelude.{◌≡◌, ◌+◌, ◌≤◌, IfOk, None, Some, true, is_some, length};
ghost use Rattle.values.specs.Commits.{max_instant};
ghost use Rattle.values.specs.Memory.{OnlyMemory};
ghost use Rattle.datanode.specs.Node.{capacity};
ghost use Rattle.treegrowth.specs.Growth.{IsAmidCommit};
ghost use Rattle.treegrowth.specs.Point.{HalvesFit, halves_at, is_split_by_time, overflow_point};

use datanode::DataNode;
use keysplit::middle_key;
use timesplit::stay_count;
use values::{Instant, KeyBytes, Mem};

/// So many events or references may stay in the current half of a split by time.
pub(crate) const STAY_LIMIT: usize = 42;

/// A key or an instant at which a data node is split.
#[derive(Drop)]
pub enum SplitPoint {
    Key(KeyBytes),
    Time(Instant),
}

/// Where a data node with one event too many is split: at the last instant, if it is after the
/// node's start and at most 42 events stay, else at the middle key.
pub(crate) fn overflow_point(node: &DataNode, last: Instant) -> Mem<SplitPoint>
    requires current { node.now.rect.time.to ≡ None }
    requires full { length node.now.events ≡ capacity + 1 }
    requires amid { IsAmidCommit node.now.events last }
    requires reached { last ≤ max_instant }
    ensures rule { IfOk result (λ p. overflow_point node.now last ≡ Some p) }
    ensures inside { IfOk result (λ p. is_some (halves_at node.now.rect p) ≡ true) }
    ensures fit { IfOk result (λ p. HalvesFit node.now p) }
    ensures err { OnlyMemory result }
{
    // Who asks for the events knows that they are a node's.
    let _events = node.events();
    if is_split_by_time(node, last) {
        return Ok(SplitPoint::Time(last));
    }
    match middle_key(node) {
        Some(key) => Ok(SplitPoint::Key(key.copy()?)),
        None => unreachable!(),
    }
}

fn is_split_by_time(node: &DataNode, last: Instant) -> bool
    ensures { result ≡ is_split_by_time node.now last }
{
    node.rect().time().from < last && stay_count(node, last) <= STAY_LIMIT
}
