//! When a key was last changed.
ghost use Rattle.std.specs.Prelude.{◌≡◌, List, Some, None, nat_lt, if◌then◌else◌};
ghost use Rattle.values.specs.Event.{Event as Change};
ghost use Rattle.values.specs.Commits.{max_instant};
ghost use Rattle.values.specs.Events.{event_since};
ghost use Rattle.treenodes.specs.Lookup.{IsLeafAt};
ghost use Rattle.treenodes.specs.Tree.{IsTree};
ghost use Rattle.treenodes.specs.Map.{HoldsMap};

use crate::leaf::{last_change_in, leaf_near, numbered_leaf};
use treenodes::Nodes;
use values::{Instant, KeyBytes, MAX_INSTANT};

/// Returns the latest instant above `start` that changed a key. A node that holds no event of the
/// key tells nothing of the time before it began: a deletion is not carried.
pub fn changed_since(nodes: &Nodes, key: &KeyBytes, start: Instant) -> Option<Instant>
    requires { IsTree nodes.now }
    ensures { (m : List Change) → HoldsMap nodes.now m → result ≡ event_since m start key.now }
{
    changed_by(nodes, 0, key, start)
}

/// Returns what [`changed_since`] does, and the number of the key's current data node. Handed in as
/// `near` it saves the next key, where that is in the same node, the way from the root. Whatever
/// `near` is, the instant is the same.
pub fn changed_since_near(
    nodes: &Nodes,
    near: usize,
    key: &KeyBytes,
    start: Instant,
) -> (Option<Instant>, usize)
    requires { IsTree nodes.now }
    ensures changed { (m : List Change) → HoldsMap nodes.now m
        → result.0 ≡ event_since m start key.now }
    ensures near { IsLeafAt nodes.now key.now max_instant result.1 }
{
    let current = leaf_near(nodes, near, key, MAX_INSTANT);
    (changed_by(nodes, current, key, start), current)
}

/// The latest instant above `start` that changed a key. The first data node is looked for at a
/// number before it is from the root.
fn changed_by(nodes: &Nodes, near: usize, key: &KeyBytes, start: Instant) -> Option<Instant>
    requires { IsTree nodes.now }
    ensures { (m : List Change) → HoldsMap nodes.now m → result ≡ event_since m start key.now }
{
    let mut number = near;
    let mut instant = MAX_INSTANT;
    while start < instant {
        number = leaf_near(nodes, number, key, instant);
        let node = numbered_leaf(nodes, number);
        if let Some(last) = last_change_in(node, key, 0) {
            return above(start, last);
        }
        instant = node.rect().time().from - 1;
    }
    None
}

/// An instant, where it is above another.
pub(crate) fn above(start: Instant, instant: Instant) -> Option<Instant>
    ensures { result ≡ (if nat_lt start instant then Some instant else None) }
{
    if start < instant { Some(instant) } else { None }
}
