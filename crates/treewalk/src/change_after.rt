//! When a key changes next.
ghost use Rattle.std.specs.Prelude.{◌≡◌, List};
ghost use Rattle.values.specs.Event.{Event as Change};
ghost use Rattle.treenodes.specs.Tree.{IsTree};
ghost use Rattle.treenodes.specs.Map.{HoldsMap};
ghost use Rattle.datanode.specs.NextChange.{event_after};

use crate::leaf::{is_known_in, leaf, next_change_in};
use treenodes::Nodes;
use values::{Instant, KeyBytes, MAX_INSTANT};

/// Returns the least instant above `after` that changes a key, if there is one. From the greatest
/// instant on there is none. It takes no memory.
pub fn next_change(nodes: &Nodes, key: &KeyBytes, after: Instant) -> Option<Instant>
    requires { IsTree nodes.now }
    ensures { (m : List Change) → HoldsMap nodes.now m → result ≡ event_after m after key.now }
{
    if MAX_INSTANT <= after {
        return None;
    }
    let node = leaf(nodes, key, after + 1);
    let found = next_change_in(node, key, after);
    if found.is_some() {
        return found;
    }
    match node.rect().time().to {
        None => None,
        Some(end) => later_change(nodes, key, end - 1),
    }
}

/// The same, where the next change is rather in a later leaf. A leaf that holds an event of the key
/// from `after` or before it shows that nothing happened until the leaf's start. One without tells
/// nothing: a deletion is not carried.
fn later_change(nodes: &Nodes, key: &KeyBytes, after: Instant) -> Option<Instant>
    requires { IsTree nodes.now }
    ensures { (m : List Change) → HoldsMap nodes.now m → result ≡ event_after m after key.now }
{
    let current = leaf(nodes, key, MAX_INSTANT);
    if is_known_in(current, key, after) {
        return next_change_in(current, key, after);
    }
    change_before(nodes, key, after, current.rect().time().from - 1)
}

/// The same, where the leaves up to `bound` are tried by steps. Each goes as far as all those
/// before it; one that goes too far, or comes to a leaf that tells nothing, moves the bound. What
/// is left is walked.
fn change_before(nodes: &Nodes, key: &KeyBytes, after: Instant, bound: Instant) -> Option<Instant>
    requires { IsTree nodes.now }
    ensures { (m : List Change) → HoldsMap nodes.now m → result ≡ event_after m after key.now }
{
    let mut until = after;
    let mut bound = bound;
    while until < bound {
        let step = ((bound - until - 1) / 2).min(until - after);
        let node = leaf(nodes, key, until + 1 + step);
        let time = node.rect().time();
        if is_known_in(node, key, until) {
            let found = next_change_in(node, key, until);
            if found.is_some() {
                return found;
            }
            match time.to {
                None => return None,
                Some(end) => until = end - 1,
            }
        } else {
            bound = time.from - 1;
        }
    }
    change_by_leaves(nodes, key, until)
}

/// The same, leaf after leaf.
fn change_by_leaves(nodes: &Nodes, key: &KeyBytes, after: Instant) -> Option<Instant>
    requires { IsTree nodes.now }
    ensures { (m : List Change) → HoldsMap nodes.now m → result ≡ event_after m after key.now }
{
    let mut until = after;
    while until < MAX_INSTANT {
        let node = leaf(nodes, key, until + 1);
        let found = next_change_in(node, key, until);
        if found.is_some() {
            return found;
        }
        match node.rect().time().to {
            None => return None,
            Some(end) => until = end - 1,
        }
    }
    None
}
