//! The way down to the node below which a rectangle meets several children.
ghost use Rattle.std.specs.Prelude.{◌≡◌};
ghost use Rattle.treenodes.specs.Tree.{IsTree};
ghost use Rattle.treewalk.specs.Ends.{is_time_end_within, is_key_end_within, ends_within};
ghost use Rattle.treewalk.specs.Level.{IsAround};

use keyrange::{KeyRange, Rect, TimeRange, is_below};
use treenodes::{Child, Nodes};

/// The number of a node that has all points of a rectangle: the first on the way down from the root
/// that is a data node, or of whose children none has them all. It takes no memory.
pub(crate) fn node_around(nodes: &Nodes, rect: &Rect) -> usize
    requires { IsTree nodes.now }
    ensures { IsAround nodes.now rect.now result }
{
    // Who reads the time knows that the ranges are not empty.
    let start = rect.time().from;
    let mut number = 0;
    while let Child::Index(node) = nodes.at(number).child() {
        let reference = node.find(&rect.keys().lo, start);
        if !ends_within(rect, &reference.rect) {
            return number;
        }
        number = reference.child;
    }
    number
}

/// Whether a rectangle ends where another does, or before it, in keys and in instants.
fn ends_within(inner: &Rect, outer: &Rect) -> bool
    ensures { result ≡ ends_within inner.now outer.now }
{
    time_ends_within(inner.time(), outer.time()) && keys_end_within(inner.keys(), outer.keys())
}

fn time_ends_within(inner: TimeRange, outer: TimeRange) -> bool
    ensures { result ≡ is_time_end_within inner outer }
{
    match (inner.to, outer.to) {
        (_, None) => true,
        (None, Some(_)) => false,
        (Some(end), Some(last)) => end <= last,
    }
}

fn keys_end_within(inner: &KeyRange, outer: &KeyRange) -> bool
    ensures { result ≡ is_key_end_within inner.now outer.now }
{
    match (&inner.hi, &outer.hi) {
        (_, None) => true,
        (None, Some(_)) => false,
        (Some(end), Some(last)) => !is_below(last, end),
    }
}
