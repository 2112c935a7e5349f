//! The references of index nodes lead to the data node that a view lends.
ghost use Rattle.std.specs.Prelude.{◌≡◌, ◌≤◌, IfSome};
ghost use Rattle.treenodes.specs.Sound.{IsSound};

use crate::growth::{two_parents, two_rows};
use crate::sample::row_key;
use std::alloc::Global;
use std::marker::Model;
use std::process::Abort;
use treegrowth::{key_split, time_split, with_commit};
use treenodes::{Child, Nodes, leaf_alone};
use tsbtree::Tree;
use values::{Instant, KeyBytes};

/// The nodes of a tree whose last commit was at 200.
#[derive(Drop)]
struct Grown {
    nodes: Nodes,
}

impl Model for Grown {
    ghost use Rattle.std.specs.Prelude.{List};
    ghost use Rattle.treenodes.specs.Node.{TreeNode};
    ghost use Rattle.treenodes.specs.Sound.{IsSound};

    ghost Value = { List TreeNode };

    ghost view = { λ g. g.nodes };

    ghost invariant = { λ g. IsSound g.nodes 200 };
}

/// Keys 10 and 40 are changed at 100.
fn one_commit(rt: &impl Abort, alloc: Global) -> Nodes
    ensures { IsSound result 100 }
{
    let events = two_rows(rt, alloc, 100, 10, 40);
    let leaf = leaf_alone(alloc).expect(rt, "there is memory");
    with_commit(alloc, leaf, 0, 100, events).expect(rt, "there is memory")
}

/// And at 200.
fn two_commits(rt: &impl Abort, alloc: Global) -> Grown {
    let events = two_rows(rt, alloc, 200, 10, 40);
    let nodes = with_commit(alloc, one_commit(rt, alloc), 100, 200, events);
    Grown {
        nodes: nodes.expect(rt, "there is memory"),
    }
}

impl Grown {
    fn nodes(&self) -> &Nodes
        ensures are { result.now ≡ self.now }
        ensures sound { IsSound result.now 200 }
    {
        &self.nodes
    }

    /// Splits the current data node of a key at 200.
    fn split_at_200(&mut self, rt: &impl Abort, alloc: Global, number: u8) -> bool {
        let nodes = time_split(alloc, &self.nodes, 200, &row_key(rt, alloc, number), 200);
        self.put(nodes.expect(rt, "there is memory"))
    }

    /// Splits the current data node of a key there.
    fn split_before(&mut self, rt: &impl Abort, alloc: Global, number: u8) -> bool {
        let nodes = key_split(alloc, &self.nodes, 200, &row_key(rt, alloc, number));
        self.put(nodes.expect(rt, "there is memory"))
    }

    fn put(&mut self, nodes: Option<Nodes>) -> bool
        requires { IfSome nodes (λ s. IsSound s 200) }
    {
        match nodes {
            None => false,
            Some(nodes) => {
                self.nodes = nodes;
                true
            }
        }
    }
}

/// The nodes of the tree whose historical node has two parents.
fn nodes_of_two_parents(rt: &impl Abort, alloc: Global) -> Grown {
    let mut grown = two_commits(rt, alloc);
    assert!(rt; grown.split_at_200(rt, alloc, 10));
    for number in 2..65u8 {
        assert!(rt; grown.split_before(rt, alloc, number));
    }
    grown
}

/// The number of the node that references lead to, from the root down.
fn descend(grown: &Grown, key: &KeyBytes, at: Instant) -> usize {
    let nodes = grown.nodes();
    let mut number = 0;
    for _ in 0..nodes.len() {
        if let Some(node) = nodes.get(number) {
            match node.child() {
                Child::Index(index) if index.rect().contains(key, at) => {
                    number = index.find(key, at).child;
                }
                _ => {}
            }
        }
    }
    number
}

/// Whether the node with a number is a data node with the rectangle of another, and as many events.
fn is_leaf(grown: &Grown, number: usize, leaf: &Child) -> bool {
    match grown.nodes.get(number) {
        None => false,
        Some(node) => is_alike(node.child(), leaf),
    }
}

fn is_alike(one: &Child, other: &Child) -> bool {
    let count = count_of(one);
    count.is_some()
        && count == count_of(other)
        && one.rect().keys() == other.rect().keys()
        && one.rect().time() == other.rect().time()
}

/// How many events a data node has.
fn count_of(child: &Child) -> Option<usize> {
    match child {
        Child::Data(node) => Some(node.len()),
        Child::Packed(block) => Some(block.len()),
        Child::Index(_) => None,
    }
}

/// The start of the data node that a view lends at a point, where references lead to it.
fn start_of_leaf(
    rt: &impl Abort,
    alloc: Global,
    grown: &Grown,
    tree: &Tree,
    number: u8,
    at: Instant,
) -> Option<Instant>
    requires { 1 ≤ at }
{
    let key = row_key(rt, alloc, number);
    let leaf = tree.current().leaf(&key, at);
    if is_leaf(grown, descend(grown, &key, at), leaf) {
        Some(leaf.rect().time().from)
    } else {
        None
    }
}

/// Whether references lead to one data node for both keys.
fn is_one_place(rt: &impl Abort, alloc: Global, grown: &Grown, at: Instant) -> bool {
    let low = descend(grown, &row_key(rt, alloc, 10), at);
    low == descend(grown, &row_key(rt, alloc, 40), at)
}

#[test]
fn references_lead_to_the_leaf_of_a_point(rt: HostRuntime) {
    let alloc = rt.alloc();
    let grown = nodes_of_two_parents(&rt, alloc);
    let tree = two_parents(&rt, alloc);
    for (number, at, from) in [(10, 150, 1), (10, 200, 200), (40, 150, 1), (40, 200, 200)] {
        let found = start_of_leaf(&rt, alloc, &grown, &tree, number, at);
        assert!(rt; found == Some(from), "key {number} at {at}");
    }
    assert!(rt; is_one_place(&rt, alloc, &grown, 150), "before the split");
    assert!(rt; !is_one_place(&rt, alloc, &grown, 200), "after the split");
}
