//! Blocks take the places of nodes of history.
use crate::answer::{answers, answers_of};
use crate::block_sample::old_block_of;
use crate::growth::{few_changes_split, one_key_split, two_parents, two_versions};
use crate::line::{begins_with, count_packed, is_packed_line, shape_of};
use crate::sample::row_key;
use blocks::Block;
use datanode::DataNode;
use keyrange::Rect;
use std::alloc::Global;
use std::process::Abort;
use treenodes::Child;
use treewalk::Shape;
use tsbtree::{Tree, View};
use values::{Instant, MAX_INSTANT};

/// Puts the block of a view's first unpacked node of history into a tree, where the node is
/// unpacked there.
fn install_first(rt: &impl Abort, alloc: Global, tree: &mut Tree, view: &View) -> bool {
    match view.first_unpacked(None) {
        None => false,
        Some(node) => {
            let block = Block::pack(alloc, node).expect(rt, "there is memory");
            tree.install(node, block).expect(rt, "there is memory")
        }
    }
}

fn view_of(rt: &impl Abort, tree: &Tree) -> View {
    tree.view().expect(rt, "there is memory")
}

/// Packs a tree's first unpacked node of history; false where there is none.
fn pack_first(rt: &impl Abort, alloc: Global, tree: &mut Tree) -> bool {
    let view = view_of(rt, tree);
    install_first(rt, alloc, tree, &view)
}

/// A tree after its first unpacked nodes of history are packed, so many.
pub(crate) fn pack_firsts(rt: &impl Abort, alloc: Global, tree: Tree, count: usize) -> Tree {
    let mut tree = tree;
    for _ in 0..count {
        assert!(rt; pack_first(rt, alloc, &mut tree));
    }
    tree
}

/// Whether a shape shows one packed node, in the place of the historical one.
fn is_shown_once(shape: &Shape) -> bool {
    let lines = [
        (0, 0, 0, 1, None, 2),
        (1, 0, 33, 1, None, 33),
        (1, 33, 0, 1, None, 33),
    ];
    shape.nodes.len() == 68
        && begins_with(shape, lines.as_slice())
        && is_packed_line(shape, 3, (2, 0, 0, 1, Some(200), 2))
        && count_packed(shape) == 1
}

/// When a data node starts; 0 where there is none.
fn start(node: Option<&DataNode>) -> Instant {
    match node {
        None => 0,
        Some(node) => node.rect().time().from,
    }
}

/// Whether a tree's data node at a point is packed, and when its unpacked node of history of that
/// node's rectangle starts; 0 where there is none.
fn leaf_at(rt: &impl Abort, alloc: Global, tree: Tree, number: u8, at: Instant) -> (bool, Instant) {
    assert!(rt; 1 <= at);
    let key = row_key(rt, alloc, number);
    let view = tree.current();
    let leaf = view.leaf(&key, at);
    let from = start(view.historical(leaf.rect()));
    (matches!(leaf, Child::Packed(_)), from)
}

#[test]
fn a_node_of_two_parents_is_packed_once(rt: HostRuntime) {
    let alloc = rt.alloc();
    let tree = pack_firsts(&rt, alloc, two_parents(&rt, alloc), 1);
    assert!(rt; is_shown_once(&shape_of(&rt, alloc, tree)));
    for (count, number, at, found) in [
        (1, 10, 1, (true, 0)),
        (1, 10, 199, (true, 0)),
        (1, 10, 200, (false, 0)),
        (1, 40, 1, (true, 0)),
        (1, 40, 199, (true, 0)),
        (1, 40, 200, (false, 0)),
        (0, 10, 1, (false, 1)),
        (0, 40, 199, (false, 1)),
        (0, 10, 200, (false, 0)),
        (0, 40, 200, (false, 0)),
    ] {
        let tree = pack_firsts(&rt, alloc, two_parents(&rt, alloc), count);
        assert!(rt;
            leaf_at(&rt, alloc, tree, number, at) == found,
            "key {number} at {at}"
        );
    }
}

/// When the first unpacked node starts of the tree whose historical node has two parents, and its
/// unpacked node of that node's rectangle, 0 where there is none: before it is packed, and
/// thereafter. And whether both views are the same.
type Starts = ((Instant, Instant), (Instant, Instant), bool);

fn starts_of_both(rt: &impl Abort, alloc: Global) -> Starts {
    let mut tree = two_parents(rt, alloc);
    let before = view_of(rt, &tree);
    assert!(rt; install_first(rt, alloc, &mut tree, &before));
    let after = tree.current();
    let first = before.first_unpacked(None).expect(rt, "a node of history");
    let rect = first.rect();
    (
        (start(Some(first)), start(before.historical(rect))),
        (
            start(after.first_unpacked(None)),
            start(after.historical(rect)),
        ),
        before.same(after),
    )
}

#[test]
fn an_earlier_view_shows_its_node_unpacked(rt: HostRuntime) {
    assert!(rt; starts_of_both(&rt, rt.alloc()) == ((1, 1), (0, 0), false));
}

/// Whether a tree takes the block of a view's first unpacked node. It is then as it was just where
/// it does not.
fn takes_first(rt: &impl Abort, alloc: Global, tree: &mut Tree, view: &View) -> bool {
    let before = view_of(rt, tree);
    let taken = install_first(rt, alloc, tree, view);
    assert!(rt; before.same(tree.current()) != taken);
    taken
}

/// The same where the node was packed before.
fn takes_again(rt: &impl Abort, alloc: Global) -> bool {
    let mut tree = two_parents(rt, alloc);
    let before = view_of(rt, &tree);
    assert!(rt; install_first(rt, alloc, &mut tree, &before));
    takes_first(rt, alloc, &mut tree, &before)
}

/// The same where another tree has the node.
fn takes_from(rt: &impl Abort, alloc: Global, mut tree: Tree, other: Tree) -> bool {
    takes_first(rt, alloc, &mut tree, other.current())
}

/// The same where the node is of one rectangle with the tree's own; with one row or another.
fn takes_version(rt: &impl Abort, alloc: Global, value: i64) -> bool {
    let tree = two_versions(rt, alloc, 1);
    takes_from(rt, alloc, tree, two_versions(rt, alloc, value))
}

#[test]
fn a_block_is_taken_where_its_node_stands_unpacked(rt: HostRuntime) {
    let alloc = rt.alloc();
    assert!(rt; !takes_again(&rt, alloc), "packed before");
    let tree = two_parents(&rt, alloc);
    let is_other_taken = takes_from(&rt, alloc, tree, one_key_split(&rt, alloc));
    assert!(rt; !is_other_taken, "of another rectangle");
    assert!(rt; takes_version(&rt, alloc, 1) && !takes_version(&rt, alloc, 2));
}

/// Puts a block of form 1 into a tree, in the place of the node that it unpacks to.
fn install_old(rt: &impl Abort, alloc: Global, tree: &mut Tree, block: &Block) -> bool {
    let old = old_block_of(rt, alloc, block);
    let node = old.unpack(alloc).expect(rt, "there is memory");
    tree.install(&node, old).expect(rt, "there is memory")
}

/// Whether a tree takes the block of form 1 of its first unpacked node, how many nodes are packed
/// then, and whether the node's row is found as before.
fn takes_old(rt: &impl Abort, alloc: Global) -> (bool, usize, bool) {
    let mut tree = two_versions(rt, alloc, 1);
    let before = view_of(rt, &tree);
    let first = before.first_unpacked(None).expect(rt, "a node of history");
    let block = Block::pack(alloc, first).expect(rt, "there is memory");
    let taken = install_old(rt, alloc, &mut tree, &block);
    let alike = answers(rt, alloc, &before, 1, 150) == answers(rt, alloc, tree.current(), 1, 150);
    (taken, count_packed(&shape_of(rt, alloc, tree)), alike)
}

#[test]
fn a_block_of_form_1_is_taken(rt: HostRuntime) {
    assert!(rt; takes_old(&rt, rt.alloc()) == (true, 1, true));
}

/// Whether a tree with five nodes of history answers as before, after some of them are packed.
fn is_alike(rt: &impl Abort, alloc: Global, count: usize, number: u8, at: Instant) -> bool {
    let tree = few_changes_split(rt, alloc, &[120, 140, 160, 180, 200]);
    let before = view_of(rt, &tree);
    let after = answers_of(rt, alloc, pack_firsts(rt, alloc, tree, count), number, at);
    answers(rt, alloc, &before, number, at) == after
}

#[test]
fn packed_nodes_answer_as_before(rt: HostRuntime) {
    for count in [1, 3, 5] {
        for number in 1..4u8 {
            for at in [0, 99, 100, 119, 120, 150, 199, 200, MAX_INSTANT] {
                assert!(rt;
                    is_alike(&rt, rt.alloc(), count, number, at),
                    "key {number} at {at}"
                );
            }
        }
    }
}

/// Packs a tree's first unpacked nodes that start at 1, at 2 and so on: when the last of these
/// starts, when the first starts that is left, and how many are packed.
fn packed_in_turn(rt: &impl Abort, alloc: Global) -> (Instant, Instant, usize) {
    let mut tree = one_key_split(rt, alloc);
    let mut last = 0;
    for at in 1..66u64 {
        if start(tree.current().first_unpacked(None)) == at && pack_first(rt, alloc, &mut tree) {
            last = at;
        }
    }
    let left = start(tree.current().first_unpacked(None));
    (last, left, count_packed(&shape_of(rt, alloc, tree)))
}

#[test]
fn nodes_are_packed_in_the_order_of_their_starts(rt: HostRuntime) {
    assert!(rt; packed_in_turn(&rt, rt.alloc()) == (64, 0, 64));
}

/// How many unpacked nodes of history come one after the other, up to 100.
fn count_unpacked(view: &View) -> usize {
    let mut count = 0usize;
    let mut next = view.first_unpacked(None);
    for _ in 0..100 {
        if let Some(node) = next {
            count = count.saturating_add(1);
            next = view.first_unpacked(Some(node.rect()));
        }
    }
    count
}

/// How many are left of those of one key, after some are packed.
fn count_left(rt: &impl Abort, alloc: Global, count: usize) -> usize {
    let tree = pack_firsts(rt, alloc, one_key_split(rt, alloc), count);
    count_unpacked(tree.current())
}

#[test]
fn the_next_unpacked_node_comes_after_a_rectangle(rt: HostRuntime) {
    for (count, left) in [(0, 64), (24, 40), (64, 0)] {
        let found = count_left(&rt, rt.alloc(), count);
        assert!(rt; found == left, "{count} packed");
    }
}
