//! Points of nodes of up to 20 references, which are in the order of their lower keys, or not.
ghost use Rattle.std.specs.Prelude.{All};
ghost use Rattle.keyrange.specs.Rect.{IsInside};
ghost use Rattle.keyrange.specs.Cut.{AreHalves};
ghost use Rattle.indexnode.specs.Node.{Tiles};

use crate::sample::{all, copy, key, key_halves, time_halves};
use indexnode::{IndexNode, Reference, pair, single};
use keyrange::Rect;
use std::alloc::Global;
use std::process::Abort;
use values::{Instant, MAX_INSTANT};

/// References to the halves of a rectangle, which are exchanged where they are to be out of order.
fn halves(
    rt: &impl Abort,
    alloc: Global,
    area: &Rect,
    rects: (Rect, Rect),
    children: (usize, usize),
    is_ordered: bool,
) -> Vec<Reference<usize>>
    requires { AreHalves area.now rects.0 rects.1 }
    ensures tiles { Tiles area.now result.items }
    ensures inside { All (λ r. IsInside r.rect area.now) result.items }
{
    let first = Reference {
        rect: rects.0,
        child: children.0,
    };
    let second = Reference {
        rect: rects.1,
        child: children.1,
    };
    let Ok(mut references) = pair(alloc, first, second) else {
        panic!(rt; "there is memory")
    };
    if !is_ordered {
        references.swap(0, 1);
    }
    references
}

/// A node over one child.
fn one(rt: &impl Abort, alloc: Global, child: usize) -> IndexNode<usize>
    ensures { Tiles result.rect result.references.items }
{
    let area = all(rt, alloc, 1, None);
    let rect = copy(rt, &area);
    let Ok(references) = single(alloc, Reference { rect, child }) else {
        panic!(rt; "there is memory")
    };
    let Ok(node) = IndexNode::new(alloc, area, references) else {
        panic!(rt; "there is memory")
    };
    node
}

/// Puts two children in the place of one.
fn put_halves(
    rt: &impl Abort,
    node: &mut IndexNode<usize>,
    area: &Rect,
    halves: Vec<Reference<usize>>,
)
    requires tiles { Tiles area.now halves.items }
    requires inside { All (λ r. IsInside r.rect area.now) halves.items }
    requires tiled { Tiles node.old.rect node.old.references.items }
    ensures { Tiles node.new.rect node.new.references.items }
{
    let done = node.replace(area, halves);
    assert!(rt; done.expect(rt, "there is memory"));
}

/// Parts the last current reference at a key, and what is below the key at instant 300. The
/// rectangle above the key is given back.
fn part(
    rt: &impl Abort,
    alloc: Global,
    node: &mut IndexNode<usize>,
    area: &Rect,
    number: u8,
    is_ordered: bool,
) -> Rect
    requires { Tiles node.old.rect node.old.references.items }
    ensures { Tiles node.new.rect node.new.references.items }
{
    let child = usize::from(number);
    let rects = key_halves(rt, area, &key(rt, alloc, number));
    let (below, above) = (copy(rt, &rects.0), copy(rt, &rects.1));
    let parts = halves(
        rt,
        alloc,
        area,
        rects,
        (child.saturating_sub(1), child),
        is_ordered,
    );
    put_halves(rt, node, area, parts);
    let rects = time_halves(rt, &below, 300);
    let children = (child.saturating_add(99), child.saturating_sub(1));
    put_halves(
        rt,
        node,
        &below,
        halves(rt, alloc, &below, rects, children, is_ordered),
    );
    above
}

/// Before instant 200 child 200 has all keys. From then on child n has those from n on, and the
/// last child all above; but before instant 300 all but the last are 100 more.
fn parts(rt: &impl Abort, alloc: Global, last: u8, is_ordered: bool) -> IndexNode<usize>
    ensures { Tiles result.rect result.references.items }
{
    let mut node = one(rt, alloc, 0);
    let whole = all(rt, alloc, 1, None);
    let rects = time_halves(rt, &whole, 200);
    put_halves(
        rt,
        &mut node,
        &whole,
        halves(rt, alloc, &whole, rects, (200, 0), is_ordered),
    );
    let mut area = all(rt, alloc, 200, None);
    for number in 1..=last {
        area = part(rt, alloc, &mut node, &area, number, is_ordered);
    }
    node
}

/// The child at a point, or 1000 where the node has no such point.
fn child_at(
    rt: &impl Abort,
    alloc: Global,
    node: &IndexNode<usize>,
    number: u8,
    instant: Instant,
) -> usize
    requires { Tiles node.now.rect node.now.references.items }
{
    let key = key(rt, alloc, number);
    if node.rect().contains(&key, instant) {
        node.find(&key, instant).child
    } else {
        1000
    }
}

/// How many of a node's points at a key have another child than the one wanted before instant 200,
/// before 300 and from then on.
fn wrong_at(
    rt: &impl Abort,
    alloc: Global,
    node: &IndexNode<usize>,
    number: u8,
    wanted: (usize, usize, usize),
) -> usize
    requires { Tiles node.now.rect node.now.references.items }
{
    let mut wrong: usize = 0;
    for (instant, child) in [
        (1, wanted.0),
        (199, wanted.0),
        (200, wanted.1),
        (299, wanted.1),
        (300, wanted.2),
        (MAX_INSTANT, wanted.2),
    ] {
        let found = child_at(rt, alloc, node, number, instant);
        wrong = wrong.saturating_add(usize::from(found != child));
    }
    wrong
}

/// How many points have another child than the one wanted, of all keys up to one above the last.
fn wrong_points(rt: &impl Abort, alloc: Global, last: u8, is_ordered: bool) -> usize {
    let node = parts(rt, alloc, last, is_ordered);
    let mut wrong: usize = 0;
    for number in 0..last {
        let child = usize::from(number);
        let wanted = (200, child.saturating_add(100), child);
        wrong = wrong.saturating_add(wrong_at(rt, alloc, &node, number, wanted));
    }
    let child = usize::from(last);
    for number in [last, last.saturating_add(1)] {
        wrong = wrong.saturating_add(wrong_at(rt, alloc, &node, number, (200, child, child)));
    }
    wrong
}

#[test]
fn each_point_is_found_in_order_and_out_of_order(rt: HostRuntime) {
    for is_ordered in [true, false] {
        for last in [0, 1, 2, 4, 9, 20] {
            let wrong = wrong_points(&rt, rt.alloc(), last, is_ordered);
            assert!(rt; wrong == 0, "{last} keys, in order: {is_ordered}");
        }
    }
}

fn child_of_one(rt: &impl Abort, alloc: Global, number: u8, instant: Instant) -> usize {
    child_at(rt, alloc, &one(rt, alloc, 5), number, instant)
}

#[test]
fn one_reference_has_each_point(rt: HostRuntime) {
    for (number, instant, child) in [
        (0, 0, 1000),
        (0, 1, 5),
        (255, 1, 5),
        (0, MAX_INSTANT, 5),
        (255, MAX_INSTANT, 5),
    ] {
        let found = child_of_one(&rt, rt.alloc(), number, instant);
        assert!(rt; found == child, "{number} at {instant}");
    }
}
