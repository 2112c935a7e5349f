//! A node of all keys from instant 1 on: a historical reference before instant 200, and two current
//! ones from it on that meet at key 33.
ghost use Rattle.std.specs.Prelude.{◌≡◌, None, All};
ghost use Rattle.keyrange.specs.Rect.{IsInside};
ghost use Rattle.keyrange.specs.Cut.{AreHalves};
ghost use Rattle.indexnode.specs.Node.{Tiles};
ghost use Rattle.indexnode.specs.Split.{AreCurrentIn};
ghost use Rattle.indexnode.specs.Replacement.{HasRect};

use crate::sample::{all, copy, count, key, key_halves, time_halves};
use indexnode::{IndexNode, Reference, pair, single};
use keyrange::Rect;
use slots::Share;
use std::alloc::Global;
use std::process::Abort;
use values::{Instant, Mem};

/// References to a child for each half of a rectangle.
fn two_references<C: Drop>(
    rt: &impl Abort,
    alloc: Global,
    area: &Rect,
    halves: (Rect, Rect),
    first: C,
    second: C,
) -> Vec<Reference<C>>
    requires { AreHalves area.now halves.0 halves.1 }
    ensures tiles { Tiles area.now result.items }
    ensures inside { All (λ r. IsInside r.rect area.now) result.items }
{
    let first = Reference {
        rect: halves.0,
        child: first,
    };
    let second = Reference {
        rect: halves.1,
        child: second,
    };
    let Ok(references) = pair(alloc, first, second) else {
        panic!(rt; "there is memory")
    };
    references
}

/// The node over a historical child and a current one.
fn two_children<C: Drop>(rt: &impl Abort, alloc: Global, historical: C, current: C) -> IndexNode<C>
    ensures tiled { Tiles result.rect result.references.items }
    ensures current { AreCurrentIn result.rect result.references.items }
{
    let area = all(rt, alloc, 1, None);
    let halves = time_halves(rt, &area, 200);
    let references = two_references(rt, alloc, &area, halves, historical, current);
    let Ok(node) = IndexNode::new(alloc, area, references) else {
        panic!(rt; "there is memory")
    };
    node
}

/// Puts two children that meet at key 33 in the place of the current one of a node.
fn put_two_current<C: Drop>(
    rt: &impl Abort,
    alloc: Global,
    node: &mut IndexNode<C>,
    low: C,
    high: C,
)
    requires tiled { Tiles node.old.rect node.old.references.items }
    requires current { AreCurrentIn node.old.rect node.old.references.items }
    ensures tiled { Tiles node.new.rect node.new.references.items }
    ensures current { AreCurrentIn node.new.rect node.new.references.items }
{
    let area = all(rt, alloc, 200, None);
    let halves = key_halves(rt, &area, &key(rt, alloc, 33));
    let references = two_references(rt, alloc, &area, halves, low, high);
    let done = node.replace(&area, references);
    assert!(rt; done.expect(rt, "there is memory"));
}

fn numbers(rt: &impl Abort, alloc: Global) -> IndexNode<usize>
    ensures tiled { Tiles result.rect result.references.items }
    ensures current { AreCurrentIn result.rect result.references.items }
{
    let mut node = two_children(rt, alloc, 1, 7);
    put_two_current(rt, alloc, &mut node, 2, 3);
    node
}

/// The numbers below a node, a digit for each.
fn digits(node: &IndexNode<usize>) -> usize {
    let mut digits: usize = 0;
    for reference in node.references() {
        digits = digits.saturating_mul(10).saturating_add(reference.child);
    }
    digits
}

fn count_meeting(rt: &impl Abort, alloc: Global, from: Instant, to: Option<Instant>) -> usize {
    let node = numbers(rt, alloc);
    count(rt, node.meeting(alloc, &all(rt, alloc, from, to)))
}

#[test]
fn references_that_meet_a_rectangle_are_found(rt: HostRuntime) {
    for (from, to, count) in [(150, Some(250), 3), (150, Some(200), 1), (200, None, 2)] {
        let found = count_meeting(&rt, rt.alloc(), from, to);
        assert!(rt; found == count, "from {from}");
    }
}

/// The child at a point, or 0 where the node has no such point.
fn child_at(rt: &impl Abort, alloc: Global, number: u8, instant: Instant) -> usize {
    let node = numbers(rt, alloc);
    let key = key(rt, alloc, number);
    if node.rect().contains(&key, instant) {
        node.find(&key, instant).child
    } else {
        0
    }
}

#[test]
fn a_point_has_one_reference(rt: HostRuntime) {
    for (number, instant, child) in [
        (33, 0, 0),
        (33, 1, 1),
        (32, 199, 1),
        (33, 199, 1),
        (32, 200, 2),
        (33, 200, 3),
        (255, 9000, 3),
    ] {
        let found = child_at(&rt, rt.alloc(), number, instant);
        assert!(rt; found == child, "{number} at {instant}");
    }
}

/// The halves at the middle key.
fn halves_by_key<C: Share + Drop>(
    rt: &impl Abort,
    alloc: Global,
    node: &IndexNode<C>,
) -> (IndexNode<C>, IndexNode<C>)
    requires tiled { Tiles node.now.rect node.now.references.items }
    requires current { AreCurrentIn node.now.rect node.now.references.items }
{
    assert!(rt; node.current_count() >= 2);
    let Ok(Some(cut)) = node.middle_key(alloc) else {
        panic!(rt; "there is a middle key")
    };
    node.split_key(&cut).expect(rt, "there is memory")
}

/// The numbers below both halves.
fn digits_by_key(rt: &impl Abort, alloc: Global) -> (usize, usize) {
    let (low, high) = halves_by_key(rt, alloc, &numbers(rt, alloc));
    (digits(&low), digits(&high))
}

#[test]
fn both_halves_of_a_split_by_key_have_what_crosses_it(rt: HostRuntime) {
    assert!(rt; digits_by_key(&rt, rt.alloc()) == (12, 13));
}

/// The numbers below both halves at the least start of a current reference.
fn digits_by_time(rt: &impl Abort, node: &IndexNode<usize>) -> (usize, usize) {
    let Some(cut) = node.least_current_start() else {
        panic!(rt; "there is a current reference")
    };
    let time = node.rect().time();
    assert!(rt; time.from < cut && time.to.is_none());
    let (past, now) = node.split_time(cut).expect(rt, "there is memory");
    (digits(&past), digits(&now))
}

/// The least start of a current reference, how many of these there are, and how many stay at 200
/// and at 199; and the numbers below both halves at that start.
type Counts = (Option<Instant>, usize, usize, usize, (usize, usize));

fn counts(rt: &impl Abort, alloc: Global) -> Counts {
    let node = numbers(rt, alloc);
    (
        node.least_current_start(),
        node.current_count(),
        node.stay_count(200),
        node.stay_count(199),
        digits_by_time(rt, &node),
    )
}

#[test]
fn a_split_by_time_parts_the_past_from_the_current_ones(rt: HostRuntime) {
    assert!(rt; counts(&rt, rt.alloc()) == (Some(200), 2, 2, 3, (1, 23)));
}

/// Whether two halves at 100 took the place of a reference of all keys from 1 to an instant.
fn replace(rt: &impl Abort, alloc: Global, node: &mut IndexNode<usize>, to: Instant) -> bool {
    let area = all(rt, alloc, 1, Some(to));
    let halves = time_halves(rt, &area, 100);
    let references = two_references(rt, alloc, &area, halves, 8, 9);
    let done = node.replace(&area, references);
    done.expect(rt, "there is memory")
}

/// The same to 150 and then to 200, each with the numbers below the node then.
fn replace_twice(rt: &impl Abort, alloc: Global) -> ((bool, usize), (bool, usize)) {
    let mut node = numbers(rt, alloc);
    let first = replace(rt, alloc, &mut node, 150);
    let kept = digits(&node);
    let second = replace(rt, alloc, &mut node, 200);
    ((first, kept), (second, digits(&node)))
}

#[test]
fn references_take_the_place_of_the_one_that_has_the_rectangle(rt: HostRuntime) {
    assert!(rt; replace_twice(&rt, rt.alloc()) == ((false, 123), (true, 8923)));
}

/// A child that is not a number.
#[derive(Drop)]
struct Leaf {
    name: u64,
    is_packed: bool,
}

impl Share for Leaf {
    fn share(&self) -> Mem<Leaf> {
        Ok(Leaf {
            name: self.name,
            is_packed: self.is_packed,
        })
    }
}

fn named_leaf(name: u64, is_packed: bool) -> Leaf {
    Leaf { name, is_packed }
}

fn leaves(rt: &impl Abort, alloc: Global) -> IndexNode<Leaf>
    ensures tiled { Tiles result.rect result.references.items }
    ensures current { AreCurrentIn result.rect result.references.items }
{
    let mut node = two_children(rt, alloc, named_leaf(1, true), named_leaf(7, false));
    put_two_current(
        rt,
        alloc,
        &mut node,
        named_leaf(2, false),
        named_leaf(3, false),
    );
    node
}

/// The sum of the names below a node, and how many are packed.
fn sums(node: &IndexNode<Leaf>) -> (u64, usize) {
    let mut names: u64 = 0;
    let mut packed: usize = 0;
    for reference in node.references() {
        names = names.saturating_add(reference.child.name);
        packed = packed.saturating_add(usize::from(reference.child.is_packed));
    }
    (names, packed)
}

/// The sums of both halves at the middle key.
fn sums_by_key(rt: &impl Abort, alloc: Global) -> ((u64, usize), (u64, usize)) {
    let (low, high) = halves_by_key(rt, alloc, &leaves(rt, alloc));
    (sums(&low), sums(&high))
}

#[test]
fn each_half_has_each_reference_with_its_child(rt: HostRuntime) {
    assert!(rt; sums_by_key(&rt, rt.alloc()) == ((3, 1), (4, 1)));
}

fn node_over<C: Drop>(
    rt: &impl Abort,
    alloc: Global,
    area: Rect,
    references: Vec<Reference<C>>,
) -> IndexNode<C>
    requires { Tiles area references.items }
    ensures rect { result.rect ≡ area }
    ensures references { result.references.items ≡ references.items }
{
    let Ok(node) = IndexNode::new(alloc, area, references) else {
        panic!(rt; "there is memory")
    };
    node
}

/// A node over one child.
fn one_child(rt: &impl Abort, alloc: Global, area: &Rect) -> IndexNode<usize>
    ensures { HasRect area.now result.references.items }
{
    let rect = copy(rt, area);
    let Ok(references) = single(alloc, Reference { rect, child: 5 }) else {
        panic!(rt; "there is memory")
    };
    node_over(rt, alloc, copy(rt, area), references)
}

/// How many references it has, and the numbers below it with two halves in the place of its child.
fn halves_over_one(rt: &impl Abort, alloc: Global) -> (usize, usize) {
    let area = all(rt, alloc, 1, None);
    let (before, after) = time_halves(rt, &area, 100);
    let first = Reference {
        rect: before,
        child: 6,
    };
    let second = Reference {
        rect: after,
        child: 7,
    };
    let node = one_child(rt, alloc, &area);
    let halves = node.with_references(&area, first, second);
    (
        node.references().len(),
        digits(&halves.expect(rt, "there is memory")),
    )
}

#[test]
fn halves_take_the_place_of_their_whole_in_a_copy(rt: HostRuntime) {
    assert!(rt; halves_over_one(&rt, rt.alloc()) == (1, 67));
}

fn digits_of_copy(rt: &impl Abort, alloc: Global) -> usize {
    let copy = numbers(rt, alloc).copy();
    digits(&copy.expect(rt, "there is memory"))
}

#[test]
fn a_copy_has_the_same_children(rt: HostRuntime) {
    assert!(rt; digits_of_copy(&rt, rt.alloc()) == 123);
}
