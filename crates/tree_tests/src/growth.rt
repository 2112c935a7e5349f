//! Trees that grow. The run ends where memory runs out.
ghost use Rattle.std.specs.Prelude.{◌<◌, ◌≤◌, ◌↔◌, IsTrue, length};
ghost use Rattle.values.specs.Commits.{max_instant};
ghost use Rattle.treegrowth.specs.Commit.{IsCommit};
ghost use Rattle.tsbtree.specs.View.{last};

use crate::sample::row_key;
use std::alloc::Global;
use std::process::Abort;
use tsbtree::Tree;
use values::{Event, Instant, MAX_INSTANT, Row, Value};

fn row(rt: &impl Abort, alloc: Global, value: i64) -> Option<Row> {
    Row::new(vec![in alloc; Value::Int(value)].expect(rt, "there is memory"))
}

fn event(rt: &impl Abort, alloc: Global, number: u8, at: Instant, row: Option<Row>) -> Event {
    let made = Event::new(row_key(rt, alloc, number), at, row);
    made.expect(rt, "the key is not empty")
}

/// One change of an instant, to be committed.
fn one_event(rt: &impl Abort, alloc: Global, at: Instant, event: Event) -> Vec<Event>
    ensures commit { IsCommit at result.items }
{
    assert!(rt; event.at() == at);
    vec![in alloc; event].expect(rt, "there is memory")
}

/// Two changes of an instant, by key, to be committed.
fn two_events(
    rt: &impl Abort,
    alloc: Global,
    at: Instant,
    first: Event,
    second: Event,
) -> Vec<Event>
    ensures commit { IsCommit at result.items }
    ensures two { 0 < length result.items }
{
    assert!(rt; first.at() == at && second.at() == at);
    assert!(rt; first.order(&second).is_lt());
    vec![in alloc; first, second].expect(rt, "there is memory")
}

/// Rows 5 and 6 of two keys from an instant on, to be committed.
pub(crate) fn two_rows(rt: &impl Abort, alloc: Global, at: Instant, low: u8, high: u8) -> Vec<Event>
    ensures commit { IsCommit at result.items }
    ensures two { 0 < length result.items }
{
    let first = event(rt, alloc, low, at, row(rt, alloc, 5));
    let second = event(rt, alloc, high, at, row(rt, alloc, 6));
    two_events(rt, alloc, at, first, second)
}

fn is_next(tree: &Tree, at: Instant) -> bool
    ensures { IsTrue result ↔ ((last tree.now < at) × (at ≤ max_instant)) }
{
    tree.current().last() < at && at <= MAX_INSTANT
}

/// Commits rows of two keys.
fn put_two(rt: &impl Abort, alloc: Global, tree: &mut Tree, at: Instant, low: u8, high: u8) {
    assert!(rt; is_next(tree, at));
    let done = tree.apply(at, two_rows(rt, alloc, at, low, high));
    done.expect(rt, "there is memory");
}

/// Commits an event.
fn commit(rt: &impl Abort, alloc: Global, tree: &mut Tree, at: Instant, event: Event) {
    assert!(rt; is_next(tree, at));
    let done = tree.apply(at, one_event(rt, alloc, at, event));
    done.expect(rt, "there is memory");
}

/// Commits a row of a key.
fn put(rt: &impl Abort, alloc: Global, tree: &mut Tree, at: Instant, number: u8, value: i64) {
    let change = event(rt, alloc, number, at, row(rt, alloc, value));
    commit(rt, alloc, tree, at, change);
}

/// Commits that a key is deleted.
fn delete(rt: &impl Abort, alloc: Global, tree: &mut Tree, at: Instant, number: u8) {
    let deletion = event(rt, alloc, number, at, None);
    commit(rt, alloc, tree, at, deletion);
}

/// Splits the current data node of a key at an instant, where it can be.
pub(crate) fn split_at(
    rt: &impl Abort,
    alloc: Global,
    tree: &mut Tree,
    number: u8,
    at: Instant,
) -> bool {
    let done = tree.time_split(&row_key(rt, alloc, number), at);
    done.expect(rt, "there is memory")
}

/// Splits the current data node of a key there, where it can be.
pub(crate) fn split_before(rt: &impl Abort, alloc: Global, tree: &mut Tree, number: u8) -> bool {
    let done = tree.key_split(&row_key(rt, alloc, number));
    done.expect(rt, "there is memory")
}

/// A tree with no commit.
pub(crate) fn new_tree(rt: &impl Abort, alloc: Global) -> Tree {
    Tree::new(alloc).expect(rt, "there is memory")
}

/// One row of key 1.
pub(crate) fn one_row(rt: &impl Abort, alloc: Global, value: i64) -> Tree {
    let mut tree = new_tree(rt, alloc);
    put(rt, alloc, &mut tree, 100, 1, value);
    tree
}

/// Key 1 has one row at 100 and at 200, and the data node is split at 200.
pub(crate) fn two_versions(rt: &impl Abort, alloc: Global, value: i64) -> Tree {
    let mut tree = one_row(rt, alloc, value);
    put(rt, alloc, &mut tree, 200, 1, value);
    assert!(rt; split_at(rt, alloc, &mut tree, 1, 200));
    tree
}

/// Keys 1 and 2 have rows from 100 on, and key 1 is deleted at 200.
pub(crate) fn few_changes(rt: &impl Abort, alloc: Global) -> Tree {
    let mut tree = new_tree(rt, alloc);
    put_two(rt, alloc, &mut tree, 100, 1, 2);
    delete(rt, alloc, &mut tree, 200, 1);
    tree
}

/// The same, split at instants.
pub(crate) fn few_changes_split(rt: &impl Abort, alloc: Global, instants: &[Instant]) -> Tree {
    let mut tree = few_changes(rt, alloc);
    for at in instants {
        assert!(rt; split_at(rt, alloc, &mut tree, 1, *at));
    }
    tree
}

/// Key 1 is changed at 65 instants.
pub(crate) fn one_key(rt: &impl Abort, alloc: Global) -> Tree {
    let mut tree = new_tree(rt, alloc);
    for at in 1..66u64 {
        put(rt, alloc, &mut tree, at, 1, 7);
    }
    tree
}

/// The same, and at each instant but the first the data node is split there.
pub(crate) fn one_key_split(rt: &impl Abort, alloc: Global) -> Tree {
    let mut tree = new_tree(rt, alloc);
    for at in 1..66u64 {
        put(rt, alloc, &mut tree, at, 1, 7);
        assert!(rt; split_at(rt, alloc, &mut tree, 1, at) == (at > 1));
    }
    tree
}

/// Keys 10 and 40 are changed at two instants, the data node is split at the second, and then at
/// many keys: a historical node has two parents.
pub(crate) fn two_parents(rt: &impl Abort, alloc: Global) -> Tree {
    let mut tree = new_tree(rt, alloc);
    put_two(rt, alloc, &mut tree, 100, 10, 40);
    put_two(rt, alloc, &mut tree, 200, 10, 40);
    assert!(rt; split_at(rt, alloc, &mut tree, 10, 200));
    for number in 2..65u8 {
        assert!(rt; split_before(rt, alloc, &mut tree, number));
    }
    tree
}

/// 45 keys are inserted, and changed in turn.
fn many_keys(rt: &impl Abort, alloc: Global) -> Tree {
    let mut tree = new_tree(rt, alloc);
    for number in 1..46u8 {
        put(rt, alloc, &mut tree, u64::from(number), number, 1);
    }
    for at in 46..161u8 {
        put(rt, alloc, &mut tree, u64::from(at), turn(at), 2);
    }
    tree
}

/// Which of 45 keys is changed at an instant.
fn turn(at: u8) -> u8 {
    let place = u16::from(at) * 7 % 45 + 1;
    place as u8
}

/// The same, then key 30 is deleted at 161 and key 1 changed at 162. The current data node of key
/// 30 is split at key 28, and behind the deletion.
pub(crate) fn many_keys_deleted(rt: &impl Abort, alloc: Global) -> Tree {
    let mut tree = many_keys(rt, alloc);
    delete(rt, alloc, &mut tree, 161, 30);
    put(rt, alloc, &mut tree, 162, 1, 3);
    assert!(rt; split_before(rt, alloc, &mut tree, 28));
    assert!(rt; split_at(rt, alloc, &mut tree, 30, 162));
    tree
}

/// Which key is changed in it at an instant, from 1 to 162.
pub(crate) fn changed_key(at: u8) -> u8 {
    match at {
        0..46 => at,
        46..161 => turn(at),
        161 => 30,
        _ => 1,
    }
}

/// One row of key 1, from the greatest instant on.
pub(crate) fn last_row(rt: &impl Abort, alloc: Global) -> Tree {
    let mut tree = new_tree(rt, alloc);
    put(rt, alloc, &mut tree, MAX_INSTANT, 1, 5);
    tree
}

/// Changes 50 keys in turn at 1,000 instants after 200.
pub(crate) fn grow(rt: &impl Abort, alloc: Global, tree: &mut Tree) {
    for at in 201..1201u64 {
        put(rt, alloc, tree, at, (at % 50) as u8, 9);
    }
}
