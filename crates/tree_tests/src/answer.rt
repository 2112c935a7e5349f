//! What views answer, as numbers.
use crate::sample::row_key;
use blocks::InPlace;
use keyrange::KeyRange;
use std::alloc::Global;
use std::process::Abort;
use tsbtree::{Tree, View};
use values::{Instant, KeyBytes, MAX_INSTANT, Mem, Row, SharedEvent, Value};

fn all_keys(alloc: Global) -> KeyRange {
    KeyRange {
        lo: KeyBytes::least(alloc),
        hi: None,
    }
}

/// How many events there are.
fn length(rt: &impl Abort, events: Mem<Vec<SharedEvent>>) -> usize {
    events.expect(rt, "there is memory").len()
}

/// How many events of all keys a view has from an instant on.
pub(crate) fn count(rt: &impl Abort, alloc: Global, view: &View, from: Instant) -> usize {
    length(rt, view.events(alloc, &all_keys(alloc), from, MAX_INSTANT))
}

/// How many rows of all keys stand in a view at an instant.
fn count_standing(rt: &impl Abort, alloc: Global, view: &View, at: Instant) -> usize {
    length(rt, view.standing(alloc, &all_keys(alloc), at))
}

/// How many events of a key a view has in a window.
pub(crate) fn count_in_window(
    rt: &impl Abort,
    alloc: Global,
    view: &View,
    number: u8,
    first: Instant,
    last: Instant,
) -> usize {
    let key = row_key(rt, alloc, number);
    let range = all_keys(alloc);
    if !range.contains(&key) {
        return usize::MAX;
    }
    let mut blocks = InPlace::new(alloc);
    length(
        rt,
        view.key_window(alloc, &mut blocks, &key, &range, first, last),
    )
}

/// The number in a key's row at an instant, and how many nodes were visited.
pub(crate) fn number_in_row(
    rt: &impl Abort,
    alloc: Global,
    view: &View,
    number: u8,
    at: Instant,
) -> (Option<i64>, usize) {
    let key = row_key(rt, alloc, number);
    let (row, visits) = view.get(&key, at).expect(rt, "there is memory");
    let is_there = view.has_row(&key, at).expect(rt, "there is memory");
    assert!(rt; is_there == row.is_some());
    (number_in(row.as_ref()), visits)
}

fn number_in(row: Option<&Row>) -> Option<i64> {
    match row?.values().first() {
        Some(Value::Int(number)) => Some(*number),
        _ => None,
    }
}

/// The number in a key's row at an instant, when the key was last changed after it and when it is
/// next, how many events there are from it on, and how many rows stand.
pub(crate) type Answers = (Option<i64>, Option<Instant>, Option<Instant>, usize, usize);

pub(crate) fn answers(
    rt: &impl Abort,
    alloc: Global,
    view: &View,
    number: u8,
    at: Instant,
) -> Answers {
    let key = row_key(rt, alloc, number);
    (
        number_in_row(rt, alloc, view, number, at).0,
        view.changed_since(&key, at),
        view.next_change(&key, at),
        count(rt, alloc, view, at),
        count_standing(rt, alloc, view, at),
    )
}

/// The same of a tree.
pub(crate) fn answers_of(
    rt: &impl Abort,
    alloc: Global,
    tree: Tree,
    number: u8,
    at: Instant,
) -> Answers {
    answers(rt, alloc, tree.current(), number, at)
}
