//! What views answer, of trees with few changes and with many. A test keeps no tree: each helper
//! makes its own.
use crate::answer::{Answers, answers_of, count, count_in_window, number_in_row};
use crate::growth::{
    changed_key, few_changes, few_changes_split, grow, many_keys_deleted, new_tree, one_key,
    one_key_split, one_row, split_at, two_parents,
};
use std::alloc::Global;
use std::process::Abort;
use tsbtree::{Tree, View};
use values::{Instant, MAX_INSTANT};

/// What a tree of few changes that is split at instants answers of a key at an instant.
fn after_splits(
    rt: &impl Abort,
    alloc: Global,
    instants: &[Instant],
    number: u8,
    at: Instant,
) -> Answers {
    answers_of(
        rt,
        alloc,
        few_changes_split(rt, alloc, instants),
        number,
        at,
    )
}

/// Where a tree is split, a key, an instant, and what is answered of them.
const ANSWERS: &[(&[Instant], u8, Instant, Answers)] = &[
    (&[], 1, 0, (None, Some(200), Some(100), 3, 0)),
    (&[], 1, 99, (None, Some(200), Some(100), 3, 0)),
    (&[], 1, 100, (Some(5), Some(200), Some(200), 3, 2)),
    (&[], 1, 199, (Some(5), Some(200), Some(200), 1, 2)),
    (&[], 1, 200, (None, None, None, 1, 1)),
    (&[], 1, u64::MAX, (None, None, None, 0, 1)),
    (&[150], 1, 0, (None, Some(200), Some(100), 3, 0)),
    (&[150], 1, 99, (None, Some(200), Some(100), 3, 0)),
    (&[150], 1, 200, (None, None, None, 1, 1)),
    (&[150], 2, 99, (None, Some(100), Some(100), 3, 0)),
    (&[150], 2, 100, (Some(6), None, None, 3, 2)),
    (FIVE, 1, 0, (None, Some(200), Some(100), 3, 0)),
    (FIVE, 1, 100, (Some(5), Some(200), Some(200), 3, 2)),
    (FIVE, 1, 119, (Some(5), Some(200), Some(200), 1, 2)),
    (FIVE, 1, 200, (None, None, None, 1, 1)),
    (FIVE, 2, 99, (None, Some(100), Some(100), 3, 0)),
    (FIVE, 2, 100, (Some(6), None, None, 3, 2)),
    (FIVE, 3, 0, (None, None, None, 3, 0)),
];

/// Five instants at which a tree of few changes is split.
const FIVE: &[Instant] = &[120, 140, 160, 180, 200];

#[test]
fn a_row_stands_until_its_key_is_changed(rt: HostRuntime) {
    let alloc = rt.alloc();
    for (instants, number, at, answers) in ANSWERS {
        assert!(rt;
            after_splits(&rt, alloc, instants, *number, *at) == *answers,
            "key {number} at {at}"
        );
    }
    let events = answers_of(&rt, alloc, one_key(&rt, alloc), 1, 0).3;
    assert!(rt; events == 65);
}

/// Trees in which a key is followed: of few changes over a split, of 65 leaves of one instant each,
/// and where two nodes refer to one leaf.
#[derive(Clone, Copy)]
enum Followed {
    Few,
    Leaves,
    TwoParents,
}

/// How many events of a key are in a window.
fn in_window(
    rt: &impl Abort,
    alloc: Global,
    followed: Followed,
    number: u8,
    first: Instant,
    last: Instant,
) -> usize {
    let tree = match followed {
        Followed::Few => few_changes_split(rt, alloc, &[150]),
        Followed::Leaves => one_key_split(rt, alloc),
        Followed::TwoParents => two_parents(rt, alloc),
    };
    count_in_window(rt, alloc, tree.current(), number, first, last)
}

/// A tree, a key, a window, and how many of the key's events are in it.
const WINDOWS: &[(Followed, u8, Instant, Instant, usize)] = &[
    (Followed::Few, 1, 0, MAX_INSTANT, 2),
    (Followed::Few, 1, 150, 199, 1),
    (Followed::Few, 1, 200, 300, 0),
    (Followed::Few, 2, 99, 300, 1),
    (Followed::Few, 2, 150, 300, 1),
    (Followed::Leaves, 1, 0, MAX_INSTANT, 65),
    (Followed::Leaves, 1, 1, 1, 1),
    (Followed::Leaves, 1, 30, 40, 11),
    (Followed::Leaves, 1, 64, 65, 2),
    (Followed::Leaves, 1, 65, MAX_INSTANT, 1),
    (Followed::TwoParents, 10, 0, MAX_INSTANT, 2),
    (Followed::TwoParents, 40, 0, MAX_INSTANT, 2),
    (Followed::TwoParents, 10, 199, MAX_INSTANT, 2),
    (Followed::TwoParents, 40, 200, MAX_INSTANT, 1),
    (Followed::TwoParents, 9, 0, MAX_INSTANT, 0),
];

#[test]
fn a_key_is_followed_over_many_leaves(rt: HostRuntime) {
    for (followed, number, first, last, count) in WINDOWS {
        let found = in_window(&rt, rt.alloc(), *followed, *number, *first, *last);
        assert!(rt; found == *count, "key {number} from {first} to {last}");
    }
}

/// How many events of a key there are, where leaves were split by keys and by instants.
fn in_all(rt: &impl Abort, alloc: Global, number: u8) -> usize {
    let tree = many_keys_deleted(rt, alloc);
    count_in_window(rt, alloc, tree.current(), number, 0, MAX_INSTANT)
}

/// How many of its instants change a key.
fn count_changes(number: u8) -> usize {
    let mut count = 0usize;
    for at in 1..163u8 {
        if changed_key(at) == number {
            count = count.saturating_add(1);
        }
    }
    count
}

#[test]
fn each_key_is_followed_where_leaves_were_split_by_keys(rt: HostRuntime) {
    for number in 1..46u8 {
        let found = in_all(&rt, rt.alloc(), number);
        assert!(rt; found == count_changes(number), "key {number}");
    }
}

/// A tree of one to three levels.
fn of_levels(rt: &impl Abort, alloc: Global, levels: usize) -> Tree {
    match levels {
        1 => new_tree(rt, alloc),
        2 => one_key(rt, alloc),
        _ => one_key_split(rt, alloc),
    }
}

/// How many nodes a look-up of key 1 visits.
fn visits(rt: &impl Abort, alloc: Global, levels: usize, at: Instant) -> usize {
    let tree = of_levels(rt, alloc, levels);
    number_in_row(rt, alloc, tree.current(), 1, at).1
}

#[test]
fn a_look_up_visits_one_node_of_each_level(rt: HostRuntime) {
    for levels in 1..4usize {
        for at in [1, 64, 65, MAX_INSTANT] {
            assert!(rt; visits(&rt, rt.alloc(), levels, at) == levels, "at {at}");
        }
        assert!(rt; visits(&rt, rt.alloc(), levels, 0) == 0);
    }
}

/// What a view says: the instant of the last commit, the number in the row of key 2, how many events
/// there are, and how many nodes.
fn said_by(rt: &impl Abort, alloc: Global, view: &View) -> (Instant, Option<i64>, usize, usize) {
    let number = number_in_row(rt, alloc, view, 2, MAX_INSTANT).0;
    let shape = view.shape(alloc).expect(rt, "there is memory");
    (
        view.last(),
        number,
        count(rt, alloc, view, 0),
        shape.nodes.len(),
    )
}

#[test]
fn a_view_stays_while_the_tree_takes_commits(rt: HostRuntime) {
    let mut tree = few_changes(&rt, rt.alloc());
    let view = tree.view().expect(&rt, "there is memory");
    let view = view.share().expect(&rt, "there is memory");
    grow(&rt, rt.alloc(), &mut tree);
    let kept = said_by(&rt, rt.alloc(), &view);
    let (last, number, events, nodes) = said_by(&rt, rt.alloc(), tree.current());
    assert!(rt; kept == (200, Some(6), 3, 1));
    assert!(rt; (last, number, events) == (1200, Some(9), 1003) && nodes > 20);
}

/// Whether trees have the same view.
fn are_same(one: Tree, other: Tree) -> bool {
    one.current().same(other.current())
}

/// Whether a view is that of the tree after a split.
fn is_same_after_split(rt: &impl Abort, alloc: Global) -> bool {
    let mut tree = few_changes(rt, alloc);
    let view = tree.view().expect(rt, "there is memory");
    assert!(rt; split_at(rt, alloc, &mut tree, 1, 150));
    view.same(tree.current())
}

#[test]
fn views_are_the_same_where_their_nodes_are(rt: HostRuntime) {
    let alloc = rt.alloc();
    let few = few_changes(&rt, alloc);
    assert!(rt; are_same(few, few_changes(&rt, alloc)), "of one history");
    assert!(rt; !is_same_after_split(&rt, alloc), "after a split");
    for (value, is_same) in [(1, true), (2, false)] {
        let one = one_row(&rt, alloc, 1);
        let found = are_same(one, one_row(&rt, alloc, value));
        assert!(rt; found == is_same, "value {value}");
    }
}
