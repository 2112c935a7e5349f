//! Nodes of history are found, packed and installed.

use crate::sample::{ask, begin, by, commit, empty_engine, one_row, schema};
use std::alloc::Global;
use std::process::Abort;
use tsbtree::View;
use validation::{Cut, Engine, Job, PackedNode, find_job, pack_job};
use values::{Form, Instant, KeyBytes, Keys, Write};

/// Commits the insertion of an employee at an instant, and splits the one current node there.
fn commit_and_split(rt: &impl Abort, alloc: Global, engine: &mut Engine, number: i64, at: Instant) {
    let rows = one_row(rt, alloc, number, "Ann");
    let schema = schema(rt, alloc);
    commit(rt, alloc, &schema, engine, Write::Insert(1, &rows), at);
    let cut = Cut::Time(KeyBytes::least(alloc), at);
    assert!(rt; engine.split(&cut).expect(rt, "there is memory"));
}

/// Two nodes of history: one from 1 to 100 without events, and one from 100 to 200 with the first
/// employee's.
fn with_history(rt: &impl Abort, alloc: Global) -> Engine {
    let mut engine = empty_engine(rt, alloc);
    commit_and_split(rt, alloc, &mut engine, 1, 100);
    commit_and_split(rt, alloc, &mut engine, 2, 200);
    engine
}

/// The node that is to be packed after that of a job, or the first one.
fn job_after(rt: &impl Abort, view: &View, job: Option<&Job>) -> Option<Job> {
    find_job(view, job.map(Job::rect)).expect(rt, "there is memory")
}

/// The start of the node after that of a job, and whether there is one more.
fn start_after(rt: &impl Abort, view: &View, job: &Job) -> (Instant, bool) {
    let next = job_after(rt, view, Some(job)).expect(rt, "another node is unpacked");
    let is_more = job_after(rt, view, Some(&next)).is_some();
    (next.rect().time().from, is_more)
}

#[test]
fn jobs_are_found_in_turn(rt: HostRuntime) {
    let view = begin(&rt, &with_history(&rt, rt.alloc()));
    let first = job_after(&rt, &view, None).expect(&rt, "a node is unpacked");
    assert!(rt; first.rect().time().from == 1);
    assert!(rt; start_after(&rt, &view, &first) == (100, false));
}

/// The first node that is to be packed, packed.
fn pack_first(rt: &impl Abort, alloc: Global, engine: &Engine) -> PackedNode {
    let job = job_after(rt, &begin(rt, engine), None);
    let job = job.expect(rt, "a node is unpacked");
    pack_job(alloc, job).expect(rt, "there is memory")
}

/// Packs a node from an instant with so many events, as its block has: it is installed, and then a
/// copy of it is not.
fn install_twice(
    rt: &impl Abort,
    alloc: Global,
    engine: &mut Engine,
    from: Instant,
    events: usize,
) {
    let packed = pack_first(rt, alloc, engine);
    assert!(rt; packed.rect().time().from == from);
    assert!(rt; packed.node().len() == events && packed.block().len() == events);
    let copy = packed.copy().expect(rt, "there is memory");
    assert!(rt; engine.install(packed).expect(rt, "there is memory"));
    assert!(rt; !engine.install(copy).expect(rt, "there is memory"));
}

/// Two nodes of history, both packed.
fn with_packed_history(rt: &impl Abort, alloc: Global) -> Engine {
    let mut engine = with_history(rt, alloc);
    install_twice(rt, alloc, &mut engine, 1, 0);
    install_twice(rt, alloc, &mut engine, 100, 1);
    engine
}

#[test]
fn each_node_of_history_is_installed_once(rt: HostRuntime) {
    let engine = with_packed_history(&rt, rt.alloc());
    assert!(rt; job_after(&rt, engine.tree().current(), None).is_none());
}

/// Queries of all employees, or of one: how many rows are shown, and how many blocks the cache keeps
/// then.
const QUERIES: &[(Option<i64>, Form, usize, usize)] = &[
    (None, Form::AsOf(150), 1, 1),
    (None, Form::Between(1, 200), 2, 2),
    (None, Form::AsOf(200), 2, 0),
    (None, Form::Plain, 2, 0),
    (Some(1), Form::AsOf(99), 0, 0),
    (Some(1), Form::AsOf(100), 1, 0),
    (Some(1), Form::AsOf(199), 1, 0),
    (Some(1), Form::AsOf(200), 1, 0),
    (Some(2), Form::AsOf(199), 0, 0),
    (Some(2), Form::AsOf(200), 1, 0),
];

#[test]
fn one_key_of_packed_history_is_looked_up_without_the_cache(rt: HostRuntime) {
    let alloc = rt.alloc();
    let engine = with_packed_history(&rt, alloc);
    for (number, form, shown, blocks) in QUERIES {
        let keys = match number {
            Some(number) => by(&rt, alloc, 1, *number),
            None => Keys::all(alloc, 1),
        };
        let found = ask(&rt, alloc, engine.tree().current(), *form, &keys);
        assert!(rt; found == (*shown, *blocks), "{number:?} {form:?}");
    }
}
