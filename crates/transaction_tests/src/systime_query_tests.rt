//! One employee after the last instant that a line can name.

use crate::sample::{by, commit, empty_engine, one_row, schema, sets};
use searchrange::Search;
use std::alloc::Global;
use std::process::Abort;
use steps::fit_keys;
use systime_query::{BlockCache, rows_at};
use tsbtree::View;
use validation::Engine;
use values::{Instant, MAX_INSTANT, Schema, ShownRow, Value, Write};

/// Calls the employee with the number 1 Bea, from 200 on.
fn rename(rt: &impl Abort, alloc: Global, schema: &Schema, engine: &mut Engine) {
    let one = by(rt, alloc, 1, 1);
    let sets = sets(rt, alloc, "Bea");
    let write = Write::Update(&one, &sets);
    commit(rt, alloc, schema, engine, write, 200);
}

/// Ann comes at 100 as number 1, and is Bea from 200 on.
fn ann_then_bea(rt: &impl Abort, alloc: Global) -> Engine {
    let schema = schema(rt, alloc);
    let mut engine = empty_engine(rt, alloc);
    let rows = one_row(rt, alloc, 1, "Ann");
    let write = Write::Insert(1, &rows);
    commit(rt, alloc, &schema, &mut engine, write, 100);
    rename(rt, alloc, &schema, &mut engine);
    engine
}

/// The rows of the employee with a number at an instant.
fn rows_of(rt: &impl Abort, alloc: Global, view: &View, number: i64, at: Instant) -> Vec<ShownRow> {
    let schema = schema(rt, alloc);
    let keys = by(rt, alloc, 1, number);
    let keys = fit_keys(&schema, 1, &keys).expect(rt, "they fit");
    let search = Search::new(alloc, keys).expect(rt, "there is memory");
    let mut cache = BlockCache::new(alloc);
    rows_at(alloc, &mut cache, view, at, &search).expect(rt, "there is memory")
}

/// Whether there is one row, of an employee called Bea.
fn is_bea(rows: &[ShownRow]) -> bool {
    match rows {
        [row] => match row.values() {
            [_number, Value::Text(name)] => name.text() == "Bea",
            _ => false,
        },
        _ => false,
    }
}

#[test]
fn one_employee_is_looked_up_at_an_instant(rt: HostRuntime) {
    let alloc = rt.alloc();
    let engine = ann_then_bea(&rt, alloc);
    for at in &[MAX_INSTANT, u64::MAX] {
        let view = engine.tree().current();
        assert!(rt; is_bea(&rows_of(&rt, alloc, view, 1, *at)), "at {at}");
        assert!(rt; rows_of(&rt, alloc, view, 2, *at).is_empty(), "at {at}");
    }
}
