//! Employees, and transactions that write and show them. The run ends where memory does.

use staging::Staged;
use std::alloc::Global;
use std::process::Abort;
use steps::{Listing, fit_keys, fit_write};
use systime_query::BlockCache;
use transaction::listing_of;
use tsbtree::View;
use validation::Engine;
use values::{
    Chars, Comparison, Form, Instant, Keys, Mem, Operator, Row, Schema, Set, Value, Write,
};

/// The table of employees, alone.
pub(crate) fn schema(rt: &impl Abort, alloc: Global) -> Schema {
    Schema::sample(alloc).expect(rt, "there is memory")
}

fn text(rt: &impl Abort, alloc: Global, name: &str) -> Value {
    Value::Text(Chars::copy_of(alloc, name).expect(rt, "the name is short"))
}

pub(crate) fn one_row(rt: &impl Abort, alloc: Global, number: i64, name: &str) -> Vec<Row> {
    let values = vec![in alloc; Value::Int(number), text(rt, alloc, name)];
    let row = Row::new(values.expect(rt, "there is memory"));
    let rows = vec![in alloc; row.expect(rt, "two values are few")];
    rows.expect(rt, "there is memory")
}

/// The keys whose column has this number.
pub(crate) fn by(rt: &impl Abort, alloc: Global, column: usize, number: i64) -> Keys {
    let comparison = Comparison {
        column,
        operator: Operator::Equal,
        value: Value::Int(number),
    };
    Keys::of_comparison(alloc, 1, comparison).expect(rt, "there is memory")
}

/// What sets the name.
pub(crate) fn sets(rt: &impl Abort, alloc: Global, name: &str) -> Vec<Set> {
    let set = Set {
        column: 2,
        value: text(rt, alloc, name),
    };
    vec![in alloc; set].expect(rt, "there is memory")
}

pub(crate) fn empty_engine(rt: &impl Abort, alloc: Global) -> Engine {
    Engine::new(alloc).expect(rt, "there is memory")
}

pub(crate) fn begin(rt: &impl Abort, engine: &Engine) -> View {
    engine.begin().expect(rt, "there is memory")
}

/// Ends a transaction over a view with one write, which meets one row.
pub(crate) fn end(
    rt: &impl Abort,
    alloc: Global,
    schema: &Schema,
    engine: &mut Engine,
    view: &View,
    write: Write<'_>,
    reading: Instant,
) -> Mem<Option<Instant>> {
    let write = fit_write(schema, 1, write).expect(rt, "it fits");
    let mut staged = Staged::new(alloc).expect(rt, "there is memory");
    assert!(rt; staged.write(view, write).expect(rt, "it is written") == 1);
    let net = staged.net(view).expect(rt, "there is memory");
    engine.commit(schema, view.last(), net, reading)
}

/// Commits a write in a transaction of its own, at an instant.
pub(crate) fn commit(
    rt: &impl Abort,
    alloc: Global,
    schema: &Schema,
    engine: &mut Engine,
    write: Write<'_>,
    at: Instant,
) {
    let view = begin(rt, engine);
    let done = end(rt, alloc, schema, engine, &view, write, at);
    assert!(rt; done.expect(rt, "it is committed") == Some(at));
}

/// How many rows a listing has.
pub(crate) fn count(rt: &impl Abort, listing: Mem<Listing>) -> usize {
    match listing.expect(rt, "there is memory") {
        Listing::Rows(rows) => rows.items().len(),
        Listing::Periods(shown) => shown.items().len(),
    }
}

/// How many rows a query shows outside any transaction, and how many blocks the cache keeps then that
/// was handed to it.
pub(crate) fn ask(
    rt: &impl Abort,
    alloc: Global,
    view: &View,
    form: Form,
    keys: &Keys,
) -> (usize, usize) {
    let schema = schema(rt, alloc);
    let keys = fit_keys(&schema, 1, keys).expect(rt, "they fit");
    let mut cache = BlockCache::new(alloc);
    let shown = count(rt, listing_of(alloc, &mut cache, view, form, keys));
    (shown, cache.len())
}
