//! A table with a period of application time: its spans and fixed columns, and a conflict by entity where its rows are in
//! several nodes.
ghost use Rattle.std.specs.Prelude.{IfOk};
ghost use Rattle.values.specs.TableRules.{HasInstants, IsTable};

use crate::sample::{begin, by, commit, empty_engine, end};
use std::alloc::Global;
use std::process::Abort;
use tsbtree::View;
use validation::{Cut, Engine};
use values::{
    Chars, Column, ColumnType, KeyBytes, Mem, Period, Refusal, Row, Schema, Sequence, Set, Span,
    Table, Value, Write,
};

fn number_column(alloc: Global, name: &str) -> Mem<Column>
    ensures { IfOk result HasInstants }
{
    Ok(Column {
        name: Chars::copy_of(alloc, name)?,
        of: ColumnType::Int,
        not_null: true,
    })
}

/// Tariffs by the time for which they are valid: `tariff (id, a, b, rate)`, whose key is the `id`
/// and the period from `a` to `b`.
fn tariffs(alloc: Global) -> Mem<Table>
    ensures { IfOk result (IsTable 1) }
{
    let mut columns = Vec::new(alloc);
    columns.push(number_column(alloc, "id")?)?;
    columns.push(number_column(alloc, "a")?)?;
    columns.push(number_column(alloc, "b")?)?;
    columns.push(number_column(alloc, "rate")?)?;
    let period = Period {
        name: Chars::copy_of(alloc, "valid")?,
        from: 2,
        to: 3,
    };
    Ok(Table {
        number: 1,
        name: Chars::copy_of(alloc, "tariff")?,
        columns: Sequence::new(columns),
        key: Sequence::new(vec![in alloc; 1, 2]?),
        row_start: Chars::copy_of(alloc, "s")?,
        row_end: Chars::copy_of(alloc, "e")?,
        period: Some(period),
    })
}

/// The table of tariffs, alone.
fn schema(rt: &impl Abort, alloc: Global) -> Schema {
    let table = tariffs(alloc).expect(rt, "there is memory");
    Schema::new(vec![in alloc; table].expect(rt, "there is memory"))
}

fn numbers(rt: &impl Abort, alloc: Global, numbers: &[i64]) -> Vec<Value> {
    let mut values = Vec::new(alloc);
    for number in numbers {
        values
            .push(Value::Int(*number))
            .expect(rt, "there is memory");
    }
    values
}

/// A tariff of an entity for a period.
fn tariff(rt: &impl Abort, alloc: Global, id: i64, from: i64, to: i64) -> Vec<Row> {
    let row = Row::new(numbers(rt, alloc, &[id, from, to, 5])).expect(rt, "four values are few");
    vec![in alloc; row].expect(rt, "there is memory")
}

/// An engine with tariffs of the entity 7 from 0 and from 100 on, of 100 and 200.
fn with_two(rt: &impl Abort, alloc: Global, schema: &Schema) -> Engine {
    let mut engine = empty_engine(rt, alloc);
    for (from, at) in &[(0, 100), (100, 200)] {
        let rows = tariff(rt, alloc, 7, *from, *from + 10);
        commit(rt, alloc, schema, &mut engine, Write::Insert(1, &rows), *at);
    }
    engine
}

/// The bytes of the keys of the entity 7 whose periods start at 0 and at 100.
const KEY_AT_0: &[u8] = b"\x01\x80\x00\x00\x00\x00\x00\x00\x07\x80\x00\x00\x00\x00\x00\x00\x00";

const KEY_AT_100: &[u8] = b"\x01\x80\x00\x00\x00\x00\x00\x00\x07\x80\x00\x00\x00\x00\x00\x00\x64";

fn bytes(rt: &impl Abort, alloc: Global, key: &[u8]) -> KeyBytes {
    let bytes = Vec::from_clones(alloc, key).expect(rt, "there is memory");
    KeyBytes::new(bytes).expect(rt, "the key is short enough")
}

/// Splits the entity 7 at a key, deletes its tariff from 0 on, and splits what it was.
fn split_and_delete(rt: &impl Abort, alloc: Global, schema: &Schema, engine: &mut Engine) {
    let at_key = Cut::Key(bytes(rt, alloc, KEY_AT_100));
    assert!(rt; engine.split(&at_key).expect(rt, "there is memory"));
    let keys = by(rt, alloc, 2, 0);
    commit(rt, alloc, schema, engine, Write::Delete(&keys), 300);
    let at_time = Cut::Time(bytes(rt, alloc, KEY_AT_0), 300);
    assert!(rt; engine.split(&at_time).expect(rt, "there is memory"));
}

/// Whether a transaction that inserts a tariff of the entity 7 is refused, since that was changed at 300.
fn conflicts(
    rt: &impl Abort,
    alloc: Global,
    schema: &Schema,
    engine: &mut Engine,
    view: &View,
) -> bool {
    let rows = tariff(rt, alloc, 7, 500, 510);
    let done = end(
        rt,
        alloc,
        schema,
        engine,
        view,
        Write::Insert(1, &rows),
        900,
    );
    match &done {
        Err(Refusal::Conflict(key, 300)) => {
            key.table == 1 && matches!(key.parts.items(), [Value::Int(7)])
        }
        _ => false,
    }
}

#[test]
fn a_conflict_is_found_in_an_entity_that_was_split(rt: HostRuntime) {
    let alloc = rt.alloc();
    let schema = schema(&rt, alloc);
    let mut engine = with_two(&rt, alloc, &schema);
    let view = begin(&rt, &engine);
    split_and_delete(&rt, alloc, &schema, &mut engine);
    assert!(rt; conflicts(&rt, alloc, &schema, &mut engine, &view));
}

/// Two spans, and whether they overlap.
const PAIRS: &[(Span, Span, bool)] = &[
    (Span { from: 0, to: 10 }, Span { from: 9, to: 20 }, true),
    (Span { from: 0, to: 10 }, Span { from: 3, to: 4 }, true),
    (Span { from: 0, to: 10 }, Span { from: 10, to: 20 }, false),
    (ALWAYS, ALWAYS, true),
];

const ALWAYS: Span = Span {
    from: i64::MIN,
    to: i64::MAX,
};

/// Spans, and whether each overlaps any of `TWO`.
const AMONG: &[(Span, bool)] = &[
    (Span { from: 5, to: 20 }, true),
    (Span { from: 29, to: 40 }, true),
    (Span { from: 10, to: 20 }, false),
];

const TWO: [Span; 2] = [Span { from: 0, to: 10 }, Span { from: 20, to: 30 }];

#[test]
fn spans_overlap_where_each_starts_before_the_other_ends(rt: HostRuntime) {
    for (one, other, overlap) in PAIRS {
        assert!(rt; one.overlaps(*other) == *overlap && other.overlaps(*one) == *overlap);
    }
    for (from, to, is_proper) in &[(0, 1, true), (0, 0, false), (1, 0, false)] {
        let span = Span {
            from: *from,
            to: *to,
        };
        assert!(rt; span.is_proper() == *is_proper);
    }
    for (span, overlaps) in AMONG {
        assert!(rt; span.overlaps_any(&TWO) == *overlaps);
    }
    assert!(rt; !Span { from: 0, to: 10 }.overlaps_any(&[]));
}

#[test]
fn a_row_has_the_span_of_its_period(rt: HostRuntime) {
    let table = tariffs(rt.alloc()).expect(&rt, "there is memory");
    let rows = tariff(&rt, rt.alloc(), 7, -3, 12);
    assert!(rt; rows.len() == 1);
    let period = table.period.as_ref().expect(&rt, "the table has a period");
    assert!(rt; period.span(&rows[0]) == Span { from: -3, to: 12 });
}

#[test]
fn the_columns_of_a_key_and_of_a_period_are_fixed(rt: HostRuntime) {
    let table = tariffs(rt.alloc()).expect(&rt, "there is memory");
    for column in 1..=4 {
        let set = Set {
            column,
            value: Value::Int(1),
        };
        let sets = vec![in rt.alloc(); set].expect(&rt, "there is memory");
        let checked = table.check_sets(&sets);
        let is_refused = matches!(checked, Err(Refusal::BadRow(at)) if at == column);
        assert!(rt; is_refused == (column < 4) && checked.is_ok() == (column == 4));
    }
    for column in 0..=5 {
        assert!(rt; table.is_fixed_column(column) == (1 <= column && column <= 3));
    }
}

#[test]
fn the_name_of_a_period_is_taken(rt: HostRuntime) {
    let table = tariffs(rt.alloc()).expect(&rt, "there is memory");
    assert!(rt; table.names_period(b"VALID") && table.names_period(b"valid"));
    assert!(rt; !table.names_period(b"rate") && !table.names_period(b""));
    let taken = table.check_column(b"Valid", ColumnType::Int);
    assert!(rt; matches!(taken, Err(Refusal::BadRow(0))));
    assert!(rt; table.check_column(b"valid_to", ColumnType::Int).is_ok());
}
