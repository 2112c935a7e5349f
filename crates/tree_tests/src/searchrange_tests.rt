//! Ranges worked out by hand.

use crate::key_sample::{schema, text};
use keyrange::KeyRange;
use searchrange::{Search, range_of_table};
use std::alloc::Global;
use std::process::Abort;
use steps::fit_keys;
use values::{
    Comparison, Key, KeyBytes, Keys, Operator, Schema, Sequence, Value, Values, key_bytes,
};

fn is_end(end: &Option<KeyBytes>, bytes: &[u8]) -> bool {
    match end {
        None => bytes.is_empty(),
        Some(end) => end.bytes() == bytes,
    }
}

/// Whether a range begins and ends with these bytes; no bytes are no end.
fn is_range(range: &KeyRange, lo: &[u8], hi: &[u8]) -> bool {
    range.lo.bytes() == lo && is_end(&range.hi, hi)
}

/// A table whose key is a name and a number.
const TWO_COLUMNS: &str = "CREATE TABLE emp (no INT, name VARCHAR(10), \
    s TIMESTAMP GENERATED ALWAYS AS ROW START, e TIMESTAMP GENERATED ALWAYS AS ROW END, \
    PERIOD FOR SYSTEM_TIME (s, e), PRIMARY KEY (name, no)) WITH SYSTEM VERSIONING";

/// Comparisons with numbers, and with a name.
type Compared = (&'static [(Operator, i64)], Option<(Operator, &'static str)>);

/// The keys of table 1 that meet comparisons.
fn keys_of(rt: &impl Abort, alloc: Global, (numbers, name): Compared) -> Keys {
    let mut comparisons = Vec::new(alloc);
    for (operator, number) in numbers {
        let comparison = Comparison {
            column: 1,
            operator: *operator,
            value: Value::Int(*number),
        };
        comparisons.push(comparison).expect(rt, "there is memory");
    }
    if let Some((operator, name)) = name {
        let comparison = Comparison {
            column: 2,
            operator,
            value: text(rt, alloc, name),
        };
        comparisons.push(comparison).expect(rt, "there is memory");
    }
    Keys {
        table: 1,
        comparisons: Sequence::new(comparisons),
    }
}

/// Whether comparisons leave this range.
fn leave(
    rt: &impl Abort,
    alloc: Global,
    schema: &Schema,
    compared: Compared,
    lo: &[u8],
    hi: &[u8],
) -> bool {
    let keys = keys_of(rt, alloc, compared);
    let keys = fit_keys(schema, 1, &keys).expect(rt, "they fit");
    let search = Search::new(alloc, keys).expect(rt, "there is memory");
    let range = search.range(alloc).expect(rt, "there is memory");
    is_range(&range, lo, hi)
}

const TABLE: &[u8] = b"\x01";

const NEXT_TABLE: &[u8] = b"\x02";

const TWO: &[u8] = b"\x01\x80\x00\x00\x00\x00\x00\x00\x02";

const SIX: &[u8] = b"\x01\x80\x00\x00\x00\x00\x00\x00\x06";

/// Comparisons with the number of the sample table, and the range that they leave.
const RANGES: &[(&[(Operator, i64)], &[u8], &[u8])] = &[
    (
        &[(Operator::Equal, 1)],
        b"\x01\x80\x00\x00\x00\x00\x00\x00\x01",
        TWO,
    ),
    // a lower bound is a start
    (&[(Operator::Above, 1)], TWO, NEXT_TABLE),
    (&[(Operator::AtLeast, 2)], TWO, NEXT_TABLE),
    (&[(Operator::Above, i64::MAX)], NEXT_TABLE, NEXT_TABLE),
    // an upper bound is an end
    (&[(Operator::AtMost, 5)], TABLE, SIX),
    (&[(Operator::Below, 6)], TABLE, SIX),
    (
        &[(Operator::AtMost, 255)],
        TABLE,
        b"\x01\x80\x00\x00\x00\x00\x00\x01",
    ),
    // bounds that no number meets leave an empty range
    (
        &[(Operator::Above, 5), (Operator::Below, 3)],
        SIX,
        b"\x01\x80\x00\x00\x00\x00\x00\x00\x03",
    ),
];

#[test]
fn comparisons_with_a_number_leave_a_range(rt: HostRuntime) {
    let sample = Schema::sample(rt.alloc()).expect(&rt, "there is memory");
    for (place, (numbers, lo, hi)) in RANGES.iter().enumerate() {
        let is_left = leave(&rt, rt.alloc(), &sample, (numbers, None), lo, hi);
        assert!(rt; is_left, "at {place}");
    }
}

/// Comparisons with the table of two columns, and the range that they leave.
const RANGES_OF_TWO: &[(Compared, &[u8], &[u8])] = &[
    (
        (&[(Operator::AtLeast, 2)], Some((Operator::Equal, "a"))),
        b"\x01a\x00\x00\x80\x00\x00\x00\x00\x00\x00\x02",
        b"\x01a\x00\x01",
    ),
    (
        (&[(Operator::AtLeast, 2)], Some((Operator::AtLeast, "a"))),
        b"\x01a\x00\x00",
        NEXT_TABLE,
    ),
    // a later column alone leaves the table
    ((&[(Operator::Equal, 2)], None), TABLE, NEXT_TABLE),
];

#[test]
fn a_column_narrows_behind_equal_ones_alone(rt: HostRuntime) {
    let schema = schema(&rt, rt.alloc(), TWO_COLUMNS);
    for (place, (compared, lo, hi)) in RANGES_OF_TWO.iter().enumerate() {
        let is_left = leave(&rt, rt.alloc(), &schema, *compared, lo, hi);
        assert!(rt; is_left, "at {place}");
    }
}

/// Whether the range of a table's keys is this.
fn table_has(rt: &impl Abort, alloc: Global, table: u8, lo: &[u8], hi: &[u8]) -> bool {
    let range = range_of_table(alloc, table).expect(rt, "there is memory");
    is_range(&range, lo, hi)
}

#[test]
fn a_table_has_the_keys_that_begin_with_its_number(rt: HostRuntime) {
    assert!(rt; table_has(&rt, rt.alloc(), 1, TABLE, NEXT_TABLE));
    assert!(rt; table_has(&rt, rt.alloc(), 255, b"\xff", b""));
}

/// The key of a name, where there is one, and of the last of these numbers.
fn key_of(rt: &impl Abort, alloc: Global, (numbers, name): Compared) -> Key {
    let mut parts = Vec::new(alloc);
    if let Some((_operator, name)) = name {
        parts
            .push(text(rt, alloc, name))
            .expect(rt, "there is memory");
    }
    if let Some((_operator, number)) = numbers.last() {
        parts
            .push(Value::Int(*number))
            .expect(rt, "there is memory");
    }
    Key {
        table: 1,
        parts: Values::new(parts),
    }
}

/// Whether comparisons take one key, and then whether that is theirs, also by its bytes.
fn takes_key(rt: &impl Abort, alloc: Global, schema: &Schema, compared: Compared) -> Option<bool> {
    let keys = keys_of(rt, alloc, compared);
    let keys = fit_keys(schema, 1, &keys).expect(rt, "they fit");
    let search = Search::new(alloc, keys).expect(rt, "there is memory");
    match search.key() {
        None => None,
        Some(found) => {
            let bytes = key_bytes(alloc, found).expect(rt, "there is memory");
            let is_taken = search.takes(alloc, &bytes).expect(rt, "there is memory");
            Some(is_taken && *found == key_of(rt, alloc, compared))
        }
    }
}

/// Comparisons with the number of the sample table, and whether they take one key.
const KEYS: &[(&[(Operator, i64)], Option<bool>)] = &[
    (&[(Operator::Equal, 5), (Operator::Equal, 5)], Some(true)),
    (&[(Operator::Equal, 4), (Operator::Equal, 5)], None),
    (&[(Operator::Below, 5), (Operator::Equal, 5)], None),
    (&[(Operator::Below, 6), (Operator::Equal, 5)], Some(true)),
    (&[(Operator::AtMost, 5), (Operator::Equal, 5)], Some(true)),
    (&[(Operator::Above, 5), (Operator::Equal, 5)], None),
    (&[(Operator::AtLeast, 5), (Operator::Equal, 5)], Some(true)),
    // an equality alone gives a number
    (&[(Operator::Equal, 7)], Some(true)),
    (&[(Operator::AtLeast, 7)], None),
    (&[(Operator::AtMost, 7)], None),
];

#[test]
fn a_number_that_is_given_is_the_key_where_it_meets_the_rest(rt: HostRuntime) {
    let sample = Schema::sample(rt.alloc()).expect(&rt, "there is memory");
    for (place, (numbers, is_taken)) in KEYS.iter().enumerate() {
        let found = takes_key(&rt, rt.alloc(), &sample, (numbers, None));
        assert!(rt; found == *is_taken, "at {place}");
    }
}

/// How the name is compared, beside the number 2, and whether this takes one key.
const NAMES: &[(Operator, &str, Option<bool>)] = &[
    (Operator::Equal, "a", Some(true)),
    (Operator::Equal, "", Some(true)),
    (Operator::Equal, "ten is 10.", Some(true)),
    (Operator::Equal, "eleven, 11.", None),
    (Operator::AtLeast, "a", None),
];

#[test]
fn a_key_of_two_columns_is_given_in_any_order_and_whole(rt: HostRuntime) {
    let schema = schema(&rt, rt.alloc(), TWO_COLUMNS);
    for (operator, name, is_taken) in NAMES {
        let compared: Compared = (&[(Operator::Equal, 2)], Some((*operator, *name)));
        let found = takes_key(&rt, rt.alloc(), &schema, compared);
        assert!(rt; found == *is_taken, "{name}");
    }
}
