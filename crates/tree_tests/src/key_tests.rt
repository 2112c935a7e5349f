//! Keys as bytes, and keys that are searched for.
ghost use Rattle.std.specs.Prelude.{◌≤◌, length};
ghost use Rattle.values.specs.KeyEncoding.{IsShortKey};

use crate::key_sample::{key, schema};
use std::alloc::Global;
use std::cmp::Ordering;
use std::process::Abort;
use values::{
    Chars, Comparison, Key, KeyBytes, Keys, Operator, Table, Value, Values, key_bytes, ordinal_of,
    read_key,
};

fn number_key(rt: &impl Abort, alloc: Global, number: i64) -> Key
    ensures { IsShortKey result }
{
    let parts = vec![in alloc; Value::Int(number)];
    Key {
        table: 1,
        parts: Values::new(parts.expect(rt, "there is memory")),
    }
}

fn name_key(rt: &impl Abort, alloc: Global, name: &str, number: i64) -> Key
    ensures { IsShortKey result }
{
    assert!(rt; name.len() <= 200);
    let name = Chars::copy_of(alloc, name).expect(rt, "there is memory");
    let parts = vec![in alloc; Value::Text(name), Value::Int(number)];
    Key {
        table: 1,
        parts: Values::new(parts.expect(rt, "there is memory")),
    }
}

fn bytes_of(rt: &impl Abort, alloc: Global, key: Key) -> KeyBytes
    requires { IsShortKey key }
{
    key_bytes(alloc, &key).expect(rt, "there is memory")
}

fn number_bytes(rt: &impl Abort, alloc: Global, number: i64) -> KeyBytes {
    bytes_of(rt, alloc, number_key(rt, alloc, number))
}

fn name_bytes(rt: &impl Abort, alloc: Global, name: &str, number: i64) -> KeyBytes {
    bytes_of(rt, alloc, name_key(rt, alloc, name, number))
}

fn has(key: KeyBytes, bytes: &[u8]) -> bool {
    key.bytes() == bytes
}

/// Numbers that rise, and the bytes of their keys.
const RISING: &[(i64, &[u8])] = &[
    (i64::MIN, b"\x01\x00\x00\x00\x00\x00\x00\x00\x00"),
    (-1, b"\x01\x7f\xff\xff\xff\xff\xff\xff\xff"),
    (0, b"\x01\x80\x00\x00\x00\x00\x00\x00\x00"),
    (1, b"\x01\x80\x00\x00\x00\x00\x00\x00\x01"),
    (i64::MAX, b"\x01\xff\xff\xff\xff\xff\xff\xff\xff"),
];

#[test]
fn whole_numbers_keep_their_order_in_bytes(rt: HostRuntime) {
    for (number, bytes) in RISING {
        assert!(rt;
            has(number_bytes(&rt, rt.alloc(), *number), bytes),
            "at {number}"
        );
    }
}

/// Names and numbers, and the bytes of their keys.
const NAMES: &[(&str, i64, &[u8])] = &[
    ("a", -1, b"\x01\x61\x00\x00\x7f\xff\xff\xff\xff\xff\xff\xff"),
    ("a", 2, b"\x01\x61\x00\x00\x80\x00\x00\x00\x00\x00\x00\x02"),
    (
        "a\0",
        -9,
        b"\x01\x61\x00\xff\x00\x00\x7f\xff\xff\xff\xff\xff\xff\xf7",
    ),
];

#[test]
fn a_text_ends_before_the_next_column(rt: HostRuntime) {
    for (name, number, bytes) in NAMES {
        assert!(rt;
            has(name_bytes(&rt, rt.alloc(), name, *number), bytes),
            "at {number}"
        );
    }
}

/// Whether the bytes of three keys rise.
fn do_names_rise(rt: &impl Abort, alloc: Global) -> bool {
    let first = name_bytes(rt, alloc, "a", -1);
    let second = name_bytes(rt, alloc, "a", 2);
    let third = name_bytes(rt, alloc, "a\0", -9);
    first < second && second < third
}

fn is_copied(rt: &impl Abort, alloc: Global) -> bool {
    let key = name_bytes(rt, alloc, "a", -1);
    key.copy().expect(rt, "there is memory") == key
}

#[test]
fn bytes_of_names_and_numbers_keep_their_order(rt: HostRuntime) {
    assert!(rt; do_names_rise(&rt, rt.alloc()));
    assert!(rt; is_copied(&rt, rt.alloc()));
}

#[test]
fn the_ordinals_of_numbers_rise_from_0(rt: HostRuntime) {
    assert_eq!(rt; ordinal_of(i64::MIN), 0);
    assert_eq!(rt; ordinal_of(-1), (1 << 63) - 1);
    assert_eq!(rt; ordinal_of(0), 1 << 63);
    assert_eq!(rt; ordinal_of(i64::MAX), u64::MAX);
}

/// Bytes in rising order: none, few, some that others begin with, and some that differ from others
/// at the first byte, in the middle or at the last.
const RISING_BYTES: &[&[u8]] = &[
    b"",
    b"\x00",
    b"\x00\xff",
    b"\x01",
    b"\x01aaaaaaa",
    b"\x01aaaaaaaa",
    b"\x01aaaaaaaa\x00",
    b"\x01aaaaaaaaaaaaaaaa",
    b"\x01aaaaaaaaaaaaaaaab",
    b"\x01aaaaaaaaaaaaaaab",
    b"\x01aaaaaaaab",
    b"\x01aaaaaaaa\xff",
    b"\x01aaaaaaab",
    b"\x01aaaaaab\x00",
    b"\x01\xffaaaaaaa",
    b"\x02",
];

/// Tells whether the keys of these bytes are in that order.
fn are_keys_so(
    rt: &impl Abort,
    alloc: Global,
    first: &[u8],
    second: &[u8],
    order: Ordering,
) -> bool {
    key(rt, alloc, first).cmp(&key(rt, alloc, second)) == order
}

#[test]
fn key_bytes_are_in_the_order_of_their_bytes(rt: HostRuntime) {
    for (place, first) in RISING_BYTES.iter().enumerate() {
        for (other, second) in RISING_BYTES.iter().enumerate() {
            let order = place.cmp(&other);
            assert!(rt;
                are_keys_so(&rt, rt.alloc(), first, second, order),
                "at {place} and {other}"
            );
        }
    }
}

/// Whether so many bytes are a key's.
fn are_key_bytes(rt: &impl Abort, alloc: Global, length: usize) -> bool {
    let bytes = vec![in alloc; 255; length];
    KeyBytes::new(bytes.expect(rt, "there is memory")).is_some()
}

#[test]
fn key_bytes_are_at_most_1609(rt: HostRuntime) {
    for (length, stands) in &[(0, true), (1609, true), (1610, false)] {
        assert!(rt;
            are_key_bytes(&rt, rt.alloc(), *length) == *stands,
            "at {length}"
        );
    }
}

/// A table of a text of two characters and a truth, both of them its key.
const PAIRS: &str = "CREATE TABLE pairs (a VARCHAR(2), b BOOLEAN, \
    s TIMESTAMP GENERATED ALWAYS AS ROW START, e TIMESTAMP GENERATED ALWAYS AS ROW END, \
    PERIOD FOR SYSTEM_TIME (s, e), PRIMARY KEY (a, b)) WITH SYSTEM VERSIONING";

/// Whether a key of a text and a truth is read from the bytes.
fn is_pair_read(rt: &impl Abort, alloc: Global, bytes: &[u8]) -> bool {
    let pairs = schema(rt, alloc, PAIRS);
    let table = pairs.table_at(1).expect(rt, "it has a table");
    let read = read_key(alloc, table, &key(rt, alloc, bytes));
    read.expect(rt, "there is memory").is_some()
}

/// Bytes, and whether a key of a text and a truth is read from them.
const PAIR_BYTES: &[(&[u8], bool)] = &[
    (b"\x01\x61\x00\xff\x00\x00\x01", true),
    (b"\x01\x00\x00\x00", true),
    (b"\x02\x00\x00\x00", false),
    (b"\x01\x00\x00\x02", false),
    (b"\x01\x00\x00\x00\x00", false),
    (b"\x01\x00\x00", false),
    (b"\x01\x61\x62\x63\x00\x00\x00", false),
    (b"\x01\x61\x00\xfe\x00\x00\x00", false),
    (b"\x01\xff\x00\x00\x00", false),
    (b"", false),
];

#[test]
fn a_key_is_read_from_its_own_bytes_alone(rt: HostRuntime) {
    for (bytes, stands) in PAIR_BYTES {
        assert!(rt;
            is_pair_read(&rt, rt.alloc(), bytes) == *stands,
            "{bytes:?}"
        );
    }
}

/// The keys of table 1 that are below 2.
fn below_2(rt: &impl Abort, alloc: Global) -> Keys {
    let below = Comparison {
        column: 1,
        operator: Operator::Below,
        value: Value::Int(2),
    };
    Keys::of_comparison(alloc, 1, below).expect(rt, "there is memory")
}

/// Whether the key of a number of the sample table is one of the keys.
fn is_matched(rt: &impl Abort, alloc: Global, keys: &Keys, number: i64) -> bool {
    let table = Table::sample(alloc).expect(rt, "there is memory");
    keys.matches(&table, &number_key(rt, alloc, number))
}

/// Whether the key of a number is one of those below 2, and of all.
fn matches(rt: &impl Abort, alloc: Global, number: i64) -> (bool, bool) {
    (
        is_matched(rt, alloc, &below_2(rt, alloc), number),
        is_matched(rt, alloc, &Keys::all(alloc, 1), number),
    )
}

#[test]
fn keys_match_where_they_meet_the_comparison(rt: HostRuntime) {
    for (number, is_below) in &[(1, true), (2, false)] {
        assert!(rt;
            matches(&rt, rt.alloc(), *number) == (*is_below, true),
            "{number}"
        );
    }
}
