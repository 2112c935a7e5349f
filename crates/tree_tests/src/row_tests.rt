//! Rows as bytes.

use crate::key_sample::text;
use std::alloc::Global;
use std::process::Abort;
use values::{Row, Value, read_row, read_values, row_bytes};

/// A row of a number, a truth and no value.
fn row_of_three(rt: &impl Abort, alloc: Global) -> Row {
    let values = vec![in alloc; Value::Int(-2), Value::Bool(true), Value::Null];
    Row::new(values.expect(rt, "there is memory")).expect(rt, "a row of three values")
}

fn has_bytes(rt: &impl Abort, alloc: Global, row: &Row, bytes: &[u8]) -> bool {
    row_bytes(alloc, row)
        .expect(rt, "there is memory")
        .as_slice()
        == bytes
}

/// The bytes of the row of three.
const OF_THREE: &[u8] = b"\x03\x01\xff\xff\xff\xff\xff\xff\xff\xfe\x04\x00";

#[test]
fn a_row_is_its_width_and_its_tagged_values(rt: HostRuntime) {
    assert!(rt; has_bytes(&rt, rt.alloc(), &row_of_three(&rt, rt.alloc()), OF_THREE));
}

#[test]
fn values_that_are_read_stay_as_they_are(rt: HostRuntime) {
    let row = row_of_three(&rt, rt.alloc());
    read_values(row.values());
    assert!(rt; has_bytes(&rt, rt.alloc(), &row, OF_THREE));
}

fn are(values: &[Value], number: i64, name: &str) -> bool {
    match values {
        [Value::Int(first), Value::Text(second)] => *first == number && second.text() == name,
        _ => false,
    }
}

/// How many bytes are read as a row of this number and this name.
fn length_read(
    rt: &impl Abort,
    alloc: Global,
    bytes: &[u8],
    number: i64,
    name: &str,
) -> Option<usize> {
    let (row, length) = read_row(alloc, bytes).expect(rt, "there is memory")?;
    are(row.values(), number, name).then_some(length)
}

#[test]
fn a_row_is_read_from_the_start(rt: HostRuntime) {
    let bytes = b"\x02\x01\x00\x00\x00\x00\x00\x00\x00\x01\x02\x00\x03Ann and more";
    assert!(rt; length_read(&rt, rt.alloc(), bytes, 1, "Ann") == Some(16));
}

/// Whether so many NULLs are a row.
fn is_row_of(rt: &impl Abort, alloc: Global, width: usize) -> bool {
    let mut values = Vec::new(alloc);
    for _ in 0..width {
        values.push(Value::Null).expect(rt, "there is memory");
    }
    Row::new(values).is_some()
}

/// Whether a text is a row.
fn is_row(rt: &impl Abort, alloc: Global, line: &str) -> bool {
    let values = vec![in alloc; text(rt, alloc, line)];
    Row::new(values.expect(rt, "there is memory")).is_some()
}

#[test]
fn a_row_has_1_to_16_values_on_one_line(rt: HostRuntime) {
    for (width, stands) in &[(0, false), (1, true), (16, true), (17, false)] {
        assert!(rt;
            is_row_of(&rt, rt.alloc(), *width) == *stands,
            "of {width} values"
        );
    }
    for (line, stands) in &[("one", true), ("one\nmore", false), ("one\r", false)] {
        assert!(rt; is_row(&rt, rt.alloc(), line) == *stands, "{line}");
    }
}

fn is_read(rt: &impl Abort, alloc: Global, bytes: &[u8]) -> bool {
    read_row(alloc, bytes)
        .expect(rt, "there is memory")
        .is_some()
}

/// Whether a row of one text of so many letters is read, with the two bytes of its length before
/// it.
fn is_text_read(rt: &impl Abort, alloc: Global, high: u8, low: u8, letters: usize) -> bool {
    let front = vec![in alloc; 1u8, 2, high, low];
    let mut bytes = front.expect(rt, "there is memory");
    for _ in 0..letters {
        bytes.push(b'x').expect(rt, "there is memory");
    }
    is_read(rt, alloc, &bytes)
}

/// Bytes that are no row.
const OTHERS: &[&[u8]] = &[
    b"",
    b"\x00",
    b"\x11\x00",
    b"\x01",
    b"\x01\x05",
    b"\x01\x01\x00\x00\x00\x00\x00\x00\x00",
    b"\x01\x02\x00",
    b"\x01\x02\x00\x02a",
    b"\x01\x02\x00\x02a\n",
    b"\x01\x02\x00\x02\ra",
    b"\x01\x02\x00\x01\xff",
    b"\x02\x03",
];

#[test]
fn other_bytes_are_no_row(rt: HostRuntime) {
    for bytes in OTHERS {
        assert!(rt; !is_read(&rt, rt.alloc(), bytes), "{bytes:?}");
    }
    assert!(rt; is_text_read(&rt, rt.alloc(), 3, 232, 1000));
    assert!(rt; !is_text_read(&rt, rt.alloc(), 3, 233, 1001));
}
