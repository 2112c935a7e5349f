//! What a line says that no reply shows: the key and the instant of a split, and bytes behind a line feed.
use rows::ReadSchema;
use statement::{Line, read_line};
use std::alloc::Global;
use std::process::Abort;
use steps::Step;
use values::{Key, Refusal, Schema, Value};

const SCHEMA: &str = "CREATE TABLE emp (
  no INT PRIMARY KEY, name TEXT,
  s TIMESTAMP GENERATED ALWAYS AS ROW START, e TIMESTAMP GENERATED ALWAYS AS ROW END,
  PERIOD FOR SYSTEM_TIME (s, e)
) WITH SYSTEM VERSIONING;
CREATE TABLE t (
  k TEXT, n INT, f BOOLEAN, PRIMARY KEY (k, n),
  s TIMESTAMP GENERATED ALWAYS AS ROW START, e TIMESTAMP GENERATED ALWAYS AS ROW END,
  PERIOD FOR SYSTEM_TIME (s, e)
) WITH SYSTEM VERSIONING;
CREATE TABLE r (
  n INT, k TEXT, PRIMARY KEY (k, n),
  s TIMESTAMP GENERATED ALWAYS AS ROW START, e TIMESTAMP GENERATED ALWAYS AS ROW END,
  PERIOD FOR SYSTEM_TIME (s, e)
) WITH SYSTEM VERSIONING;
";

/// The tables `emp (no INT, name TEXT)` with the key `no`, and `t (k TEXT, n INT, f BOOLEAN)` and `r (n INT, k TEXT)` with the key `k, n`.
fn schema(rt: &impl Abort, alloc: Global) -> Schema {
    Schema::read(alloc, SCHEMA.as_bytes()).expect(rt, "it is a schema")
}

#[test]
fn bytes_behind_a_line_feed_are_not_read(rt: HostRuntime) {
    let schema = schema(&rt, rt.alloc());
    let told = read_line(rt.alloc(), b"1: \nBEGIN", &schema, 0);
    assert!(rt; matches!(told, Err(Refusal::Syntax(3))));
}

/// Whether a key has a text and a number.
fn has_parts(key: &Key, table: u8, text: &str, number: i64) -> bool {
    match key.parts.items() {
        [Value::Text(first), Value::Int(second)] => {
            key.table == table && first.text() == text && *second == number
        }
        _ => false,
    }
}

/// Whether a line splits the table `t` or `r` at a text and a number, in time at 12 or not.
fn splits(alloc: Global, line: &str, schema: &Schema, table: u8, in_time: bool) -> bool {
    match read_line(alloc, line.as_bytes(), schema, 0) {
        Ok(Line::Step(Step::SplitKey(key))) => !in_time && has_parts(&key, table, "a'b", -7),
        Ok(Line::Step(Step::SplitTime(key, 12))) => in_time && has_parts(&key, table, "a'b", -7),
        _ => false,
    }
}

#[test]
fn a_split_keeps_its_key_and_its_instant(rt: HostRuntime) {
    let alloc = rt.alloc();
    let schema = schema(&rt, alloc);
    assert!(rt; splits(alloc, "SPLIT: KEY r ('a''b', -7)", &schema, 3, false));
    assert!(rt; splits(alloc, "SPLIT: TIME t ('a''b', -7) AT 12", &schema, 2, true));
}
