//! Schemas and values that the tests share. The run ends where memory does.

use rows::ReadSchema;
use std::alloc::Global;
use std::process::Abort;
use values::{Chars, KeyBytes, Schema, Value};

/// What a text declares, which must be a schema.
pub(crate) fn schema(rt: &impl Abort, alloc: Global, text: &str) -> Schema {
    let read = Schema::read(alloc, text.as_bytes());
    read.expect(rt, "the text is a schema")
}

/// The key of these bytes, which must be few.
pub(crate) fn key(rt: &impl Abort, alloc: Global, bytes: &[u8]) -> KeyBytes {
    let bytes = Vec::from_slice(alloc, bytes).expect(rt, "there is memory");
    KeyBytes::new(bytes).expect(rt, "a few bytes")
}

pub(crate) fn text(rt: &impl Abort, alloc: Global, text: &str) -> Value {
    Value::Text(Chars::copy_of(alloc, text).expect(rt, "there is memory"))
}
