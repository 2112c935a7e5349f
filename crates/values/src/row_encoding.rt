//! Rows as bytes, and read back from them.
ghost use Rattle.std.specs.Prelude.{◌≡◌, ◌≤◌, ◌++◌, ◌∷◌, true, false, length, IfOk, OnOk, IfSome, IfNone};
ghost use Rattle.std.specs.Int.{w16, to_be_bytes};
ghost use Rattle.std.specs.List.{list_any};
ghost use Rattle.values.specs.Memory.{OnlyMemory};
ghost use Rattle.values.specs.Fit.{is_line_break, longest_text, fits_text};
ghost use Rattle.values.specs.RowEncoding.{value_bytes, bytes_of_row, IsStored, IsStoredRow, StandsIn, NoRowAt};
ghost use Rattle.values.specs.RowReading.{Parses, int_from, is_stored_text, text_of, text_from, tagged_from, value_from, values_from, row_from};

use crate::chars::Chars;
use crate::refusal::Mem;
use crate::row::{Row, WIDEST, fits_text};
use crate::value::Value;
use std::alloc::{AllocError, Global};

/// Writes a row as bytes: the number of its values, then each value behind its tag.
pub fn row_bytes(alloc: Global, row: &Row) -> Mem<Vec<u8>>
    ensures ok { IfOk result (λ bytes. bytes.items ≡ bytes_of_row row.now) }
    ensures err { OnlyMemory result }
{
    let mut bytes = Vec::new(alloc);
    bytes.push(row.values().len() as u8)?;
    for value in row.values() {
        push_value(&mut bytes, value)?;
    }
    Ok(bytes)
}

fn push_value(bytes: &mut Vec<u8>, value: &Value) -> Result<(), AllocError>
    requires { IsStored value.now }
    ensures { OnOk result (bytes.new.items ≡ bytes.old.items ++ value_bytes value.now) }
{
    match value {
        Value::Null => bytes.extend_from_slice(&[0]),
        Value::Int(number) => push_tagged(bytes, 1, &number.to_be_bytes()),
        Value::Text(text) => push_text(bytes, text.text().as_bytes()),
        Value::Bool(truth) => bytes.extend_from_slice(&[if *truth { 4 } else { 3 }]),
    }
}

fn push_tagged(bytes: &mut Vec<u8>, tag: u8, tail: &[u8]) -> Result<(), AllocError>
    ensures { OnOk result (bytes.new.items ≡ bytes.old.items ++ (tag ∷ tail.now)) }
{
    bytes.push(tag)?;
    bytes.extend_from_slice(tail)
}

fn push_text(bytes: &mut Vec<u8>, text: &[u8]) -> Result<(), AllocError>
    requires { length text.now ≤ longest_text }
    ensures { OnOk result (bytes.new.items
        ≡ bytes.old.items ++ (2 ∷ (to_be_bytes w16 (length text.now) ++ text.now))) }
{
    push_tagged(bytes, 2, &(text.len() as u16).to_be_bytes())?;
    bytes.extend_from_slice(text)
}

#[tactic(auto, unfolding(crate::specs::RowReading::int_from))]
fn int_from(bytes: &[u8]) -> Option<(Value, &[u8])>
    ensures { Parses (λ value. value) result (int_from bytes.now) }
{
    let (number, rest) = bytes.split_first_chunk::<8>()?;
    Some((Value::Int(i64::from_be_bytes(*number)), rest))
}

/// The text of so many bytes.
#[tactic(auto, unfolding(crate::specs::RowReading::text_of))]
fn text_of(alloc: Global, n: usize, bytes: &[u8]) -> Result<Option<(Value, &[u8])>, AllocError>
    ensures { IfOk result (λ parsed. Parses (λ value. value) parsed (text_of n bytes.now)) }
{
    if bytes.len() < n {
        return Ok(None);
    }
    let (front, rest) = bytes.split_at(n);
    match stored_text(front) {
        None => Ok(None),
        Some(text) => Ok(Some((
            Value::Text(Chars::new(String::from_str(alloc, text)?)),
            rest,
        ))),
    }
}

/// The bytes as a text that can be stored.
fn stored_text(bytes: &[u8]) -> Option<&str>
    ensures some { IfSome result (λ text.
        (text.now ≡ bytes.now) × (is_stored_text bytes.now ≡ true)) }
    ensures none { IfNone result (is_stored_text bytes.now ≡ false) }
{
    if !fits_text(bytes) {
        return None;
    }
    match str::from_utf8(bytes) {
        Ok(text) => Some(text),
        Err(_) => None,
    }
}

#[tactic(auto, unfolding(crate::specs::RowReading::text_from))]
fn text_from(alloc: Global, bytes: &[u8]) -> Result<Option<(Value, &[u8])>, AllocError>
    ensures { IfOk result (λ parsed. Parses (λ value. value) parsed (text_from bytes.now)) }
{
    match bytes.split_first_chunk::<2>() {
        None => Ok(None),
        Some((n, rest)) => text_of(alloc, u16::from_be_bytes(*n) as usize, rest),
    }
}

#[tactic(auto, unfolding(crate::specs::RowReading::tagged_from))]
fn tagged_from(alloc: Global, tag: u8, bytes: &[u8]) -> Result<Option<(Value, &[u8])>, AllocError>
    ensures { IfOk result (λ parsed. Parses (λ value. value) parsed (tagged_from tag bytes.now)) }
{
    match tag {
        0 => Ok(Some((Value::Null, bytes))),
        1 => Ok(int_from(bytes)),
        2 => text_from(alloc, bytes),
        3 => Ok(Some((Value::Bool(false), bytes))),
        4 => Ok(Some((Value::Bool(true), bytes))),
        _ => Ok(None),
    }
}

fn value_from(alloc: Global, bytes: &[u8]) -> Result<Option<(Value, &[u8])>, AllocError>
    ensures { IfOk result (λ parsed. Parses (λ value. value) parsed (value_from bytes.now)) }
{
    match bytes {
        [tag, rest @ ..] => tagged_from(alloc, *tag, rest),
        [] => Ok(None),
    }
}

fn values_from(
    alloc: Global,
    n: u8,
    bytes: &[u8],
) -> Result<Option<(Vec<Value>, &[u8])>, AllocError>
    ensures { IfOk result (λ parsed. Parses (λ v. v.items) parsed (values_from n bytes.now)) }
{
    let mut values = Vec::new(alloc);
    let mut rest = bytes;
    for _ in 0..n {
        match value_from(alloc, rest)? {
            None => return Ok(None),
            Some((value, others)) => {
                values.push(value)?;
                rest = others;
            }
        }
    }
    Ok(Some((values, rest)))
}

/// Reads a row from the start of bytes, and the number of its bytes; none where there is none. A
/// row that fits no table is read too.
pub fn read_row(alloc: Global, bytes: &[u8]) -> Mem<Option<(Row, usize)>>
    ensures exact { IfOk result (λ read. read ≡ row_from bytes.now) }
    ensures found { IfOk result (λ read. IfSome read (λ x. StandsIn bytes.now x.1 x.0)) }
    ensures none { IfOk result (λ read. IfNone read (NoRowAt bytes.now)) }
    ensures err { OnlyMemory result }
{
    Ok(row_from(alloc, bytes)?)
}

fn row_from(alloc: Global, bytes: &[u8]) -> Result<Option<(Row, usize)>, AllocError>
    ensures { IfOk result (λ read. read ≡ row_from bytes.now) }
{
    let [n, rest @ ..] = bytes else {
        return Ok(None);
    };
    if *n < 1 || *n as usize > WIDEST {
        return Ok(None);
    }
    let Some((values, left)) = values_from(alloc, *n, rest)? else {
        return Ok(None);
    };
    let length = bytes.len().saturating_sub(left.len());
    match Row::new(values) {
        Some(row) => Ok(Some((row, length))),
        None => unreachable!(),
    }
}
