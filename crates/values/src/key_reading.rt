//! Reads keys from their bytes.
ghost use Rattle.std.specs.Prelude.{◌≡◌, true, false, IfOk, IfSome, IfNone};
ghost use Rattle.std.specs.Str.{is_utf8};
ghost use Rattle.values.specs.Memory.{OnlyMemory};
ghost use Rattle.values.specs.RowReading.{Parses};
ghost use Rattle.values.specs.KeyReading.{IsKeyWith, NoKeyWith, number_at, text_from, number_from, name_from, truth_from, part_from, column_from, parts_from, key_from};

use crate::chars::Chars;
use crate::key::Key;
use crate::key_encoding::KeyBytes;
use crate::query::ColumnNumber;
use crate::refusal::Mem;
use crate::table::{ColumnType, Table};
use crate::value::{Value, Values};
use std::alloc::{AllocError, Global};

/// A value and the bytes after it, where there is one at the start.
type Parsed<'a, T> = Result<Option<(T, &'a [u8])>, AllocError>;

/// The number whose bytes are those of `n`: `n` less 2^63.
fn number_at(n: u64) -> i64
    ensures { result ≡ number_at n }
{
    if n < 1 << 63 {
        n as i64 + i64::MIN
    } else {
        (n - (1 << 63)) as i64
    }
}

#[tactic(auto, unfolding(crate::specs::KeyReading::number_from))]
fn number_from(bytes: &[u8]) -> Option<(Value, &[u8])>
    ensures { Parses (λ value. value) result (number_from bytes.now) }
{
    let (number, rest) = bytes.split_first_chunk::<8>()?;
    Some((Value::Int(number_at(u64::from_be_bytes(*number))), rest))
}

fn truth_from(bytes: &[u8]) -> Option<(Value, &[u8])>
    ensures { Parses (λ value. value) result (truth_from bytes.now) }
{
    match bytes {
        [0, rest @ ..] => Some((Value::Bool(false), rest)),
        [1, rest @ ..] => Some((Value::Bool(true), rest)),
        _ => None,
    }
}

/// A text up to its end mark.
fn text_from(alloc: Global, bytes: &[u8]) -> Parsed<'_, Vec<u8>>
    ensures { IfOk result (λ parsed.
        Parses (λ text. text.items) parsed (text_from false bytes.now)) }
{
    let mut text = Vec::new(alloc);
    let mut zero_before = false;
    let mut rest = bytes;
    while let [byte, others @ ..] = rest {
        rest = others;
        if !zero_before {
            zero_before = *byte == 0;
            if *byte != 0 {
                text.push(*byte)?;
            }
            continue;
        }
        match *byte {
            0 => return Ok(Some((text, others))),
            255 => text.push(0)?,
            _ => return Ok(None),
        }
        zero_before = false;
    }
    Ok(None)
}

fn text_of(alloc: Global, bytes: &[u8]) -> Result<Option<Chars>, AllocError>
    ensures some { IfOk result (λ text. IfSome text (λ text.
        (text ≡ bytes.now) × (is_utf8 bytes.now ≡ true))) }
    ensures none { IfOk result (λ text. IfNone text (is_utf8 bytes.now ≡ false)) }
{
    match str::from_utf8(bytes) {
        Ok(text) => Ok(Some(Chars::new(String::from_str(alloc, text)?))),
        Err(_) => Ok(None),
    }
}

#[tactic(auto, unfolding(crate::specs::KeyReading::name_from))]
fn name_from(alloc: Global, bytes: &[u8]) -> Parsed<'_, Value>
    ensures { IfOk result (λ parsed. Parses (λ value. value) parsed (name_from bytes.now)) }
{
    match text_from(alloc, bytes)? {
        None => Ok(None),
        Some((text, rest)) => match text_of(alloc, text.as_slice())? {
            None => Ok(None),
            Some(text) => Ok(Some((Value::Text(text), rest))),
        },
    }
}

#[tactic(auto, unfolding(crate::specs::KeyReading::part_from))]
fn part_from(alloc: Global, of: ColumnType, bytes: &[u8]) -> Parsed<'_, Value>
    ensures { IfOk result (λ parsed. Parses (λ value. value) parsed (part_from of bytes.now)) }
{
    match of {
        ColumnType::Int => Ok(number_from(bytes)),
        ColumnType::Boolean => Ok(truth_from(bytes)),
        ColumnType::Text => name_from(alloc, bytes),
        ColumnType::Varchar(_) => name_from(alloc, bytes),
    }
}

impl Table {
    #[tactic(auto, unfolding(crate::specs::KeyReading::column_from))]
    fn column_from<'a>(
        &self,
        alloc: Global,
        number: ColumnNumber,
        bytes: &'a [u8],
    ) -> Parsed<'a, Value>
        ensures { IfOk result (λ parsed.
            Parses (λ value. value) parsed (column_from self.now number bytes.now)) }
    {
        match self.column_at(number) {
            None => Ok(None),
            Some(column) => part_from(alloc, column.of, bytes),
        }
    }

    fn parts_from<'a>(&self, alloc: Global, bytes: &'a [u8]) -> Parsed<'a, Values>
        ensures { IfOk result (λ parsed.
            Parses (λ parts. parts) parsed (parts_from self.now self.now.key bytes.now)) }
    {
        let mut parts = Vec::new(alloc);
        let mut rest = bytes;
        for number in self.key.items() {
            match self.column_from(alloc, *number, rest)? {
                None => return Ok(None),
                Some((part, others)) => {
                    parts.push(part)?;
                    rest = others;
                }
            }
        }
        Ok(Some((Values::new(parts), rest)))
    }

    fn key_from(&self, alloc: Global, bytes: &[u8]) -> Result<Option<Key>, AllocError>
        ensures { IfOk result (λ key. key ≡ key_from self.now bytes.now) }
    {
        let [table, rest @ ..] = bytes else {
            return Ok(None);
        };
        if *table != self.number {
            return Ok(None);
        }
        match self.parts_from(alloc, rest)? {
            None => Ok(None),
            Some((parts, left)) => {
                if left.is_empty() && self.check_key(parts.items()).is_ok() {
                    Ok(Some(Key {
                        table: self.number,
                        parts,
                    }))
                } else {
                    Ok(None)
                }
            }
        }
    }
}

/// Reads the table's key with these bytes, where it has one.
pub fn read_key(alloc: Global, table: &Table, bytes: &KeyBytes) -> Mem<Option<Key>>
    ensures is { IfOk result (λ key. key ≡ key_from table.now bytes.now) }
    ensures found { IfOk result (λ key. IfSome key (IsKeyWith table.now bytes.now)) }
    ensures none { IfOk result (λ key. IfNone key (NoKeyWith table.now bytes.now)) }
    ensures err { OnlyMemory result }
{
    let bytes = bytes.bytes();
    Ok(table.key_from(alloc, bytes)?)
}
