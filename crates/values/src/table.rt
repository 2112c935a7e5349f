//! Tables and their columns.
ghost use Rattle.std.specs.Prelude.{◌≡◌, IfOk, IfSome, All, option_copied};
ghost use Rattle.values.specs.Tables.{table_at, value_at};
ghost use Rattle.values.specs.TableRules.{IsTable, IsNumberIn, AreTables};
ghost use Rattle.values.specs.Names.{same_name, column_number};
ghost use Rattle.values.specs.TableNumber.{table_number};
ghost use Rattle.values.specs.Writes.{key_of};
ghost use Rattle.values.specs.RowEncoding.{IsHeld};
ghost use Rattle.values.specs.Memory.{OnlyMemory};

use crate::chars::Chars;
use crate::key::Key;
use crate::period::Period;
use crate::query::ColumnNumber;
use crate::refusal::Mem;
use crate::row::Row;
use crate::sequence::Sequence;
use crate::value::{Value, Values};
use std::alloc::{AllocError, Global};
use std::marker::Model;

/// What a column may hold besides NULL.
#[derive(Clone, Copy, Debug, PartialEq, Eq)]
pub enum ColumnType {
    /// Whole numbers of 64 bits.
    Int,
    /// Texts of at most 1,000 bytes.
    Text,
    /// Texts of at most 1,000 bytes and at most so many characters.
    Varchar(u16),
    /// False and true.
    Boolean,
}

/// A user column.
#[derive(PartialEq, Eq, Drop)]
pub struct Column {
    pub name: Chars,
    pub of: ColumnType,
    pub not_null: bool,
}

/// A system-versioned table. The user columns are numbered from 1, the period columns left out.
#[derive(PartialEq, Eq, Drop)]
pub struct Table {
    /// From 1.
    pub number: u8,
    pub name: Chars,
    pub columns: Sequence<Column>,
    /// The key columns, in the key's order.
    pub key: Sequence<ColumnNumber>,
    /// The name of the ROW START column.
    pub row_start: Chars,
    /// The name of the ROW END column.
    pub row_end: Chars,
    /// The period of application time, if the table has one: its start is then the last of the key
    /// columns, and those before it are the entity's.
    pub period: Option<Period>,
}

impl Clone for Column {
    ghost use Rattle.std.specs.Prelude.{◌≡◌};

    ghost is_clone = { λ x y. y ≡ x };

    fn clone(&self) -> Result<Column, AllocError> {
        Ok(Column {
            name: self.name.clone()?,
            of: self.of,
            not_null: self.not_null,
        })
    }
}

impl Clone for Table {
    ghost use Rattle.std.specs.Prelude.{◌≡◌};

    ghost is_clone = { λ x y. y ≡ x };

    fn clone(&self) -> Result<Table, AllocError> {
        Ok(Table {
            number: self.number,
            name: self.name.clone()?,
            columns: self.columns.clone()?,
            key: self.key.clone()?,
            row_start: self.row_start.clone()?,
            row_end: self.row_end.clone()?,
            period: self.period.clone()?,
        })
    }
}

impl Table {
    /// Finds the number of the user column with a name, in any case.
    pub fn column(&self, name: &[u8]) -> Option<ColumnNumber>
        ensures { result ≡ column_number self.now name.now }
    {
        for (i, column) in self.columns.items().iter().enumerate() {
            if same_name(column.name.text().as_bytes(), name) {
                return Some(i + 1);
            }
        }
        None
    }

    /// Makes the key of a row that fits the table: the values of its key columns.
    pub fn key(&self, alloc: Global, row: &Row) -> Mem<Key>
        ensures ok { IfOk result (λ k. k ≡ key_of self.now row.now) }
        ensures held { IfOk result (λ k. All IsHeld k.parts) }
        ensures err { OnlyMemory result }
    {
        let mut parts = Vec::with_capacity(alloc, self.key.items().len())?;
        for column in self.key.items() {
            parts.push(value_at(row.values(), *column)?)?;
        }
        Ok(Key {
            table: self.number,
            parts: Values::new(parts),
        })
    }
}

/// The value of a column; NULL past the end.
fn value_at(values: &[Value], column: ColumnNumber) -> Result<Value, AllocError>
    ensures is { IfOk result (λ v. v ≡ value_at values.now column) }
    ensures held { IfOk result IsHeld }
{
    match values.get(column.saturating_sub(1)) {
        Some(value) => copy_value(value),
        None => Ok(Value::Null),
    }
}

/// An equal value, which is one that a program holds.
fn copy_value(value: &Value) -> Result<Value, AllocError>
    ensures is { IfOk result (λ v. v ≡ value.now) }
    ensures held { IfOk result IsHeld }
{
    match value {
        Value::Int(number) => {
            let number = *number;
            Ok(Value::Int(number))
        }
        Value::Text(text) => {
            let _utf8 = text.text();
            Ok(Value::Text(text.clone()?))
        }
        Value::Bool(truth) => Ok(Value::Bool(*truth)),
        Value::Null => Ok(Value::Null),
    }
}

/// Tells whether two names are the same but for the case of their letters.
pub fn same_name(name: &[u8], other: &[u8]) -> bool
    ensures { result ≡ same_name name.now other.now }
{
    name.eq_ignore_ascii_case(other)
}
