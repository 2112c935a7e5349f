//! The values that fields write.
ghost use Rattle.std.specs.Prelude.{◌≡◌, ◌≤◌, IfOk, IfSome, option_map};
ghost use Rattle.statement.specs.Literal.{digits_here};
ghost use Rattle.values.specs.Memory.{OnlyMemory};
ghost use Rattle.interchange.specs.Field.{number_of, misfit_of, number_value, truth_value, text_value, field_value, whole};

use statement::{digits_here, number_here};
use std::alloc::Global;
use std::str;
use values::{Chars, ColumnType, Mem, Value, same_name};

/// Returns what was read, where no byte is left.
fn whole<T: Copy>(found: Option<(T, &[u8])>) -> Option<T>
    ensures { result ≡ whole (option_map (λ x. (x.0, x.1.now)) found.entry) }
{
    match found {
        Some((value, rest)) if rest.is_empty() => Some(value),
        _ => None,
    }
}

/// Reads the number that digits and nothing else write, if it is at most so great.
pub fn whole_within(most: u64, bytes: &[u8]) -> Option<u64>
    ensures value { result ≡ whole (digits_here most bytes.now) }
    ensures within { IfSome result (λ value. value ≤ most) }
{
    whole(digits_here(most, bytes))
}

/// Reads a whole number of 64 bits: digits, or a minus and digits.
fn number_of(field: &[u8]) -> Option<i64>
    ensures { result ≡ number_of field.now }
{
    whole(number_here(field))
}

/// A value that no column of the type holds.
fn misfit_of(of: ColumnType) -> Value
    ensures { result ≡ misfit_of of }
{
    match of {
        ColumnType::Boolean => Value::Int(0),
        ColumnType::Int | ColumnType::Text | ColumnType::Varchar(_) => Value::Bool(false),
    }
}

fn number_value(field: &[u8]) -> Value
    ensures { result ≡ number_value field.now }
{
    match number_of(field) {
        Some(number) => Value::Int(number),
        None => misfit_of(ColumnType::Int),
    }
}

fn truth_value(field: &[u8]) -> Value
    ensures { result ≡ truth_value field.now }
{
    if same_name(field, b"true") {
        Value::Bool(true)
    } else if same_name(field, b"false") {
        Value::Bool(false)
    } else {
        misfit_of(ColumnType::Boolean)
    }
}

fn text_value(alloc: Global, field: &[u8]) -> Mem<Value>
    ensures ok { IfOk result (λ value. value ≡ text_value field.now) }
    ensures err { OnlyMemory result }
{
    match str::from_utf8(field) {
        Ok(text) => Ok(Value::Text(Chars::copy_of(alloc, text)?)),
        Err(_) => Ok(misfit_of(ColumnType::Text)),
    }
}

/// Reads the value that a field writes in a column of a type. An empty field is the empty text, and
/// of the other types NULL.
pub(crate) fn field_value(alloc: Global, of: ColumnType, field: &[u8]) -> Mem<Value>
    ensures ok { IfOk result (λ value. value ≡ field_value of field.now) }
    ensures err { OnlyMemory result }
{
    match of {
        ColumnType::Text | ColumnType::Varchar(_) => text_value(alloc, field),
        _ if field.is_empty() => Ok(Value::Null),
        ColumnType::Int => Ok(number_value(field)),
        ColumnType::Boolean => Ok(truth_value(field)),
    }
}
