//! Rows that can be stored.
ghost use Rattle.std.specs.Prelude.{◌≡◌, ◌≤◌, length, IfOk, IfSome, IsOk, IsSome};
ghost use Rattle.std.specs.List.{list_any, list_all};
ghost use Rattle.values.specs.Fit.{is_line_break, longest_text, fits_text};
ghost use Rattle.values.specs.Memory.{OnlyMemory};
ghost use Rattle.values.specs.RowEncoding.{IsStoredRow, is_stored, is_stored_row, is_width};
ghost use Rattle.values.specs.Tables.{widest, widened};

use crate::refusal::Mem;
use crate::value::Value;
use std::alloc::AllocError;
use std::marker::Model;

/// The values that a row may have.
pub const WIDEST: usize = 16;

/// The bytes that a text may have.
pub const LONGEST_TEXT: usize = 1000;

/// A row of a table: 1 to 16 values, in the table's order, with texts of one line and at most 1,000
/// bytes. Contracts see it as a list.
#[derive(Debug, Drop)]
pub struct Row {
    values: Vec<Value>,
}

impl Model for Row {
    ghost use Rattle.std.specs.Prelude.{List};
    ghost use Rattle.values.specs.declared.value.Value.{Value as Cell};

    ghost Value = { List Cell };

    ghost use Rattle.values.specs.RowEncoding.{IsStoredRow};

    ghost view = { λ r. r.values.items };

    ghost invariant = { λ r. IsStoredRow r.values.items };
}

impl Row {
    /// Makes a row; none where the values are not 1 to 16, or one is a text of over 1,000 bytes or
    /// of two lines.
    #[tactic(auto, using(crate::proofs::RowStored::stored_row, crate::proofs::RowStored::is_stored_row_of))]
    pub fn new(values: Vec<Value>) -> Option<Row>
        ensures are { IfSome result (λ r. r ≡ values.items) }
        ensures stored { IsStoredRow values.items → IsSome result }
    {
        if is_stored_row(&values) {
            Some(Row { values })
        } else {
            None
        }
    }

    /// Returns the values, in order.
    pub fn values(&self) -> &[Value]
        ensures are { result.now ≡ self.now }
        ensures stored { IsStoredRow result.now }
    {
        self.values.as_slice()
    }

    /// Returns the values, in order, without copying them.
    pub fn into_values(self) -> Vec<Value>
        ensures are { result.items ≡ self }
        ensures stored { IsStoredRow result.items }
    {
        self.values
    }

    /// Widens the row to so many values, at most 16: NULL stands for each that it lacks. A row that
    /// is as wide or wider stays as it is, and takes no memory.
    pub fn widen(self, width: usize) -> Mem<Row>
        requires { width ≤ widest }
        ensures ok { IfOk result (λ r. r ≡ widened width self) }
        ensures err { OnlyMemory result }
        ensures kept { width ≤ length self → IsOk result }
    {
        let mut values = self.values;
        for _ in values.len()..width {
            values.push(Value::Null)?;
        }
        Ok(Row { values })
    }

    /// Copies the row.
    pub fn copy(&self) -> Mem<Row>
        ensures ok { IfOk result (λ r. r ≡ self.now) }
        ensures err { OnlyMemory result }
    {
        Ok(self.clone()?)
    }
}

impl Clone for Row {
    ghost use Rattle.std.specs.Prelude.{◌≡◌};

    ghost is_clone = { λ x y. y ≡ x };

    fn clone(&self) -> Result<Row, AllocError> {
        Ok(Row {
            values: self.values.clone()?,
        })
    }
}

fn is_stored_row(values: &[Value]) -> bool
    ensures { result ≡ is_stored_row values.now }
{
    is_width(values.len()) && are_stored(values)
}

fn are_stored(values: &[Value]) -> bool
    ensures { result ≡ list_all is_stored values.now }
{
    values.iter().all(|value| is_stored(value))
}

fn is_width(width: usize) -> bool
    ensures { result ≡ is_width width }
{
    1 <= width && width <= WIDEST
}

fn is_stored(value: &Value) -> bool
    ensures { result ≡ is_stored value.now }
{
    match value {
        Value::Text(text) => fits_text(text.text().as_bytes()),
        Value::Int(_) | Value::Bool(_) | Value::Null => true,
    }
}

/// Whether bytes are on one line, and at most 1,000.
pub(crate) fn fits_text(bytes: &[u8]) -> bool
    ensures { result ≡ fits_text longest_text bytes.now }
{
    bytes.len() <= LONGEST_TEXT && !has_line_break(bytes)
}

fn has_line_break(bytes: &[u8]) -> bool
    ensures { result ≡ list_any is_line_break bytes.now }
{
    bytes.iter().any(|byte| is_line_break(*byte))
}

fn is_line_break(byte: u8) -> bool
    ensures { result ≡ is_line_break byte }
{
    byte == b'\n' || byte == b'\r'
}
