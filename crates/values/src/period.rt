//! Periods of application time, and the spans of time that rows have by them.
ghost use Rattle.std.specs.Prelude.{◌≡◌};
ghost use Rattle.std.specs.List.{list_any};
ghost use Rattle.values.specs.Tables.{value_at};
ghost use Rattle.values.specs.Period.{int_of, span_of, is_span, overlap, before, common, behind};

use crate::chars::Chars;
use crate::query::ColumnNumber;
use crate::row::Row;
use crate::value::Value;
use std::alloc::AllocError;

/// A period of application time: its name, and the columns of its start and of its end
/// (ISO/IEC 9075-2:2011, 4.14.1).
#[derive(PartialEq, Eq, Drop)]
pub struct Period {
    pub name: Chars,
    pub from: ColumnNumber,
    pub to: ColumnNumber,
}

impl Period {
    /// Returns the span of a row: what it has in the columns of the period, 0 where that is no
    /// whole number.
    pub fn span(&self, row: &Row) -> Span
        ensures { result ≡ span_of self.now row.now }
    {
        Span {
            from: int_at(row.values(), self.from),
            to: int_at(row.values(), self.to),
        }
    }
}

/// The whole number of a column; 0 where it is none.
fn int_at(values: &[Value], column: ColumnNumber) -> i64
    ensures { result ≡ int_of (value_at values.now column) }
{
    match values.get(column.saturating_sub(1)) {
        Some(Value::Int(number)) => *number,
        _ => 0,
    }
}

impl Clone for Period {
    ghost use Rattle.std.specs.Prelude.{◌≡◌};

    ghost is_clone = { λ x y. y ≡ x };

    fn clone(&self) -> Result<Period, AllocError> {
        Ok(Period {
            name: self.name.clone()?,
            from: self.from,
            to: self.to,
        })
    }
}

/// A span of application time, closed at its start and open at its end.
#[derive(Clone, Copy, Debug, PartialEq, Eq)]
pub struct Span {
    pub from: i64,
    pub to: i64,
}

impl Span {
    /// Tells whether the start is below the end.
    pub fn is_proper(self) -> bool
        ensures { result ≡ is_span self }
    {
        self.from < self.to
    }

    /// Tells whether each of two spans starts before the other ends.
    pub fn overlaps(self, other: Span) -> bool
        ensures { result ≡ overlap self other }
    {
        self.from < other.to && other.from < self.to
    }

    /// Tells whether one of some spans overlaps this one.
    pub fn overlaps_any(self, others: &[Span]) -> bool
        ensures { result ≡ list_any (overlap self) others.now }
    {
        for other in others {
            if self.overlaps(*other) {
                return true;
            }
        }
        false
    }

    /// Returns what lies before another span, which has its start in this one.
    pub fn before(self, other: Span) -> Span
        ensures { result ≡ before self other }
    {
        Span {
            from: self.from,
            to: other.from,
        }
    }

    /// Returns what both spans have.
    pub fn common(self, other: Span) -> Span
        ensures { result ≡ common self other }
    {
        Span {
            from: self.from.max(other.from),
            to: self.to.min(other.to),
        }
    }

    /// Returns what lies behind another span, which has its end in this one.
    pub fn behind(self, other: Span) -> Span
        ensures { result ≡ behind self other }
    {
        Span {
            from: other.to,
            to: self.to,
        }
    }
}
