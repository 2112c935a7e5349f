//! Which keys a statement takes.
ghost use Rattle.std.specs.Prelude.{◌≡◌, option_copied, position, ◌==◌};
ghost use Rattle.std.specs.List.{list_all};
ghost use Rattle.values.specs.Versions.{compares, part_of, holds, matches};

use crate::key::Key;
use crate::query::{ColumnNumber, Comparison, Keys, Operator};
use crate::table::Table;
use crate::value::Value;
use std::cmp::Ordering;

impl Keys {
    /// Tells whether a key is of the table and meets all comparisons.
    pub fn matches(&self, table: &Table, key: &Key) -> bool
        ensures { result ≡ matches table.now self.now key.now }
    {
        key.table == self.table && all_hold(table, key, self.comparisons.items())
    }
}

fn all_hold(table: &Table, key: &Key, comparisons: &[Comparison]) -> bool
    ensures { result ≡ list_all (holds table.now key.now) comparisons.now }
{
    for comparison in comparisons {
        if !holds(table, key, comparison) {
            return false;
        }
    }
    true
}

fn holds(table: &Table, key: &Key, comparison: &Comparison) -> bool
    ensures { result ≡ holds table.now key.now comparison.now }
{
    match part_of(table, key, comparison.column) {
        None => false,
        Some(value) => compares(comparison.operator, value.cmp(&comparison.value)),
    }
}

/// A key's value of a column.
fn part_of<'a>(table: &Table, key: &'a Key, column: ColumnNumber) -> Option<&'a Value>
    ensures { option_copied result ≡ part_of table.now key.now column }
{
    match place_of(table, column) {
        Some(place) => key.parts.items().get(place),
        None => None,
    }
}

/// A column's place in the key.
fn place_of(table: &Table, column: ColumnNumber) -> Option<usize>
    ensures { result ≡ position (λ k. k == column) table.now.key }
{
    table.key.items().iter().position(|part| *part == column)
}

fn compares(operator: Operator, order: Ordering) -> bool
    ensures { result ≡ compares operator order }
{
    match operator {
        Operator::Equal => order.is_eq(),
        Operator::Below => order.is_lt(),
        Operator::AtMost => order.is_le(),
        Operator::Above => order.is_gt(),
        Operator::AtLeast => order.is_ge(),
    }
}
