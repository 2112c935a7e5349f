//! Where the keys that comparisons take begin and end among keys in order.
ghost use Rattle.std.specs.Prelude.{◌≡◌, ◌&&◌, true, IfOk, IfSome};
ghost use Rattle.std.specs.Ordering.{is_gt};
ghost use Rattle.std.specs.List.{list_all};
ghost use Rattle.values.specs.declared.key.Key.{Key};
ghost use Rattle.values.specs.Order.{value_cmp};
ghost use Rattle.values.specs.Versions.{holds};
ghost use Rattle.staging.specs.Bound.{is_of_first, bounds_below, bounds_above, is_from_value, is_first_below, IsLeast, IsPast};

use std::alloc::{AllocError, Global};
use values::{Comparison, Key, Keys, Operator, Table, Value, Values};

/// A key below none that is taken.
pub(crate) fn least_key(alloc: Global, table: &Table, keys: &Keys) -> Result<Key, AllocError>
    ensures { IfOk result (λ least. IsLeast table.now keys.now least) }
{
    let mut parts = Vec::new(alloc);
    if let Some(value) = bound_below(table, keys.comparisons.items()) {
        parts.push(value.clone()?)?;
    }
    Ok(Key {
        table: keys.table,
        parts: Values::new(parts),
    })
}

/// A value that the first column of no key is below that meets the comparisons.
fn bound_below<'k>(table: &Table, comparisons: &'k [Comparison]) -> Option<&'k Value>
    ensures { IfSome result (λ v. (k : Key) → list_all (holds table.now k) comparisons.now ≡ true
        → is_from_value v.now k.parts ≡ true) }
{
    for comparison in comparisons {
        if is_of_first(table, comparison) && bounds_below(comparison.operator) {
            return Some(&comparison.value);
        }
    }
    None
}

/// Whether no key above this one is taken.
pub(crate) fn is_past(table: &Table, keys: &Keys, key: &Key) -> bool
    ensures { result ≡ true → IsPast table.now keys.now key.now }
{
    if key.table != keys.table {
        return key.table > keys.table;
    }
    is_above(table, keys.comparisons.items(), key.parts.items())
}

/// Whether each key that meets the comparisons is below these values in its first column.
fn is_above(table: &Table, comparisons: &[Comparison], parts: &[Value]) -> bool
    ensures { result ≡ true → (k : Key) → list_all (holds table.now k) comparisons.now ≡ true
        → is_first_below k.parts parts.now ≡ true }
{
    let Some(first) = parts.first() else {
        return false;
    };
    for comparison in comparisons {
        if is_of_first(table, comparison) && is_exceeded(comparison, first) {
            return true;
        }
    }
    false
}

/// Whether a value is above all that meet a comparison.
fn is_exceeded(comparison: &Comparison, value: &Value) -> bool
    ensures { result ≡ (bounds_above comparison.now.operator
        && is_gt (value_cmp value.now comparison.now.value)) }
{
    bounds_above(comparison.operator) && value.cmp(&comparison.value).is_gt()
}

/// Whether a comparison is of the first key column.
fn is_of_first(table: &Table, comparison: &Comparison) -> bool
    ensures { result ≡ is_of_first table.now comparison.now }
{
    match table.key.items() {
        [first, ..] => *first == comparison.column,
        [] => false,
    }
}

fn bounds_below(operator: Operator) -> bool
    ensures { result ≡ bounds_below operator }
{
    match operator {
        Operator::Equal | Operator::Above | Operator::AtLeast => true,
        Operator::Below | Operator::AtMost => false,
    }
}

fn bounds_above(operator: Operator) -> bool
    ensures { result ≡ bounds_above operator }
{
    match operator {
        Operator::Equal | Operator::Below | Operator::AtMost => true,
        Operator::Above | Operator::AtLeast => false,
    }
}
