//! Comparisons on the leading key columns narrow the range of a table's keys; see README.md.
ghost use Rattle.std.specs.Prelude.{◌≡◌, IfOk, All, Option, option_copied, position, ◌==◌, [], ◌∷◌, Some, None, true};
ghost use Rattle.values.specs.TableRules.{IsTable};
ghost use Rattle.values.specs.Fit.{comparisons_fault};
ghost use Rattle.values.specs.KeyEncodingLaw.{IsStorable};
ghost use Rattle.values.specs.Memory.{OnlyMemory};
ghost use Rattle.searchrange.specs.OnlyKey.{only_key};
ghost use Rattle.searchrange.specs.SearchRange.{range_of_table, from_bytes, before_bytes, after_prefix, upto_prefix, narrowed, is_equality, is_at, is_before_place, narrowed_at, narrowing_end, equal_at, all_narrow, narrowed_from, search_range, Covers, IsWithin, TakesAll};

use crate::prefix::next_prefix;
use crate::table_range::range_of_table;
use keyrange::{KeyRange, is_before_end, is_below};
use std::alloc::{AllocError, Global};
use values::{
    ColumnNumber, Comparison, Key, KeyBuffer, KeyBytes, Keys, Mem, Operator, Table, Value,
    push_part,
};

/// The range of the table's keys, narrowed by the comparisons on its leading key columns.
///
/// A column that is to be equal to a value leaves the keys that go on with its bytes, and the next
/// column narrows these; the first that is not is the last that narrows. Each key of the table that
/// meets all comparisons is in the range; where each comparison is of a column that narrows, no
/// other key of the table is.
pub(crate) fn search_range(alloc: Global, table: &Table, keys: &Keys) -> Mem<KeyRange>
    requires good { IsTable table.now.number table.now }
    requires own { keys.now.table ≡ table.now.number }
    requires fits { comparisons_fault table.now keys.now.comparisons ≡ None }
    ensures ok { IfOk result (λ range. range ≡ search_range table.now keys.now) }
    ensures covers { IfOk result (λ range. Covers table.now keys.now range) }
    ensures within { IfOk result (λ range. IsWithin range (range_of_table table.now.number)) }
    ensures err { OnlyMemory result }
{
    let _number = table.number;
    read_values(keys.comparisons.items());
    range_of_keys(alloc, table, keys)
}

/// Reads each value: a number that was read is one of 64 bits.
fn read_values(comparisons: &[Comparison])
    ensures { All (λ c. IsStorable c.value) comparisons.now }
{
    for comparison in comparisons {
        read_value(&comparison.value);
    }
}

fn read_value(value: &Value)
    ensures { IsStorable value.now }
{
    if let Value::Int(number) = value {
        let _number = *number;
    }
}

/// Narrows the range of the table's keys by whatever comparisons.
pub(crate) fn range_of_keys(alloc: Global, table: &Table, keys: &Keys) -> Mem<KeyRange>
    ensures ok { IfOk result (λ range. range ≡ search_range table.now keys.now) }
    ensures err { OnlyMemory result }
{
    let range = range_of_table(alloc, table.number)?;
    Ok(narrow(alloc, table, keys.comparisons.items(), range)?)
}

/// Whether each comparison is of a column that narrows: then each key of the table in the range
/// meets them all.
pub(crate) fn is_exact(table: &Table, keys: &Keys, key: Option<&Key>) -> bool
    requires good { IsTable table.now.number table.now }
    requires own { keys.now.table ≡ table.now.number }
    requires fits { comparisons_fault table.now keys.now.comparisons ≡ None }
    requires key { option_copied key ≡ only_key table.now keys.now }
    ensures narrow { result ≡ all_narrow table.now keys.now.comparisons }
    ensures exact { result ≡ true
        → TakesAll table.now keys.now (search_range table.now keys.now) }
{
    let _number = table.number;
    read_values(keys.comparisons.items());
    all_narrow_with(table, keys, key)
}

/// Whether each comparison is of a column that narrows. Where the condition takes one key all are,
/// and none is looked at.
fn all_narrow_with(table: &Table, keys: &Keys, key: Option<&Key>) -> bool
    requires fits { comparisons_fault table.now keys.now.comparisons ≡ None }
    requires key { option_copied key ≡ only_key table.now keys.now }
    ensures { result ≡ all_narrow table.now keys.now.comparisons }
{
    key.is_some() || all_narrow(table, keys.comparisons.items())
}

/// Whether each comparison is of a column that narrows.
fn all_narrow(table: &Table, comparisons: &[Comparison]) -> bool
    ensures { result ≡ all_narrow table.now comparisons.now }
{
    let end = narrowing_end(table, comparisons);
    comparisons.iter().all(|comparison| is_before_place(end, place_of(table, comparison.column)))
}

/// The place behind the last column that narrows.
fn narrowing_end(table: &Table, comparisons: &[Comparison]) -> usize
    ensures { result ≡ narrowing_end table.now comparisons.now 0 table.now.key }
{
    let columns = table.key.items().len();
    for place in 0..columns {
        match equal_at(table, place, comparisons) {
            None => return place + 1,
            Some(_value) => {}
        }
    }
    columns
}

fn is_before_place(end: usize, place: Option<usize>) -> bool
    ensures { result ≡ is_before_place end place }
{
    match place {
        None => false,
        Some(place) => place < end,
    }
}

/// The range narrowed by the comparisons on leading key columns.
fn narrow(
    alloc: Global,
    table: &Table,
    comparisons: &[Comparison],
    range: KeyRange,
) -> Result<KeyRange, AllocError>
    ensures { IfOk result (λ r. r ≡ narrowed_from
        table.now comparisons.now 0 (table.now.number ∷ []) table.now.key range) }
{
    let mut prefix = KeyBuffer::new(alloc);
    prefix.push(table.number)?;
    let mut range = range;
    for place in 0..table.key.items().len() {
        range = narrowed_at(alloc, table, place, prefix.as_slice(), comparisons, range)?;
        match equal_at(table, place, comparisons) {
            None => return Ok(range),
            Some(value) => push_part(&mut prefix, value)?,
        }
    }
    Ok(range)
}

/// The value that the column at a place is to be equal to.
pub(crate) fn equal_at<'a>(
    table: &Table,
    place: usize,
    comparisons: &'a [Comparison],
) -> Option<&'a Value>
    ensures { option_copied result ≡ equal_at table.now place comparisons.now }
{
    for comparison in comparisons {
        if is_at(table, place, comparison) && comparison.operator == Operator::Equal {
            return Some(&comparison.value);
        }
    }
    None
}

/// Whether the column compared is the key's column at a place.
fn is_at(table: &Table, place: usize, comparison: &Comparison) -> bool
    ensures { result ≡ is_at table.now place comparison.now }
{
    match place_of(table, comparison.column) {
        None => false,
        Some(found) => found == place,
    }
}

/// A column's place in the key.
fn place_of(table: &Table, column: ColumnNumber) -> Option<usize>
    ensures { result ≡ position (λ k. k == column) table.now.key }
{
    table.key.items().iter().position(|part| *part == column)
}

/// The range narrowed by the comparisons at a place, behind a prefix.
fn narrowed_at(
    alloc: Global,
    table: &Table,
    place: usize,
    prefix: &[u8],
    comparisons: &[Comparison],
    range: KeyRange,
) -> Result<KeyRange, AllocError>
    ensures { IfOk result (λ r. r ≡ narrowed_at table.now place prefix.now comparisons.now range) }
{
    let mut range = range;
    for comparison in comparisons {
        if is_at(table, place, comparison) {
            let mut bytes = KeyBuffer::from_slice(alloc, prefix)?;
            push_part(&mut bytes, &comparison.value)?;
            range = narrowed_by(alloc, comparison.operator, bytes, range)?;
        }
    }
    Ok(range)
}

/// The range narrowed by one comparison with the value that these bytes end with.
fn narrowed_by(
    alloc: Global,
    operator: Operator,
    bytes: KeyBuffer,
    range: KeyRange,
) -> Result<KeyRange, AllocError>
    ensures { IfOk result (λ r. r ≡ narrowed operator bytes.items range) }
{
    match operator {
        Operator::Equal => {
            let next = next_prefix(alloc, bytes.as_slice())?;
            Ok(before_end(next, from_bytes(bytes, range)))
        }
        Operator::Below => Ok(before_bytes(bytes, range)),
        Operator::AtMost => Ok(before_end(next_prefix(alloc, bytes.as_slice())?, range)),
        Operator::Above => match next_prefix(alloc, bytes.as_slice())? {
            None => Ok(before_bytes(KeyBuffer::new(alloc), range)),
            Some(next) => Ok(from_bytes(next, range)),
        },
        Operator::AtLeast => Ok(from_bytes(bytes, range)),
    }
}

/// The range before an end, where there is one.
fn before_end(end: Option<KeyBuffer>, range: KeyRange) -> KeyRange
    ensures { result ≡ elim end [ None ↦ range | Some bytes ↦ before_bytes bytes.items range ] }
{
    match end {
        None => range,
        Some(end) => before_bytes(end, range),
    }
}

/// The range from these bytes on.
fn from_bytes(bytes: KeyBuffer, range: KeyRange) -> KeyRange
    ensures { result ≡ from_bytes bytes.items range }
{
    match KeyBytes::from_buffer(bytes) {
        Some(lo) if is_below(&range.lo, &lo) => KeyRange { lo, hi: range.hi },
        _ => range,
    }
}

/// The range before these bytes.
fn before_bytes(bytes: KeyBuffer, range: KeyRange) -> KeyRange
    ensures { result ≡ before_bytes bytes.items range }
{
    match KeyBytes::from_buffer(bytes) {
        Some(hi) if is_before_end(&hi, &range.hi) => KeyRange {
            lo: range.lo,
            hi: Some(hi),
        },
        _ => range,
    }
}
