//! The keys of an entity.
ghost use Rattle.std.specs.Prelude.{◌≡◌, IfOk, None};
ghost use Rattle.values.specs.Entity.{entity_of};
ghost use Rattle.values.specs.Fit.{comparisons_fault};
ghost use Rattle.values.specs.KeyReading.{IsKeyOf};
ghost use Rattle.values.specs.Memory.{OnlyMemory};
ghost use Rattle.periods.specs.EntityKeys.{entity_keys, equalities};
ghost use Rattle.searchrange.specs.Entity.{IsEntityRange};
ghost use Rattle.searchrange.specs.SearchRange.{range_of_table, IsWithin};

use crate::narrowing::range_of_keys;
use keyrange::KeyRange;
use std::alloc::{AllocError, Global};
use values::{ColumnNumber, Comparison, Key, Keys, Mem, Operator, Sequence, Table, Value};

/// Returns the range of the keys of one entity, that of a key, in a table with a period of
/// application time: of the table's keys those of the entity are in it, and no others.
pub fn entity_range(alloc: Global, table: &Table, key: &Key) -> Mem<KeyRange>
    ensures of { IfOk result (IsEntityRange table.now key.now) }
    ensures within { IfOk result (λ range. IsWithin range (range_of_table table.now.number)) }
    ensures err { OnlyMemory result }
{
    let _number = table.number;
    let keys = entity_keys(alloc, table, key)?;
    range_of_keys(alloc, table, &keys)
}

/// Returns the search condition that the keys of a key's entity meet, and no others of its table:
/// each column of the entity is equal to its value. The condition of a key that fits the table fits
/// it too.
pub fn entity_keys(alloc: Global, table: &Table, key: &Key) -> Mem<Keys>
    ensures ok { IfOk result (λ keys. keys ≡ entity_keys table.now (entity_of key.now)) }
    ensures fits { IfOk result (λ keys. IsKeyOf table.now key.now
        → comparisons_fault table.now keys.comparisons ≡ None) }
    ensures err { OnlyMemory result }
{
    let entity = key.entity(alloc)?;
    let comparisons = equalities(alloc, table.key.items(), entity.parts.items())?;
    Ok(Keys {
        table: key.table,
        comparisons: Sequence::new(comparisons),
    })
}

/// One comparison for each column that has a value: it is equal to that.
fn equalities(
    alloc: Global,
    columns: &[ColumnNumber],
    values: &[Value],
) -> Result<Vec<Comparison>, AllocError>
    ensures { IfOk result (λ v. v.items ≡ equalities columns.now values.now) }
{
    let mut comparisons = Vec::new(alloc);
    for (i, column) in columns.iter().enumerate() {
        let Some(value) = values.get(i) else {
            return Ok(comparisons);
        };
        comparisons.push(Comparison {
            column: *column,
            operator: Operator::Equal,
            value: value.clone()?,
        })?;
    }
    Ok(comparisons)
}
