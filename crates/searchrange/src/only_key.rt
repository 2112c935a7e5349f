//! The one key that a search condition may leave.
ghost use Rattle.std.specs.Prelude.{◌≡◌, None, Some, IfOk, IfSome, MatchOption};
ghost use Rattle.searchrange.specs.OnlyKey.{equal_parts, only_key, IsOnly};

use crate::narrowing::equal_at;
use std::alloc::{AllocError, Global};
use values::{Comparison, Key, Keys, Table, Value, Values, read_values};

/// Returns the key whose values the key's columns are to be equal to, where each is to be equal to
/// one, and the key fits the table and meets the whole condition. Of the table's keys the condition
/// takes this one and no other.
pub(crate) fn only_key(alloc: Global, table: &Table, keys: &Keys) -> Result<Option<Key>, AllocError>
    ensures ok { IfOk result (λ key. key ≡ only_key table.now keys.now) }
    ensures only { IfOk result (λ key. IfSome key (IsOnly table.now keys.now)) }
{
    let Some(parts) = equal_parts(alloc, table, keys.comparisons.items())? else {
        return Ok(None);
    };
    read_values(parts.as_slice());
    let key = Key {
        table: table.number,
        parts: Values::new(parts),
    };
    if table.check_key(key.parts.items()).is_ok() && keys.matches(table, &key) {
        Ok(Some(key))
    } else {
        Ok(None)
    }
}

/// The values that the key's columns are to be equal to, where each is to be equal to one.
fn equal_parts(
    alloc: Global,
    table: &Table,
    comparisons: &[Comparison],
) -> Result<Option<Vec<Value>>, AllocError>
    ensures { IfOk result (λ parts. MatchOption parts
        (equal_parts table.now comparisons.now 0 table.now.key ≡ None)
        (λ v. equal_parts table.now comparisons.now 0 table.now.key ≡ Some v.items)) }
{
    let mut parts = Vec::new(alloc);
    for place in 0..table.key.items().len() {
        match equal_at(table, place, comparisons) {
            None => return Ok(None),
            Some(value) => parts.push(value.clone()?)?,
        }
    }
    Ok(Some(parts))
}
