//! The keys of a table.
ghost use Rattle.std.specs.Prelude.{◌≡◌, ◌+◌, ◌==◌, [], ◌∷◌, Some, None, IfOk, if◌then◌else◌};
ghost use Rattle.values.specs.Memory.{OnlyMemory};
ghost use Rattle.searchrange.specs.SearchRange.{range_of_table};

use keyrange::KeyRange;
use std::alloc::Global;
use values::{KeyBytes, Mem};

/// Returns the range of a table's keys, by its number: the first byte of each.
pub fn range_of_table(alloc: Global, table: u8) -> Mem<KeyRange>
    ensures ok { IfOk result (λ range. range ≡ range_of_table table) }
    ensures err { OnlyMemory result }
{
    Ok(KeyRange {
        lo: one_byte(alloc, table)?,
        hi: byte_after(alloc, table)?,
    })
}

/// The bytes after a table's, where its number is not the greatest byte.
fn byte_after(alloc: Global, table: u8) -> Mem<Option<KeyBytes>>
    ensures ok { IfOk result (λ key. key
        ≡ (if table == 255 then None else Some ((table + 1) ∷ []))) }
    ensures err { OnlyMemory result }
{
    match table.checked_add(1) {
        None => Ok(None),
        Some(next) => Ok(Some(one_byte(alloc, next)?)),
    }
}

fn one_byte(alloc: Global, byte: u8) -> Mem<KeyBytes>
    ensures ok { IfOk result (λ key. key ≡ byte ∷ []) }
    ensures err { OnlyMemory result }
{
    let bytes = vec![in alloc; byte]?;
    match KeyBytes::new(bytes) {
        Some(key) => Ok(key),
        None => unreachable!(),
    }
}
