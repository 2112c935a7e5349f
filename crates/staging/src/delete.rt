//! DELETE.
ghost use Rattle.std.specs.Prelude.{◌≡◌, IfOk, OnErr};
ghost use Rattle.values.specs.Writes.{delete_from};
ghost use Rattle.values.specs.Events.{AreKeysIn};
ghost use Rattle.staging.specs.Own.{WhenRead, IsAnswered, own};
ghost use Rattle.staging.specs.Staged.{deletions};

use crate::staged::Staged;
use searchrange::Search;
use std::alloc::{AllocError, Global};
use tsbtree::View;
use values::{FittingKeys, Key, Refusal, Row};

impl Staged {
    /// Deletes the rows that keys take.
    pub(crate) fn delete(&mut self, view: &View, keys: FittingKeys<'_>) -> Result<usize, Refusal>
        ensures answers { WhenRead keys.entry.table.now view.now self.old (λ schema m.
            IsAnswered result m self.new
            (delete_from keys.entry.table.now keys.entry.keys.now (own m self.old))) }
        ensures keys { WhenRead keys.entry.table.now view.now self.old (λ schema m.
            AreKeysIn schema self.new) }
        ensures refused { OnErr result (self.new ≡ self.old) }
    {
        let search = Search::new(self.alloc, keys)?;
        let found = self.rows_found(view, &search)?;
        let count = found.len();
        let changes = deletions(self.alloc, found)?;
        self.put(changes, count)
    }
}

fn deletions(alloc: Global, rows: Vec<(Key, Row)>) -> Result<Vec<(Key, Option<Row>)>, AllocError>
    ensures { IfOk result (λ v. v.items ≡ deletions rows.items) }
{
    let mut changes = Vec::with_capacity(alloc, rows.len())?;
    for (key, _row) in rows {
        changes.push((key, None))?;
    }
    Ok(changes)
}
