//! INSERT, UPDATE and DELETE over what a transaction sees.
ghost use Rattle.std.specs.Prelude.{◌≡◌, OnErr};
ghost use Rattle.values.specs.Fitting.{write_to};
ghost use Rattle.values.specs.Events.{AreKeysIn};
ghost use Rattle.staging.specs.Own.{WhenRead, IsAnswered, own};

use crate::staged::Staged;
use tsbtree::View;
use values::{FittingKeys, FittingWrite, Refusal, Write};

impl Staged {
    /// Inserts, updates or deletes rows of a table, also for a span of application time, and
    /// returns how many. `DuplicateKey` with the first key of an INSERT that the transaction sees
    /// or that an earlier row has; then `Overlap` with the key of the first row whose period
    /// overlaps that of a row of its entity which the transaction sees or which comes earlier;
    /// `TooManyWrites` where the transaction would have written over 1,000 keys. After a refusal
    /// nothing has changed.
    pub fn write(&mut self, view: &View, write: FittingWrite<'_>) -> Result<usize, Refusal>
        ensures answers { WhenRead write.entry.table.now view.now self.old (λ schema m.
            IsAnswered result m self.new
            (write_to write.entry.table.now write.entry.write (own m self.old))) }
        ensures keys { WhenRead write.entry.table.now view.now self.old (λ schema m.
            AreKeysIn schema self.new) }
        ensures refused { OnErr result (self.new ≡ self.old) }
    {
        let table = write.table;
        match write.write {
            Write::Insert(_, rows) => self.insert(view, table, rows),
            Write::Update(keys, sets) => self.update(view, FittingKeys { table, keys }, sets),
            Write::Delete(keys) => self.delete(view, FittingKeys { table, keys }),
            Write::UpdatePortion(keys, span, sets) => {
                self.change_portion(view, FittingKeys { table, keys }, span, Some(sets))
            }
            Write::DeletePortion(keys, span) => {
                self.change_portion(view, FittingKeys { table, keys }, span, None)
            }
        }
    }
}
