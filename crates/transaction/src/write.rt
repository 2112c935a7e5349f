//! INSERT, UPDATE and DELETE.
ghost use Rattle.std.specs.Prelude.{◌≡◌, OnErr};
ghost use Rattle.values.specs.Fitting.{write_to};
ghost use Rattle.values.specs.Events.{AreKeysIn};
ghost use Rattle.systime_query.specs.staging.Own.{WhenRead, IsAnswered, own};

use crate::open_transaction::OpenTransaction;
use values::{FittingWrite, Refusal};

impl OpenTransaction {
    /// Inserts, updates or deletes rows of a table, and returns how many. `DuplicateKey` with the
    /// first key of an INSERT that the transaction sees or that an earlier row has; `TooManyWrites`
    /// where the transaction would have written over 1,000 keys. After a refusal nothing has
    /// changed.
    pub fn write(&mut self, write: FittingWrite<'_>) -> Result<usize, Refusal>
        ensures answers { WhenRead write.entry.table.now self.old.view self.old.writes (λ schema m.
            IsAnswered result m self.new.writes
            (write_to write.entry.table.now write.entry.write (own m self.old.writes))) }
        ensures keys { WhenRead write.entry.table.now self.old.view self.old.writes (λ schema m.
            AreKeysIn schema self.new.writes) }
        ensures view { self.new.view ≡ self.old.view }
        ensures refused { OnErr result (self.new ≡ self.old) }
    {
        self.staged.write(&self.view, write)
    }
}
