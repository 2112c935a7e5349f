//! Reads: by the session's own view and its own writes, with no lock.
ghost use Rattle.std.specs.Prelude.{◌≡◌};
ghost use Rattle.steps.specs.declared.step.Step.TheVariants.{Select};
ghost use Rattle.steps.specs.Misfit.{misfit, key_misfit};
ghost use Rattle.sessions.specs.SessionState.{IsGet, IsSelect, TakesNoMemory};

use crate::session::Session;
use steps::{Listing, fit_keys, key_misfit};
use values::{Form, Key, Keys, Refusal, Row};

impl Session {
    /// Returns the row that the transaction sees at a key, if there is one. `NoTable`; `BadRow`
    /// where the key does not fit; `NoTransaction`.
    pub fn get(&self, key: &Key) -> Result<Option<Row>, Refusal>
        ensures answer { IsGet self.now key.now result }
        ensures no_memory { TakesNoMemory self.now (key_misfit self.now.schema key.now) result }
    {
        if let Some(refusal) = key_misfit(&self.schema, key) {
            return Err(refusal);
        }
        let Some(own) = &self.transaction else {
            return Err(Refusal::NoTransaction);
        };
        let Some(table) = self.schema.table_at(key.table) else {
            return Err(Refusal::NoTable);
        };
        own.transaction.get(table, key)
    }

    /// Returns what a query of a table shows: a plain one the rows that the transaction sees, any
    /// other what was committed until its start. `NoTable`; `BadRow` where a value does not fit;
    /// `NoTransaction`. Nothing is changed but which blocks the session keeps unpacked.
    pub fn select(&mut self, form: Form, keys: &Keys) -> Result<Listing, Refusal>
        ensures answer { IsSelect self.old form keys.now result }
        ensures no_memory { TakesNoMemory self.old
            (misfit self.old.schema (Select self.old.number form keys.now)) result }
        ensures same { self.new ≡ self.old }
    {
        let keys = match fit_keys(&self.schema, self.number, keys) {
            Ok(keys) => keys,
            Err(refusal) => return Err(refusal),
        };
        match &self.transaction {
            None => Err(Refusal::NoTransaction),
            Some(own) => own
                .transaction
                .select(self.alloc, &mut self.cache, form, keys),
        }
    }
}
