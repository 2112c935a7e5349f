//! INSERT, UPDATE and DELETE: the open transaction keeps them, and nobody else sees them.
ghost use Rattle.std.specs.Prelude.{◌≡◌, OnErr};
ghost use Rattle.steps.specs.Misfit.{misfit};
ghost use Rattle.steps.specs.StepOf.{step_of};
ghost use Rattle.sessions.specs.SessionState.{IsWrite, TakesNoMemory, WithWrites};

use crate::session::Session;
use steps::fit_write;
use values::{Refusal, Write};

impl Session {
    /// Inserts, updates or deletes rows of a table, and returns how many. `NoTable`; `BadRow` with
    /// the first column that does not fit; `NoTransaction`; `DuplicateKey` with the first key of an
    /// INSERT that the transaction sees or that an earlier row has; `TooManyWrites` where the
    /// transaction would have written over 1,000 keys. After a refusal nothing has changed.
    pub fn write(&mut self, write: Write<'_>) -> Result<usize, Refusal>
        ensures answers { IsWrite (step_of self.old.number write.entry) self.old self.new result }
        ensures no_memory { TakesNoMemory self.old
            (misfit self.old.schema (step_of self.old.number write.entry)) result }
        ensures rest { WithWrites self.old self.new }
        ensures refused { OnErr result (self.new ≡ self.old) }
    {
        let fitting = match fit_write(&self.schema, self.number, write) {
            Ok(fitting) => fitting,
            Err(refusal) => return Err(refusal),
        };
        let Some(own) = &mut self.transaction else {
            return Err(Refusal::NoTransaction);
        };
        own.transaction.write(fitting)
    }
}
