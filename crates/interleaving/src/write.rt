//! INSERT, UPDATE and DELETE: a session's open transaction keeps them, and nobody else sees them.
ghost use Rattle.std.specs.Prelude.{◌≡◌, None, true, false};
ghost use Rattle.steps.specs.Misfit.{misfit};
ghost use Rattle.steps.specs.Reply.{is_out_of_memory};
ghost use Rattle.histories.specs.Stands.{is_open_at};
ghost use Rattle.histories.specs.Turn.{turn_in};
ghost use Rattle.steps.specs.StepOf.{step_of};
ghost use Rattle.interleaving.specs.StepLeaves.{leaves_all};
ghost use Rattle.interleaving.specs.SystemState.{world};

use crate::system::System;
use steps::Reply;
use values::{FittingWrite, Refusal, Write};

impl System {
    /// Inserts, updates or deletes rows of a table, as the session's transaction sees them.
    pub(crate) fn write(&mut self, session: u8, write: Write<'_>) -> Reply
        requires { misfit self.old.schema (step_of session write) ≡ None }
        ensures answered { is_out_of_memory result ≡ false
            → (result, world self.new) ≡ turn_in (world self.old) (step_of session write.entry) }
        ensures refused { leaves_all result ≡ true → self.new ≡ self.old }
        ensures engine { self.new.engine ≡ self.old.engine }
        ensures no_memory { is_open_at (world self.old) session ≡ false
            → is_out_of_memory result ≡ false }
    {
        let Some(transaction) = &mut self.sessions[session as usize] else {
            return Reply::Refused(Refusal::NoTransaction);
        };
        let Some(table) = self.schema.table_at(write.table()) else {
            return Reply::Refused(Refusal::NoTable);
        };
        match transaction.write(FittingWrite { table, write }) {
            Ok(count) => Reply::of_write(write, count),
            Err(refusal) => Reply::Refused(refusal),
        }
    }
}
