//! BEGIN and ROLLBACK.
ghost use Rattle.std.specs.Prelude.{◌≡◌, ◌≤◌, [], true, false, IfOk};
ghost use Rattle.values.specs.Memory.{OnlyMemory};
ghost use Rattle.steps.specs.Reply.{is_out_of_memory};
ghost use Rattle.steps.specs.Misfit.{max_session};
ghost use Rattle.histories.specs.Stands.{is_open_at};
ghost use Rattle.histories.specs.Turn.{begin_turn, rollback_turn};
ghost use Rattle.interleaving.specs.StepLeaves.{leaves_all};
ghost use Rattle.interleaving.specs.SystemState.{world};

use crate::system::System;
use steps::Reply;
use transaction::OpenTransaction;
use values::{Mem, Refusal};

impl System {
    /// Opens a transaction on what is committed now.
    pub(crate) fn begin(&mut self, session: u8) -> Reply
        requires { session ≤ max_session }
        ensures answered { is_out_of_memory result ≡ false
            → (result, world self.new) ≡ begin_turn (world self.old) session }
        ensures refused { leaves_all result ≡ true → self.new ≡ self.old }
        ensures engine { self.new.engine ≡ self.old.engine }
        ensures no_memory { is_open_at (world self.old) session ≡ true
            → is_out_of_memory result ≡ false }
    {
        let place = session as usize;
        if self.sessions[place].is_some() {
            return Reply::Refused(Refusal::InTransaction);
        }
        match self.new_transaction() {
            Ok(transaction) => {
                let start = transaction.start();
                self.sessions[place] = Some(transaction);
                Reply::Begun(start)
            }
            Err(refusal) => Reply::Refused(refusal),
        }
    }

    /// A transaction that sees all that was committed.
    fn new_transaction(&self) -> Mem<OpenTransaction>
        ensures ok { IfOk result (λ t. t ≡ record { view = self.now.engine; writes = [] }) }
        ensures memory { OnlyMemory result }
    {
        OpenTransaction::begin(self.alloc, self.engine.begin()?)
    }

    /// Ends a transaction with no trace.
    pub(crate) fn rollback(&mut self, session: u8) -> Reply
        requires { session ≤ max_session }
        ensures answered { (result, world self.new) ≡ rollback_turn (world self.old) session }
        ensures refused { leaves_all result ≡ true → self.new ≡ self.old }
        ensures engine { self.new.engine ≡ self.old.engine }
    {
        let place = session as usize;
        if self.sessions[place].is_none() {
            return Reply::Refused(Refusal::NoTransaction);
        }
        self.sessions[place] = None;
        Reply::RolledBack
    }
}
