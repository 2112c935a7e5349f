//! COMMIT: the first committer wins.
ghost use Rattle.std.specs.Prelude.{◌≡◌, ◌≤◌, true, false};
ghost use Rattle.steps.specs.Reply.{is_out_of_memory};
ghost use Rattle.histories.specs.Stands.{is_open_at};
ghost use Rattle.steps.specs.Misfit.{max_session};
ghost use Rattle.histories.specs.Turn.{commit_turn};
ghost use Rattle.steps.specs.declared.step.Step.TheVariants.{Commit};
ghost use Rattle.treenodes.specs.History.{KeepsHistory};
ghost use Rattle.interleaving.specs.StepLeaves.{SplitsAsReplied, leaves_all, may_change_tree};
ghost use Rattle.interleaving.specs.SystemState.{world};

use crate::system::System;
use steps::Reply;
use values::{Instant, Refusal};

impl System {
    /// Ends a transaction by this reading of the clock.
    pub(crate) fn commit(&mut self, session: u8, reading: Instant) -> Reply
        requires { session ≤ max_session }
        ensures answered { is_out_of_memory result ≡ false
            → (result, world self.new) ≡ commit_turn (world self.old) session reading }
        ensures refused { leaves_all result ≡ true → self.new ≡ self.old }
        ensures engine { may_change_tree (Commit session reading) result ≡ false
            → self.new.engine ≡ self.old.engine }
        ensures history { KeepsHistory self.old.engine.nodes self.new.engine.nodes }
        ensures splits { SplitsAsReplied (Commit session reading) result
            self.old.engine self.new.engine }
        ensures no_memory { is_open_at (world self.old) session ≡ false
            → is_out_of_memory result ≡ false }
    {
        let place = session as usize;
        let Some(transaction) = &self.sessions[place] else {
            return Reply::Refused(Refusal::NoTransaction);
        };
        let net = match transaction.net() {
            Ok(net) => net,
            Err(refusal) => return Reply::Refused(refusal),
        };
        let reply = match self
            .engine
            .commit(&self.schema, transaction.start(), net, reading)
        {
            Ok(instant) => Reply::Committed(instant),
            Err(refusal) => Reply::Refused(refusal),
        };
        if ran_out(&reply) {
            return reply;
        }
        self.sessions[place] = None;
        reply
    }
}

/// Whether memory ran out.
fn ran_out(reply: &Reply) -> bool
    ensures { result ≡ is_out_of_memory reply.now }
{
    matches!(reply, Reply::Refused(Refusal::Memory))
}
