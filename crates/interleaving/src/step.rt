//! Each step in turn.
ghost use Rattle.std.specs.Prelude.{◌≡◌, ◌≢◌, ◌∷◌, None, true, false, IfOk, IfErr};
ghost use Rattle.steps.specs.Misfit.{misfit};
ghost use Rattle.histories.specs.Turn.{turn_in};
ghost use Rattle.interleaving.specs.StepLeaves.{LeavesHistory, SplitsAsReplied, leaves_all, may_change_tree};
ghost use Rattle.interleaving.specs.AlterStep.{IsAlterStep};
ghost use Rattle.interleaving.specs.TreeStep.{IsTreeStep};
ghost use Rattle.interleaving.specs.SystemState.{world};
ghost use Rattle.steps.specs.Reply.{is_out_of_memory};
ghost use Rattle.histories.specs.WorldMemory.{takes_no_memory};

use crate::system::System;
use steps::{Reply, Step};
use values::{Mem, Refusal, Write};

impl System {
    ghost use Rattle.values.specs.Tables.{Schema};
    ghost use Rattle.histories.specs.History.{History, reply};
    ghost use Rattle.interleaving.specs.SystemState.{Stands};

    /// Takes a step. After a refusal nothing has changed, but that `Conflict` and `ClockEnd` end
    /// their transaction; where memory ran out the step may be taken again. Only a step that adds a
    /// column changes the tables, and it changes nothing else. Only a split, a migration and a
    /// commit with an instant change the tree, and none of them a node of history, but that a
    /// migration packs one: the first unpacked one. A split that is done puts the halves of the
    /// current data node of its key in the node's place, where its cut lies inside; a commit splits
    /// only nodes that it overfills.
    pub fn step(&mut self, step: Step) -> Reply
        ensures answers { (first : Schema) (h : History) → Stands first self.old h
            → result ≢ Reply.Refused Refusal.Memory
            → (result ≡ reply first h step) × Stands first self.new (step ∷ h) }
        ensures refused { leaves_all result ≡ true → self.new ≡ self.old }
        ensures schema { result ≢ Reply.Altered → self.new.schema ≡ self.old.schema }
        ensures altered { result ≡ Reply.Altered → IsAlterStep step self.old self.new }
        ensures tree { result ≡ Reply.Done → IsTreeStep step self.old self.new }
        ensures engine { may_change_tree step result ≡ false → self.new.engine ≡ self.old.engine }
        ensures history { LeavesHistory step self.old.engine self.new.engine }
        ensures splits { SplitsAsReplied step result self.old.engine self.new.engine }
        ensures no_memory { takes_no_memory (world self.old) step ≡ true
            → is_out_of_memory result ≡ false }
    {
        if let Some(refusal) = step.misfit(&self.schema) {
            return Reply::Refused(refusal);
        }
        self.step_that_fits(step)
    }

    /// Takes a step like `step`, which is known to fit the tables, as one that a line asks for: that
    /// is not looked at again.
    pub fn step_that_fits(&mut self, step: Step) -> Reply
        requires { misfit self.old.schema step ≡ None }
        ensures answers { (first : Schema) (h : History) → Stands first self.old h
            → result ≢ Reply.Refused Refusal.Memory
            → (result ≡ reply first h step) × Stands first self.new (step ∷ h) }
        ensures refused { leaves_all result ≡ true → self.new ≡ self.old }
        ensures schema { result ≢ Reply.Altered → self.new.schema ≡ self.old.schema }
        ensures altered { result ≡ Reply.Altered → IsAlterStep step self.old self.new }
        ensures tree { result ≡ Reply.Done → IsTreeStep step self.old self.new }
        ensures engine { may_change_tree step result ≡ false → self.new.engine ≡ self.old.engine }
        ensures history { LeavesHistory step self.old.engine self.new.engine }
        ensures splits { SplitsAsReplied step result self.old.engine self.new.engine }
        ensures no_memory { takes_no_memory (world self.old) step ≡ true
            → is_out_of_memory result ≡ false }
    {
        self.step_in(&step)
    }

    /// Takes a step that fits the schema.
    fn step_in(&mut self, step: &Step) -> Reply
        requires { misfit self.old.schema step.now ≡ None }
        ensures answered { is_out_of_memory result ≡ false
            → (result, world self.new) ≡ turn_in (world self.old) step.now }
        ensures refused { leaves_all result ≡ true → self.new ≡ self.old }
        ensures altered { result ≡ Reply.Altered → IsAlterStep step.now self.old self.new }
        ensures tree { result ≡ Reply.Done → IsTreeStep step.now self.old self.new }
        ensures engine { may_change_tree step.now result ≡ false
            → self.new.engine ≡ self.old.engine }
        ensures history { LeavesHistory step.now self.old.engine self.new.engine }
        ensures splits { SplitsAsReplied step.now result self.old.engine self.new.engine }
        ensures no_memory { takes_no_memory (world self.old) step.now ≡ true
            → is_out_of_memory result ≡ false }
    {
        match step {
            Step::Begin(session) => self.begin(*session),
            Step::Insert(session, table, rows) => {
                self.write(*session, Write::Insert(*table, rows.items()))
            }
            Step::Update(session, keys, sets) => {
                self.write(*session, Write::Update(keys, sets.items()))
            }
            Step::Delete(session, keys) => self.write(*session, Write::Delete(keys)),
            Step::UpdatePortion(session, keys, span, sets) => {
                self.write(*session, Write::UpdatePortion(keys, *span, sets.items()))
            }
            Step::DeletePortion(session, keys, span) => {
                self.write(*session, Write::DeletePortion(keys, *span))
            }
            Step::Select(session, form, keys) => reply_of(self.select(*session, *form, keys)),
            Step::Commit(session, reading) => self.commit(*session, *reading),
            Step::Rollback(session) => self.rollback(*session),
            Step::AddColumn(_, table, name, of) => self.add_column(*table, name, *of),
            Step::SplitKey(key) => self.split_key(key),
            Step::SplitTime(key, instant) => self.split_time(key, *instant),
            Step::Migrate => self.migrate(),
        }
    }
}

/// A reply, or that memory ran out.
fn reply_of(reply: Mem<Reply>) -> Reply
    ensures ok { IfOk reply (λ r. result ≡ r) }
    ensures err { IfErr reply (λ r. result ≡ Reply.Refused r) }
{
    match reply {
        Ok(reply) => reply,
        Err(refusal) => Reply::Refused(refusal),
    }
}
