//! SELECT.
ghost use Rattle.std.specs.Prelude.{◌≡◌, IfOk, None};
ghost use Rattle.values.specs.Memory.{OnlyMemory};
ghost use Rattle.steps.specs.declared.step.Step.TheVariants.{Select};
ghost use Rattle.steps.specs.Misfit.{misfit};
ghost use Rattle.histories.specs.Turn.{select_reply};
ghost use Rattle.interleaving.specs.SystemState.{world};

use crate::system::System;
use steps::Reply;
use transaction::listing_of;
use values::{FittingKeys, Form, Keys, Mem, Refusal};

impl System {
    /// What a query of a session shows.
    pub(crate) fn select(&mut self, session: u8, form: Form, keys: &Keys) -> Mem<Reply>
        requires { misfit self.old.schema (Select session form keys.now) ≡ None }
        ensures ok { IfOk result (λ reply.
            reply ≡ select_reply (world self.old) session form keys.now) }
        ensures same { self.new ≡ self.old }
        ensures memory { OnlyMemory result }
    {
        let Some(table) = self.schema.table_at(keys.table) else {
            return Ok(Reply::Refused(Refusal::NoTable));
        };
        let keys = FittingKeys { table, keys };
        let listing = match &self.sessions[session as usize] {
            Some(transaction) => transaction.select(self.alloc, &mut self.cache, form, keys)?,
            None => {
                let view = self.engine.tree().current();
                listing_of(self.alloc, &mut self.cache, view, form, keys)?
            }
        };
        Ok(Reply::Shown(listing))
    }
}
