//! MIGRATE: a node of history is packed, which no reply shows.
ghost use Rattle.std.specs.Prelude.{◌≡◌, true, false, OnErr, OnOk};
ghost use Rattle.values.specs.Memory.{OnlyMemory};
ghost use Rattle.tsbtree.specs.Growth.{HoldsSame};
ghost use Rattle.steps.specs.Reply.{is_out_of_memory};
ghost use Rattle.treenodes.specs.History.{KeepsPast};
ghost use Rattle.interleaving.specs.StepLeaves.{leaves_all};
ghost use Rattle.interleaving.specs.MigrateStep.{WasPacked};
ghost use Rattle.interleaving.specs.SystemState.{world};

use crate::system::System;
use std::alloc::Global;
use steps::Reply;
use validation::{Engine, find_job, pack_job};
use values::Mem;

impl System {
    /// Packs the first data node of history that is not packed: by the start of its time, then by
    /// its lower key. Where there is none nothing has changed.
    pub(crate) fn migrate(&mut self) -> Reply
        ensures done { is_out_of_memory result ≡ false → result ≡ Reply.Done }
        ensures same { world self.new ≡ world self.old }
        ensures refused { leaves_all result ≡ true → self.new ≡ self.old }
        ensures past { KeepsPast self.old.engine.nodes self.new.engine.nodes }
        ensures packed { result ≡ Reply.Done → WasPacked self.old.engine self.new.engine }
    {
        match pack_first(self.alloc, &mut self.engine) {
            Ok(()) => Reply::Done,
            Err(refusal) => Reply::Refused(refusal),
        }
    }
}

/// Packs the first data node of history that is not packed, if there is one.
fn pack_first(alloc: Global, engine: &mut Engine) -> Mem<()>
    ensures packed { OnOk result (WasPacked engine.old engine.new) }
    ensures same { HoldsSame engine.old engine.new }
    ensures past { KeepsPast engine.old.nodes engine.new.nodes }
    ensures err { OnErr result (engine.new ≡ engine.old) }
    ensures memory { OnlyMemory result }
{
    let Some(job) = find_job(engine.tree().current(), None)? else {
        return Ok(());
    };
    let packed = pack_job(alloc, job)?;
    let _done = engine.install(packed)?;
    Ok(())
}
