//! SPLIT: a node of the tree is split, which no reply shows.
ghost use Rattle.std.specs.Prelude.{◌≡◌, None, true, false};
ghost use Rattle.values.specs.KeyEncoding.{bytes_of_key};
ghost use Rattle.steps.specs.Reply.{is_out_of_memory};
ghost use Rattle.steps.specs.Misfit.{key_misfit};
ghost use Rattle.treenodes.specs.History.{KeepsHistory};
ghost use Rattle.interleaving.specs.StepLeaves.{leaves_all};
ghost use Rattle.interleaving.specs.TreeStep.{WasSplit};
ghost use Rattle.interleaving.specs.SystemState.{world};

use crate::system::System;
use steps::Reply;
use validation::Cut;
use values::{Instant, Key, fitting_key_bytes};

impl System {
    /// Splits the current data node of a key there.
    pub(crate) fn split_key(&mut self, key: &Key) -> Reply
        requires { key_misfit self.old.schema key.now ≡ None }
        ensures done { is_out_of_memory result ≡ false → result ≡ Reply.Done }
        ensures same { world self.new ≡ world self.old }
        ensures refused { leaves_all result ≡ true → self.new ≡ self.old }
        ensures history { KeepsHistory self.old.engine.nodes self.new.engine.nodes }
        ensures split { result ≡ Reply.Done
            → WasSplit (Cut.Key (bytes_of_key key.now)) self.old.engine self.new.engine }
    {
        match fitting_key_bytes(self.alloc, &self.schema, key) {
            Ok(bytes) => self.split(&Cut::Key(bytes)),
            Err(refusal) => Reply::Refused(refusal),
        }
    }

    /// Splits the current data node of a key at an instant.
    pub(crate) fn split_time(&mut self, key: &Key, instant: Instant) -> Reply
        requires { key_misfit self.old.schema key.now ≡ None }
        ensures done { is_out_of_memory result ≡ false → result ≡ Reply.Done }
        ensures same { world self.new ≡ world self.old }
        ensures refused { leaves_all result ≡ true → self.new ≡ self.old }
        ensures history { KeepsHistory self.old.engine.nodes self.new.engine.nodes }
        ensures split { result ≡ Reply.Done
            → WasSplit (Cut.Time (bytes_of_key key.now) instant) self.old.engine self.new.engine }
    {
        match fitting_key_bytes(self.alloc, &self.schema, key) {
            Ok(bytes) => self.split(&Cut::Time(bytes, instant)),
            Err(refusal) => Reply::Refused(refusal),
        }
    }

    /// Splits the current data node of a key where a cut says, if it lies inside.
    fn split(&mut self, cut: &Cut) -> Reply
        ensures done { is_out_of_memory result ≡ false → result ≡ Reply.Done }
        ensures same { world self.new ≡ world self.old }
        ensures refused { leaves_all result ≡ true → self.new ≡ self.old }
        ensures history { KeepsHistory self.old.engine.nodes self.new.engine.nodes }
        ensures split { result ≡ Reply.Done → WasSplit cut.now self.old.engine self.new.engine }
    {
        match self.engine.split(cut) {
            Ok(_done) => Reply::Done,
            Err(refusal) => Reply::Refused(refusal),
        }
    }
}
