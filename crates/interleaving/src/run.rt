//! Lists of steps.
ghost use Rattle.std.specs.Prelude.{◌≡◌, [], IfOk};
ghost use Rattle.values.specs.Memory.{OnlyMemory};
ghost use Rattle.histories.specs.History.{replies};
ghost use Rattle.histories.specs.Due.{AllAnswered, OutWhereTaken, due};

use crate::system::System;
use std::alloc::Global;
use steps::{Reply, Step};
use values::{Mem, Schema};

impl System {
    /// Answers steps in turn, from a store in which nothing was committed. Where memory runs out at
    /// a step, its reply is that, it is as if it were not there, and the steps after it go on.
    /// `Memory` where the store or the list of replies cannot be made.
    pub fn run(alloc: Global, schema: Schema, steps: Vec<Step>) -> Mem<Vec<Reply>>
        ensures answers { IfOk result (λ v.
            AllAnswered v.items → v.items ≡ replies schema [] steps.items) }
        ensures out_of_memory { IfOk result (λ v. v.items ≡ due schema [] steps.items v.items) }
        ensures where_taken { IfOk result (λ v. OutWhereTaken schema steps.items v.items) }
        ensures memory { OnlyMemory result }
    {
        let mut system = System::new(alloc, schema)?;
        let mut replies = Vec::new(alloc);
        for step in steps {
            let reply = system.step(step);
            replies.push(reply)?;
        }
        Ok(replies)
    }
}
