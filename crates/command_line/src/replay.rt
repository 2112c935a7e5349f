//! The script that is replayed before all else.
ghost use Rattle.std.specs.Prelude.{Some, IfOk, IfErr, option_map};
ghost use Rattle.command_line.specs.Replay.{IsAfter, IsNotAfter};

use crate::fault::{Fault, replay_fault};
use interleaving::System;
use scripts::replay_script;
use std::fs::File;
use std::rt::Files;
use values::Schema;

/// Makes a store with what the script of a file leaves.
fn replay_file<R: AllocGlobal + Files>(rt: &R, path: &str, schema: Schema) -> Result<System, Fault>
    ensures ok { IfOk result (λ s. IsAfter schema (Some path.now) s) }
    ensures err { IfErr result (λ fault. IsNotAfter fault schema (Some path.now)) }
{
    let Ok(system) = System::new(rt.alloc(), schema) else {
        return Err(Fault::Memory);
    };
    match File::open(rt, path) {
        Ok(mut script) => match replay_script(rt.alloc(), system, &mut script) {
            Ok(system) => Ok(system),
            Err(fault) => Err(replay_fault(fault)),
        },
        Err(_) => Err(Fault::Read),
    }
}

/// Makes a store before all else: with what the script of a file leaves, if one is to be replayed.
pub fn store_after<R: AllocGlobal + Files>(
    rt: &R,
    file: Option<&str>,
    schema: Schema,
) -> Result<System, Fault>
    ensures ok { IfOk result (λ s. IsAfter schema (option_map (λ text. text.now) file.entry) s) }
    ensures err { IfErr result (λ fault.
        IsNotAfter fault schema (option_map (λ text. text.now) file.entry)) }
{
    match file {
        Some(path) => replay_file(rt, path, schema),
        None => match System::new(rt.alloc(), schema) {
            Ok(system) => Ok(system),
            Err(_) => Err(Fault::Memory),
        },
    }
}
