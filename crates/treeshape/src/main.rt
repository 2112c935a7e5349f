//! The program `treeshape`: the replies to a script, and the shape of the tree that it leaves.
#![tactic(auto)]

mod fault;
mod print;

use crate::fault::ShapeFault;
use crate::print::print_shape;
use scripts::run_script;
use std::io::{BufWriter, Write};
use std::process::ExitCode;
use values::Schema;

fn main(rt: HostRuntime) -> ExitCode {
    match run(&rt) {
        Ok(()) => ExitCode::SUCCESS,
        Err(fault) => {
            // There is nowhere left to report it where standard error fails too.
            let _told = writeln!(rt.stderr(), "{fault}");
            ExitCode::FAILURE
        }
    }
}

/// Runs the script of standard input over the sample schema, and prints the shape of its tree
/// behind its replies.
fn run(rt: &HostRuntime) -> Result<(), ShapeFault> {
    let mut out = BufWriter::new(rt.alloc(), rt.stdout())?;
    let schema = Schema::sample(rt.alloc())?;
    let system = run_script(rt.alloc(), &mut rt.stdin(), &mut out, schema)?;
    print_shape(&system.shape()?, &mut out)
}
