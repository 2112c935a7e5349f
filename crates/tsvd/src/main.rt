//! The program `tsvd`: system-versioned tables from the command line and over TCP.
#![tactic(auto)]

mod greeting;

use crate::greeting::Greeter;
use command_line::fault::{Fault, tell};
use command_line::options::WordsFault;
use command_line::program::program;
use std::env;
use std::io::{BufWriter, ErrorKind};
use std::process::ExitCode;

/// What is said of a word that is no text.
const NO_TEXT: &str = "error: a word is not UTF-8\n";

/// Runs the program on the process's words and standard streams, and ends with its status. Output is buffered, and flushed before more is read.
fn main(rt: HostRuntime) -> ExitCode {
    let mut err = rt.stderr();
    let words = match words_after_the_name(&rt) {
        Ok(words) => words,
        Err(fault) => return ExitCode::from(tell(&mut err, &fault)),
    };
    let Ok(mut out) = BufWriter::new(rt.alloc(), rt.stdout()) else {
        return ExitCode::from(tell(&mut err, &Fault::Memory));
    };
    let mut input = Greeter::new(&rt);
    ExitCode::from(program(&rt, words.as_slice(), &mut input, &mut out, &mut err))
}

/// The process's words after the program's name.
fn words_after_the_name(rt: &HostRuntime) -> Result<Vec<String>, Fault> {
    let arguments = match env::args(rt) {
        Ok(arguments) => arguments,
        Err(error) if error.kind() == ErrorKind::InvalidData => {
            return Err(Fault::Words(WordsFault::Words(NO_TEXT)));
        }
        Err(_) => return Err(Fault::Memory),
    };
    let mut words = Vec::new(rt.alloc());
    for argument in arguments.skip(1) {
        if words.push(argument).is_err() {
            return Err(Fault::Memory);
        }
    }
    Ok(words)
}
