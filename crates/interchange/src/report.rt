//! Lines that tell what was done with a table or a store. None takes memory, so none is refused at
//! the end of a run.
#![tactic(auto, using(statement::proofs::WriterPrefixes::joins))]

ghost use Rattle.std.specs.Prelude.{◌++◌, codes, decimal};
ghost use Rattle.std.specs.Io.KnownBytes.{Keeps};
ghost use Rattle.statement.specs.Print.{numbered};
ghost use Rattle.statement.specs.Writer.{Prints};
ghost use Rattle.interchange.specs.Report.{loaded_text};

use statement::{WriteFault, print_number, print_numbered, write_all};
use std::io::Write;
use values::Instant;

type Printed = Result<(), WriteFault>;

/// Writes a line of a label and a number in decimal, and passes it on.
pub fn report_number<O: Write>(out: &mut O, label: &[u8], number: u64) -> Printed
    ensures { Prints (O.contents out.old) (O.contents out.new) result (numbered label.now number) }
{
    match print_numbered(out, label, number) {
        Ok(()) => pass_on(out),
        Err(fault) => Err(fault),
    }
}

/// Writes the line `loaded N at I`, and passes it on: the number of rows, and their commit instant;
/// 0 if there were none.
pub fn report_loaded<O: Write>(out: &mut O, count: usize, instant: Instant) -> Printed
    ensures { Prints (O.contents out.old) (O.contents out.new) result (loaded_text count instant) }
{
    match print_loaded(out, count, instant) {
        Ok(()) => pass_on(out),
        Err(fault) => Err(fault),
    }
}

fn print_loaded<O: Write>(out: &mut O, count: usize, instant: Instant) -> Printed
    ensures { Prints (O.contents out.old) (O.contents out.new) result (loaded_text count instant) }
{
    write_all(out, b"loaded ")?;
    print_counts(out, count, instant)
}

fn print_counts<O: Write>(out: &mut O, count: usize, instant: Instant) -> Printed
    ensures { Prints (O.contents out.old) (O.contents out.new) result
        (decimal count ++ numbered (codes " at ") instant) }
{
    print_number(out, count as u64)?;
    print_numbered(out, b" at ", instant)
}

/// Writes a text and passes it on.
pub fn print_whole<O: Write>(out: &mut O, text: &[u8]) -> Printed
    ensures { Prints (O.contents out.old) (O.contents out.new) result text.now }
{
    match write_all(out, text) {
        Ok(()) => pass_on(out),
        Err(fault) => Err(fault),
    }
}

/// Passes on what was written.
fn pass_on<O: Write>(out: &mut O) -> Printed
    ensures { Keeps (O.contents out.old) (O.contents out.new) }
{
    match out.flush() {
        Ok(()) => Ok(()),
        Err(_) => Err(WriteFault),
    }
}
