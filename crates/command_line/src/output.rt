//! Texts that are written whole and passed on at once.
ghost use Rattle.std.specs.Prelude.{◌≡◌, OnOk, IfErr};
ghost use Rattle.std.specs.Io.KnownBytes.{Appends, Keeps};
ghost use Rattle.statement.specs.Writer.{AppendsPrefix};

use crate::fault::Fault;
use interchange::print_whole;
use std::io::Write;

/// Passes on what was written.
pub fn flush<O: Write>(out: &mut O) -> Result<(), Fault>
    ensures kept { Keeps (O.contents out.old) (O.contents out.new) }
    ensures err { IfErr result (λ fault. fault ≡ Fault.Write) }
{
    match out.flush() {
        Ok(()) => Ok(()),
        Err(_) => Err(Fault::Write),
    }
}

/// Writes a text and passes it on.
pub fn print<O: Write>(out: &mut O, text: &[u8]) -> Result<(), Fault>
    ensures ok { OnOk result (Appends (O.contents out.old) (O.contents out.new) text.now) }
    ensures err { IfErr result (λ fault. (fault ≡ Fault.Write)
        × AppendsPrefix (O.contents out.old) (O.contents out.new) text.now) }
{
    match print_whole(out, text) {
        Ok(()) => Ok(()),
        Err(_) => Err(Fault::Write),
    }
}
