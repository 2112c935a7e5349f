//! Writes texts and numbers whole, or stops in their midst.
ghost use Rattle.std.specs.Prelude.{◌≡◌};
ghost use Rattle.statement.specs.Writer.{Prints};

use itoa::{Buffer, Integer};
use std::io::Write;

/// A writer refused bytes. What it took is a prefix of what was to be written.
#[derive(Clone, Copy, Debug, PartialEq, Eq)]
pub struct WriteFault;

/// Writes all of a text, or stops in its midst. It is compiled into each caller: most texts are a
/// few bytes whose number is known there.
#[inline(always)]
pub fn write_all<W: Write>(writer: &mut W, text: &[u8]) -> Result<(), WriteFault>
    ensures { Prints (W.contents writer.old) (W.contents writer.new) result text.now }
{
    let mut rest = text;
    while !rest.is_empty() {
        match writer.write(rest) {
            Ok(0) => return Err(WriteFault),
            Ok(n) => rest = rest.split_at(n).1,
            Err(_error) => return Err(WriteFault),
        }
    }
    Ok(())
}

/// Writes a number in decimal.
pub fn print_number<W: Write, N: Integer>(writer: &mut W, number: N) -> Result<(), WriteFault>
    ensures { Prints (W.contents writer.old) (W.contents writer.new) result (N.text number) }
{
    let mut buffer = Buffer::new();
    write_all(writer, buffer.format(number).as_bytes())
}
