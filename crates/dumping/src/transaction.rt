//! A transaction, by the places of its changes.
ghost use Rattle.std.specs.Prelude.{◌≡◌, OnOk};
ghost use Rattle.std.specs.List.{flat_map};
ghost use Rattle.statement.specs.Writer.{Prints};
ghost use Rattle.dumping.specs.Change.{deletion_text, insertion_text};
ghost use Rattle.dumping.specs.Transaction.{all_widened, begin_text, transaction_text, widenings_text};

use crate::change::Changes;
use crate::fault::Dumped;
use crate::name::Printed;
use statement::{print_numbered, write_all};
use std::alloc::Global;
use std::io::Write;
use values::Instant;

impl Changes<'_> {
    /// Writes the lines that add the columns which rows have and their tables have not.
    pub(crate) fn widen_all<W: Write>(
        &self,
        writer: &mut W,
        widths: &mut [usize],
        places: &[usize],
    ) -> Printed
        ensures text { Prints (W.contents writer.old) (W.contents writer.new) result
            (widenings_text self.now.tables.now self.now.events.now widths.old places.now) }
        ensures widths { OnOk result (widths.new
            ≡ all_widened self.now.tables.now self.now.events.now widths.old places.now) }
    {
        for place in places {
            self.widen(writer, widths, *place)?;
        }
        Ok(())
    }

    /// Writes a transaction that commits at an instant: all its deletions, and then all its
    /// insertions.
    pub(crate) fn print_transaction<W: Write>(
        &self,
        alloc: Global,
        writer: &mut W,
        at: Instant,
        places: &[usize],
        line: &mut Vec<u8>,
    ) -> Dumped
        ensures { Prints (W.contents writer.old) (W.contents writer.new) result
            (transaction_text self.now.tables.now self.now.events.now at places.now) }
    {
        print_begin(writer, at)?;
        self.print_deletions(alloc, writer, places)?;
        self.print_insertions(alloc, writer, places, line)?;
        write_all(writer, b"1: COMMIT\n")?;
        Ok(())
    }

    fn print_deletions<W: Write>(&self, alloc: Global, writer: &mut W, places: &[usize]) -> Dumped
        ensures { Prints (W.contents writer.old) (W.contents writer.new) result
            (flat_map (deletion_text self.now.tables.now self.now.events.now) places.now) }
    {
        for place in places {
            self.print_deletion(alloc, writer, *place)?;
        }
        Ok(())
    }

    fn print_insertions<W: Write>(
        &self,
        alloc: Global,
        writer: &mut W,
        places: &[usize],
        line: &mut Vec<u8>,
    ) -> Dumped
        ensures { Prints (W.contents writer.old) (W.contents writer.new) result
            (flat_map (insertion_text self.now.tables.now self.now.events.now) places.now) }
    {
        for place in places {
            self.print_insertion(alloc, writer, *place, line)?;
        }
        Ok(())
    }
}

/// Writes the reading of the clock that the COMMIT will take, and BEGIN.
fn print_begin<W: Write>(writer: &mut W, at: Instant) -> Printed
    ensures { Prints (W.contents writer.old) (W.contents writer.new) result (begin_text at) }
{
    print_numbered(writer, b"clock: ", at)?;
    write_all(writer, b"1: BEGIN\n")
}
