//! That a dump is read as its steps.
ghost use Rattle.dump_reading.specs.ReadableHistories.{AskedStepsAreReadable, GrownTablesAreReadable, LoadedRowsAreReadable, LogsAreReadable, ReadSchemasAreReadable, ReplaysLeaveReadable, SampleIsReadable, ScriptsLeaveReadable, ServedStepsAreReadable};
ghost use Rattle.dump_reading.specs.ReadableRuns.{ServedRunsKeepTables, ServedRunsLeaveReadable};
ghost use Rattle.dump_reading.specs.Replayed.{DumpsAreReplayed, HistoriesAreTakenAgain};
ghost use Rattle.dump_reading.specs.WorkedDumpText.{BrokenTextIsRefused, ChangedTextLeavesAnother, WorkedTextIsReplayed, WorkedTextIsTheDump};

/// States that where the steps of a dump are taken from the empty store on, its text is taken line
/// by line as these steps: no line is refused, none is too long, and what the text leaves is the
/// history of the steps, with no transaction open.
///
/// So it is of the dump of every history of readable steps over a readable schema; and what that
/// leaves has the history's tables and transactions, and where the history has no transaction open
/// answers whatever follows as the history would.
pub fn dumps_are_replayed()
    ensures dumps { DumpsAreReplayed }
    ensures histories { HistoriesAreTakenAgain }
{
    dump_steps::histories_are_dumped();
}

/// States that a schema that was read is readable, as is the one where none is declared, and that
/// the steps that lines ask for are, the rows of a file of CSV, and so what a script leaves, and a
/// served run, which adds no column. With such steps the tables stay readable, and what is committed
/// can be printed.
pub fn histories_can_be_read()
    ensures schemas { ReadSchemasAreReadable }
    ensures sample { SampleIsReadable }
    ensures asked { AskedStepsAreReadable }
    ensures served { ServedStepsAreReadable }
    ensures loaded { LoadedRowsAreReadable }
    ensures replayed { ReplaysLeaveReadable }
    ensures scripts { ScriptsLeaveReadable }
    ensures runs { ServedRunsLeaveReadable }
    ensures kept { ServedRunsKeepTables }
    ensures tables { GrownTablesAreReadable }
    ensures logs { LogsAreReadable }
{}

/// Checks the text of a worked dump.
pub fn worked_text_holds()
    ensures text { WorkedTextIsTheDump }
    ensures replayed { WorkedTextIsReplayed }
    ensures changed { ChangedTextLeavesAnother }
    ensures broken { BrokenTextIsRefused }
{}
