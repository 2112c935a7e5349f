//! The law of a whole run.
ghost use Rattle.runs.specs.OneHistory.{ServedRunsAreHistories};
ghost use Rattle.runs.specs.Worked.{NoFullJournalWithRoom, NoLongFork, NoMemoryForNothing, NoReceiptTwice, OneAfterTheOther};

/// What all sessions of a run were sent is one history, which goes on from the one that the store began
/// with, where no session had a transaction open: of a closed store, and of all its receipts, each with
/// what it was taken for, where those of each session rise, there is one list of events. Its entries
/// are the journal's, in their order; each reply is that of the history of the steps before it, those
/// of the first history among them; what was committed is what both histories have; those of a load
/// come first; and of each session the events are the steps of its lines, in their order, by which it
/// was sent its text. A line is sent `E10` only where it takes memory, and `E13` only where it adds an
/// entry and the journal is full.
///
/// Nothing is said of real time between sessions, of the clock but that a commit's reading is at most
/// the greatest instant, nor that a line which was sent `E10` had to be.
pub fn served_runs_are_histories()
    ensures histories { ServedRunsAreHistories }
{}

/// Checks worked runs: two sessions that see two commits in different orders are no history, a
/// receipt that is used twice is of no run, and a session is not sent `E10` for a line that takes no
/// memory, nor `E13` where the journal has room.
pub fn worked_runs_hold()
    ensures no_long_fork { NoLongFork }
    ensures one_after_the_other { OneAfterTheOther }
    ensures no_receipt_twice { NoReceiptTwice }
    ensures no_memory_for_nothing { NoMemoryForNothing }
    ensures no_full_journal_with_room { NoFullJournalWithRoom }
{}
