//! What every history of steps comes to.
ghost use Rattle.values.specs.Tables.{Schema};
ghost use Rattle.histories.specs.Alike.{IdleHistoriesAnswerAlike};
ghost use Rattle.histories.specs.Law.{OpensAtItsBegin, LogsRise, LaterStepsAdd, PastStays, PastIsReadAlike, PastIsAnsweredAlike, TablesOnlyGrow, PastIsWidened, PastIsAnsweredWidened, FirstCommitterWins, LogIsOfWinners, ReadsBySnapshot, SelectsBySnapshot, RefusedWritesChangeNothing, MaintenanceChangesNoReply, MaintenanceCommitsNothing, AnsweredRepliesAreDue};
ghost use Rattle.histories.specs.CommitLaw.{CommitsAtItsInstant, TouchedRowsAreSeen, UntouchedRowsStay, TouchedPointsAreSeen, UntouchedPointsStay, OthersCommitNothing};
ghost use Rattle.histories.specs.Conflict.{ConflictIsLeast, ConflictIsReported, ConflictIsUnique};
ghost use Rattle.histories.specs.Worked.{ClosedStart, OpenEnd, DegeneratePeriods, ClockRunsBack, FirstCommitter, WriteSkew, ConcurrentWinners, NetChange, NoChangeNoConflict, OwnWrites, LargestInstant, RefusalsInOrder, ColumnAdded, WrittenWide, AdditionsRefused};

/// States that a session's open transaction began at the log of the steps before its first BEGIN
/// after its last end.
pub fn opens_at_its_begin()
    ensures { (first : Schema) → OpensAtItsBegin first }
{}

/// States that what was committed stays: later steps only add transactions, at later instants.
pub fn log_only_grows()
    ensures rises { (first : Schema) → LogsRise first }
    ensures adds { (first : Schema) → LaterStepsAdd first }
{}

/// States that what a query as of an instant showed it always shows, once a transaction was
/// committed at that instant or after it. The reply is one for every session, now and later, whose
/// snapshot is of that instant or after it; with no transaction open a session's snapshot is the
/// last instant.
pub fn past_stays()
    ensures stays { (first : Schema) → PastStays first }
    ensures listings { (first : Schema) → PastIsReadAlike first }
    ensures replies { (first : Schema) → PastIsAnsweredAlike first }
{}

/// States that columns which a table gets later change nothing else of the past: a query as of an
/// instant shows the rows that it showed before, with NULL in the new columns, and a SELECT that
/// was answered is answered so.
pub fn past_is_widened()
    ensures tables { (first : Schema) → TablesOnlyGrow first }
    ensures listings { (first : Schema) → PastIsWidened first }
    ensures replies { (first : Schema) → PastIsAnsweredWidened first }
{}

/// States that the first committer wins (Berenson et al. 1995, section 4.2): of two committed
/// transactions, each begun before the other was committed, no key is in both net changes, nor,
/// where its table has a period of application time, any of its entity.
pub fn concurrent_commits_share_no_key()
    ensures apart { (first : Schema) → FirstCommitterWins first }
    ensures whole { (first : Schema) → LogIsOfWinners first }
{}

/// States which conflict a refused COMMIT names: the least unit of its net change that was changed
/// since its transaction began, and the latest instant at which a key of that unit was changed. A
/// unit is an entity if the table has a period of application time, and a key otherwise.
pub fn conflicts_name_the_least_unit()
    ensures least { (first : Schema) → ConflictIsLeast first }
    ensures reported { (first : Schema) → ConflictIsReported first }
    ensures unique { ConflictIsUnique }
{}

/// States what a COMMIT makes of what is committed. If the reply is an instant, it is then the last,
/// and of each unit that the session's net change touches, what the session saw is committed: its
/// rows, and in a table with a period of application time its values at each time. Of every other
/// unit, what was committed before stays, also what others committed since the session's BEGIN. After
/// any other reply nothing is committed. A unit is an entity if the table has a period, and a key
/// otherwise.
pub fn commits_publish_what_was_seen()
    ensures instant { (first : Schema) → CommitsAtItsInstant first }
    ensures rows { (first : Schema) → TouchedRowsAreSeen first }
    ensures other_rows { (first : Schema) → UntouchedRowsStay first }
    ensures points { (first : Schema) → TouchedPointsAreSeen first }
    ensures other_points { (first : Schema) → UntouchedPointsStay first }
    ensures nothing { (first : Schema) → OthersCommitNothing first }
{}

/// States that reads are of a snapshot (Berenson et al. 1995, section 4.2): what SELECT answers
/// inside a transaction, in each form, depends on what was committed when it began and on its own
/// writes, and on nothing else.
pub fn reads_depend_on_snapshot_and_own_writes()
    ensures listings { (first : Schema) → ReadsBySnapshot first }
    ensures replies { (first : Schema) → SelectsBySnapshot first }
{}

/// States that a write that is refused changes nothing: every session sees the rows that it saw, so
/// also the same values at each point of application time, and has the net change that it had;
/// nothing is committed. The writes are INSERT, UPDATE and DELETE, portions of application time among
/// them.
pub fn refused_writes_change_nothing()
    ensures { (first : Schema) → RefusedWritesChangeNothing first }
{}

/// States that splits and migrations, anywhere before or among other steps, change no reply to
/// another step and nothing of what is committed: the replies are those to the list without them,
/// with `Done` or the misfit's refusal in their places.
pub fn maintenance_changes_no_other_reply()
    ensures replies { (first : Schema) → MaintenanceChangesNoReply first }
    ensures log { (first : Schema) → MaintenanceCommitsNothing first }
{}

/// States that where memory ran out at no step, the replies that are due are those of the
/// definitions.
pub fn answered_replies_are_due()
    ensures { (first : Schema) → AnsweredRepliesAreDue first }
{}

/// States that where two histories, each with no transaction open, have come to the same tables and
/// the same log, whatever steps follow get the same replies after both.
pub fn idle_histories_answer_alike()
    ensures { IdleHistoriesAnswerAlike }
{}

/// Checks the worked examples, by computation.
pub fn worked_examples_hold()
    ensures closed_start { ClosedStart }
    ensures open_end { OpenEnd }
    ensures degenerate_periods { DegeneratePeriods }
    ensures clock_runs_back { ClockRunsBack }
    ensures first_committer { FirstCommitter }
    ensures write_skew { WriteSkew }
    ensures concurrent_winners { ConcurrentWinners }
    ensures net_change { NetChange }
    ensures no_change_no_conflict { NoChangeNoConflict }
    ensures own_writes { OwnWrites }
    ensures largest_instant { LargestInstant }
    ensures refusals_in_order { RefusalsInOrder }
    ensures column_added { ColumnAdded }
    ensures written_wide { WrittenWide }
    ensures additions_refused { AdditionsRefused }
{}
