//! What is asked of a store, and what it replies.
ghost use Rattle.std.specs.Prelude.{◌≡◌, ℕ};
ghost use Rattle.steps.specs.Reply.{write_count};
ghost use Rattle.steps.specs.StepOf.{step_of};

use values::{
    Chars, ColumnType, Form, Instant, Key, Keys, Refusal, Rows, Sequence, Sets, ShownRow,
    ShownRows, Span, Write,
};

/// The highest session number; 0 is the service's own.
pub const MAX_SESSION: u8 = 64;

/// What a session or the service asks. The first ten name their session, a number from 0 to
/// `MAX_SESSION`.
#[derive(Drop)]
pub enum Step {
    Begin(u8),
    /// A table, by its number from 1, and the rows to insert.
    Insert(u8, u8, Rows),
    Update(u8, Keys, Sets),
    Delete(u8, Keys),
    /// Sets columns for a span of application time.
    UpdatePortion(u8, Keys, Span, Sets),
    /// Deletes for a span of application time.
    DeletePortion(u8, Keys, Span),
    Select(u8, Form, Keys),
    /// The commit's reading of the clock.
    Commit(u8, Instant),
    Rollback(u8),
    /// A table, by its number from 1, and the name and type of the column that it gets.
    AddColumn(u8, u8, Chars, ColumnType),
    SplitKey(Key),
    SplitTime(Key, Instant),
    Migrate,
}

/// What a query shows: the rows alone, or with their periods.
#[derive(Drop)]
pub enum Listing {
    Rows(Sequence<ShownRow>),
    Periods(ShownRows),
}

/// What is answered to a step.
#[derive(Drop)]
pub enum Reply {
    /// The last commit instant, 0 at first.
    Begun(Instant),
    /// How many rows.
    Inserted(usize),
    Updated(usize),
    Deleted(usize),
    Shown(Listing),
    /// The commit instant, or none where the transaction left no net change.
    Committed(Option<Instant>),
    RolledBack,
    /// The table has one column more.
    Altered,
    Done,
    Refused(Refusal),
}

impl Reply {
    /// Returns the reply to a write that was done: how many rows it inserted, updated or deleted.
    pub fn of_write(write: Write<'_>, count: usize) -> Reply
        ensures { (i : ℕ) → result ≡ write_count (step_of i write.entry) count }
    {
        match write {
            Write::Insert(_, _) => Reply::Inserted(count),
            Write::Update(_, _) => Reply::Updated(count),
            Write::Delete(_) => Reply::Deleted(count),
            Write::UpdatePortion(_, _, _) => Reply::Updated(count),
            Write::DeletePortion(_, _) => Reply::Deleted(count),
        }
    }
}
