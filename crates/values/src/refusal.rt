//! Why a step is refused.
use crate::key::{Instant, Key};
use std::alloc::{AllocError, AllocFailed};

/// A value, or the refusal that memory ran out.
pub type Mem<T> = Result<T, Refusal>;

/// Why a step is refused.
#[derive(Debug, PartialEq, Eq, Drop)]
pub enum Refusal {
    /// The line is not of the grammar: the offset, from 0, of the first unexpected token, or the
    /// length of a line that ends too early.
    Syntax(usize),
    /// No such table.
    NoTable,
    /// A row, a name or a comparison does not fit the table: the user column, from 1, or 0 for a
    /// width or a name.
    BadRow(usize),
    /// A step that needs an open transaction, with none open.
    NoTransaction,
    /// A BEGIN with a transaction open.
    InTransaction,
    /// An INSERT of a key that the transaction sees, or that an earlier row of the statement has.
    DuplicateKey(Key),
    /// The least key of the net changes that a later transaction changed, and the latest instant
    /// that it did so.
    Conflict(Key, Instant),
    /// The commit instant would be above `MAX_INSTANT`, the greatest.
    ClockEnd,
    /// The transaction would have written over 1,000 keys.
    TooManyWrites,
    /// Memory ran out in this step.
    Memory,
    /// A session's number above 64, or 0 on a line.
    NoSession,
    /// Over 8,192 bytes before the line feed.
    LineTooLong,
    /// The journal holds 1,000,000 entries.
    JournalFull,
    /// An application-time period overlaps another of its entity.
    Overlap(Key),
    /// A period or a portion whose start is not below its end.
    BadPeriod,
    /// A change of a table while a transaction is open.
    TransactionsOpen,
}

impl From<AllocError> for Refusal {
    ghost use Rattle.std.specs.Prelude.{◌≡◌};
    ghost use Rattle.values.specs.declared.refusal.Refusal.TheVariants.{Memory};

    ghost from_gives = { λ _ e. e ≡ Memory };

    fn from(_error: AllocError) -> Refusal {
        Refusal::Memory
    }
}

impl<T: Drop> From<AllocFailed<T>> for Refusal {
    ghost use Rattle.std.specs.Prelude.{◌≡◌};
    ghost use Rattle.values.specs.declared.refusal.Refusal.TheVariants.{Memory};

    ghost from_gives = { λ _ e. e ≡ Memory };

    fn from(_error: AllocFailed<T>) -> Refusal {
        Refusal::Memory
    }
}
