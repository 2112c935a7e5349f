//! Queries, search conditions, new values, and the rows that are shown.
ghost use Rattle.std.specs.Prelude.{◌≡◌, IfOk, [], ◌∷◌};
ghost use Rattle.values.specs.Memory.{OnlyMemory};

use crate::key::Instant;
use crate::refusal::Mem;
use crate::row::Row;
use crate::sequence::Sequence;
use crate::shown_row::ShownRow;
use crate::value::Value;
use std::alloc::Global;

/// Which versions a query selects.
#[derive(Clone, Copy, Debug, PartialEq, Eq)]
pub enum Form {
    /// Those that have not ended.
    Plain,
    /// Those that had begun and not ended at an instant.
    AsOf(Instant),
    /// Those of a time from an instant on, and before another.
    FromTo(Instant, Instant),
    /// Those of a time from an instant on, up to another and with it.
    Between(Instant, Instant),
}

/// How a key column compares with a value.
#[derive(Clone, Copy, Debug, PartialEq, Eq)]
pub enum Operator {
    Equal,
    Below,
    AtMost,
    Above,
    AtLeast,
}

/// A user column's number, from 1. A name that is no column of its table is 0.
pub type ColumnNumber = usize;

/// A column compared with a value.
#[derive(Debug, Drop)]
pub struct Comparison {
    pub column: ColumnNumber,
    pub operator: Operator,
    pub value: Value,
}

/// The keys of a table, by its number from 1, that meet all comparisons.
#[derive(Drop)]
pub struct Keys {
    pub table: u8,
    pub comparisons: Sequence<Comparison>,
}

impl Keys {
    /// Makes the condition that all keys of a table meet.
    pub fn all(alloc: Global, table: u8) -> Keys
        ensures { result ≡ record { table = table; comparisons = [] } }
    {
        Keys {
            table,
            comparisons: Sequence::new(Vec::new(alloc)),
        }
    }

    /// Makes the condition of one comparison with the keys of a table.
    pub fn of_comparison(alloc: Global, table: u8, comparison: Comparison) -> Mem<Keys>
        ensures ok { IfOk result (λ k. k
            ≡ record { table = table; comparisons = comparison ∷ [] }) }
        ensures err { OnlyMemory result }
    {
        let comparisons = Sequence::new(vec![in alloc; comparison]?);
        Ok(Keys { table, comparisons })
    }
}

/// A column and its new value.
#[derive(Debug, Drop)]
pub struct Set {
    pub column: ColumnNumber,
    pub value: Value,
}

/// What an UPDATE sets, in the order of the statement.
pub type Sets = Sequence<Set>;

/// Rows in order.
pub type Rows = Sequence<Row>;

/// A row with its period, which has no end where none has come.
#[derive(Drop)]
pub struct Shown {
    pub row: ShownRow,
    pub from: Instant,
    pub to: Option<Instant>,
}

/// Rows with their periods, in order.
pub type ShownRows = Sequence<Shown>;
