//! Keys, points, and what was committed at an instant.
ghost use Rattle.std.specs.Prelude.{◌≡◌, IfOk};
ghost use Rattle.values.specs.Entity.{entity_of};
ghost use Rattle.values.specs.Order.{is_key};
ghost use Rattle.values.specs.Portion.{with_start};
ghost use Rattle.values.specs.Tables.{but_last};
ghost use Rattle.values.specs.Memory.{OnlyMemory};

use crate::refusal::Mem;
use crate::row::Row;
use crate::sequence::Sequence;
use crate::value::{Value, Values};
use std::alloc::{AllocError, Global};

/// A point of time: microseconds since 1970 where the clock gives it, and any whole number where a
/// script does.
pub type Instant = u64;

/// The greatest instant that a transaction can have.
pub const MAX_INSTANT: Instant = 999_999_999_999_999_999;

/// A table's number, from 1, and the values of its key columns, in the key's order.
#[derive(Debug, PartialEq, Eq, PartialOrd, Ord, Drop)]
pub struct Key {
    pub table: u8,
    pub parts: Values,
}

impl Key {
    /// Copies the key.
    pub fn copy(&self) -> Mem<Key>
        ensures ok { IfOk result (λ k. k ≡ self.now) }
        ensures err { OnlyMemory result }
    {
        Ok(self.clone()?)
    }

    /// Returns the key without its last part: of a table with a period of application time the
    /// entity that the row is of.
    pub fn entity(&self, alloc: Global) -> Mem<Key>
        ensures ok { IfOk result (λ k. k ≡ entity_of self.now) }
        ensures err { OnlyMemory result }
    {
        let parts = Vec::from_clones(alloc, but_last(self.parts.items()))?;
        Ok(Key {
            table: self.table,
            parts: Values::new(parts),
        })
    }

    /// Returns the key of the same entity whose period starts then: its last part is the start.
    pub fn with_start(&self, alloc: Global, start: i64) -> Mem<Key>
        ensures ok { IfOk result (λ k. k ≡ with_start self.now start) }
        ensures err { OnlyMemory result }
    {
        let mut parts = Vec::from_clones(alloc, but_last(self.parts.items()))?;
        parts.push(Value::Int(start))?;
        Ok(Key {
            table: self.table,
            parts: Values::new(parts),
        })
    }

    /// Tells whether two keys are of one entity: they are the same but for their last parts.
    pub fn is_of_entity(&self, other: &Key) -> bool
        ensures { result ≡ is_key (entity_of self.now) (entity_of other.now) }
    {
        let parts = but_last(self.parts.items()).cmp(but_last(other.parts.items()));
        self.table.cmp(&other.table).then(parts).is_eq()
    }
}

fn but_last(parts: &[Value]) -> &[Value]
    ensures { result.now ≡ but_last parts.now }
{
    match parts.split_last() {
        Some((_last, others)) => others,
        None => parts,
    }
}

impl Clone for Key {
    ghost use Rattle.std.specs.Prelude.{◌≡◌};

    ghost is_clone = { λ x y. y ≡ x };

    fn clone(&self) -> Result<Key, AllocError> {
        Ok(Key {
            table: self.table,
            parts: self.parts.clone()?,
        })
    }
}

/// A key at an instant.
#[derive(Debug, PartialEq, Eq, PartialOrd, Ord, Drop)]
pub struct Point {
    pub key: Key,
    pub instant: Instant,
}

/// What each of some keys has from a transaction on, by key: a row, or none.
pub type Net = Sequence<(Key, Option<Row>)>;

/// What was committed at an instant.
#[derive(Drop)]
pub struct Transaction {
    pub instant: Instant,
    pub net: Net,
}
