//! Rows that are shown.
ghost use Rattle.std.specs.Prelude.{◌≡◌, IfOk, option_copied};
ghost use Rattle.values.specs.Memory.{OnlyMemory};
ghost use Rattle.values.specs.ShownRow.{values_of};

use crate::event::SharedEvent;
use crate::refusal::Mem;
use crate::row::Row;
use crate::value::Value;
use std::marker::Model;

/// Where a row that is shown is: in the event that has it, or by itself.
#[derive(Drop)]
enum Source {
    Event(SharedEvent),
    Own(Row),
}

/// A row that is shown, which contracts see as a list. One that an event has is not copied: the
/// event is shared.
#[derive(Drop)]
pub struct ShownRow {
    source: Source,
}

impl Model for ShownRow {
    ghost use Rattle.std.specs.Prelude.{List};
    ghost use Rattle.values.specs.declared.value.Value.{Value as Cell};
    ghost use Rattle.values.specs.ShownRow.{row_from};

    ghost Value = { List Cell };

    ghost view = { λ r. row_from r.source };
}

impl ShownRow {
    /// Makes a shown row of a row, without copying it.
    pub fn new(row: Row) -> ShownRow
        ensures { result ≡ row }
    {
        ShownRow {
            source: Source::Own(row),
        }
    }

    /// Shares the row of an event; none where it has none.
    pub fn of_event(event: &SharedEvent) -> Mem<Option<ShownRow>>
        ensures ok { IfOk result (λ row. row ≡ event.now.row) }
        ensures err { OnlyMemory result }
    {
        if event.event().row().is_none() {
            return Ok(None);
        }
        Ok(Some(ShownRow {
            source: Source::Event(event.share()?),
        }))
    }

    /// Returns the values, in order.
    pub fn values(&self) -> &[Value]
        ensures { result.now ≡ self.now }
    {
        match &self.source {
            Source::Event(event) => values_of(event.event().row()),
            Source::Own(row) => row.values(),
        }
    }
}

/// The values of a row, none where there is no row.
fn values_of(row: Option<&Row>) -> &[Value]
    ensures { result.now ≡ values_of (option_copied row.entry) }
{
    match row {
        Some(row) => row.values(),
        None => &[],
    }
}
