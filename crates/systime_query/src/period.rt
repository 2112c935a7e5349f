//! The version that an event begins.
ghost use Rattle.std.specs.Prelude.{◌≡◌, IfOk};
ghost use Rattle.values.specs.Events.{is_bytes};
ghost use Rattle.values.specs.Memory.{OnlyMemory};
ghost use Rattle.searchrange.specs.Search.{IsInSearch};
ghost use Rattle.systime_query.specs.Selection.{shown_of};

use searchrange::Search;
use std::alloc::Global;
use values::{Form, Instant, KeyBytes, Mem, SharedEvent, Shown};

/// The version that an event begins, where the form selects it and the search takes its key.
pub(crate) fn shown_of(
    alloc: Global,
    event: &SharedEvent,
    to: Option<Instant>,
    form: Form,
    search: &Search<'_>,
) -> Mem<Option<Shown>>
    ensures ok { IfOk result (λ s. IsInSearch search.now.table search.now.range event.now.key
        → s ≡ shown_of search.now.table form search.now.keys event.now to) }
    ensures err { OnlyMemory result }
{
    let from = event.event().at();
    if !form.selects(from, to) {
        return Ok(None);
    }
    match search.row_in(alloc, event)? {
        None => Ok(None),
        Some(row) => Ok(Some(Shown { row, from, to })),
    }
}

pub(crate) fn is_same(key: &KeyBytes, other: &KeyBytes) -> bool
    ensures { result ≡ is_bytes key.now other.now }
{
    key.cmp(other).is_eq()
}
