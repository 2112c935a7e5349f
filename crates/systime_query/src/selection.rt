//! The versions that a query selects.
ghost use Rattle.std.specs.Prelude.{◌≡◌, ◌≤◌, IfOk};
ghost use Rattle.values.specs.Versions.{answer};
ghost use Rattle.values.specs.Memory.{OnlyMemory};
ghost use Rattle.systime_query.specs.Selection.{WhenShown};
ghost use Rattle.systime_query.specs.Window.{IsWindow};

use crate::window::{key_events, shown_in, window_events};
use blocks::Blocks;
use searchrange::Search;
use staging::View;
use std::alloc::Global;
use values::{Form, Instant, Mem, Shown};

/// Returns the versions of a table's rows that a query selects, with their periods, by key and then
/// by start (ISO/IEC 9075-2:2011, 7.6). An end after the view's last instant is none. The events of
/// packed nodes are those that `blocks` gives.
pub fn answer<B: Blocks>(
    alloc: Global,
    blocks: &mut B,
    view: &View,
    form: Form,
    search: &Search<'_>,
) -> Mem<Vec<Shown>>
    ensures ok { IfOk result (λ v. WhenShown view.now search.now.table search.now.keys (λ m.
        v.items ≡ answer m search.now.table form search.now.keys)) }
    ensures err { OnlyMemory result }
{
    match form {
        Form::Plain => current(alloc, blocks, view, search),
        Form::AsOf(instant) => within(alloc, blocks, view, form, search, instant, instant),
        Form::FromTo(from, to) => {
            if from < to {
                within(alloc, blocks, view, form, search, from, to - 1)
            } else {
                Ok(Vec::new(alloc))
            }
        }
        Form::Between(from, to) => {
            if from <= to {
                within(alloc, blocks, view, form, search, from, to)
            } else {
                Ok(Vec::new(alloc))
            }
        }
    }
}

/// The versions that have not ended: those as of the last commit.
fn current<B: Blocks>(
    alloc: Global,
    blocks: &mut B,
    view: &View,
    search: &Search<'_>,
) -> Mem<Vec<Shown>>
    ensures ok { IfOk result (λ v. WhenShown view.now search.now.table search.now.keys (λ m.
        v.items ≡ answer m search.now.table Form.Plain search.now.keys)) }
    ensures err { OnlyMemory result }
{
    let last = view.last();
    within(alloc, blocks, view, Form::AsOf(last), search, last, last)
}

/// The versions that a query selects which asks of the instants from one to another, and with it.
/// Of one key only the nodes that have it are looked into.
fn within<B: Blocks>(
    alloc: Global,
    blocks: &mut B,
    view: &View,
    form: Form,
    search: &Search<'_>,
    first: Instant,
    last: Instant,
) -> Mem<Vec<Shown>>
    requires window { IsWindow form first last }
    requires order { first ≤ last }
    ensures ok { IfOk result (λ v. WhenShown view.now search.now.table search.now.keys (λ m.
        v.items ≡ answer m search.now.table form search.now.keys)) }
    ensures err { OnlyMemory result }
{
    let range = search.range(alloc)?;
    let found = match search.key() {
        Some(key) => key_events(alloc, blocks, view, key, &range, first, last)?,
        None => window_events(alloc, blocks, view, &range, first, last)?,
    };
    shown_in(alloc, view, &found, last, form, search)
}
