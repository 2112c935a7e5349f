//! The entries of a step of which it is known only afterwards whether it is done.
ghost use Rattle.std.specs.Prelude.{◌≡◌, ◌<◌, ◌^◌, ◌+◌, ◌∷◌, Bool, false, length};
ghost use Rattle.journal.specs.Entries.{has_ended};
ghost use Rattle.book.specs.Outcomes.{entry_of};

use growlog::StoreName;
use journal::{Journal, Receipt, SharedEntry};

/// The entries of a step that is done or not, each twice. Which of them holds is known only after the step, and then no
/// memory is taken.
#[derive(Drop)]
pub(crate) struct Outcomes {
    pub(crate) done: (SharedEntry, SharedEntry),
    pub(crate) left: (SharedEntry, SharedEntry),
}

/// Adds the entry of a step, for which there is room.
pub(crate) fn note<J: StoreName>(
    journal: &mut Journal<J>,
    outcomes: Outcomes,
    is_done: bool,
) -> Receipt<J>
    requires room { 0 < journal.old.room }
    requires done { outcomes.done.1 ≡ outcomes.done.0 }
    requires left { outcomes.left.1 ≡ outcomes.left.0 }
    requires fresh { (done : Bool) → has_ended (entry_of outcomes done ∷ journal.old.entries)
        (length journal.old.entries + 1) ≡ false }
    requires short { length journal.old.entries < 2 ^ 62 }
    ensures entries { journal.new.entries ≡ entry_of outcomes is_done ∷ journal.old.entries }
    ensures number { result.number ≡ length journal.new.entries }
    ensures entry { result.entry ≡ entry_of outcomes is_done }
{
    let Outcomes { done, left } = outcomes;
    let (entry, kept) = if is_done { done } else { left };
    journal.push(entry, kept)
}
