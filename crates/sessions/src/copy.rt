//! The node that a commit of one row changes, copied before the store is locked.
ghost use Rattle.std.specs.Prelude.{◌≡◌, IfOk, IfSome};
ghost use Rattle.values.specs.Memory.{OnlyMemory};
ghost use Rattle.sessions.specs.Copy.{IsCopyOfBegin};

use book::{Book, Entry, KeyedNet, LeafCopy, Receipt};
use growlog::StoreName;
use values::Mem;

/// Copies the node that a transaction of one change changes, as its begin shows it. None if there are
/// more changes, or no receipt of the begin is at hand. `Memory` where it runs out.
pub(crate) fn leaf_copy<J: StoreName>(
    begin: Option<&Receipt<J>>,
    changes: &KeyedNet,
) -> Mem<Option<LeafCopy>>
    ensures ok { IfOk result (λ copy. IfSome copy (IsCopyOfBegin (λ r. r.now.entry) begin.entry)) }
    ensures err { OnlyMemory result }
{
    let Some(begin) = begin else {
        return Ok(None);
    };
    let Entry::Begin { view, .. } = begin.entry.entry() else {
        return Ok(None);
    };
    match changes.changes() {
        [change] => Ok(Some(view.leaf_copy(change.bytes())?)),
        _ => Ok(None),
    }
}

/// Hands the copy to the book, which gives it back if a commit has changed the node since the begin.
pub(crate) fn take_copy<J: StoreName>(
    book: &mut Book<J>,
    begin: Option<&Receipt<J>>,
    copy: Option<LeafCopy>,
) -> Option<LeafCopy>
    requires { IfSome copy (IsCopyOfBegin (λ r. r.now.entry) begin) }
    ensures { book.new ≡ book.old }
{
    match (begin, copy) {
        (Some(begin), Some(copy)) => book.take_copy(begin, copy),
        _ => None,
    }
}
