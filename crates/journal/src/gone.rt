//! The end of receipts.
use crate::receipt::Receipt;
use growlog::StoreName;
use std::marker::PhantomData;

/// That a journal is gone. Whoever gave it up has this, and ends receipts by it that are still to
/// come, as those of other threads.
#[derive(Drop)]
pub struct JournalGone<J: StoreName> {
    of: PhantomData<J>,
}

impl<J: StoreName> JournalGone<J> {
    /// Makes it, of a journal that goes.
    pub(crate) fn new() -> JournalGone<J> {
        JournalGone { of: PhantomData }
    }

    /// Ends receipts, whichever they are. It takes no memory.
    pub fn end(&self, mut receipts: Vec<Receipt<J>>) {
        while let Some(receipt) = receipts.pop() {
            receipt.end();
        }
        receipts.destroy_empty();
    }
}
