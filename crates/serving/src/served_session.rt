//! The outcome of a served session.
use crate::book_refusals::BookRefusals;
use growlog::StoreName;
use sessions::{GaveUp, Receipt};

/// Why a served session ended.
#[derive(Clone, Copy, Debug, PartialEq, Eq)]
pub enum End {
    /// The reader came to its end, and all was answered.
    Closed,
    /// The reader failed, or gave no end in 2^32 reads.
    Read,
    /// The writer failed.
    Write,
    /// The gate gave up.
    Gate(GaveUp),
    /// Memory ran out before anything was read.
    Memory,
}

/// A served session: the receipts that its lines took, in order, what the store's book refused lines
/// for, and why it ended. Whoever has it hands the receipts on.
pub struct Served<J: StoreName> {
    pub receipts: Vec<Receipt<J>>,
    pub refused: BookRefusals,
    pub end: End,
}
