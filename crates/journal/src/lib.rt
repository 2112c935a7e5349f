//! The journal of a store: what happened to it, entry by entry, and the receipts of its entries.
#![tactic(auto)]

mod entry;
mod gone;
mod journal;
mod receipt;

pub use entry::{Begun, Entry, SharedEntry};
pub use gone::JournalGone;
pub use journal::Journal;
pub use receipt::Receipt;
