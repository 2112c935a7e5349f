//! An open transaction: what it sees of what was committed, and its own writes.
#![tactic(auto)]

mod open_transaction;
mod select;
mod write;

pub use open_transaction::OpenTransaction;
pub use select::listing_of;
pub use systime_query::BlockCache;
