//! What was committed, and the journal of all that led to it.
#![tactic(auto)]

mod begin;
mod book;
mod closing;
mod commit;
mod copy;
mod install;
mod outcomes;
mod refusal;
mod split;

pub use begin::Opening;
pub use book::Book;
pub use closing::Closed;
pub use journal::{Begun, Entry, JournalGone, Receipt, SharedEntry};
pub use refusal::BookRefusal;
pub use transaction::{BlockCache, OpenTransaction, listing_of};
pub use validation::{
    Cut, Engine, Job, KeyedNet, LeafCopy, Net, PackedNode, View, find_job, pack_job,
};
