//! Sessions, each with a transaction of its own, round one store.
#![tactic(auto)]

mod commit;
mod copy;
mod gate;
mod law;
mod read;
mod readings;
mod refusal;
mod session;
mod store;
mod write;

pub use book::{
    BlockCache, BookRefusal, Closed, Cut, Engine, Entry, Job, PackedNode, Receipt, SharedEntry,
    View, find_job, listing_of, pack_job,
};
pub use commit::Ended;
pub use gate::{Gate, GaveUp, Place, pass_gate};
pub use law::{sessions_answer_as_histories, stores_answer_as_histories};
pub use readings::Readings;
pub use refusal::StoreRefusal;
pub use session::Session;
pub use store::{LockedStore, Unclosed};
