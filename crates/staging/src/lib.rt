//! A transaction's own writes over what was committed when it began.
#![tactic(auto)]

mod bound;
mod delete;
mod insert;
mod keyed_net;
mod net;
mod overlap;
mod portion;
mod staged;
mod update;
mod write;

pub use keyed_net::{KeyedChange, KeyedNet};
pub use net::Net;
pub use staged::Staged;
pub use tsbtree::{LeafCopy, Tree, View};
