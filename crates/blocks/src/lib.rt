//! Blocks: the bytes of data nodes of history, which are read in place.
#![tactic(auto)]

mod block;
mod cache;
mod entry;
mod event;
mod field;
mod gather;
mod head;
mod law;
mod listing;
mod lookup;
mod packed_node;
mod reading;
mod rect;
mod start;

pub use block::{has_block, pack, unpack};
pub use cache::BlockCache;
pub use law::blocks_stand_for_nodes;
pub use lookup::{at, changed_since, event_count};
pub use packed_node::Block;
pub use reading::{Blocks, InPlace};
