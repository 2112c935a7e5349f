//! What was committed, and how a transaction ends: the first committer wins.
#![tactic(auto)]

mod conflict;
mod cut;
mod engine;
mod job;
mod packed_node;

pub use cut::Cut;
pub use engine::Engine;
pub use job::{Job, find_job};
pub use packed_node::{PackedNode, pack_job};
pub use staging::{KeyedNet, LeafCopy, Net, Tree, View};
