//! A tree that takes a commit's events, and whose nodes are split.
#![tactic(auto)]

mod commit;
mod leaf;
mod point;
mod relief;
mod split;

pub use commit::with_commit;
pub use split::{key_split, time_split};
