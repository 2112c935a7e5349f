//! Data nodes split at a key.
#![tactic(auto)]

mod middle;
mod split;

pub use middle::middle_key;
pub use split::split_key;
