//! Lists whose copies share what they have in common.
#![tactic(auto)]

mod beside;
mod share;
mod slots;
mod trie;

pub use share::{Share, Update};
pub use slots::Slots;
