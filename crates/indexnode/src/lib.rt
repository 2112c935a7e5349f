//! Nodes of references whose rectangles tile the node's own.
#![tactic(auto)]

mod choice;
mod list;
mod node;
mod reference;
mod replacement;
mod search;
mod split;

pub use list::{pair, single};
pub use node::IndexNode;
pub use reference::Reference;
