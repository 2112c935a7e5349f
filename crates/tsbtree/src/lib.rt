//! The tree of all changes, and views of it.
#![tactic(auto)]

mod packing;
mod same;
mod tree;
mod view;

pub use tree::Tree;
pub use treenodes::LeafCopy;
pub use view::View;
