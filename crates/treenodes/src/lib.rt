//! Numbered nodes that form a tree, and the steps that change them.
#![tactic(auto)]

mod backlog;
mod event;
mod law;
mod leaf_copy;
mod lookup;
mod node;
mod nodes;
mod packing;
mod replacement;
mod root;
mod split;

pub use event::with_event;
pub use law::{maps_are_read_off, meeting_references_are_one};
pub use leaf_copy::{LeafCopy, with_copy};
pub use lookup::{current_at, leaf_at, way};
pub use node::{Child, Slot};
pub use nodes::Nodes;
pub use packing::with_block;
pub use root::{leaf_alone, whole, with_new_root};
pub use split::{
    can_split_key, can_split_time, with_index_keys_split, with_index_time_split, with_keys_split,
    with_time_split,
};
