//! What is read off the nodes of a tree.
#![tactic(auto)]

mod change_after;
mod cursor;
mod descent;
mod gather;
mod last_change;
mod leaf;
mod level;
mod listing;
mod range_change;
mod shape;
mod window;

pub use change_after::next_change;
pub use last_change::{changed_since, changed_since_near};
pub use leaf::{has_row_in, row_in};
pub use level::leaves_in;
pub use listing::{events, standing};
pub use range_change::changed_in;
pub use shape::{NodeShape, Shape, tree_shape};
pub use window::key_window;
