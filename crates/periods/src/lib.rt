//! What application time amounts to: portions, entities, and conflicts between them.
#![tactic(auto)]

mod law;

pub use law::{conflicts_are_by_unit, portions_change_points};
