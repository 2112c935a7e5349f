//! The keys that a search condition leaves.
#![tactic(auto)]

mod entity;
mod narrowing;
mod only_key;
mod prefix;
mod search;
mod table_range;

pub use entity::{entity_keys, entity_range};
pub use search::Search;
pub use table_range::range_of_table;
