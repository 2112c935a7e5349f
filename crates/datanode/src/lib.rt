//! Data nodes: what a rectangle of keys and time holds of all changes.
#![tactic(auto)]

mod cut;
mod law;
mod node;

pub use cut::is_carried;
pub use law::{cuts_are_nested, cuts_show_the_map, cuts_stay, halves_hold_each_event_once};
pub use node::{CAPACITY, DataNode};
pub use values::Event;
