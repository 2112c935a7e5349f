//! Data nodes split at an instant.
#![tactic(auto)]

mod split;
mod stay;

pub use split::split_time;
pub use stay::stay_count;
