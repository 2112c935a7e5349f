//! Lists of events in order, by key and then by instant, and places in them.
#![tactic(auto)]

mod key_group;
mod listing;
mod nearby;
mod overtaking;
mod place;
mod put;
mod range;
mod sort;

pub use key_group::{events_of_key, place_until, split_first_key};
pub use listing::{events_in, standing};
pub use nearby::place_from;
pub use overtaking::is_overtaken;
pub use place::{
    event_since, event_until, last_event, place_after, place_behind_key, place_of, place_of_key,
};
pub use put::put_event;
pub use range::of_range;
pub use sort::sort_events;
