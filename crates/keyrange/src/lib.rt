//! Rectangles of keys and time.
#![tactic(auto)]

mod cut;
mod law;
mod range;
mod rect;

pub use law::{halves_part_their_whole, rectangles_have_points, rectangles_lie_inside};
pub use range::{KeyRange, TimeRange, is_before_end, is_below, is_early};
pub use rect::Rect;
