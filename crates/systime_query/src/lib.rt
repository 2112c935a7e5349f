//! What a query shows of what was committed, in all forms of FOR SYSTEM_TIME.
#![tactic(auto)]

mod period;
mod push;
mod selection;
mod standing;
mod window;

pub use blocks::BlockCache;
pub use selection::answer;
pub use staging::{KeyedNet, Staged, View};
pub use standing::{current_rows, rows_at};
