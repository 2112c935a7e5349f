//! The clock that gives commits their instants, which always rise.
#![tactic(auto)]

mod clock;

pub use clock::Clock;
