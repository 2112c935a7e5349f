//! The store as one machine that takes steps.
#![tactic(auto)]

mod alter;
mod begin;
mod commit;
mod migrate;
mod run;
mod select;
mod split;
mod step;
mod system;
mod write;

pub use system::System;
