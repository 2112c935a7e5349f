//! A log that only grows, in the proofs alone: all that hold a prefix of it agree.
#![tactic(auto)]

mod log;
mod prefix;

pub use log::{Log, NewLog, StoreName};
pub use prefix::Prefix;
