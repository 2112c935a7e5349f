//! What is asked of a store, what it replies, and why a step does not fit its tables.
#![tactic(auto)]

mod misfit;
mod step;

pub use misfit::{fit_keys, fit_write, key_misfit, no_session};
pub use step::{Listing, MAX_SESSION, Reply, Step};
