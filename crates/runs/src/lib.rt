//! One history of a whole served run, in the proofs alone.
#![tactic(auto)]

mod law;

pub use law::{served_runs_are_histories, worked_runs_hold};
