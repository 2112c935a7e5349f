//! A history as the steps that leave it again, in the proofs alone.
#![tactic(auto)]

mod law;

pub use law::{histories_are_dumped, worked_dump_holds};
