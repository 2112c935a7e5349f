//! That a dump is read as its steps, in the proofs alone.
#![tactic(auto)]

mod law;

pub use law::{dumps_are_replayed, histories_can_be_read, worked_text_holds};
