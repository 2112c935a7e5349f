//! Scripts: their lines are read and answered in turn.
#![tactic(auto)]

mod replay;
mod script;

pub use replay::{ReplayFault, replay_script};
pub use script::{RunFault, lead, run_script, run_script_after, run_script_in, take_all};
