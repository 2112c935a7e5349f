//! The migrator: in a round, workers pack all data nodes of history that a view shows unpacked.
#![tactic(auto)]

mod bench;
mod fault;
mod name;
mod request_list;
mod round;
mod run;
mod stop;
mod store_calls;
mod task;

pub use fault::{Cause, MigrateFault};
pub use run::run_migrator;
pub use store_calls::Filled;
