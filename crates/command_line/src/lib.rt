//! What the program does with its command line and its streams.
#![tactic(auto)]

mod dumped;
mod export;
pub mod fault;
mod load;
pub mod options;
mod output;
pub mod program;
mod replay;
mod schema_file;
mod server;
