//! Sessions over sockets of 127.0.0.1, each served in a thread of its own round one store.
#![tactic(auto)]

mod accepting;
mod acceptor;
mod always_open;
mod client;
mod clock;
mod connection;
mod control;
mod desk;
mod door;
mod ending;
mod head;
mod limit;
mod loading;
mod log;
mod marks;
mod migration;
mod notice;
mod patience;
mod pile;
mod refusals;
mod round_trigger;
mod server;
mod service;
mod session_gate;
mod socket;
mod stop;
mod streams;
mod tally;
mod watch;

pub use always_open::AlwaysOpen;
pub use clock::Microseconds;
pub use connection::{ListenFault, listen};
pub use control::Control;
pub use limit::Limit;
pub use loading::{Loaded, Unloaded, load_into};
pub use server::{Plan, Served, ServerFault, TableRows, serve};
pub use socket::bind;
