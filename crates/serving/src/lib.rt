//! A session that is served: what it is sent follows from what it sends and from its receipts.
#![tactic(auto)]

mod account;
mod answer;
mod begin;
mod book_refusals;
mod commit;
mod migrate;
mod read;
mod serve;
mod serve_line;
mod served_session;
mod service;
mod split;
mod step;
mod write;

pub use book_refusals::BookRefusals;
pub use serve::serve_session;
pub use served_session::{End, Served};
pub use sessions::Readings;
