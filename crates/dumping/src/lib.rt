//! A history as a script that leaves it again.
#![tactic(auto, using(statement::proofs::WriterPrefixes::joins))]

mod change;
mod column;
mod deletion;
mod fault;
mod history;
mod name;
mod order;
mod row;
mod transaction;

pub use fault::DumpFault;
pub use history::dump;
