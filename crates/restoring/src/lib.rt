//! How transactions are made again, in the proofs alone.
#![tactic(auto)]

mod law;

pub use law::{
    histories_are_of_changes, logs_are_of_changes, one_key_is_written, transactions_are_rebuilt,
};
