//! Tests of transactions by public calls, a file for each crate: what one writes, shows and
//! commits.
#![tactic(auto)]

#[cfg(test)]
mod commitclock_tests;
#[cfg(test)]
mod interleaving_tests;
#[cfg(test)]
mod open_transaction_tests;
#[cfg(test)]
mod packed_tests;
#[cfg(test)]
mod period_tests;
#[cfg(test)]
mod sample;
#[cfg(test)]
mod systime_query_tests;
