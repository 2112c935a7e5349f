//! Tests of `sessions`, `serving`, `migrator` and `listening` by their public calls: sessions and rounds
//! round one store, and clients over sockets; and of `statement`, `scripts`, `interchange` and
//! `command_line` what no run of the program shows.
#![tactic(auto)]

#[cfg(test)]
mod after_tests;
#[cfg(test)]
mod call_tests;
#[cfg(test)]
mod case;
#[cfg(test)]
mod client;
#[cfg(test)]
mod closing_tests;
#[cfg(test)]
mod cut;
#[cfg(test)]
mod desk;
#[cfg(test)]
mod end_tests;
#[cfg(test)]
mod export_tests;
#[cfg(test)]
mod few_tests;
#[cfg(test)]
mod first_tests;
#[cfg(test)]
mod install_tests;
#[cfg(test)]
mod line_tests;
#[cfg(test)]
mod load_from_tests;
#[cfg(test)]
mod log_tests;
#[cfg(test)]
mod pipe;
#[cfg(test)]
mod program_tests;
#[cfg(test)]
mod read_line_tests;
#[cfg(test)]
mod replay_tests;
#[cfg(test)]
mod round_tests;
#[cfg(test)]
mod run_tests;
#[cfg(test)]
mod scene;
#[cfg(test)]
mod socket_tests;
#[cfg(test)]
mod step;
#[cfg(test)]
mod store_tests;
#[cfg(test)]
mod stream_tests;
#[cfg(test)]
mod thread_tests;
#[cfg(test)]
mod word_tests;
#[cfg(test)]
mod worker_gate;
