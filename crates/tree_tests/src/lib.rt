//! Tests of crates of the tree by their public calls, a file for each crate, and several for `blocks`
//! and `tsbtree`; and of `values`, `tokens` and `rows`: keys, rows, events and texts as bytes, and tokens.
#![tactic(auto)]

#[cfg(test)]
mod answer;
#[cfg(test)]
mod block_sample;
#[cfg(test)]
mod bytes_tests;
#[cfg(test)]
mod cache_tests;
#[cfg(test)]
mod chars_tests;
#[cfg(test)]
mod damage_tests;
#[cfg(test)]
mod datanode_tests;
#[cfg(test)]
mod event_tests;
#[cfg(test)]
mod eventlist_tests;
#[cfg(test)]
mod growth;
#[cfg(test)]
mod indexnode_tests;
#[cfg(test)]
mod key_sample;
#[cfg(test)]
mod key_tests;
#[cfg(test)]
mod keyrange_tests;
#[cfg(test)]
mod keysplit_tests;
#[cfg(test)]
mod leaf_tests;
#[cfg(test)]
mod line;
#[cfg(test)]
mod packed_tests;
#[cfg(test)]
mod packing_tests;
#[cfg(test)]
mod range_change_tests;
#[cfg(test)]
mod row_tests;
#[cfg(test)]
mod sample;
#[cfg(test)]
mod schema_tests;
#[cfg(test)]
mod search_tests;
#[cfg(test)]
mod searchrange_tests;
#[cfg(test)]
mod slots_tests;
#[cfg(test)]
mod timesplit_tests;
#[cfg(test)]
mod token_tests;
#[cfg(test)]
mod tree;
#[cfg(test)]
mod treegrowth_tests;
#[cfg(test)]
mod treenodes_tests;
#[cfg(test)]
mod treewalk_tests;
#[cfg(test)]
mod view_tests;
