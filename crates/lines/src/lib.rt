//! The lines of a text, as its bytes come in.
#![tactic(auto)]

mod line_buffer;

pub use line_buffer::{CHUNK, LONGEST_LINE, LineBuffer, MOST_READS, line_length};
