//! Lines, what they say, and replies as they are printed.
#![tactic(auto)]

mod alteration;
mod condition;
mod grammar_law;
mod line;
mod list;
mod literal;
mod meaning;
mod meaning_law;
mod portion;
mod print;
mod served_line;
mod split;
mod statement;
mod token;
mod writer;

pub use grammar_law::{
    faults_are_final, lines_are_read_by_the_grammar, printed_rows_are_read,
    served_faults_are_final, served_lines_are_read_by_the_grammar,
};
pub use line::{Line, read_line};
pub use literal::{digits_here, number_here};
pub use meaning::{is_column_list, place_of, row_in};
pub use meaning_law::asked_steps_fit;
pub use print::{print_numbered, print_refusal, print_reply, print_value};
pub use served_line::read_served;
pub use steps::{Listing, Reply, Step};
pub use writer::{WriteFault, print_number, write_all};
