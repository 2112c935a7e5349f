//! Tokens of schemas and of lines: symbols, words in any case, names and digits.
#![tactic(auto)]

mod digit;
mod name;
mod token;
mod type_name;
mod word;

pub use digit::{capped_at, split_digits};
pub use name::{is_reserved, kept_name_at, name_at};
pub use token::{After, Made, Read, Separators, Stop, symbol_at};
pub use type_name::type_at;
pub use word::{after_word, is_word_at, word_at, word_here};
