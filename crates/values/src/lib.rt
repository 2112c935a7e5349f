//! Values, rows, keys, refusals, and the words that speak of what was committed.
#![tactic(auto)]

mod chars;
mod event;
mod fit;
mod fitting;
mod form;
mod key;
mod key_encoding;
mod key_law;
mod key_prefix;
mod key_reading;
mod law;
mod period;
mod query;
mod refusal;
mod row;
mod row_encoding;
mod row_law;
mod sample;
mod schema;
mod search_condition;
mod sequence;
mod shown_row;
mod table;
mod value;
mod write;

pub use chars::Chars;
pub use event::{Event, SharedEvent};
pub use fit::is_good_type;
pub use fitting::{FittingKeys, FittingWrite};
pub use key::{Instant, Key, MAX_INSTANT, Net, Point, Transaction};
pub use key_encoding::{
    KeyBuffer, KeyBytes, LONGEST_KEY, fitting_key_bytes, key_bytes, ordinal_of, push_part,
};
pub use key_law::{bytes_stand_for_keys, fitting_keys_have_bytes, fitting_rows_have_keys};
pub use key_reading::read_key;
pub use law::{as_of_shows_the_state, empty_net_leaves_the_log, states_are_versions};
pub use period::{Period, Span};
pub use query::{
    ColumnNumber, Comparison, Form, Keys, Operator, Rows, Set, Sets, Shown, ShownRows,
};
pub use refusal::{Mem, Refusal};
pub use row::{LONGEST_TEXT, Row, WIDEST};
pub use row_encoding::{read_row, row_bytes};
pub use row_law::{bytes_stand_for_rows, fitting_rows_have_bytes};
pub use schema::Schema;
pub use sequence::Sequence;
pub use shown_row::ShownRow;
pub use table::{Column, ColumnType, Table, same_name};
pub use value::{MAX_INT, Value, Values, read_values};
pub use write::Write;
