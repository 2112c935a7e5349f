//! Rows in and out as CSV.
#![tactic(auto)]

mod apart_spans;
mod field;
mod insertion;
mod kept_field;
mod key_set;
mod load;
mod loading;
mod open_record;
mod overlaps;
mod place;
mod record;
mod report;
mod stream;
mod version;

pub use field::whole_within;
pub use load::load_rows;
pub use report::{print_whole, report_loaded, report_number};
pub use stream::{LoadFault, load_from};
pub use version::{ExportFault, export};
