//! The texts that declare tables.
#![tactic(auto)]

mod declaration;
mod good_table;
mod sample;
mod schema;
mod schema_grammar;
mod schema_reading;
mod schema_table;
mod schema_token;

pub use good_table::good_tables_are_made;
pub use sample::sample_is_a_schema;
pub use schema::ReadSchema;
pub use schema_grammar::{faults_are_final, schemas_are_of_the_grammar, the_grammar_is_read};
pub use schema_reading::{LONGEST_SCHEMA, SAMPLE, SchemaFault};
