//! The law of the sample schema.
ghost use Rattle.std.specs.Prelude.{◌≡◌, Ok};
ghost use Rattle.values.specs.Sample.{sample};
ghost use Rattle.rows.specs.SchemaTable.{read_schema};

use crate::schema_reading::SAMPLE;

/// States that the sample schema is what its text says.
pub fn sample_is_a_schema()
    ensures { read_schema SAMPLE.now ≡ Ok sample }
{}
