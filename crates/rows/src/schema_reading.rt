//! How long a schema may be, and why a text is not one.

use std::alloc::{AllocError, AllocFailed};

/// The bytes that a schema's text may have.
pub const LONGEST_SCHEMA: usize = 65_536;

/// The schema of a program that is given none.
pub const SAMPLE: &str = "CREATE TABLE emp (
  no INT,
  name TEXT,
  sys_start TIMESTAMP(12) GENERATED ALWAYS AS ROW START,
  sys_end TIMESTAMP(12) GENERATED ALWAYS AS ROW END,
  PERIOD FOR SYSTEM_TIME (sys_start, sys_end),
  PRIMARY KEY (no)
) WITH SYSTEM VERSIONING;
";

/// Why a text is no schema.
#[derive(Debug, PartialEq, Eq, Drop)]
pub enum SchemaFault {
    /// The text is not of the grammar: the offset, from 0, of the first unexpected token, or the
    /// text's length where it ends too early; 65,536 where it is longer.
    Syntax(usize),
    /// The number, from 1, of the first table that breaks a rule of tables.
    BadTable(usize),
    Memory,
}

impl From<AllocError> for SchemaFault {
    ghost use Rattle.std.specs.Prelude.{◌≡◌};
    ghost use Rattle.rows.specs.declared.schema_reading.SchemaFault.TheVariants.{Memory};

    ghost from_gives = { λ _ e. e ≡ Memory };

    fn from(_error: AllocError) -> SchemaFault {
        SchemaFault::Memory
    }
}

impl<T: Drop> From<AllocFailed<T>> for SchemaFault {
    ghost use Rattle.std.specs.Prelude.{◌≡◌};
    ghost use Rattle.rows.specs.declared.schema_reading.SchemaFault.TheVariants.{Memory};

    ghost from_gives = { λ _ e. e ≡ Memory };

    fn from(_error: AllocFailed<T>) -> SchemaFault {
        SchemaFault::Memory
    }
}
