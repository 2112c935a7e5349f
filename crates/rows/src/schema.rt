//! Reads schemas.
ghost use Rattle.std.specs.Prelude.{[]};
ghost use Rattle.rows.specs.SchemaTable.{tables_from, read_schema, IsOrMemory};

use crate::declaration::{Declaration, creates_at};
use crate::schema_reading::{LONGEST_SCHEMA, SchemaFault};
use crate::schema_table::next_table;
use std::alloc::Global;
use tokens::Stop;
use values::Schema;

/// Makes schemas of texts: `Schema::read`.
pub trait ReadSchema {
    /// Reads CREATE TABLE statements. A text of over 65,536 bytes is a fault of syntax at that
    /// byte, and syntax is looked for in the whole text before any table is.
    fn read(alloc: Global, text: &[u8]) -> Result<Schema, SchemaFault>
        ensures { IsOrMemory result (read_schema text.now) };
}

impl ReadSchema for Schema {
    #[tactic(auto, unfolding(crate::specs::SchemaTable::read_schema))]
    fn read(alloc: Global, text: &[u8]) -> Result<Schema, SchemaFault> {
        if text.len() > LONGEST_SCHEMA {
            return Err(SchemaFault::Syntax(LONGEST_SCHEMA));
        }
        match creates_at(alloc, text) {
            Ok((declarations, _)) => tables_of(alloc, declarations.items()),
            Err(Stop::At(at)) => Err(SchemaFault::Syntax(text.len().saturating_sub(at.len()))),
            Err(Stop::Memory) => Err(SchemaFault::Memory),
        }
    }
}

fn tables_of(alloc: Global, declarations: &[Declaration]) -> Result<Schema, SchemaFault>
    ensures { IsOrMemory result (tables_from [] declarations.now) }
{
    let mut tables = Vec::new(alloc);
    for declaration in declarations {
        match next_table(alloc, &tables, declaration)? {
            Some(table) => tables.push(table)?,
            None => return Err(SchemaFault::BadTable(tables.len() + 1)),
        }
    }
    Ok(Schema::new(tables))
}
