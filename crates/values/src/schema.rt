//! Tables in order, numbered from 1.
ghost use Rattle.std.specs.Prelude.{◌≡◌, ◌<◌, length, IfErr, IfOk, IfSome, OnErr, OnOk, option_copied};
ghost use Rattle.values.specs.Columns.{add_column};
ghost use Rattle.values.specs.Memory.{OnlyMemory};
ghost use Rattle.values.specs.TableNumber.{table_number};
ghost use Rattle.values.specs.Sample.{sample};
ghost use Rattle.values.specs.Tables.{table_at, widest};
ghost use Rattle.values.specs.TableRules.{IsTable, IsNumberIn, AreTables};

use crate::refusal::Mem;
use crate::table::{Column, Table, same_name};
use std::alloc::Global;
use std::marker::Model;

/// Tables in order, each at the place of its number. Each has at most four key columns, which are
/// among its user columns.
#[derive(Drop)]
pub struct Schema {
    tables: Vec<Table>,
}

impl Model for Schema {
    ghost use Rattle.values.specs.Tables.{Schema as Tables};
    ghost use Rattle.values.specs.TableRules.{AreTables};

    ghost Value = { Tables };

    ghost view = { λ s. record { tables = s.tables.items } };

    ghost invariant = { λ s. AreTables 1 s.tables.items };
}

impl Schema {
    /// Makes a schema of good tables, each at the place of its number.
    pub fn new(tables: Vec<Table>) -> Schema
        requires { AreTables 1 tables.items }
        ensures { result ≡ record { tables = tables.items } }
    {
        Schema { tables }
    }

    /// Returns the schema where none is given: the sample table alone.
    pub fn sample(alloc: Global) -> Mem<Schema>
        ensures ok { IfOk result (λ s. s ≡ sample) }
        ensures err { OnlyMemory result }
    {
        let table = Table::sample(alloc)?;
        Ok(Schema::new(vec![in alloc; table]?))
    }

    /// Returns the tables, by number.
    pub fn tables(&self) -> &[Table]
        ensures are { result.now ≡ self.now.tables }
        ensures good { AreTables 1 result.now }
    {
        self.tables.as_slice()
    }

    /// Finds the number of the table with a name, in any case.
    pub fn table(&self, name: &[u8]) -> Option<u8>
        ensures is { result ≡ table_number self.now name.now }
        ensures known { IfSome result (IsNumberIn self.now) }
    {
        for table in &self.tables {
            if same_name(table.name.text().as_bytes(), name) {
                return Some(table.number);
            }
        }
        None
    }

    /// Returns the table with a number, from 1.
    pub fn table_at(&self, number: u8) -> Option<&Table>
        ensures is { option_copied result ≡ table_at self.now number }
        ensures good { IfSome result (λ t. IsTable number t.now) }
    {
        if number == 0 {
            return None;
        }
        self.tables.get(number as usize - 1)
    }

    /// Adds a column to the table with a number, from 1, as its last; a schema without that table
    /// stays as it is. The table has fewer than 16 columns. Where memory runs out the schema stays
    /// as it was.
    pub fn add_column(&mut self, number: u8, column: Column) -> Mem<()>
        requires { IfSome (table_at self.old number) (λ table. length table.columns < widest) }
        ensures ok { OnOk result (self.new ≡ add_column number column self.old) }
        ensures err { OnErr result (self.new ≡ self.old) }
        ensures memory { OnlyMemory result }
    {
        if number == 0 {
            return Ok(());
        }
        if let Some(table) = self.tables.get_mut(number as usize - 1) {
            table.columns.push(column)?;
        }
        Ok(())
    }

    /// Copies the schema. The only refusal is that memory ran out.
    pub fn copy(&self, alloc: Global) -> Mem<Schema>
        ensures ok { IfOk result (λ s. s ≡ self.now) }
        ensures err { OnlyMemory result }
    {
        Ok(Schema::new(Vec::from_clones(alloc, self.tables())?))
    }
}

impl PartialEq for Schema {
    ghost use Rattle.std.specs.Prelude.{◌≡◌, ◌↔◌, IsTrue};
    ghost use Rattle.values.specs.Equality.{schema_eq, schema_eq_laws};

    ghost eq = { schema_eq };

    ghost laws = { schema_eq_laws };

    fn eq(&self, other: &Schema) -> bool
        ensures test { result ≡ schema_eq self.now other.now }
        ensures same { IsTrue result ↔ (self.now ≡ other.now) }
    {
        self.tables() == other.tables()
    }
}
