//! The table where none is declared.
ghost use Rattle.std.specs.Prelude.{◌≡◌, IfOk, codes, false};
ghost use Rattle.values.specs.Memory.{OnlyMemory};
ghost use Rattle.values.specs.TableRules.{IsTable};
ghost use Rattle.values.specs.Sample.{sample_table};

use crate::chars::Chars;
use crate::refusal::Mem;
use crate::sequence::Sequence;
use crate::table::{Column, ColumnType, Table};
use std::alloc::Global;

impl Table {
    /// Makes the table where none is declared: `emp` with the columns `no INT`, its key, and
    /// `name TEXT`, and the period columns `sys_start` and `sys_end`.
    pub fn sample(alloc: Global) -> Mem<Table>
        ensures ok { IfOk result (λ t. t ≡ sample_table) }
        ensures good { IfOk result (λ t. IsTable t.number t) }
        ensures err { OnlyMemory result }
    {
        let number = sample_column(alloc, "no", ColumnType::Int)?;
        let name = sample_column(alloc, "name", ColumnType::Text)?;
        Ok(Table {
            number: 1,
            name: Chars::copy_of(alloc, "emp")?,
            columns: Sequence::new(vec![in alloc; number, name]?),
            key: Sequence::new(vec![in alloc; 1]?),
            row_start: Chars::copy_of(alloc, "sys_start")?,
            row_end: Chars::copy_of(alloc, "sys_end")?,
            period: None,
        })
    }
}

fn sample_column(alloc: Global, name: &str, of: ColumnType) -> Mem<Column>
    ensures ok { IfOk result (λ c. c ≡ record { name = name.now; of = of; not_null = false }) }
    ensures err { OnlyMemory result }
{
    Ok(Column {
        name: Chars::copy_of(alloc, name)?,
        of,
        not_null: false,
    })
}
