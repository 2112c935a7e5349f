//! ALTER: a table gets a column, and what is stored stays as it is.
ghost use Rattle.std.specs.Prelude.{◌≡◌, ◌<◌, length, is_none, None, true, false, IfSome, OnErr, OnOk};
ghost use Rattle.std.specs.List.{list_all};
ghost use Rattle.values.specs.Columns.{add_column, addition_fault, new_column};
ghost use Rattle.values.specs.Memory.{OnlyMemory};
ghost use Rattle.values.specs.Tables.{table_at, widest};
ghost use Rattle.steps.specs.Idle.{is_idle};
ghost use Rattle.steps.specs.Reply.{is_out_of_memory};
ghost use Rattle.histories.specs.Stands.{is_open_at};
ghost use Rattle.histories.specs.Turn.{alter_turn};
ghost use Rattle.interleaving.specs.AlterStep.{IsAltered};
ghost use Rattle.interleaving.specs.StepLeaves.{leaves_all};
ghost use Rattle.interleaving.specs.SystemState.{world};

use crate::system::System;
use steps::Reply;
use transaction::OpenTransaction;
use values::{Chars, Column, ColumnType, Mem, Refusal, Schema};

impl System {
    /// Adds a column that may be NULL to a table, as its last, if no session has a transaction open.
    /// Where memory runs out nothing has changed.
    pub(crate) fn add_column(&mut self, table: u8, name: &Chars, of: ColumnType) -> Reply
        requires { IfSome (table_at self.old.schema table) (λ t.
            addition_fault name.now of t ≡ None) }
        ensures answered { is_out_of_memory result ≡ false
            → (result, world self.new) ≡ alter_turn (world self.old) table name.now of }
        ensures refused { leaves_all result ≡ true → self.new ≡ self.old }
        ensures altered { result ≡ Reply.Altered
            → IsAltered table (new_column name.now of) self.old self.new }
        ensures engine { self.new.engine ≡ self.old.engine }
        ensures no_memory { is_idle (is_open_at (world self.old)) ≡ false
            → is_out_of_memory result ≡ false }
    {
        if !is_idle(&self.sessions) {
            return Reply::Refused(Refusal::TransactionsOpen);
        }
        match add_nullable(&mut self.schema, table, name, of) {
            Ok(()) => Reply::Altered,
            Err(refusal) => Reply::Refused(refusal),
        }
    }
}

/// Whether no session has a transaction open.
pub(crate) fn is_idle(sessions: &[Option<OpenTransaction>]) -> bool
    ensures { result ≡ list_all is_none sessions.now }
{
    sessions.iter().all(|session| session.is_none())
}

/// Adds a column that may be NULL.
fn add_nullable(schema: &mut Schema, table: u8, name: &Chars, of: ColumnType) -> Mem<()>
    requires { IfSome (table_at schema.old table) (λ t. length t.columns < widest) }
    ensures ok { OnOk result (schema.new ≡ add_column table (new_column name.now of) schema.old) }
    ensures err { OnErr result (schema.new ≡ schema.old) }
    ensures memory { OnlyMemory result }
{
    let column = Column {
        name: name.clone()?,
        of,
        not_null: false,
    };
    schema.add_column(table, column)
}
