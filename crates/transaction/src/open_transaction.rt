//! An open transaction.
ghost use Rattle.std.specs.Prelude.{◌≡◌, ◌≢◌, [], IfOk, None};
ghost use Rattle.std.specs.Option.{option_map};
ghost use Rattle.values.specs.Fit.{key_fault};
ghost use Rattle.values.specs.Log.{Changes, row_at};
ghost use Rattle.values.specs.Memory.{OnlyMemory};
ghost use Rattle.values.specs.Tables.{Schema, full_row};
ghost use Rattle.values.specs.TableRules.{IsTable};
ghost use Rattle.values.specs.Events.{AreKeysIn};
ghost use Rattle.systime_query.specs.tsbtree.View.{last};
ghost use Rattle.systime_query.specs.staging.View.{Holds};
ghost use Rattle.systime_query.specs.staging.Own.{WhenRead, net_over, rows_seen};

use std::alloc::Global;
use std::marker::Model;
use systime_query::{KeyedNet, Staged, View};
use values::{Instant, Key, Mem, Row, Table};

/// What a transaction sees of what was committed, and its own writes, which nobody else sees.
#[derive(Drop)]
pub struct OpenTransaction {
    pub(crate) view: View,
    pub(crate) staged: Staged,
}

impl Model for OpenTransaction {
    ghost use Rattle.transaction.specs.OpenTransactionState.{OpenTransactionState};

    ghost Value = { OpenTransactionState };

    ghost view = { λ t. record { view = t.view; writes = t.staged } };
}

impl OpenTransaction {
    /// Begins a transaction with a view; it has written nothing.
    pub fn begin(alloc: Global, view: View) -> Mem<OpenTransaction>
        ensures ok { IfOk result (λ t. t ≡ record { view = view; writes = [] }) }
        ensures err { OnlyMemory result }
    {
        let staged = Staged::new(alloc)?;
        Ok(OpenTransaction { view, staged })
    }

    /// Returns the last commit instant at its BEGIN, 0 where there was none.
    pub fn start(&self) -> Instant
        ensures { result ≡ last self.now.view }
    {
        self.view.last()
    }

    /// Returns the row that the transaction sees at a key of the table, which fits it. It is as wide
    /// as the table.
    pub fn get(&self, table: &Table, key: &Key) -> Mem<Option<Row>>
        requires table { IsTable table.now.number table.now }
        requires own { key.now.table ≡ table.now.number }
        requires fits { key_fault table.now key.now.parts ≡ None }
        ensures ok { IfOk result (λ row. WhenRead table.now self.now.view self.now.writes
            (λ schema m. row
            ≡ option_map (full_row table.now) (row_at (rows_seen m self.now.writes) key.now))) }
        ensures err { OnlyMemory result }
    {
        self.staged.get(&self.view, table, key)
    }

    /// Returns what the transaction changes: what each key that it wrote has in the end, without
    /// those that are absent both then and in the view. The bytes of each key are with it.
    /// `Memory` where it runs out.
    pub fn net(&self) -> Mem<KeyedNet>
        ensures ok { IfOk result (λ net. (schema : Schema) (m : Changes)
            → Holds schema self.now.view m → AreKeysIn schema self.now.writes
            → net ≡ net_over m self.now.writes) }
        ensures keys { IfOk result (λ net. (schema : Schema)
            → AreKeysIn schema self.now.writes → AreKeysIn schema net) }
        ensures err { OnlyMemory result }
    {
        self.staged.net(&self.view)
    }
}
