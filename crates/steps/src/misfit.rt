//! Why a step does not fit a schema: a statement is looked at here once.
ghost use Rattle.std.specs.Prelude.{◌≡◌, ◌≢◌, ℕ, Option, IfOk, IfErr, IfSome, None, Some};
ghost use Rattle.values.specs.declared.table.Table.{Table};
ghost use Rattle.values.specs.Columns.{addition_fault};
ghost use Rattle.values.specs.Faults.{bad_row};
ghost use Rattle.values.specs.Tables.{table_at};
ghost use Rattle.values.specs.TableRules.{IsTable};
ghost use Rattle.values.specs.Fitting.{table_of};
ghost use Rattle.steps.specs.Misfit.{misfit, misfit_of, key_misfit, no_session, keys_refusal};
ghost use Rattle.steps.specs.StepOf.{step_of};

use crate::step::{MAX_SESSION, Step};
use values::{ColumnType, FittingKeys, FittingWrite, Key, Keys, Refusal, Schema, Table, Write};

impl Step {
    /// Returns why a step does not fit the schema: its session's number, then its table, then the
    /// first column at fault, then a period or a portion that has no start below its end. It is never
    /// that memory ran out.
    pub fn misfit(&self, schema: &Schema) -> Option<Refusal>
        ensures why { result ≡ misfit schema.now self.now }
        ensures memory { IfSome result (λ refusal. refusal ≢ Refusal.Memory) }
    {
        match self {
            Step::Begin(session) => no_session(*session),
            Step::Commit(session, _) => no_session(*session),
            Step::Rollback(session) => no_session(*session),
            Step::Insert(session, table, rows) => {
                write_misfit(schema, *session, Write::Insert(*table, rows.items()))
            }
            Step::Update(session, keys, sets) => {
                write_misfit(schema, *session, Write::Update(keys, sets.items()))
            }
            Step::Delete(session, keys) => write_misfit(schema, *session, Write::Delete(keys)),
            Step::UpdatePortion(session, keys, span, sets) => {
                write_misfit(
                    schema,
                    *session,
                    Write::UpdatePortion(keys, *span, sets.items()),
                )
            }
            Step::DeletePortion(session, keys, span) => {
                write_misfit(schema, *session, Write::DeletePortion(keys, *span))
            }
            Step::Select(session, _, keys) => keys_misfit(schema, *session, keys),
            Step::AddColumn(session, table, name, of) => {
                column_misfit(schema, *session, *table, name.text().as_bytes(), *of)
            }
            Step::SplitKey(key) => key_misfit(schema, key),
            Step::SplitTime(key, _) => key_misfit(schema, key),
            Step::Migrate => None,
        }
    }
}

/// Refuses a session that there is not: its number is above 64.
pub fn no_session(session: u8) -> Option<Refusal>
    ensures { result ≡ no_session session }
{
    if session > MAX_SESSION {
        Some(Refusal::NoSession)
    } else {
        None
    }
}

/// Checks what a session writes: its number, then the table, then the first column at fault, rows
/// in their order and new values before comparisons, then its spans of application time.
pub fn fit_write<'a>(
    schema: &'a Schema,
    session: u8,
    write: Write<'a>,
) -> Result<FittingWrite<'a>, Refusal>
    ensures table { IfOk result (λ f. table_at schema.now (table_of write.entry) ≡ Some f.table.now) }
    ensures write { IfOk result (λ f. f.write ≡ write.entry) }
    ensures fits { IfOk result (λ _. misfit schema.now (step_of session write.entry) ≡ None) }
    ensures refused { IfErr result (λ e.
        misfit schema.now (step_of session write.entry) ≡ Some e) }
    ensures memory { IfErr result (λ e. e ≢ Refusal.Memory) }
{
    match session_table(schema, session, write.table()) {
        Ok(table) => table.fit_write(write),
        Err(refusal) => Err(refusal),
    }
}

/// Checks the keys that a session asks for: its number, then the table, then the first comparison
/// at fault.
pub fn fit_keys<'a>(
    schema: &'a Schema,
    session: u8,
    keys: &'a Keys,
) -> Result<FittingKeys<'a>, Refusal>
    ensures table { IfOk result (λ f. table_at schema.now keys.now.table ≡ Some f.table.now) }
    ensures keys { IfOk result (λ f. f.keys.now ≡ keys.now) }
    ensures fits { IfOk result (λ _.
        misfit_of schema.now session keys.now.table (keys_refusal keys.now) ≡ None) }
    ensures refused { IfErr result (λ e.
        misfit_of schema.now session keys.now.table (keys_refusal keys.now) ≡ Some e) }
    ensures memory { IfErr result (λ e. e ≢ Refusal.Memory) }
{
    match session_table(schema, session, keys.table) {
        Ok(table) => table.fit_keys(keys),
        Err(refusal) => Err(refusal),
    }
}

/// Returns why a key does not fit: the table, then the first column at fault.
pub fn key_misfit(schema: &Schema, key: &Key) -> Option<Refusal>
    ensures { result ≡ key_misfit schema.now key.now }
{
    match session_table(schema, 0, key.table) {
        Ok(table) => table.check_key(key.parts.items()).err(),
        Err(refusal) => Some(refusal),
    }
}

/// Returns why a table that a session names cannot get a column: the session, the table, the
/// column.
fn column_misfit(
    schema: &Schema,
    session: u8,
    table: u8,
    name: &[u8],
    of: ColumnType,
) -> Option<Refusal>
    ensures why { result ≡ misfit_of schema.now session table (λ t. bad_row (addition_fault name.now of t)) }
    ensures memory { IfSome result (λ refusal. refusal ≢ Refusal.Memory) }
{
    match session_table(schema, session, table) {
        Ok(table) => table.check_column(name, of).err(),
        Err(refusal) => Some(refusal),
    }
}

fn write_misfit(schema: &Schema, session: u8, write: Write<'_>) -> Option<Refusal>
    ensures why { result ≡ misfit schema.now (step_of session write.entry) }
    ensures memory { IfSome result (λ refusal. refusal ≢ Refusal.Memory) }
{
    match fit_write(schema, session, write) {
        Ok(_) => None,
        Err(refusal) => Some(refusal),
    }
}

fn keys_misfit(schema: &Schema, session: u8, keys: &Keys) -> Option<Refusal>
    ensures why { result ≡ misfit_of schema.now session keys.now.table (keys_refusal keys.now) }
    ensures memory { IfSome result (λ refusal. refusal ≢ Refusal.Memory) }
{
    match fit_keys(schema, session, keys) {
        Ok(_) => None,
        Err(refusal) => Some(refusal),
    }
}

/// Returns the table that a session names by its number, or why there is none for it.
fn session_table(schema: &Schema, session: u8, number: u8) -> Result<&Table, Refusal>
    ensures session { IfOk result (λ t. no_session session ≡ None) }
    ensures found { IfOk result (λ t. table_at schema.now number ≡ Some t.now) }
    ensures good { IfOk result (λ t. IsTable number t.now) }
    ensures refused { IfErr result (λ e. (refusal : Table → Option Refusal) →
        misfit_of schema.now session number refusal ≡ Some e) }
    ensures memory { IfErr result (λ e. e ≢ Refusal.Memory) }
{
    if let Some(refusal) = no_session(session) {
        return Err(refusal);
    }
    match schema.table_at(number) {
        Some(table) => Ok(table),
        None => Err(Refusal::NoTable),
    }
}
