//! The steps that statements ask for, or why they do not fit the schema.
ghost use Rattle.std.specs.Prelude.{◌≡◌, ◌≢◌, ◌==◌, ◌≤◌, length, IfOk, [], Err, true};
ghost use Rattle.std.specs.List.{list_any};
ghost use Rattle.values.specs.Tables.{widest};
ghost use Rattle.statement.specs.Meaning.{is_column_list, is_good_list, place_of, value_of, row_values, row_in, fitting_row, fitting_rows, fitting_step, insert_step, portion_step, update_step, delete_step, session_step, step_of, column_step};
ghost use Rattle.statement.specs.Memory.{UnlessMemory, is_insert};

use crate::literal::WrittenRows;
use crate::portion::Portion;
use crate::statement::{Columns, Statement};
use std::alloc::{AllocError, Global};
use steps::{MAX_SESSION, Step};
use values::{
    Chars, ColumnNumber, ColumnType, Instant, Keys, Mem, Refusal, Row, Rows, Schema, Sets, Table,
    Value, Values, fitting_rows_have_bytes,
};

/// Tells whether each name of a column list is a column's, and none is repeated. Columns are
/// numbered from 1; 0 stands for a name that no column has.
pub fn is_column_list(columns: &[ColumnNumber]) -> bool
    ensures { result ≡ is_column_list columns.now }
{
    for (i, column) in columns.iter().enumerate() {
        if *column == 0 || has_column(columns.split_at(i + 1).1, *column) {
            return false;
        }
    }
    true
}

fn has_column(columns: &[ColumnNumber], column: ColumnNumber) -> bool
    ensures { result ≡ list_any (λ other. other == column) columns.now }
{
    columns.iter().any(|other| *other == column)
}

/// Whether there is no column list, or a good one.
fn is_good_list(columns: &Option<Columns>) -> bool
    ensures { result ≡ is_good_list columns.now }
{
    match columns {
        None => true,
        Some(columns) => is_column_list(columns.items()),
    }
}

/// The value that a row gives a column; NULL where it gives none.
fn value_of(
    columns: &[ColumnNumber],
    values: &[Value],
    number: ColumnNumber,
) -> Result<Value, AllocError>
    ensures { IfOk result (λ value. value ≡ value_of columns.now values.now number) }
{
    match place_of(columns, number) {
        Some(i) => match values.get(i) {
            Some(value) => value.clone(),
            None => Ok(Value::Null),
        },
        None => Ok(Value::Null),
    }
}

/// Finds the place of a column in a column list, from 0, if it is there.
#[tactic(auto, unfolding(crate::specs::Meaning::place_of))]
pub fn place_of(columns: &[ColumnNumber], number: ColumnNumber) -> Option<usize>
    ensures { result ≡ place_of columns.now number }
{
    columns.iter().position(|column| *column == number)
}

/// A row's values in the table's order.
fn row_values(
    alloc: Global,
    table: &Table,
    columns: &[ColumnNumber],
    values: &[Value],
) -> Result<Vec<Value>, AllocError>
    ensures { IfOk result (λ row. row.items ≡ row_values table.now columns.now values.now) }
{
    let mut row = Vec::new(alloc);
    for (i, _column) in table.columns.items().iter().enumerate() {
        row.push(value_of(columns, values, i + 1)?)?;
    }
    Ok(row)
}

fn copy_of(alloc: Global, values: &[Value]) -> Result<Vec<Value>, AllocError>
    ensures { IfOk result (λ copy. copy.items ≡ values.now) }
{
    let mut copy = Vec::new(alloc);
    for value in values {
        copy.push(value.clone()?)?;
    }
    Ok(copy)
}

/// Makes a row of the table, whose values are in its order; `BadRow` with the column where they do
/// not fit it, and with 0 where they are too few or too many.
pub fn row_in(table: &Table, values: Vec<Value>) -> Result<Row, Refusal>
    requires some { 1 ≤ length table.now.columns }
    requires few { length table.now.columns ≤ widest }
    ensures { result ≡ row_in table.now values.items }
{
    if let Err(refusal) = table.check_row(values.as_slice()) {
        return Err(refusal);
    }
    fitting_rows_have_bytes();
    match Row::new(values) {
        Some(row) => Ok(row),
        None => unreachable!(),
    }
}

/// A row in the table's order, if it fits.
#[tactic(auto, unfolding(crate::specs::Meaning::fitting_row))]
fn fitting_row(
    alloc: Global,
    table: &Table,
    columns: &Option<Columns>,
    values: &[Value],
) -> Mem<Row>
    requires some { 1 ≤ length table.now.columns }
    requires few { length table.now.columns ≤ widest }
    ensures { UnlessMemory result (fitting_row table.now columns.now values.now) }
{
    match columns {
        None => row_in(table, copy_of(alloc, values)?),
        Some(columns) if columns.items().len() == values.len() => {
            row_in(table, row_values(alloc, table, columns.items(), values)?)
        }
        Some(_) => Err(Refusal::BadRow(0)),
    }
}

/// Rows in the table's order, or the refusal of the first that does not fit.
fn fitting_rows(
    alloc: Global,
    table: &Table,
    columns: &Option<Columns>,
    rows: &[Values],
) -> Mem<Rows>
    requires some { 1 ≤ length table.now.columns }
    requires few { length table.now.columns ≤ widest }
    ensures { UnlessMemory result (fitting_rows table.now columns.now [] rows.now) }
{
    let mut fit = Vec::new(alloc);
    for row in rows {
        match fitting_row(alloc, table, columns, row.items()) {
            Ok(row) => fit.push(row)?,
            Err(refusal) => return Err(refusal),
        }
    }
    Ok(Rows::new(fit))
}

/// Returns a step, if it fits the schema. It is compiled into its callers, where the step is made:
/// it is large, and need not be moved in and out.
#[inline(always)]
pub fn fitting_step(schema: &Schema, step: Step) -> Result<Step, Refusal>
    ensures is { result ≡ fitting_step schema.now step }
    ensures memory { result ≢ Err Refusal.Memory }
{
    match step.misfit(schema) {
        Some(refusal) => Err(refusal),
        None => Ok(step),
    }
}

/// An INSERT: its table, then its column list, then its rows, then the step.
#[tactic(auto, unfolding(crate::specs::Meaning::insert_step))]
fn insert_step(
    alloc: Global,
    schema: &Schema,
    session: u8,
    number: u8,
    columns: &Option<Columns>,
    rows: &WrittenRows,
) -> Mem<Step>
    ensures { UnlessMemory result (insert_step schema.now session number columns.now rows.now) }
{
    let Some(table) = schema.table_at(number) else {
        return Err(Refusal::NoTable);
    };
    if !is_good_list(columns) {
        return Err(Refusal::BadRow(0));
    }
    match fitting_rows(alloc, table, columns, rows.items()) {
        Ok(rows) => fitting_step(schema, Step::Insert(session, number, rows)),
        Err(refusal) => Err(refusal),
    }
}

/// A step on a portion: its table, then whether the table has its period, then the step.
#[tactic(auto, unfolding(crate::specs::Meaning::portion_step))]
fn portion_step(schema: &Schema, number: u8, of_period: bool, step: Step) -> Result<Step, Refusal>
    ensures is { result ≡ portion_step schema.now number of_period step }
    ensures memory { result ≢ Err Refusal.Memory }
{
    if schema.table_at(number).is_none() {
        return Err(Refusal::NoTable);
    }
    if !of_period {
        return Err(Refusal::BadRow(0));
    }
    fitting_step(schema, step)
}

/// An UPDATE of a portion, or of rows as they are.
fn update_step(
    schema: &Schema,
    session: u8,
    keys: Keys,
    portion: Option<Portion>,
    sets: Sets,
) -> Result<Step, Refusal>
    ensures is { result ≡ update_step schema.now session keys portion sets }
    ensures memory { result ≢ Err Refusal.Memory }
{
    let Some(portion) = portion else {
        return fitting_step(schema, Step::Update(session, keys, sets));
    };
    let number = keys.table;
    let step = Step::UpdatePortion(session, keys, portion.span, sets);
    portion_step(schema, number, portion.of_period, step)
}

/// The same of a DELETE.
fn delete_step(
    schema: &Schema,
    session: u8,
    keys: Keys,
    portion: Option<Portion>,
) -> Result<Step, Refusal>
    ensures is { result ≡ delete_step schema.now session keys portion }
    ensures memory { result ≢ Err Refusal.Memory }
{
    let Some(portion) = portion else {
        return fitting_step(schema, Step::Delete(session, keys));
    };
    let number = keys.table;
    let step = Step::DeletePortion(session, keys, portion.span);
    portion_step(schema, number, portion.of_period, step)
}

/// The step of a session that there is.
#[tactic(auto, unfolding(crate::specs::Meaning::session_step))]
fn session_step(
    alloc: Global,
    schema: &Schema,
    reading: Instant,
    session: u8,
    statement: Statement,
) -> Mem<Step>
    ensures unless { UnlessMemory result (session_step schema.now reading session statement) }
    ensures memory { result ≡ Err Refusal.Memory → is_insert statement ≡ true }
{
    match statement {
        Statement::Insert(table, columns, rows) => {
            insert_step(alloc, schema, session, table, &columns, &rows)
        }
        Statement::Update(keys, portion, sets) => {
            update_step(schema, session, keys, portion, sets)
        }
        Statement::Delete(keys, portion) => delete_step(schema, session, keys, portion),
        Statement::Select(form, keys) => fitting_step(schema, Step::Select(session, form, keys)),
        Statement::Begin => fitting_step(schema, Step::Begin(session)),
        Statement::Commit => fitting_step(schema, Step::Commit(session, reading)),
        Statement::Rollback => fitting_step(schema, Step::Rollback(session)),
    }
}

/// Returns the step of a statement, or why it does not fit: its session's number, then its table,
/// then the name of its period, then the first column at fault.
#[tactic(auto, unfolding(crate::specs::Meaning::step_of))]
pub fn step_of(
    alloc: Global,
    schema: &Schema,
    reading: Instant,
    session: u64,
    statement: Statement,
) -> Mem<Step>
    ensures unless { UnlessMemory result (step_of schema.now reading session statement) }
    ensures memory { result ≡ Err Refusal.Memory → is_insert statement ≡ true }
{
    if session == 0 || session > u64::from(MAX_SESSION) {
        return Err(Refusal::NoSession);
    }
    session_step(alloc, schema, reading, session as u8, statement)
}

/// Returns the step that adds a column to a table, or why it does not fit: its session's number,
/// then its table, then the column. It takes no memory.
#[tactic(auto, unfolding(crate::specs::Meaning::column_step))]
pub fn column_step(
    schema: &Schema,
    session: u64,
    table: u8,
    name: Chars,
    of: ColumnType,
) -> Result<Step, Refusal>
    ensures is { result ≡ column_step schema.now session table name of }
    ensures memory { result ≢ Err Refusal.Memory }
{
    if session == 0 || session > u64::from(MAX_SESSION) {
        return Err(Refusal::NoSession);
    }
    fitting_step(schema, Step::AddColumn(session as u8, table, name, of))
}
