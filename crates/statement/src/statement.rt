//! Statements, by their first word.
ghost use Rattle.std.specs.Prelude.{◌≡◌, IsTrue, IfOk, true, false};
ghost use Rattle.tokens.specs.Token.{Gives, Makes};
ghost use Rattle.statement.specs.Memory.{can_run_out, is_insert, is_on_rows};
ghost use Rattle.statement.specs.Statement.{instant_at, as_of_at, from_to_at, between_at, selection_at, system_time_at, form_at, start_at, listed_at, insert_at, update_at, delete_at, select_at, data_at, statement_at};

use crate::condition::{columns_at, keys_at, sets_at, table_name_at};
use crate::literal::{WrittenRows, digits_at, rows_at};
use crate::portion::{Portion, portion_at};
use crate::token::{Blanks, after_optional_word};
use std::alloc::Global;
use tokens::{Made, Read, Separators, symbol_at, word_at, word_here};
use values::{ColumnNumber, Form, Instant, Keys, MAX_INSTANT, Schema, Sequence, Sets};

/// A column list, in its order.
pub type Columns = Sequence<ColumnNumber>;

/// A statement as it is written. The names of tables and columns are their numbers, or 0 where
/// there is none.
#[derive(Drop)]
pub enum Statement {
    Begin,
    /// A table, the columns that its list names where there is one, and rows whose values are in
    /// the list's order or else in the table's.
    Insert(u8, Option<Columns>, WrittenRows),
    /// Keys, the portion that FOR PORTION OF names where there is one, and new values.
    Update(Keys, Option<Portion>, Sets),
    /// Keys, and such a portion.
    Delete(Keys, Option<Portion>),
    Select(Form, Keys),
    Commit,
    Rollback,
}

/// Reads an instant, or 0.
#[tactic(auto, unfolding(crate::specs::Statement::instant_at))]
pub fn instant_at(bytes: &[u8]) -> Read<'_, Instant>
    ensures { Gives result (instant_at bytes.now) }
{
    digits_at(MAX_INSTANT, bytes)
}

/// Which versions a SELECT asks for.
#[tactic(auto, unfolding(crate::specs::Statement::form_at))]
fn form_at(bytes: &[u8]) -> Read<'_, Form>
    ensures { Gives result (form_at bytes.now) }
{
    match word_at::<Blanks>(b"FOR", bytes) {
        Ok(rest) => system_time_at(rest),
        Err(_) => Ok((Form::Plain, bytes)),
    }
}

#[tactic(auto, unfolding(crate::specs::Statement::system_time_at))]
fn system_time_at(bytes: &[u8]) -> Read<'_, Form>
    ensures { Gives result (system_time_at bytes.now) }
{
    let rest = word_at::<Blanks>(b"SYSTEM_TIME", bytes)?;
    selection_at(rest)
}

/// An instant or a period, by the word after SYSTEM_TIME.
#[tactic(auto, unfolding(crate::specs::Statement::selection_at))]
fn selection_at(bytes: &[u8]) -> Read<'_, Form>
    ensures { Gives result (selection_at bytes.now) }
{
    if let Ok(rest) = word_at::<Blanks>(b"AS", bytes) {
        return as_of_at(rest);
    }
    if let Ok(rest) = word_at::<Blanks>(b"FROM", bytes) {
        return from_to_at(rest);
    }
    let rest = word_at::<Blanks>(b"BETWEEN", bytes)?;
    between_at(rest)
}

#[tactic(auto, unfolding(crate::specs::Statement::as_of_at))]
fn as_of_at(bytes: &[u8]) -> Read<'_, Form>
    ensures { Gives result (as_of_at bytes.now) }
{
    let rest = word_at::<Blanks>(b"OF", bytes)?;
    let (instant, rest) = instant_at(rest)?;
    Ok((Form::AsOf(instant), rest))
}

/// From an instant up to another, which is left out.
#[tactic(auto, unfolding(crate::specs::Statement::period_at))]
fn from_to_at(bytes: &[u8]) -> Read<'_, Form>
    ensures { Gives result (from_to_at bytes.now) }
{
    let (start, rest) = instant_at(bytes)?;
    let rest = word_at::<Blanks>(b"TO", rest)?;
    let (end, rest) = instant_at(rest)?;
    Ok((Form::FromTo(start, end), rest))
}

/// From an instant up to another, which is of the period.
#[tactic(auto, unfolding(crate::specs::Statement::period_at))]
fn between_at(bytes: &[u8]) -> Read<'_, Form>
    ensures { Gives result (between_at bytes.now) }
{
    let (start, rest) = instant_at(bytes)?;
    let rest = word_at::<Blanks>(b"AND", rest)?;
    let (end, rest) = instant_at(rest)?;
    Ok((Form::Between(start, end), rest))
}

/// A column list, where there is one.
#[tactic(auto, unfolding(crate::specs::Statement::listed_at))]
fn listed_at<'a>(
    alloc: Global,
    schema: &Schema,
    table: u8,
    bytes: &'a [u8],
) -> Made<'a, Option<Columns>>
    ensures { Makes result (listed_at schema.now table bytes.now) }
{
    if symbol_at::<Blanks>(b'(', bytes).is_err() {
        return Ok((None, bytes));
    }
    let (columns, rest) = columns_at(alloc, schema, table, bytes)?;
    Ok((Some(columns), rest))
}

#[tactic(auto, unfolding(crate::specs::Statement::insert_at))]
fn insert_at<'a>(alloc: Global, schema: &Schema, bytes: &'a [u8]) -> Made<'a, Statement>
    ensures { Makes result (insert_at schema.now bytes.now) }
{
    let rest = word_at::<Blanks>(b"INTO", bytes)?;
    let (table, rest) = table_name_at(schema, rest)?;
    let (columns, rest) = listed_at(alloc, schema, table, rest)?;
    let rest = word_at::<Blanks>(b"VALUES", rest)?;
    let (rows, rest) = rows_at(alloc, rest)?;
    Ok((Statement::Insert(table, columns, rows), rest))
}

#[tactic(auto, unfolding(crate::specs::Statement::update_at))]
fn update_at<'a>(alloc: Global, schema: &Schema, bytes: &'a [u8]) -> Made<'a, Statement>
    ensures { Makes result (update_at schema.now bytes.now) }
{
    let (table, rest) = table_name_at(schema, bytes)?;
    let (portion, rest) = portion_at(schema, table, rest)?;
    let rest = word_at::<Blanks>(b"SET", rest)?;
    let (sets, rest) = sets_at(alloc, schema, table, rest)?;
    let (keys, rest) = keys_at(alloc, schema, table, rest)?;
    Ok((Statement::Update(keys, portion, sets), rest))
}

#[tactic(auto, unfolding(crate::specs::Statement::delete_at))]
fn delete_at<'a>(alloc: Global, schema: &Schema, bytes: &'a [u8]) -> Made<'a, Statement>
    ensures { Makes result (delete_at schema.now bytes.now) }
{
    let rest = word_at::<Blanks>(b"FROM", bytes)?;
    let (table, rest) = table_name_at(schema, rest)?;
    let (portion, rest) = portion_at(schema, table, rest)?;
    let (keys, rest) = keys_at(alloc, schema, table, rest)?;
    Ok((Statement::Delete(keys, portion), rest))
}

#[tactic(auto, unfolding(crate::specs::Statement::select_at))]
fn select_at<'a>(alloc: Global, schema: &Schema, bytes: &'a [u8]) -> Made<'a, Statement>
    ensures { Makes result (select_at schema.now bytes.now) }
{
    let rest = symbol_at::<Blanks>(b'*', bytes)?;
    let rest = word_at::<Blanks>(b"FROM", rest)?;
    let (table, rest) = table_name_at(schema, rest)?;
    let (form, rest) = form_at(rest)?;
    let (keys, rest) = keys_at(alloc, schema, table, rest)?;
    Ok((Statement::Select(form, keys), rest))
}

/// A statement on rows, by its first word.
#[tactic(auto, unfolding(crate::specs::Statement::data_at, tokens::specs::Word::word_at, tokens::specs::Word::is_word_at, tokens::specs::Word::after_word))]
fn data_at<'a>(alloc: Global, schema: &Schema, bytes: &'a [u8]) -> Made<'a, Statement>
    ensures makes { Makes result (data_at schema.now bytes.now) }
    ensures memory { IsTrue (can_run_out is_insert result) → is_on_rows bytes.now ≡ true }
{
    let at = Blanks::next(bytes);
    if let Ok(rest) = word_here(b"INSERT", at) {
        return insert_at(alloc, schema, rest);
    }
    if let Ok(rest) = word_here(b"UPDATE", at) {
        return update_at(alloc, schema, rest);
    }
    if let Ok(rest) = word_here(b"DELETE", at) {
        return delete_at(alloc, schema, rest);
    }
    let rest = word_here(b"SELECT", at)?;
    select_at(alloc, schema, rest)
}

/// The second word of START TRANSACTION.
#[tactic(auto, unfolding(crate::specs::Statement::start_at))]
fn start_at(bytes: &[u8]) -> Read<'_, Statement>
    ensures gives { Gives result (start_at bytes.now) }
    ensures begins { IfOk result (λ x. is_insert x.0 ≡ false) }
{
    let rest = word_at::<Blanks>(b"TRANSACTION", bytes)?;
    Ok((Statement::Begin, rest))
}

/// Reads any statement, by its first word.
#[tactic(auto, unfolding(crate::specs::Statement::statement_at, tokens::specs::Word::word_at, tokens::specs::Word::is_word_at, tokens::specs::Word::after_word))]
pub fn statement_at<'a>(alloc: Global, schema: &Schema, bytes: &'a [u8]) -> Made<'a, Statement>
    ensures makes { Makes result (statement_at schema.now bytes.now) }
    ensures memory { IsTrue (can_run_out is_insert result) → is_on_rows bytes.now ≡ true }
{
    let at = Blanks::next(bytes);
    if let Ok(rest) = word_here(b"BEGIN", at) {
        return Ok((Statement::Begin, rest));
    }
    if let Ok(rest) = word_here(b"START", at) {
        return Ok(start_at(rest)?);
    }
    if let Ok(rest) = word_here(b"COMMIT", at) {
        return Ok((Statement::Commit, after_optional_word(b"WORK", rest)));
    }
    if let Ok(rest) = word_here(b"ROLLBACK", at) {
        return Ok((Statement::Rollback, after_optional_word(b"WORK", rest)));
    }
    data_at(alloc, schema, bytes)
}
