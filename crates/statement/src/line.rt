//! Lines of a script.
ghost use Rattle.std.specs.Prelude.{◌≡◌, IsTrue, IfOk, true, false, Err};
ghost use Rattle.tokens.specs.Token.{Makes, Gives};
ghost use Rattle.statement.specs.Memory.{UnlessMemory, can_run_out, inserts, asks_for_rows, asks_to_split, asks_for_values, takes_memory};
ghost use Rattle.statement.specs.Line.{without_last, before_feed, body_of, is_nothing, begins_digit, clock_at, migrate_at, session_at, service_at, written_at, line_of, meaning_of, body_says, line_says};

use crate::alteration::asked_at;
use crate::literal::digits_at;
use crate::meaning::{column_step, fitting_step, step_of};
use crate::split::split_at;
use crate::statement::{Statement, instant_at};
use crate::token::{Blanks, end_at};
use lines::LONGEST_LINE;
use std::alloc::Global;
use steps::Step;
use tokens::{Made, Read, Separators, Stop, symbol_at, word_at, word_here};
use values::{Chars, ColumnType, Instant, Key, MAX_INT, Refusal, Schema};

/// What a line of a script says.
#[derive(Drop)]
pub enum Line {
    /// A blank line or a comment.
    Nothing,
    /// The clock's reading from now on.
    Clock(Instant),
    Step(Step),
}

/// A line as it is written.
#[derive(Drop)]
pub enum Written {
    Clock(Instant),
    /// A split at a key, whose table is 0 where there is none.
    SplitKey(Key),
    /// A split in time, of the node at such a key.
    SplitTime(Key, Instant),
    Migrate,
    /// A session's number, which is of the grammar even where there is no such session, and its
    /// statement.
    Session(u64, Statement),
    /// A session's number, a table or 0 where there is none, and the name and type of the column
    /// that it gets.
    AddColumn(u64, u8, Chars, ColumnType),
}

/// The bytes without the last, where that is this one.
fn without_last(byte: u8, bytes: &[u8]) -> &[u8]
    ensures { result.now ≡ without_last byte bytes.now }
{
    match bytes {
        [front @ .., last] if *last == byte => front,
        _ => bytes,
    }
}

/// Returns a line without its line feed.
pub(crate) fn before_feed(line: &[u8]) -> &[u8]
    ensures { result.now ≡ before_feed line.now }
{
    without_last(b'\n', line)
}

/// Returns the bytes of a line's tokens. A carriage return is dropped where a line feed follows it,
/// and stays in a last line without one.
pub(crate) fn body_of(line: &[u8]) -> &[u8]
    ensures { result.now ≡ body_of line.now }
{
    let front = before_feed(line);
    if front.len() == line.len() {
        line
    } else {
        without_last(b'\r', front)
    }
}

/// Tells whether a line is, at its first token, blank or a comment.
pub(crate) fn is_nothing(at: &[u8]) -> bool
    ensures { result ≡ is_nothing at.now }
{
    match at {
        [] => true,
        [a, b, ..] => *a == b'-' && *b == b'-',
        _ => false,
    }
}

fn begins_digit(at: &[u8]) -> bool
    ensures { result ≡ begins_digit at.now }
{
    match at {
        [byte, ..] => byte.is_ascii_digit(),
        [] => false,
    }
}

#[tactic(auto, unfolding(crate::specs::Line::clock_at))]
fn clock_at(bytes: &[u8]) -> Read<'_, Written>
    ensures gives { Gives result (clock_at bytes.now) }
    ensures sets { IfOk result (λ x. inserts x.0 ≡ false) }
{
    let rest = word_at::<Blanks>(b"CLOCK", bytes)?;
    let rest = symbol_at::<Blanks>(b':', rest)?;
    let (instant, rest) = instant_at(rest)?;
    let rest = end_at(rest)?;
    Ok((Written::Clock(instant), rest))
}

/// Reads a MIGRATE line.
#[tactic(auto, unfolding(crate::specs::Line::migrate_at))]
pub(crate) fn migrate_at(bytes: &[u8]) -> Read<'_, Written>
    ensures gives { Gives result (migrate_at bytes.now) }
    ensures migrates { IfOk result (λ x. inserts x.0 ≡ false) }
{
    let rest = symbol_at::<Blanks>(b':', bytes)?;
    let rest = end_at(rest)?;
    Ok((Written::Migrate, rest))
}

/// A line of no session, by its first word.
#[tactic(auto, unfolding(crate::specs::Line::service_at, tokens::specs::Word::word_at, tokens::specs::Word::is_word_at, tokens::specs::Word::after_word))]
fn service_at<'a>(alloc: Global, schema: &Schema, bytes: &'a [u8]) -> Made<'a, Written>
    ensures makes { Makes result (service_at schema.now bytes.now) }
    ensures memory { IsTrue (can_run_out inserts result) → asks_to_split bytes.now ≡ true }
{
    let at = Blanks::next(bytes);
    if let Ok(rest) = word_here(b"SPLIT", at) {
        return split_at(alloc, schema, rest);
    }
    if let Ok(rest) = word_here(b"MIGRATE", at) {
        return Ok(migrate_at(rest)?);
    }
    Ok(clock_at(bytes)?)
}

#[tactic(auto, unfolding(crate::specs::Line::session_at))]
fn session_at<'a>(alloc: Global, schema: &Schema, bytes: &'a [u8]) -> Made<'a, Written>
    ensures makes { Makes result (session_at schema.now bytes.now) }
    ensures memory { IsTrue (can_run_out inserts result) → asks_for_rows bytes.now ≡ true }
{
    let (session, rest) = digits_at(MAX_INT, bytes)?;
    let rest = symbol_at::<Blanks>(b':', rest)?;
    asked_at(alloc, schema, session, rest)
}

#[tactic(auto, unfolding(crate::specs::Line::written_at))]
fn written_at<'a>(alloc: Global, schema: &Schema, bytes: &'a [u8]) -> Made<'a, Written>
    ensures makes { Makes result (written_at schema.now bytes.now) }
    ensures memory { IsTrue (can_run_out inserts result) → asks_for_values bytes.now ≡ true }
{
    if begins_digit(Blanks::next(bytes)) {
        session_at(alloc, schema, bytes)
    } else {
        service_at(alloc, schema, bytes)
    }
}

/// A line that asks for a step, or why the step does not fit.
fn line_of(step: Result<Step, Refusal>) -> Result<Line, Refusal>
    ensures { result ≡ line_of step }
{
    match step {
        Ok(step) => Ok(Line::Step(step)),
        Err(refusal) => Err(refusal),
    }
}

/// Returns the step of what is written, or why it does not fit the schema. It is compiled into its
/// two callers: what is written is large, and need not be moved in and out.
#[inline(always)]
#[tactic(auto, unfolding(crate::specs::Line::meaning_of))]
pub(crate) fn meaning_of(
    alloc: Global,
    schema: &Schema,
    reading: Instant,
    written: Written,
) -> Result<Line, Refusal>
    ensures unless { UnlessMemory result (meaning_of schema.now reading written) }
    ensures memory { result ≡ Err Refusal.Memory → inserts written ≡ true }
{
    match written {
        Written::Clock(instant) => Ok(Line::Clock(instant)),
        Written::SplitKey(key) => line_of(fitting_step(schema, Step::SplitKey(key))),
        Written::SplitTime(key, instant) => {
            line_of(fitting_step(schema, Step::SplitTime(key, instant)))
        }
        Written::Migrate => Ok(Line::Step(Step::Migrate)),
        Written::Session(session, statement) => {
            line_of(step_of(alloc, schema, reading, session, statement))
        }
        Written::AddColumn(session, table, name, of) => {
            line_of(column_step(schema, session, table, name, of))
        }
    }
}

#[tactic(auto, unfolding(crate::specs::Line::body_says))]
fn body_says(
    alloc: Global,
    bytes: &[u8],
    schema: &Schema,
    reading: Instant,
) -> Result<Line, Refusal>
    ensures unless { UnlessMemory result (body_says schema.now reading bytes.now) }
    ensures memory { result ≡ Err Refusal.Memory → asks_for_values bytes.now ≡ true }
{
    if is_nothing(Blanks::next(bytes)) {
        return Ok(Line::Nothing);
    }
    match written_at(alloc, schema, bytes) {
        Ok((written, _end)) => meaning_of(alloc, schema, reading, written),
        Err(Stop::At(at)) => Err(Refusal::Syntax(bytes.len().saturating_sub(at.len()))),
        Err(Stop::Memory) => Err(Refusal::Memory),
    }
}

/// Reads a line of a script, which ends with its line feed or, as a last line may, without one. A
/// COMMIT takes the reading of the clock.
///
/// Where memory runs out that is the answer, before any refusal that is not yet reached.
#[tactic(auto, unfolding(crate::specs::Line::line_says))]
pub fn read_line(
    alloc: Global,
    line: &[u8],
    schema: &Schema,
    reading: Instant,
) -> Result<Line, Refusal>
    ensures unless { UnlessMemory result (line_says schema.now reading line.now) }
    ensures memory { result ≡ Err Refusal.Memory → takes_memory line.now ≡ true }
{
    if before_feed(line).len() > LONGEST_LINE {
        return Err(Refusal::LineTooLong);
    }
    body_says(alloc, body_of(line), schema, reading)
}
