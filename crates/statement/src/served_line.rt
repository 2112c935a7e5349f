//! Lines that a session sends.
ghost use Rattle.std.specs.Prelude.{◌≡◌, IsTrue, true, Err};
ghost use Rattle.tokens.specs.Token.{Makes};
ghost use Rattle.statement.specs.Memory.{UnlessMemory, can_run_out, inserts, serves_values, serving_takes_memory};
ghost use Rattle.statement.specs.ServedLine.{served_at, served_body_says, served_line_says};

use crate::alteration::request_at;
use crate::line::{Line, Written, before_feed, body_of, is_nothing, meaning_of, migrate_at};
use crate::split::split_at;
use crate::token::Blanks;
use lines::LONGEST_LINE;
use std::alloc::Global;
use tokens::{Made, Separators, Stop, word_here};
use values::{Instant, Refusal, Schema};

/// A line that a session sends, by its first word; a statement is that session's.
#[tactic(auto, unfolding(crate::specs::ServedLine::served_at, tokens::specs::Word::word_at, tokens::specs::Word::is_word_at, tokens::specs::Word::after_word))]
fn served_at<'a>(alloc: Global, schema: &Schema, session: u8, bytes: &'a [u8]) -> Made<'a, Written>
    ensures makes { Makes result (served_at schema.now session bytes.now) }
    ensures memory { IsTrue (can_run_out inserts result) → serves_values bytes.now ≡ true }
{
    let at = Blanks::next(bytes);
    if let Ok(rest) = word_here(b"SPLIT", at) {
        return split_at(alloc, schema, rest);
    }
    if let Ok(rest) = word_here(b"MIGRATE", at) {
        return Ok(migrate_at(rest)?);
    }
    request_at(alloc, schema, u64::from(session), bytes)
}

#[tactic(auto, unfolding(crate::specs::ServedLine::served_body_says))]
fn served_body_says(
    alloc: Global,
    bytes: &[u8],
    schema: &Schema,
    session: u8,
    reading: Instant,
) -> Result<Line, Refusal>
    ensures unless { UnlessMemory result (served_body_says schema.now session reading bytes.now) }
    ensures memory { result ≡ Err Refusal.Memory → serves_values bytes.now ≡ true }
{
    if is_nothing(Blanks::next(bytes)) {
        return Ok(Line::Nothing);
    }
    match served_at(alloc, schema, session, bytes) {
        Ok((written, _end)) => meaning_of(alloc, schema, reading, written),
        Err(Stop::At(at)) => Err(Refusal::Syntax(bytes.len().saturating_sub(at.len()))),
        Err(Stop::Memory) => Err(Refusal::Memory),
    }
}

/// Reads a line that a session sends: a statement, which is that session's, or a SPLIT or MIGRATE
/// line. It is a line of a script without the session's number. A COMMIT takes the reading of the
/// clock.
///
/// Where memory runs out that is the answer, before any refusal that is not yet reached.
#[tactic(auto, unfolding(crate::specs::ServedLine::served_line_says))]
pub fn read_served(
    alloc: Global,
    line: &[u8],
    schema: &Schema,
    session: u8,
    reading: Instant,
) -> Result<Line, Refusal>
    ensures unless { UnlessMemory result (served_line_says schema.now session reading line.now) }
    ensures memory { result ≡ Err Refusal.Memory → serving_takes_memory line.now ≡ true }
{
    if before_feed(line).len() > LONGEST_LINE {
        return Err(Refusal::LineTooLong);
    }
    served_body_says(alloc, body_of(line), schema, session, reading)
}
