//! ALTER TABLE, and the statements beside it, that a session asks on a line of a script.
ghost use Rattle.std.specs.Prelude.{◌≡◌, IsTrue, IfOk, true, false};
ghost use Rattle.tokens.specs.Token.{Makes};
ghost use Rattle.statement.specs.Memory.{can_run_out, inserts, is_on_rows, asks_by_name};
ghost use Rattle.statement.specs.Alteration.{alter_at, request_at, asked_at};

use crate::condition::table_name_at;
use crate::line::Written;
use crate::statement::statement_at;
use crate::token::{Blanks, after_semicolon, end_at};
use std::alloc::Global;
use tokens::{Made, kept_name_at, type_at, word_at};
use values::Schema;

/// A column that a table gets, after the word ALTER.
#[tactic(auto, unfolding(crate::specs::Alteration::alter_at))]
fn alter_at<'a>(alloc: Global, schema: &Schema, session: u64, bytes: &'a [u8]) -> Made<'a, Written>
    ensures makes { Makes result (alter_at schema.now session bytes.now) }
    ensures read { IfOk result (λ x. inserts x.0 ≡ false) }
{
    let rest = word_at::<Blanks>(b"TABLE", bytes)?;
    let (table, rest) = table_name_at(schema, rest)?;
    let rest = word_at::<Blanks>(b"ADD", rest)?;
    let rest = word_at::<Blanks>(b"COLUMN", rest)?;
    let (name, rest) = kept_name_at::<Blanks>(alloc, rest)?;
    let (of, rest) = type_at::<Blanks>(rest)?;
    let rest = end_at(after_semicolon(rest))?;
    Ok((Written::AddColumn(session, table, name, of), rest))
}

/// Reads a session's statement, up to the line's end.
#[tactic(auto, unfolding(crate::specs::Alteration::request_at))]
pub fn request_at<'a>(
    alloc: Global,
    schema: &Schema,
    session: u64,
    bytes: &'a [u8],
) -> Made<'a, Written>
    ensures makes { Makes result (request_at schema.now session bytes.now) }
    ensures memory { IsTrue (can_run_out inserts result) → is_on_rows bytes.now ≡ true }
{
    let (statement, rest) = statement_at(alloc, schema, bytes)?;
    let rest = end_at(after_semicolon(rest))?;
    Ok((Written::Session(session, statement), rest))
}

/// Reads what a session asks on a line of a script, up to the line's end.
#[tactic(auto, unfolding(crate::specs::Alteration::asked_at))]
pub fn asked_at<'a>(
    alloc: Global,
    schema: &Schema,
    session: u64,
    bytes: &'a [u8],
) -> Made<'a, Written>
    ensures makes { Makes result (asked_at schema.now session bytes.now) }
    ensures memory { IsTrue (can_run_out inserts result) → asks_by_name bytes.now ≡ true }
{
    if let Ok(rest) = word_at::<Blanks>(b"ALTER", bytes) {
        return alter_at(alloc, schema, session, rest);
    }
    request_at(alloc, schema, session, bytes)
}
