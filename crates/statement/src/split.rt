//! Lines that split the node at a key.
ghost use Rattle.std.specs.Prelude.{◌≡◌, IsTrue, IfOk, true, false};
ghost use Rattle.std.specs.Result.{is_ok};
ghost use Rattle.tokens.specs.Token.{Makes};
ghost use Rattle.statement.specs.Memory.{can_run_out, inserts};
ghost use Rattle.statement.specs.Token.{symbol_at};
ghost use Rattle.statement.specs.Split.{key_at, split_key_at, split_time_at, kind_at, split_at};

use crate::condition::table_name_at;
use crate::line::Written;
use crate::literal::row_at;
use crate::statement::instant_at;
use crate::token::{Blanks, end_at};
use std::alloc::Global;
use tokens::{Made, symbol_at, word_at};
use values::{Key, Schema};

/// A table's number, which is 0 where there is no such table, and the values for its key.
#[tactic(auto, unfolding(crate::specs::Split::key_at))]
fn key_at<'a>(alloc: Global, schema: &Schema, bytes: &'a [u8]) -> Made<'a, Key>
    ensures { Makes result (key_at schema.now bytes.now) }
{
    let (table, rest) = table_name_at(schema, bytes)?;
    let (parts, rest) = row_at(alloc, rest)?;
    Ok((Key { table, parts }, rest))
}

#[tactic(auto, unfolding(crate::specs::Split::split_key_at))]
fn split_key_at<'a>(alloc: Global, schema: &Schema, bytes: &'a [u8]) -> Made<'a, Written>
    ensures makes { Makes result (split_key_at schema.now bytes.now) }
    ensures splits { IfOk result (λ x. inserts x.0 ≡ false) }
{
    let (key, rest) = key_at(alloc, schema, bytes)?;
    let rest = end_at(rest)?;
    Ok((Written::SplitKey(key), rest))
}

#[tactic(auto, unfolding(crate::specs::Split::split_time_at))]
fn split_time_at<'a>(alloc: Global, schema: &Schema, bytes: &'a [u8]) -> Made<'a, Written>
    ensures makes { Makes result (split_time_at schema.now bytes.now) }
    ensures splits { IfOk result (λ x. inserts x.0 ≡ false) }
{
    let (key, rest) = key_at(alloc, schema, bytes)?;
    let rest = word_at::<Blanks>(b"AT", rest)?;
    let (instant, rest) = instant_at(rest)?;
    let rest = end_at(rest)?;
    Ok((Written::SplitTime(key, instant), rest))
}

/// At a key or in time, by the word after the colon.
#[tactic(auto, unfolding(crate::specs::Split::kind_at))]
fn kind_at<'a>(alloc: Global, schema: &Schema, bytes: &'a [u8]) -> Made<'a, Written>
    ensures makes { Makes result (kind_at schema.now bytes.now) }
    ensures splits { IfOk result (λ x. inserts x.0 ≡ false) }
{
    if let Ok(rest) = word_at::<Blanks>(b"KEY", bytes) {
        return split_key_at(alloc, schema, rest);
    }
    let rest = word_at::<Blanks>(b"TIME", bytes)?;
    split_time_at(alloc, schema, rest)
}

/// Reads what follows the word SPLIT.
#[tactic(auto, unfolding(crate::specs::Split::split_at))]
pub fn split_at<'a>(alloc: Global, schema: &Schema, bytes: &'a [u8]) -> Made<'a, Written>
    ensures makes { Makes result (split_at schema.now bytes.now) }
    ensures memory { IsTrue (can_run_out inserts result) → is_ok (symbol_at 58 bytes.now) ≡ true }
{
    let rest = symbol_at::<Blanks>(b':', bytes)?;
    kind_at(alloc, schema, rest)
}
