//! The type of a column, as it is written.
ghost use Rattle.tokens.specs.Token.{Gives};
ghost use Rattle.tokens.specs.TypeName.{size_at, varchar_at, type_at};

use crate::digit::capped_at;
use crate::token::{Read, Separators, symbol_at};
use crate::word::word_at;
use values::ColumnType;

/// `"(" digits ")"`
#[tactic(auto, unfolding(crate::specs::TypeName::size_at))]
fn size_at<S: Separators>(bytes: &[u8]) -> Read<'_, u16>
    ensures { Gives result (size_at S.next bytes.now) }
{
    let rest = symbol_at::<S>(b'(', bytes)?;
    let (n, rest) = capped_at::<S>(rest)?;
    let rest = symbol_at::<S>(b')', rest)?;
    Ok((n, rest))
}

/// The length of a VARCHAR, after the word.
#[tactic(auto, unfolding(crate::specs::TypeName::varchar_at))]
fn varchar_at<S: Separators>(bytes: &[u8]) -> Read<'_, ColumnType>
    ensures { Gives result (varchar_at S.next bytes.now) }
{
    let (n, rest) = size_at::<S>(bytes)?;
    Ok((ColumnType::Varchar(n), rest))
}

/// Reads a column's type: INT, INTEGER, BIGINT, TEXT, BOOLEAN, or VARCHAR with its length, where
/// 65,535 stands for all that are greater.
#[tactic(auto, unfolding(crate::specs::TypeName::type_at))]
pub fn type_at<S: Separators>(bytes: &[u8]) -> Read<'_, ColumnType>
    ensures { Gives result (type_at S.next bytes.now) }
{
    if let Ok(rest) = word_at::<S>(b"INT", bytes) {
        return Ok((ColumnType::Int, rest));
    }
    if let Ok(rest) = word_at::<S>(b"INTEGER", bytes) {
        return Ok((ColumnType::Int, rest));
    }
    if let Ok(rest) = word_at::<S>(b"BIGINT", bytes) {
        return Ok((ColumnType::Int, rest));
    }
    if let Ok(rest) = word_at::<S>(b"TEXT", bytes) {
        return Ok((ColumnType::Text, rest));
    }
    if let Ok(rest) = word_at::<S>(b"BOOLEAN", bytes) {
        return Ok((ColumnType::Boolean, rest));
    }
    let rest = word_at::<S>(b"VARCHAR", bytes)?;
    varchar_at::<S>(rest)
}
