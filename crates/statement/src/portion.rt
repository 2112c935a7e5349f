//! FOR PORTION OF: the portion of application time that an UPDATE or a DELETE changes.
ghost use Rattle.std.specs.Prelude.{◌≡◌};
ghost use Rattle.tokens.specs.Token.{Gives};
ghost use Rattle.statement.specs.Portion.{bounds_at, is_period, period_name_at, named_portion_at, portion_at};

use crate::literal::number_at;
use crate::token::Blanks;
use tokens::{Read, name_at, word_at};
use values::{Schema, Span};

/// A portion of application time, as it is written (ISO/IEC 9075-2:2011, FOR PORTION OF in
/// 14.9 <delete statement: searched> and 14.14 <update statement: searched>).
#[derive(Clone, Copy)]
pub struct Portion {
    /// Whether its name is that of the table's period.
    pub of_period: bool,
    /// The numbers after FROM and TO, whichever is less.
    pub span: Span,
}

#[tactic(auto, unfolding(crate::specs::Portion::bounds_at))]
fn bounds_at(bytes: &[u8]) -> Read<'_, Span>
    ensures { Gives result (bounds_at bytes.now) }
{
    let rest = word_at::<Blanks>(b"FROM", bytes)?;
    let (from, rest) = number_at(rest)?;
    let rest = word_at::<Blanks>(b"TO", rest)?;
    let (to, rest) = number_at(rest)?;
    Ok((Span { from, to }, rest))
}

/// Whether a table has a period of this name.
#[tactic(auto, unfolding(crate::specs::Portion::is_period))]
fn is_period(schema: &Schema, table: u8, name: &[u8]) -> bool
    ensures { result ≡ is_period schema.now table name.now }
{
    match schema.table_at(table) {
        Some(table) => table.names_period(name),
        None => false,
    }
}

/// The name of a period, by whether it is the table's.
#[tactic(auto, unfolding(crate::specs::Portion::period_name_at))]
fn period_name_at<'a>(schema: &Schema, table: u8, bytes: &'a [u8]) -> Read<'a, bool>
    ensures { Gives result (period_name_at schema.now table bytes.now) }
{
    let (name, rest) = name_at::<Blanks>(bytes)?;
    Ok((is_period(schema, table, name), rest))
}

/// A portion, after the word FOR.
#[tactic(auto, unfolding(crate::specs::Portion::named_portion_at))]
fn named_portion_at<'a>(schema: &Schema, table: u8, bytes: &'a [u8]) -> Read<'a, Portion>
    ensures { Gives result (named_portion_at schema.now table bytes.now) }
{
    let rest = word_at::<Blanks>(b"PORTION", bytes)?;
    let rest = word_at::<Blanks>(b"OF", rest)?;
    let (of_period, rest) = period_name_at(schema, table, rest)?;
    let (span, rest) = bounds_at(rest)?;
    Ok((Portion { of_period, span }, rest))
}

/// Reads a portion, if FOR comes next: FOR PORTION OF, the name of a period, FROM a number TO a
/// number, both whole ones of 64 bits.
#[tactic(auto, unfolding(crate::specs::Portion::portion_at))]
pub fn portion_at<'a>(schema: &Schema, table: u8, bytes: &'a [u8]) -> Read<'a, Option<Portion>>
    ensures { Gives result (portion_at schema.now table bytes.now) }
{
    match word_at::<Blanks>(b"FOR", bytes) {
        Ok(rest) => {
            let (portion, rest) = named_portion_at(schema, table, rest)?;
            Ok((Some(portion), rest))
        }
        Err(_) => Ok((None, bytes)),
    }
}
