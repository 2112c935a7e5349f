//! Names of tables and columns, search conditions, and new values.
ghost use Rattle.std.specs.Prelude.{◌≡◌};
ghost use Rattle.tokens.specs.Token.{Gives, Makes};
ghost use Rattle.statement.specs.Condition.{table_of, column_of, table_name_at, column_name_at, or_equal, operator_at, set_at, comparison_at, sets_at, comparisons_at, columns_at, keys_at};

use crate::list::{Item, enclosed_at, list_at};
use crate::literal::literal_at;
use crate::token::Blanks;
use std::alloc::Global;
use tokens::{After, Made, Read, Separators, name_at, symbol_at, word_at};
use values::{ColumnNumber, Comparison, Keys, Operator, Schema, Sequence, Set, Sets};

/// Reads the name of a table: its number, or 0 where there is none of the name.
#[tactic(auto, unfolding(crate::specs::Condition::table_name_at))]
pub fn table_name_at<'a>(schema: &Schema, bytes: &'a [u8]) -> Read<'a, u8>
    ensures { Gives result (table_name_at schema.now bytes.now) }
{
    let (name, rest) = name_at::<Blanks>(bytes)?;
    Ok((schema.table(name).unwrap_or(0), rest))
}

#[tactic(auto, unfolding(crate::specs::Condition::column_of))]
fn column_of(schema: &Schema, table: u8, name: &[u8]) -> ColumnNumber
    ensures { result ≡ column_of schema.now table name.now }
{
    match schema.table_at(table) {
        Some(table) => table.column(name).unwrap_or(0),
        None => 0,
    }
}

/// The number of the user column with a name, or 0. It is compiled into its few callers.
#[inline(always)]
#[tactic(auto, unfolding(crate::specs::Condition::column_name_at))]
fn column_name_at<'a>(schema: &Schema, table: u8, bytes: &'a [u8]) -> Read<'a, ColumnNumber>
    ensures { Gives result (column_name_at schema.now table bytes.now) }
{
    let (name, rest) = name_at::<Blanks>(bytes)?;
    Ok((column_of(schema, table, name), rest))
}

fn or_equal(strict: Operator, loose: Operator, bytes: &[u8]) -> (Operator, &[u8])
    ensures { (result.0, result.1.now) ≡ or_equal strict loose bytes.now }
{
    match bytes {
        [b'=', rest @ ..] => (loose, rest),
        _ => (strict, bytes),
    }
}

#[tactic(auto, unfolding(crate::specs::Condition::operator_at))]
fn operator_at(bytes: &[u8]) -> Read<'_, Operator>
    ensures { Gives result (operator_at bytes.now) }
{
    let at = Blanks::next(bytes);
    match at {
        [b'=', rest @ ..] => Ok((Operator::Equal, rest)),
        [b'<', rest @ ..] => Ok(or_equal(Operator::Below, Operator::AtMost, rest)),
        [b'>', rest @ ..] => Ok(or_equal(Operator::Above, Operator::AtLeast, rest)),
        _ => Err(at),
    }
}

#[tactic(auto, unfolding(crate::specs::Condition::set_at))]
fn set_at<'a>(alloc: Global, schema: &Schema, table: u8, bytes: &'a [u8]) -> Made<'a, Set>
    ensures { Makes result (set_at schema.now table bytes.now) }
{
    let (column, rest) = column_name_at(schema, table, bytes)?;
    let rest = symbol_at::<Blanks>(b'=', rest)?;
    let (value, rest) = literal_at(alloc, rest)?;
    Ok((Set { column, value }, rest))
}

#[tactic(auto, unfolding(crate::specs::Condition::comparison_at))]
fn comparison_at<'a>(
    alloc: Global,
    schema: &Schema,
    table: u8,
    bytes: &'a [u8],
) -> Made<'a, Comparison>
    ensures { Makes result (comparison_at schema.now table bytes.now) }
{
    let (column, rest) = column_name_at(schema, table, bytes)?;
    let (operator, rest) = operator_at(rest)?;
    let (value, rest) = literal_at(alloc, rest)?;
    Ok((
        Comparison {
            column,
            operator,
            value,
        },
        rest,
    ))
}

/// The column list of a table.
#[derive(Clone, Copy)]
struct Columns<'s>(&'s Schema, u8);

impl Item for Columns<'_> {
    ghost use Rattle.statement.specs.Token.{symbol_at};
    ghost use Rattle.statement.specs.Condition.{column_name_at};

    type Value = ColumnNumber;

    ghost separator = { λ _. symbol_at 44 };

    ghost item = { λ c. column_name_at c.0.now c.1 };

    fn after_separator<'a>(&self, bytes: &'a [u8]) -> After<'a> {
        symbol_at::<Blanks>(b',', bytes)
    }

    fn item_at<'a>(&self, _alloc: Global, bytes: &'a [u8]) -> Made<'a, ColumnNumber> {
        Ok(column_name_at(self.0, self.1, bytes)?)
    }
}

/// What an UPDATE sets in a table.
#[derive(Clone, Copy)]
struct Assignments<'s>(&'s Schema, u8);

impl Item for Assignments<'_> {
    ghost use Rattle.statement.specs.Token.{symbol_at};
    ghost use Rattle.statement.specs.Condition.{set_at};

    type Value = Set;

    ghost separator = { λ _. symbol_at 44 };

    ghost item = { λ a. set_at a.0.now a.1 };

    fn after_separator<'a>(&self, bytes: &'a [u8]) -> After<'a> {
        symbol_at::<Blanks>(b',', bytes)
    }

    fn item_at<'a>(&self, alloc: Global, bytes: &'a [u8]) -> Made<'a, Set> {
        set_at(alloc, self.0, self.1, bytes)
    }
}

/// What a WHERE asks of the keys of a table.
#[derive(Clone, Copy)]
struct Conditions<'s>(&'s Schema, u8);

impl Item for Conditions<'_> {
    ghost use Rattle.std.specs.Prelude.{codes};
    ghost use Rattle.statement.specs.Token.{word_at};
    ghost use Rattle.statement.specs.Condition.{comparison_at};

    type Value = Comparison;

    ghost separator = { λ _. word_at (codes "AND") };

    ghost item = { λ c. comparison_at c.0.now c.1 };

    fn after_separator<'a>(&self, bytes: &'a [u8]) -> After<'a> {
        word_at::<Blanks>(b"AND", bytes)
    }

    fn item_at<'a>(&self, alloc: Global, bytes: &'a [u8]) -> Made<'a, Comparison> {
        comparison_at(alloc, self.0, self.1, bytes)
    }
}

/// Reads a column list, in its order.
#[tactic(auto, unfolding(crate::specs::Condition::columns_at))]
pub fn columns_at<'a>(
    alloc: Global,
    schema: &Schema,
    table: u8,
    bytes: &'a [u8],
) -> Made<'a, Sequence<ColumnNumber>>
    ensures { Makes result (columns_at schema.now table bytes.now) }
{
    let (columns, rest) = enclosed_at(&Columns(schema, table), alloc, bytes)?;
    Ok((Sequence::new(columns), rest))
}

/// Reads what an UPDATE sets.
#[tactic(auto, unfolding(crate::specs::Condition::sets_at))]
pub fn sets_at<'a>(alloc: Global, schema: &Schema, table: u8, bytes: &'a [u8]) -> Made<'a, Sets>
    ensures { Makes result (sets_at schema.now table bytes.now) }
{
    let (sets, rest) = list_at(&Assignments(schema, table), alloc, bytes)?;
    Ok((Sets::new(sets), rest))
}

#[tactic(auto, unfolding(crate::specs::Condition::comparisons_at))]
fn comparisons_at<'a>(
    alloc: Global,
    schema: &Schema,
    table: u8,
    bytes: &'a [u8],
) -> Made<'a, Sequence<Comparison>>
    ensures { Makes result (comparisons_at schema.now table bytes.now) }
{
    let (comparisons, rest) = list_at(&Conditions(schema, table), alloc, bytes)?;
    Ok((Sequence::new(comparisons), rest))
}

/// Reads a WHERE: the keys of a table that meet it; all of them where there is none.
#[tactic(auto, unfolding(crate::specs::Condition::keys_at))]
pub fn keys_at<'a>(alloc: Global, schema: &Schema, table: u8, bytes: &'a [u8]) -> Made<'a, Keys>
    ensures { Makes result (keys_at schema.now table bytes.now) }
{
    let (comparisons, rest) = match word_at::<Blanks>(b"WHERE", bytes) {
        Ok(rest) => comparisons_at(alloc, schema, table, rest)?,
        Err(_) => (Sequence::new(Vec::new(alloc)), bytes),
    };
    Ok((Keys { table, comparisons }, rest))
}
