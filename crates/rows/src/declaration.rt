//! Reads the statements of a schema.

ghost use Rattle.std.specs.Prelude.{◌≡◌};
ghost use Rattle.tokens.specs.Token.{Leaves, Gives, Makes};
ghost use Rattle.rows.specs.Declaration.{names_at, size_at, is_whole_number_at, varchar_at, type_at, not_null_at, primary_key_at, mark_at, is_mark_at, marks_at, user_at, precision_at, maybe_not_null_at, side_at, row_side_at, generated_at, two_names_at, system_period_at, application_period_at, period_at, without_overlaps_at, overlaps_at, key_at, column_at, entry_at, entries_at, body_at, versioning_at, create_at, is_end_at, more_at, creates_at};

use crate::schema_token::{Gaps, chars_at, digits_at};
use std::alloc::Global;
use tokens::{After, Made, Read, Separators, Stop, after_word, is_word_at, symbol_at, word_at};
use values::{Chars, ColumnType, Sequence};

/// What may follow a column's type.
#[derive(Clone, Copy, Debug, PartialEq, Eq)]
pub enum Mark {
    NotNull,
    PrimaryKey,
}

/// Which end of a row's period a generated column has.
#[derive(Clone, Copy, Debug, PartialEq, Eq)]
pub enum Side {
    Start,
    End,
}

/// A user column as it is declared.
#[derive(Drop)]
pub struct UserColumn {
    pub name: Chars,
    pub of: ColumnType,
    pub marks: Sequence<Mark>,
}

/// A ROW START or ROW END column as it is declared.
#[derive(Drop)]
pub struct GeneratedColumn {
    pub name: Chars,
    pub digits: Option<u16>,
    pub side: Side,
    pub not_null_before: bool,
    pub not_null_after: bool,
}

/// The names of the two columns of a period.
#[derive(Drop)]
pub struct PeriodNames {
    pub start: Chars,
    pub end: Chars,
}

/// A period of application time as it is declared (ISO/IEC 9075-2:2011, 4.14.1).
#[derive(Drop)]
pub struct ApplicationPeriod {
    pub name: Chars,
    pub columns: PeriodNames,
}

/// The names of a PRIMARY KEY clause, one or more. Where it is WITHOUT OVERLAPS, they are two or
/// more, and the last is that of a period (ISO/IEC 9075-2:2011, 11.7).
#[derive(Drop)]
pub struct KeyClause {
    pub names: Sequence<Chars>,
    pub without_overlaps: bool,
}

/// An entry of a CREATE TABLE statement.
#[derive(Drop)]
pub enum Entry {
    User(UserColumn),
    Generated(GeneratedColumn),
    /// The period of system time, by the names of its columns.
    Period(PeriodNames),
    Application(ApplicationPeriod),
    Key(KeyClause),
}

/// A CREATE TABLE statement.
#[derive(Drop)]
pub struct Declaration {
    pub name: Chars,
    pub entries: Sequence<Entry>,
}

#[tactic(auto, unfolding(crate::specs::Declaration::names_at))]
fn names_at(alloc: Global, bytes: &[u8]) -> Made<'_, Sequence<Chars>>
    ensures { Makes result (names_at bytes.now) }
{
    let mut names = Vec::new(alloc);
    let mut rest = bytes;
    for _ in 0..bytes.len() {
        let (name, after) = match chars_at(alloc, rest) {
            Ok(read) => read,
            Err(stop) => return Err(stop),
        };
        names.push(name)?;
        match symbol_at::<Gaps>(b',', after) {
            Ok(more) => rest = more,
            Err(_) => return Ok((Sequence::new(names), after)),
        }
    }
    Err(Stop::At(rest))
}

/// `"(" digits ")"`
#[tactic(auto, unfolding(crate::specs::Declaration::size_at))]
fn size_at(bytes: &[u8]) -> Read<'_, u16>
    ensures { Gives result (size_at bytes.now) }
{
    let rest = symbol_at::<Gaps>(b'(', bytes)?;
    let (n, rest) = digits_at(rest)?;
    let rest = symbol_at::<Gaps>(b')', rest)?;
    Ok((n, rest))
}

#[tactic(auto, unfolding(crate::specs::Declaration::is_whole_number_at))]
fn is_whole_number_at(bytes: &[u8]) -> bool
    ensures { result ≡ is_whole_number_at bytes.now }
{
    is_word_at::<Gaps>(b"INT", bytes)
        || is_word_at::<Gaps>(b"INTEGER", bytes)
        || is_word_at::<Gaps>(b"BIGINT", bytes)
}

/// `VARCHAR "(" digits ")"`
#[tactic(auto, unfolding(crate::specs::Declaration::varchar_at))]
fn varchar_at(bytes: &[u8]) -> Read<'_, ColumnType>
    ensures { Gives result (varchar_at bytes.now) }
{
    let rest = word_at::<Gaps>(b"VARCHAR", bytes)?;
    let (n, rest) = size_at(rest)?;
    Ok((ColumnType::Varchar(n), rest))
}

#[tactic(auto, unfolding(crate::specs::Declaration::type_at))]
fn type_at(bytes: &[u8]) -> Read<'_, ColumnType>
    ensures { Gives result (type_at bytes.now) }
{
    if is_whole_number_at(bytes) {
        Ok((ColumnType::Int, after_word::<Gaps>(bytes)))
    } else if is_word_at::<Gaps>(b"TEXT", bytes) {
        Ok((ColumnType::Text, after_word::<Gaps>(bytes)))
    } else if is_word_at::<Gaps>(b"BOOLEAN", bytes) {
        Ok((ColumnType::Boolean, after_word::<Gaps>(bytes)))
    } else {
        varchar_at(bytes)
    }
}

/// `NOT NULL`
#[tactic(auto, unfolding(crate::specs::Declaration::not_null_at))]
fn not_null_at(bytes: &[u8]) -> After<'_>
    ensures { Leaves result (not_null_at bytes.now) }
{
    let rest = word_at::<Gaps>(b"NOT", bytes)?;
    word_at::<Gaps>(b"NULL", rest)
}

/// `PRIMARY KEY`
#[tactic(auto, unfolding(crate::specs::Declaration::primary_key_at))]
fn primary_key_at(bytes: &[u8]) -> After<'_>
    ensures { Leaves result (primary_key_at bytes.now) }
{
    let rest = word_at::<Gaps>(b"PRIMARY", bytes)?;
    word_at::<Gaps>(b"KEY", rest)
}

#[tactic(auto, unfolding(crate::specs::Declaration::mark_at))]
fn mark_at(bytes: &[u8]) -> Read<'_, Mark>
    ensures { Gives result (mark_at bytes.now) }
{
    if is_word_at::<Gaps>(b"NOT", bytes) {
        let rest = not_null_at(bytes)?;
        Ok((Mark::NotNull, rest))
    } else {
        let rest = primary_key_at(bytes)?;
        Ok((Mark::PrimaryKey, rest))
    }
}

#[tactic(auto, unfolding(crate::specs::Declaration::is_mark_at))]
fn is_mark_at(bytes: &[u8]) -> bool
    ensures { result ≡ is_mark_at bytes.now }
{
    is_word_at::<Gaps>(b"NOT", bytes) || is_word_at::<Gaps>(b"PRIMARY", bytes)
}

/// `{NOT NULL | PRIMARY KEY}`
#[tactic(auto, unfolding(crate::specs::Declaration::marks_at))]
fn marks_at(alloc: Global, bytes: &[u8]) -> Made<'_, Sequence<Mark>>
    ensures { Makes result (marks_at bytes.now) }
{
    let mut marks = Vec::new(alloc);
    let mut rest = bytes;
    for _ in 0..bytes.len() {
        if !is_mark_at(rest) {
            return Ok((Sequence::new(marks), rest));
        }
        let (mark, after) = match mark_at(rest) {
            Ok(read) => read,
            Err(at) => return Err(Stop::At(at)),
        };
        marks.push(mark)?;
        rest = after;
    }
    Ok((Sequence::new(marks), rest))
}

/// `type {NOT NULL | PRIMARY KEY}`
#[tactic(auto, unfolding(crate::specs::Declaration::user_at))]
fn user_at(alloc: Global, name: Chars, bytes: &[u8]) -> Made<'_, Entry>
    ensures { Makes result (user_at name bytes.now) }
{
    let (of, rest) = type_at(bytes)?;
    let (marks, rest) = marks_at(alloc, rest)?;
    Ok((Entry::User(UserColumn { name, of, marks }), rest))
}

/// `["(" digits ")"]`
#[tactic(auto, unfolding(crate::specs::Declaration::precision_at))]
fn precision_at(bytes: &[u8]) -> Read<'_, Option<u16>>
    ensures { Gives result (precision_at bytes.now) }
{
    if symbol_at::<Gaps>(b'(', bytes).is_err() {
        return Ok((None, bytes));
    }
    let (digits, rest) = size_at(bytes)?;
    Ok((Some(digits), rest))
}

/// `[NOT NULL]`
#[tactic(auto, unfolding(crate::specs::Declaration::maybe_not_null_at))]
fn maybe_not_null_at(bytes: &[u8]) -> Read<'_, bool>
    ensures { Gives result (maybe_not_null_at bytes.now) }
{
    if !is_word_at::<Gaps>(b"NOT", bytes) {
        return Ok((false, bytes));
    }
    let rest = not_null_at(bytes)?;
    Ok((true, rest))
}

/// `START | END`
#[tactic(auto, unfolding(crate::specs::Declaration::side_at))]
fn side_at(bytes: &[u8]) -> Read<'_, Side>
    ensures { Gives result (side_at bytes.now) }
{
    if is_word_at::<Gaps>(b"START", bytes) {
        return Ok((Side::Start, after_word::<Gaps>(bytes)));
    }
    let rest = word_at::<Gaps>(b"END", bytes)?;
    Ok((Side::End, rest))
}

/// `GENERATED ALWAYS AS ROW (START | END)`
#[tactic(auto, unfolding(crate::specs::Declaration::row_side_at))]
fn row_side_at(bytes: &[u8]) -> Read<'_, Side>
    ensures { Gives result (row_side_at bytes.now) }
{
    let rest = word_at::<Gaps>(b"GENERATED", bytes)?;
    let rest = word_at::<Gaps>(b"ALWAYS", rest)?;
    let rest = word_at::<Gaps>(b"AS", rest)?;
    let rest = word_at::<Gaps>(b"ROW", rest)?;
    side_at(rest)
}

/// `TIMESTAMP ["(" digits ")"] [NOT NULL] GENERATED ALWAYS AS ROW (START | END) [NOT NULL]`
#[tactic(auto, unfolding(crate::specs::Declaration::generated_at))]
fn generated_at(name: Chars, bytes: &[u8]) -> Read<'_, Entry>
    ensures { Gives result (generated_at name bytes.now) }
{
    let rest = word_at::<Gaps>(b"TIMESTAMP", bytes)?;
    let (digits, rest) = precision_at(rest)?;
    let (not_null_before, rest) = maybe_not_null_at(rest)?;
    let (side, rest) = row_side_at(rest)?;
    let (not_null_after, rest) = maybe_not_null_at(rest)?;
    let column = GeneratedColumn {
        name,
        digits,
        side,
        not_null_before,
        not_null_after,
    };
    Ok((Entry::Generated(column), rest))
}

/// `"(" name "," name ")"`
#[tactic(auto, unfolding(crate::specs::Declaration::two_names_at))]
fn two_names_at(alloc: Global, bytes: &[u8]) -> Made<'_, PeriodNames>
    ensures { Makes result (two_names_at bytes.now) }
{
    let rest = symbol_at::<Gaps>(b'(', bytes)?;
    let (start, rest) = chars_at(alloc, rest)?;
    let rest = symbol_at::<Gaps>(b',', rest)?;
    let (end, rest) = chars_at(alloc, rest)?;
    let rest = symbol_at::<Gaps>(b')', rest)?;
    Ok((PeriodNames { start, end }, rest))
}

/// `SYSTEM_TIME "(" name "," name ")"`
#[tactic(auto, unfolding(crate::specs::Declaration::system_period_at))]
fn system_period_at(alloc: Global, bytes: &[u8]) -> Made<'_, Entry>
    ensures { Makes result (system_period_at bytes.now) }
{
    let rest = word_at::<Gaps>(b"SYSTEM_TIME", bytes)?;
    let (columns, rest) = two_names_at(alloc, rest)?;
    Ok((Entry::Period(columns), rest))
}

/// `name "(" name "," name ")"`
#[tactic(auto, unfolding(crate::specs::Declaration::application_period_at))]
fn application_period_at(alloc: Global, bytes: &[u8]) -> Made<'_, Entry>
    ensures { Makes result (application_period_at bytes.now) }
{
    let (name, rest) = chars_at(alloc, bytes)?;
    let (columns, rest) = two_names_at(alloc, rest)?;
    Ok((
        Entry::Application(ApplicationPeriod { name, columns }),
        rest,
    ))
}

/// `PERIOD FOR (SYSTEM_TIME | name) "(" name "," name ")"`
#[tactic(auto, unfolding(crate::specs::Declaration::period_at))]
fn period_at(alloc: Global, bytes: &[u8]) -> Made<'_, Entry>
    ensures { Makes result (period_at bytes.now) }
{
    let rest = word_at::<Gaps>(b"PERIOD", bytes)?;
    let rest = word_at::<Gaps>(b"FOR", rest)?;
    if is_word_at::<Gaps>(b"SYSTEM_TIME", rest) {
        system_period_at(alloc, rest)
    } else {
        application_period_at(alloc, rest)
    }
}

/// `WITHOUT OVERLAPS`
#[tactic(auto, unfolding(crate::specs::Declaration::without_overlaps_at))]
fn without_overlaps_at(bytes: &[u8]) -> After<'_>
    ensures { Leaves result (without_overlaps_at bytes.now) }
{
    let rest = word_at::<Gaps>(b"WITHOUT", bytes)?;
    word_at::<Gaps>(b"OVERLAPS", rest)
}

/// `[WITHOUT OVERLAPS]` after several names, and nothing after one.
#[tactic(auto, unfolding(crate::specs::Declaration::overlaps_at))]
fn overlaps_at(several: bool, bytes: &[u8]) -> Read<'_, bool>
    ensures { Gives result (overlaps_at several bytes.now) }
{
    if !several || !is_word_at::<Gaps>(b"WITHOUT", bytes) {
        return Ok((false, bytes));
    }
    let rest = without_overlaps_at(bytes)?;
    Ok((true, rest))
}

/// `PRIMARY KEY "(" name {"," name} ["," name WITHOUT OVERLAPS] ")"`
#[tactic(auto, unfolding(crate::specs::Declaration::key_at))]
fn key_at(alloc: Global, bytes: &[u8]) -> Made<'_, Entry>
    ensures { Makes result (key_at bytes.now) }
{
    let rest = primary_key_at(bytes)?;
    let rest = symbol_at::<Gaps>(b'(', rest)?;
    let (names, rest) = names_at(alloc, rest)?;
    let (without_overlaps, rest) = overlaps_at(names.items().len() >= 2, rest)?;
    let rest = symbol_at::<Gaps>(b')', rest)?;
    let clause = KeyClause {
        names,
        without_overlaps,
    };
    Ok((Entry::Key(clause), rest))
}

/// An entry that begins with a column's name.
#[tactic(auto, unfolding(crate::specs::Declaration::column_at))]
fn column_at(alloc: Global, bytes: &[u8]) -> Made<'_, Entry>
    ensures { Makes result (column_at bytes.now) }
{
    let (name, rest) = chars_at(alloc, bytes)?;
    if is_word_at::<Gaps>(b"TIMESTAMP", rest) {
        Ok(generated_at(name, rest)?)
    } else {
        user_at(alloc, name, rest)
    }
}

#[tactic(auto, unfolding(crate::specs::Declaration::entry_at))]
fn entry_at(alloc: Global, bytes: &[u8]) -> Made<'_, Entry>
    ensures { Makes result (entry_at bytes.now) }
{
    if is_word_at::<Gaps>(b"PERIOD", bytes) {
        period_at(alloc, bytes)
    } else if is_word_at::<Gaps>(b"PRIMARY", bytes) {
        key_at(alloc, bytes)
    } else {
        column_at(alloc, bytes)
    }
}

#[tactic(auto, unfolding(crate::specs::Declaration::entries_at))]
fn entries_at(alloc: Global, bytes: &[u8]) -> Made<'_, Sequence<Entry>>
    ensures { Makes result (entries_at bytes.now) }
{
    let mut entries = Vec::new(alloc);
    let mut rest = bytes;
    for _ in 0..bytes.len() {
        let (entry, after) = match entry_at(alloc, rest) {
            Ok(read) => read,
            Err(stop) => return Err(stop),
        };
        entries.push(entry)?;
        match symbol_at::<Gaps>(b',', after) {
            Ok(more) => rest = more,
            Err(_) => return Ok((Sequence::new(entries), after)),
        }
    }
    Err(Stop::At(rest))
}

/// `"(" entry {"," entry} ")"`
#[tactic(auto, unfolding(crate::specs::Declaration::body_at))]
fn body_at(alloc: Global, bytes: &[u8]) -> Made<'_, Sequence<Entry>>
    ensures { Makes result (body_at bytes.now) }
{
    let rest = symbol_at::<Gaps>(b'(', bytes)?;
    let (entries, rest) = entries_at(alloc, rest)?;
    let rest = symbol_at::<Gaps>(b')', rest)?;
    Ok((entries, rest))
}

/// `WITH SYSTEM VERSIONING`
#[tactic(auto, unfolding(crate::specs::Declaration::versioning_at))]
fn versioning_at(bytes: &[u8]) -> After<'_>
    ensures { Leaves result (versioning_at bytes.now) }
{
    let rest = word_at::<Gaps>(b"WITH", bytes)?;
    let rest = word_at::<Gaps>(b"SYSTEM", rest)?;
    word_at::<Gaps>(b"VERSIONING", rest)
}

/// `CREATE TABLE name "(" entry {"," entry} ")" WITH SYSTEM VERSIONING`
#[tactic(auto, unfolding(crate::specs::Declaration::create_at))]
fn create_at(alloc: Global, bytes: &[u8]) -> Made<'_, Declaration>
    ensures { Makes result (create_at bytes.now) }
{
    let rest = word_at::<Gaps>(b"CREATE", bytes)?;
    let rest = word_at::<Gaps>(b"TABLE", rest)?;
    let (name, rest) = chars_at(alloc, rest)?;
    let (entries, rest) = body_at(alloc, rest)?;
    let rest = versioning_at(rest)?;
    Ok((Declaration { name, entries }, rest))
}

#[tactic(auto, unfolding(crate::specs::Declaration::is_end_at))]
fn is_end_at(bytes: &[u8]) -> bool
    ensures { result ≡ is_end_at bytes.now }
{
    Gaps::next(bytes).is_empty()
}

/// Whether a statement comes after the one before: a semicolon may be at the end.
#[tactic(auto, unfolding(crate::specs::Declaration::more_at))]
fn more_at(bytes: &[u8]) -> Read<'_, bool>
    ensures { Gives result (more_at bytes.now) }
{
    if is_end_at(bytes) {
        return Ok((false, bytes));
    }
    let rest = symbol_at::<Gaps>(b';', bytes)?;
    Ok((!is_end_at(rest), rest))
}

/// Reads the statements of a whole text.
#[tactic(auto, unfolding(crate::specs::Declaration::creates_at))]
pub fn creates_at(alloc: Global, bytes: &[u8]) -> Made<'_, Sequence<Declaration>>
    ensures { Makes result (creates_at bytes.now) }
{
    let mut declarations = Vec::new(alloc);
    let mut rest = bytes;
    for _ in 0..bytes.len() {
        let (declaration, after) = match create_at(alloc, rest) {
            Ok(read) => read,
            Err(stop) => return Err(stop),
        };
        declarations.push(declaration)?;
        let (more, after) = match more_at(after) {
            Ok(read) => read,
            Err(at) => return Err(Stop::At(at)),
        };
        if !more {
            return Ok((Sequence::new(declarations), after));
        }
        rest = after;
    }
    Err(Stop::At(rest))
}
