//! Makes tables of declarations.

ghost use Rattle.std.specs.Prelude.{◌≡◌, ◌++◌, ◌∷◌, [], ◌&&◌, ◌==◌, IfOk, OnOk, option_copied, map, filter, count_by};
ghost use Rattle.std.specs.List.{list_any, list_all, filter_map, flat_map, position_from};
ghost use Rattle.values.specs.Names.{same_name};
ghost use Rattle.values.specs.Tables.{but_last};
ghost use Rattle.rows.specs.SchemaTable.{is_not_null, is_primary_key, same_side, is_of_period, user_column, declared_name, side_name, period_names, application_period, is_application, marked_key, keys_in, is_good_type, is_good_precision, is_good_entry, are_distinct, only, ends_with_name, period_key_names, key_names, number_in, is_int, has_int_column, is_good_application, period_in, is_good_key, is_good_period, is_good_width, are_good_entries, keyed_table, table_of, next_table};

use crate::declaration::{
    ApplicationPeriod, Declaration, Entry, KeyClause, Mark, PeriodNames, Side,
};
use std::alloc::{AllocError, Global};
use values::{
    Chars, Column, ColumnNumber, ColumnType, LONGEST_TEXT, Period, Sequence, Table, WIDEST,
    same_name,
};

/// The columns that a key may have.
const MOST_KEY_COLUMNS: usize = 4;

/// The digits of a second that TIMESTAMP may have.
const MOST_DIGITS: u16 = 12;

/// The tables that a schema may have.
const MOST_TABLES: usize = 16;

fn is_not_null(mark: &Mark) -> bool
    ensures { result ≡ is_not_null mark.now }
{
    matches!(mark, Mark::NotNull)
}

fn same_side(side: Side, other: Side) -> bool
    ensures { result ≡ same_side side other }
{
    matches!(
        (side, other),
        (Side::Start, Side::Start) | (Side::End, Side::End)
    )
}

fn has_not_null(marks: &[Mark]) -> bool
    ensures { result ≡ list_any is_not_null marks.now }
{
    marks.iter().any(is_not_null)
}

/// Whether the period of application time has a column of the name.
fn is_of_period(application: Option<&ApplicationPeriod>, name: &Chars) -> bool
    ensures { result ≡ is_of_period (option_copied application.entry) name.now }
{
    match application {
        Some(period) => {
            is_same(&period.columns.start, name) || is_same(&period.columns.end, name)
        }
        None => false,
    }
}

/// The user columns.
fn columns_of(
    alloc: Global,
    application: Option<&ApplicationPeriod>,
    entries: &[Entry],
) -> Result<Vec<Column>, AllocError>
    ensures { IfOk result (λ columns.
        columns.items ≡ filter_map (user_column (option_copied application.entry)) entries.now) }
{
    let mut columns = Vec::new(alloc);
    for entry in entries {
        if let Entry::User(column) = entry {
            columns.push(Column {
                name: column.name.clone()?,
                of: column.of,
                not_null: has_not_null(column.marks.items())
                    || is_of_period(application, &column.name),
            })?;
        }
    }
    Ok(columns)
}

/// The names of the user and generated columns, and of the periods of application time.
fn names_of(alloc: Global, entries: &[Entry]) -> Result<Vec<Chars>, AllocError>
    ensures { IfOk result (λ names. names.items ≡ filter_map declared_name entries.now) }
{
    let mut names = Vec::new(alloc);
    for entry in entries {
        match entry {
            Entry::User(column) => names.push(column.name.clone()?)?,
            Entry::Generated(column) => names.push(column.name.clone()?)?,
            Entry::Application(period) => names.push(period.name.clone()?)?,
            _ => {}
        }
    }
    Ok(names)
}

/// The name of the one ROW START or ROW END column.
fn only_side(side: Side, entries: &[Entry]) -> Option<&Chars>
    ensures { option_copied result ≡ only (filter_map (side_name side) entries.now) }
{
    let mut found = None;
    for entry in entries {
        if let Some(name) = side_name(side, entry) {
            if found.is_some() {
                return None;
            }
            found = Some(name);
        }
    }
    found
}

fn side_name(side: Side, entry: &Entry) -> Option<&Chars>
    ensures { option_copied result ≡ side_name side entry.now }
{
    match entry {
        Entry::Generated(column) if same_side(column.side, side) => Some(&column.name),
        _ => None,
    }
}

/// The columns of the one period of system time.
fn only_period(entries: &[Entry]) -> Option<&PeriodNames>
    ensures { option_copied result ≡ only (filter_map period_names entries.now) }
{
    let mut found = None;
    for entry in entries {
        if let Some(period) = period_names(entry) {
            if found.is_some() {
                return None;
            }
            found = Some(period);
        }
    }
    found
}

fn period_names(entry: &Entry) -> Option<&PeriodNames>
    ensures { option_copied result ≡ period_names entry.now }
{
    match entry {
        Entry::Period(period) => Some(period),
        _ => None,
    }
}

/// The one period of application time.
fn only_application(entries: &[Entry]) -> Option<&ApplicationPeriod>
    ensures { option_copied result ≡ only (filter_map application_period entries.now) }
{
    let mut found = None;
    for entry in entries {
        if let Some(period) = application_period(entry) {
            if found.is_some() {
                return None;
            }
            found = Some(period);
        }
    }
    found
}

fn application_period(entry: &Entry) -> Option<&ApplicationPeriod>
    ensures { option_copied result ≡ application_period entry.now }
{
    match entry {
        Entry::Application(period) => Some(period),
        _ => None,
    }
}

fn is_application(entry: &Entry) -> bool
    ensures { result ≡ is_application entry.now }
{
    matches!(entry, Entry::Application(_))
}

fn has_application(entries: &[Entry]) -> bool
    ensures { result ≡ list_any is_application entries.now }
{
    entries.iter().any(is_application)
}

fn copies_of(alloc: Global, names: &[Chars]) -> Result<Vec<Chars>, AllocError>
    ensures { IfOk result (λ copies. copies.items ≡ names.now) }
{
    let mut copies = Vec::new(alloc);
    for name in names {
        copies.push(name.clone()?)?;
    }
    Ok(copies)
}

/// A key of the one name for each PRIMARY KEY that marks its column.
fn push_marked(
    alloc: Global,
    keys: &mut Vec<KeyClause>,
    name: &Chars,
    marks: &[Mark],
) -> Result<(), AllocError>
    ensures { OnOk result (keys.new.items
        ≡ keys.old.items
        ++ map (λ mark. marked_key name.now) (filter is_primary_key marks.now)) }
{
    for mark in marks {
        if is_primary_key(mark) {
            keys.push(KeyClause {
                names: Sequence::new(vec![in alloc; name.clone()?]?),
                without_overlaps: false,
            })?;
        }
    }
    Ok(())
}

fn is_primary_key(mark: &Mark) -> bool
    ensures { result ≡ is_primary_key mark.now }
{
    matches!(mark, Mark::PrimaryKey)
}

fn push_keys(alloc: Global, keys: &mut Vec<KeyClause>, entry: &Entry) -> Result<(), AllocError>
    ensures { OnOk result (keys.new.items ≡ keys.old.items ++ keys_in entry.now) }
{
    match entry {
        Entry::Key(clause) => keys.push(KeyClause {
            names: Sequence::new(copies_of(alloc, clause.names.items())?),
            without_overlaps: clause.without_overlaps,
        })?,
        Entry::User(column) => push_marked(alloc, keys, &column.name, column.marks.items())?,
        _ => {}
    }
    Ok(())
}

/// The keys that the entries give.
fn keys_of(alloc: Global, entries: &[Entry]) -> Result<Vec<KeyClause>, AllocError>
    ensures { IfOk result (λ keys. keys.items ≡ flat_map keys_in entries.now) }
{
    let mut keys = Vec::new(alloc);
    for entry in entries {
        push_keys(alloc, &mut keys, entry)?;
    }
    Ok(keys)
}

fn is_same(name: &Chars, other: &Chars) -> bool
    ensures { result ≡ same_name name.now other.now }
{
    same_name(name.text().as_bytes(), other.text().as_bytes())
}

fn ends_with_name(name: &Chars, names: &[Chars]) -> bool
    ensures { result ≡ ends_with_name name.now names.now }
{
    match names.split_last() {
        Some((last, _entity)) => is_same(name, last),
        None => false,
    }
}

fn but_last(names: &[Chars]) -> &[Chars]
    ensures { result.now ≡ but_last names.now }
{
    match names.split_last() {
        Some((_last, entity)) => entity,
        None => names,
    }
}

/// The names of the key's columns where there is a period of application time: after those of the
/// entity its start (ISO/IEC 9075-2:2011, 11.7).
fn period_key_names(
    alloc: Global,
    period: &ApplicationPeriod,
    clause: &KeyClause,
) -> Result<Option<Sequence<Chars>>, AllocError>
    ensures { IfOk result (λ names. names ≡ period_key_names period.now clause.now) }
{
    let given = clause.names.items();
    if !clause.without_overlaps || !ends_with_name(&period.name, given) {
        return Ok(None);
    }
    let mut names = copies_of(alloc, but_last(given))?;
    names.push(period.columns.start.clone()?)?;
    Ok(Some(Sequence::new(names)))
}

/// The names of the key's columns, where the clause and the period of application time agree.
fn key_names(
    alloc: Global,
    application: Option<&ApplicationPeriod>,
    clause: &KeyClause,
) -> Result<Option<Sequence<Chars>>, AllocError>
    ensures { IfOk result (λ names. names ≡ key_names (option_copied application.entry) clause.now) }
{
    match application {
        Some(period) => period_key_names(alloc, period, clause),
        None if clause.without_overlaps => Ok(None),
        None => Ok(Some(Sequence::new(copies_of(alloc, clause.names.items())?))),
    }
}

fn is_good_type(of: ColumnType) -> bool
    ensures { result ≡ is_good_type of }
{
    match of {
        ColumnType::Varchar(characters) => 1 <= characters && characters as usize <= LONGEST_TEXT,
        _ => true,
    }
}

fn is_good_precision(digits: Option<u16>) -> bool
    ensures { result ≡ is_good_precision digits }
{
    digits.is_none_or(|digits| digits <= MOST_DIGITS)
}

fn not_null_count(marks: &[Mark]) -> usize
    ensures { result ≡ count_by is_not_null marks.now }
{
    marks.iter().filter(|mark| is_not_null(mark)).count()
}

fn is_good_entry(entry: &Entry) -> bool
    ensures { result ≡ is_good_entry entry.now }
{
    match entry {
        Entry::User(column) => is_good_type(column.of) && not_null_count(column.marks.items()) <= 1,
        Entry::Generated(column) => {
            is_good_precision(column.digits) && !(column.not_null_before && column.not_null_after)
        }
        _ => true,
    }
}

fn contains_name(names: &[Chars], name: &Chars) -> bool
    ensures { result ≡ list_any (same_name name.now) names.now }
{
    names.iter().any(|other| is_same(name, other))
}

fn are_distinct(names: &[Chars]) -> bool
    ensures { result ≡ are_distinct names.now }
{
    let mut rest = names;
    while let [name, others @ ..] = rest {
        if contains_name(others, name) {
            return false;
        }
        rest = others;
    }
    true
}

fn all_are_good(entries: &[Entry]) -> bool
    ensures { result ≡ list_all is_good_entry entries.now }
{
    entries.iter().all(is_good_entry)
}

fn are_good_entries(alloc: Global, entries: &[Entry]) -> Result<bool, AllocError>
    ensures { IfOk result (λ good. good ≡ are_good_entries entries.now) }
{
    if !all_are_good(entries) {
        return Ok(false);
    }
    let names = names_of(alloc, entries)?;
    Ok(are_distinct(&names))
}

fn column_in(columns: &[Column], name: &[u8]) -> Option<ColumnNumber>
    ensures { result ≡ position_from (λ column. same_name column.name name.now) 1 columns.now }
{
    for (i, column) in columns.iter().enumerate() {
        if same_name(column.name.text().as_bytes(), name) {
            return Some(i + 1);
        }
    }
    None
}

/// A user column's number, from 1, or 0 where none has the name.
fn number_in(columns: &[Column], name: &Chars) -> ColumnNumber
    ensures { result ≡ number_in columns.now name.now }
{
    column_in(columns, name.text().as_bytes()).unwrap_or(0)
}

fn numbers_in(
    alloc: Global,
    columns: &[Column],
    names: &[Chars],
) -> Result<Vec<ColumnNumber>, AllocError>
    ensures { IfOk result (λ numbers. numbers.items ≡ map (number_in columns.now) names.now) }
{
    let mut numbers = Vec::new(alloc);
    for name in names {
        numbers.push(number_in(columns, name))?;
    }
    Ok(numbers)
}

fn has_unknown(numbers: &[ColumnNumber]) -> bool
    ensures { result ≡ list_any (λ number. number == 0) numbers.now }
{
    numbers.iter().any(|number| *number == 0)
}

fn is_good_key(names: &[Chars], numbers: &[ColumnNumber]) -> bool
    ensures { result ≡ is_good_key names.now numbers.now }
{
    names.len() <= MOST_KEY_COLUMNS && are_distinct(names) && !has_unknown(numbers)
}

fn is_good_period(start: &Chars, end: &Chars, period: &PeriodNames) -> bool
    ensures { result ≡ is_good_period start.now end.now period.now }
{
    is_same(start, &period.start) && is_same(end, &period.end)
}

fn is_good_width(columns: &[Column]) -> bool
    ensures { result ≡ is_good_width columns.now }
{
    1 <= columns.len() && columns.len() <= WIDEST
}

fn is_int(of: ColumnType) -> bool
    ensures { result ≡ is_int of }
{
    matches!(of, ColumnType::Int)
}

fn has_int_column(columns: &[Column], name: &Chars) -> bool
    ensures { result ≡ has_int_column columns.now name.now }
{
    columns
        .iter()
        .any(|column| is_same(&column.name, name) && is_int(column.of))
}

/// Whether the period of application time is between two columns of whole numbers, of which the end
/// is none of the key's, or there is no period.
fn is_good_application(
    entries: &[Entry],
    columns: &[Column],
    key: &[Chars],
    application: Option<&ApplicationPeriod>,
) -> bool
    ensures { result ≡ is_good_application entries.now columns.now key.now
        (option_copied application.entry) }
{
    match application {
        Some(period) => {
            has_int_column(columns, &period.columns.start)
                && has_int_column(columns, &period.columns.end)
                && !contains_name(key, &period.columns.end)
        }
        None => !has_application(entries),
    }
}

/// The period of application time, by the numbers of its columns.
fn period_in(
    columns: &[Column],
    application: Option<&ApplicationPeriod>,
) -> Result<Option<Period>, AllocError>
    ensures { IfOk result (λ period. period ≡ period_in columns.now (option_copied application.entry)) }
{
    match application {
        Some(period) => Ok(Some(Period {
            name: period.name.clone()?,
            from: number_in(columns, &period.columns.start),
            to: number_in(columns, &period.columns.end),
        })),
        None => Ok(None),
    }
}

/// The table with a number, where the entries make one with these names.
#[tactic(auto, unfolding(crate::specs::SchemaTable::keyed_table))]
fn keyed_table(
    alloc: Global,
    number: u8,
    declaration: &Declaration,
    start: &Chars,
    end: &Chars,
    application: Option<&ApplicationPeriod>,
    names: &[Chars],
) -> Result<Option<Table>, AllocError>
    ensures { IfOk result (λ table. table
        ≡ keyed_table number declaration.now start.now end.now (option_copied application.entry) names.now) }
{
    let entries = declaration.entries.items();
    let columns = columns_of(alloc, application, entries)?;
    let key = numbers_in(alloc, &columns, names)?;
    let is_good = is_good_key(names, &key)
        && is_good_width(&columns)
        && is_good_application(entries, &columns, names, application)
        && are_good_entries(alloc, entries)?;
    if !is_good {
        return Ok(None);
    }
    let period = period_in(&columns, application)?;
    Ok(Some(Table {
        number,
        name: declaration.name.clone()?,
        columns: Sequence::new(columns),
        key: Sequence::new(key),
        row_start: start.clone()?,
        row_end: end.clone()?,
        period,
    }))
}

/// The table with a number, where the declaration makes one.
#[tactic(auto, unfolding(crate::specs::SchemaTable::table_of))]
fn table_of(
    alloc: Global,
    number: u8,
    declaration: &Declaration,
) -> Result<Option<Table>, AllocError>
    ensures { IfOk result (λ table. table ≡ table_of number declaration.now) }
{
    let entries = declaration.entries.items();
    let Some(start) = only_side(Side::Start, entries) else {
        return Ok(None);
    };
    let Some(end) = only_side(Side::End, entries) else {
        return Ok(None);
    };
    let Some(period) = only_period(entries) else {
        return Ok(None);
    };
    let keys = keys_of(alloc, entries)?;
    let [clause] = keys.as_slice() else {
        return Ok(None);
    };
    let application = only_application(entries);
    let Some(names) = key_names(alloc, application, clause)? else {
        return Ok(None);
    };
    if !is_good_period(start, end, period) {
        return Ok(None);
    }
    keyed_table(
        alloc,
        number,
        declaration,
        start,
        end,
        application,
        names.items(),
    )
}

fn has_table(tables: &[Table], name: &Chars) -> bool
    ensures { result ≡ list_any (λ table. same_name table.name name.now) tables.now }
{
    tables.iter().any(|table| is_same(&table.name, name))
}

/// Makes the table after these, where the declaration makes a good one.
#[tactic(auto, unfolding(crate::specs::SchemaTable::next_table))]
pub fn next_table(
    alloc: Global,
    tables: &[Table],
    declaration: &Declaration,
) -> Result<Option<Table>, AllocError>
    ensures { IfOk result (λ table. table ≡ next_table tables.now declaration.now) }
{
    if tables.len() >= MOST_TABLES || has_table(tables, &declaration.name) {
        return Ok(None);
    }
    table_of(alloc, tables.len() as u8 + 1, declaration)
}
