//! Whether rows, keys, comparisons and new values fit a table.
ghost use Rattle.std.specs.Prelude.{◌≡◌, ◌==◌, ◌||◌, length, [], option_copied};
ghost use Rattle.std.specs.List.{list_any};
ghost use Rattle.values.specs.Columns.{is_name_of, is_good_type, addition_fault};
ghost use Rattle.values.specs.Tables.{column_at, is_key_column, is_fixed_column, ends_period};
ghost use Rattle.values.specs.Fit.{is_line_break, continues, character_count, text_limit, fits_text, fits_type, fits_value, row_fault, first_fault, rows_fault, key_fault, part_fault, parts_fault, can_compare, comparison_fault, comparisons_fault, set_fault, sets_fault};
ghost use Rattle.values.specs.Fitting.{no_fault};
ghost use Rattle.values.specs.Names.{same_name, names_period};

use crate::query::{ColumnNumber, Comparison, Set};
use crate::refusal::Refusal;
use crate::row::{LONGEST_TEXT, Row, WIDEST};
use crate::table::{Column, ColumnType, Table, same_name};
use crate::value::Value;

/// The bytes that a text of a key may have.
const LONGEST_KEY_TEXT: usize = 200;

fn has_line_break(text: &[u8]) -> bool
    ensures { result ≡ list_any is_line_break text.now }
{
    text.iter().any(|byte| *byte == b'\n' || *byte == b'\r')
}

fn continues(byte: u8) -> bool
    ensures { result ≡ continues byte }
{
    128 <= byte && byte < 192
}

fn character_count(text: &[u8]) -> usize
    ensures { result ≡ character_count text.now }
{
    text.iter().filter(|byte| !continues(**byte)).count()
}

fn fits_text(most: usize, text: &str) -> bool
    ensures { result ≡ fits_text most text.now }
{
    text.len() <= most && !has_line_break(text.as_bytes())
}

fn fits_type(most: usize, of: ColumnType, value: &Value) -> bool
    ensures { result ≡ fits_type most of value.now }
{
    match of {
        ColumnType::Int => matches!(value, Value::Int(_)),
        ColumnType::Boolean => matches!(value, Value::Bool(_)),
        ColumnType::Text => match value {
            Value::Text(text) => fits_text(most, text.text()),
            _ => false,
        },
        ColumnType::Varchar(characters) => match value {
            Value::Text(text) => {
                fits_text(most, text.text())
                    && character_count(text.text().as_bytes()) <= characters as usize
            }
            _ => false,
        },
    }
}

fn fits_value(in_key: bool, column: &Column, value: &Value) -> bool
    ensures { result ≡ fits_value in_key column.now value.now }
{
    match value {
        Value::Null => !(column.not_null || in_key),
        _ => fits_type(text_limit(in_key), column.of, value),
    }
}

fn text_limit(in_key: bool) -> usize
    ensures { result ≡ text_limit in_key }
{
    if in_key {
        LONGEST_KEY_TEXT
    } else {
        LONGEST_TEXT
    }
}

fn can_compare(of: ColumnType, value: &Value) -> bool
    ensures { result ≡ can_compare of value.now }
{
    match of {
        ColumnType::Varchar(_) => fits_type(LONGEST_KEY_TEXT, ColumnType::Text, value),
        ColumnType::Int | ColumnType::Text | ColumnType::Boolean => {
            fits_type(LONGEST_KEY_TEXT, of, value)
        }
    }
}

/// The refusal that names a column, where one is at fault.
fn no_fault(fault: Option<usize>) -> Result<(), Refusal>
    ensures { result ≡ no_fault fault }
{
    match fault {
        None => Ok(()),
        Some(column) => Err(Refusal::BadRow(column)),
    }
}

/// Tells whether a column may have a type: VARCHAR is of 1 to 1,000 characters.
pub fn is_good_type(of: ColumnType) -> bool
    ensures { result ≡ is_good_type of }
{
    match of {
        ColumnType::Varchar(characters) => 1 <= characters && characters as usize <= LONGEST_TEXT,
        ColumnType::Int | ColumnType::Text | ColumnType::Boolean => true,
    }
}

impl Table {
    /// Returns a user column.
    pub fn column_at(&self, number: ColumnNumber) -> Option<&Column>
        ensures { option_copied result ≡ column_at self.now number }
    {
        if number == 0 {
            return None;
        }
        self.columns.items().get(number - 1)
    }

    /// Tells whether a column is one of the key's.
    pub fn is_key_column(&self, number: ColumnNumber) -> bool
        ensures { result ≡ is_key_column self.now number }
    {
        self.key.items().iter().any(|column| *column == number)
    }

    /// Tells whether no statement may set a column: it is one of the key's, or the end of the
    /// table's period.
    pub fn is_fixed_column(&self, number: ColumnNumber) -> bool
        ensures { result ≡ is_fixed_column self.now number }
    {
        self.is_key_column(number) || self.ends_period(number)
    }

    fn ends_period(&self, number: ColumnNumber) -> bool
        ensures { result ≡ ends_period self.now.period number }
    {
        match &self.period {
            None => false,
            Some(period) => period.to == number,
        }
    }

    /// Refuses the values of a row that does not fit by the number of its first column that does
    /// not, or by 0 for its width, which comes first.
    pub fn check_row(&self, values: &[Value]) -> Result<(), Refusal>
        ensures { result ≡ no_fault (row_fault self.now values.now) }
    {
        no_fault(self.row_fault(values))
    }

    /// Refuses rows by the first of them that does not fit.
    pub fn check_rows(&self, rows: &[Row]) -> Result<(), Refusal>
        ensures { result ≡ no_fault (rows_fault self.now rows.now) }
    {
        for row in rows {
            if let Some(column) = self.row_fault(row.values()) {
                return Err(Refusal::BadRow(column));
            }
        }
        Ok(())
    }

    /// Refuses the values of a key, in its order, like a row's.
    pub fn check_key(&self, parts: &[Value]) -> Result<(), Refusal>
        ensures { result ≡ no_fault (key_fault self.now parts.now) }
    {
        if self.key.items().len() != parts.len() {
            return Err(Refusal::BadRow(0));
        }
        no_fault(self.parts_fault(self.key.items(), parts))
    }

    /// Refuses comparisons by the first that names no column (0), one outside the key, or a value
    /// that it cannot be compared with.
    pub fn check_comparisons(&self, comparisons: &[Comparison]) -> Result<(), Refusal>
        ensures { result ≡ no_fault (comparisons_fault self.now comparisons.now) }
    {
        for comparison in comparisons {
            if let Some(column) = self.comparison_fault(comparison) {
                return Err(Refusal::BadRow(column));
            }
        }
        Ok(())
    }

    /// Refuses what an UPDATE sets by the first entry that names no column or one twice (0), a key
    /// column, the end of the table's period, or a value that does not fit.
    pub fn check_sets(&self, sets: &[Set]) -> Result<(), Refusal>
        ensures { result ≡ no_fault (sets_fault self.now [] sets.now) }
    {
        for (i, set) in sets.iter().enumerate() {
            if let Some(column) = self.set_fault(sets.split_at(i).0, set) {
                return Err(Refusal::BadRow(column));
            }
        }
        Ok(())
    }

    /// Refuses a column that the table cannot get, by 0: its name is one of the table's columns,
    /// those of system time included, or that of its period, in any case; the table has 16 user
    /// columns; or a VARCHAR is not of 1 to 1,000 characters.
    pub fn check_column(&self, name: &[u8], of: ColumnType) -> Result<(), Refusal>
        ensures { result ≡ no_fault (addition_fault name.now of self.now) }
    {
        if self.is_name_of(name) || self.columns.items().len() >= WIDEST || !is_good_type(of) {
            return Err(Refusal::BadRow(0));
        }
        Ok(())
    }

    /// Tells whether a name is that of the table's period of application time, in any case.
    pub fn names_period(&self, name: &[u8]) -> bool
        ensures { result ≡ names_period self.now.period name.now }
    {
        match &self.period {
            None => false,
            Some(period) => same_name(period.name.text().as_bytes(), name),
        }
    }

    /// Whether a name is one of the table's columns, those of system time included, or that of its
    /// period.
    fn is_name_of(&self, name: &[u8]) -> bool
        ensures { result ≡ is_name_of self.now name.now }
    {
        self.column(name).is_some()
            || same_name(self.row_start.text().as_bytes(), name)
            || same_name(self.row_end.text().as_bytes(), name)
            || self.names_period(name)
    }

    fn row_fault(&self, values: &[Value]) -> Option<usize>
        ensures { result ≡ row_fault self.now values.now }
    {
        if self.columns.items().len() != values.len() {
            return Some(0);
        }
        self.first_fault(self.columns.items(), values)
    }

    fn first_fault(&self, columns: &[Column], values: &[Value]) -> Option<usize>
        requires { length columns.now ≡ length values.now }
        ensures { result ≡ first_fault self.now 1 columns.now values.now }
    {
        for (i, column) in columns.iter().enumerate() {
            if !fits_value(self.is_key_column(i + 1), column, &values[i]) {
                return Some(i + 1);
            }
        }
        None
    }

    fn parts_fault(&self, columns: &[ColumnNumber], parts: &[Value]) -> Option<usize>
        requires { length columns.now ≡ length parts.now }
        ensures { result ≡ parts_fault self.now columns.now parts.now }
    {
        for (i, number) in columns.iter().enumerate() {
            if let Some(column) = self.part_fault(*number, &parts[i]) {
                return Some(column);
            }
        }
        None
    }

    fn part_fault(&self, number: ColumnNumber, part: &Value) -> Option<usize>
        ensures { result ≡ part_fault self.now number part.now }
    {
        match self.column_at(number) {
            None => Some(0),
            Some(column) => {
                if fits_value(true, column, part) {
                    None
                } else {
                    Some(number)
                }
            }
        }
    }

    fn comparison_fault(&self, comparison: &Comparison) -> Option<usize>
        ensures { result ≡ comparison_fault self.now comparison.now }
    {
        let number = comparison.column;
        match self.column_at(number) {
            None => Some(0),
            Some(column) => {
                if self.is_key_column(number) && can_compare(column.of, &comparison.value) {
                    None
                } else {
                    Some(number)
                }
            }
        }
    }

    fn set_fault(&self, earlier: &[Set], set: &Set) -> Option<usize>
        ensures { result ≡ set_fault self.now earlier.now set.now }
    {
        let number = set.column;
        let Some(column) = self.column_at(number) else {
            return Some(0);
        };
        if sets_column(earlier, number) {
            Some(0)
        } else if self.is_fixed_column(number) || !fits_value(false, column, &set.value) {
            Some(number)
        } else {
            None
        }
    }
}

/// Whether an entry sets the column.
fn sets_column(sets: &[Set], column: ColumnNumber) -> bool
    ensures { result ≡ list_any (λ s. s.column == column) sets.now }
{
    sets.iter().any(|set| set.column == column)
}
