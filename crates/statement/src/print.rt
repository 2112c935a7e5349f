//! Replies as they are printed.
#![tactic(auto, using(crate::proofs::WriterPrefixes::joins))]

ghost use Rattle.std.specs.Fmt.{signed_decimal};
ghost use Rattle.std.specs.List.{list_any};
ghost use Rattle.std.specs.Prelude.{◌≡◌, List, ℕ, ◌==◌, ◌++◌, ◌∷◌, [], decimal, codes, flat_map};
ghost use Rattle.statement.specs.Writer.{Prints};
ghost use Rattle.statement.specs.Print.{line, numbered, quoted_byte, quoted, value_text, next_text, values_text, end_text, row_line, shown_line, listing_text, refusal_text, reply_text};

use crate::writer::{WriteFault, print_number, write_all};
use arrayvec::ArrayVec;
use std::io::Write;
use steps::{Listing, Reply};
use values::{Instant, Key, Refusal, Shown, ShownRow, Value};

/// What encloses a text, and is doubled inside it.
const QUOTE: u8 = b'\'';

type Printed = Result<(), WriteFault>;

/// The line of a row, put together before it is written. It takes as many bytes as fit.
type RowLine = ArrayVec<u8, LONGEST_ROW_LINE>;

/// The most bytes of a row's line that is written at once.
const LONGEST_ROW_LINE: usize = 128;

/// Writes a reply: one line, and one more for each row that it shows. Where the writer fails, it
/// took a prefix of that text.
pub fn print_reply<W: Write>(writer: &mut W, reply: &Reply) -> Printed
    ensures { Prints (W.contents writer.old) (W.contents writer.new) result (reply_text reply.now) }
{
    match reply {
        Reply::Begun(instant) => print_numbered(writer, b"begun ", *instant),
        Reply::Inserted(count) => print_numbered(writer, b"inserted ", *count as u64),
        Reply::Updated(count) => print_numbered(writer, b"updated ", *count as u64),
        Reply::Deleted(count) => print_numbered(writer, b"deleted ", *count as u64),
        Reply::Shown(listing) => print_listing(writer, listing),
        Reply::Committed(None) => write_all(writer, b"committed nothing\n"),
        Reply::Committed(Some(instant)) => print_numbered(writer, b"committed ", *instant),
        Reply::RolledBack => write_all(writer, b"rolled back\n"),
        Reply::Altered => write_all(writer, b"altered\n"),
        Reply::Done => write_all(writer, b"ok\n"),
        Reply::Refused(refusal) => print_refusal(writer, refusal),
    }
}

/// Writes the reply to a refused step.
pub fn print_refusal<W: Write>(writer: &mut W, refusal: &Refusal) -> Printed
    ensures { Prints (W.contents writer.old) (W.contents writer.new) result
        (refusal_text refusal.now) }
{
    match refusal {
        Refusal::Syntax(byte) => print_numbered(writer, b"E1 syntax at ", *byte as u64),
        Refusal::NoTable => write_all(writer, b"E2 no table\n"),
        Refusal::BadRow(column) => print_numbered(writer, b"E3 bad row at column ", *column as u64),
        Refusal::NoTransaction => write_all(writer, b"E4 no transaction\n"),
        Refusal::InTransaction => write_all(writer, b"E5 in transaction\n"),
        Refusal::DuplicateKey(key) => print_key(writer, b"E6 duplicate key ", key),
        Refusal::Conflict(key, instant) => print_conflict(writer, key, *instant),
        Refusal::ClockEnd => write_all(writer, b"E8 clock end\n"),
        Refusal::TooManyWrites => write_all(writer, b"E9 too many writes\n"),
        Refusal::Memory => write_all(writer, b"E10 memory\n"),
        Refusal::NoSession => write_all(writer, b"E11 no session\n"),
        Refusal::LineTooLong => write_all(writer, b"E12 line too long\n"),
        Refusal::JournalFull => write_all(writer, b"E13 journal full\n"),
        Refusal::Overlap(key) => print_key(writer, b"E14 overlap ", key),
        Refusal::BadPeriod => write_all(writer, b"E15 bad period\n"),
        Refusal::TransactionsOpen => write_all(writer, b"E16 transactions open\n"),
    }
}

/// Writes a label, a number in decimal and a line feed, and takes no memory. Where the writer
/// fails, it took a prefix of that text.
pub fn print_numbered<W: Write>(writer: &mut W, label: &[u8], number: u64) -> Printed
    ensures { Prints (W.contents writer.old) (W.contents writer.new) result
        (numbered label.now number) }
{
    write_all(writer, label)?;
    print_number_line(writer, number)
}

fn print_number_line<W: Write>(writer: &mut W, number: u64) -> Printed
    ensures { Prints (W.contents writer.old) (W.contents writer.new) result
        (line (decimal number)) }
{
    print_number(writer, number)?;
    write_all(writer, b"\n")
}

fn print_key<W: Write>(writer: &mut W, label: &[u8], key: &Key) -> Printed
    ensures { Prints (W.contents writer.old) (W.contents writer.new) result
        (label.now ++ line (values_text key.now.parts)) }
{
    write_all(writer, label)?;
    print_values_line(writer, key.parts.items())
}

fn print_conflict<W: Write>(writer: &mut W, key: &Key, instant: Instant) -> Printed
    ensures { Prints (W.contents writer.old) (W.contents writer.new) result
        (refusal_text (Refusal.Conflict key.now instant)) }
{
    write_all(writer, b"E7 conflict ")?;
    print_winner(writer, key, instant)
}

fn print_winner<W: Write>(writer: &mut W, key: &Key, instant: Instant) -> Printed
    ensures { Prints (W.contents writer.old) (W.contents writer.new) result
        (values_text key.now.parts ++ numbered (codes " at ") instant) }
{
    print_values(writer, key.parts.items(), b") at ")?;
    print_number_line(writer, instant)
}

fn print_listing<W: Write>(writer: &mut W, listing: &Listing) -> Printed
    ensures { Prints (W.contents writer.old) (W.contents writer.new) result
        (listing_text listing.now) }
{
    match listing {
        Listing::Rows(rows) => print_rows(writer, rows.items()),
        Listing::Periods(shown) => print_periods(writer, shown.items()),
    }
}

fn print_rows<W: Write>(writer: &mut W, rows: &[ShownRow]) -> Printed
    ensures { Prints (W.contents writer.old) (W.contents writer.new) result
        (listing_text (Listing.Rows rows.now)) }
{
    print_numbered(writer, b"rows ", rows.len() as u64)?;
    print_row_lines(writer, rows)
}

fn print_row_lines<W: Write>(writer: &mut W, rows: &[ShownRow]) -> Printed
    ensures { Prints (W.contents writer.old) (W.contents writer.new) result
        (flat_map row_line rows.now) }
{
    for row in rows {
        print_row(writer, row)?;
    }
    Ok(())
}

/// Writes the line of a row at once, where it is not too long for that.
fn print_row<W: Write>(writer: &mut W, row: &ShownRow) -> Printed
    ensures { Prints (W.contents writer.old) (W.contents writer.new) result (row_line row.now) }
{
    let mut line = RowLine::new();
    match put_row(&mut line, row) {
        Ok(()) => write_all(writer, line.as_slice()),
        Err(WriteFault) => put_row(writer, row),
    }
}

/// Writes the line of a row, value by value.
fn put_row<W: Write>(writer: &mut W, row: &ShownRow) -> Printed
    ensures { Prints (W.contents writer.old) (W.contents writer.new) result (row_line row.now) }
{
    print_values_line(writer, row.values())
}

fn print_periods<W: Write>(writer: &mut W, shown: &[Shown]) -> Printed
    ensures { Prints (W.contents writer.old) (W.contents writer.new) result
        (listing_text (Listing.Periods shown.now)) }
{
    print_numbered(writer, b"rows ", shown.len() as u64)?;
    print_shown_lines(writer, shown)
}

fn print_shown_lines<W: Write>(writer: &mut W, shown: &[Shown]) -> Printed
    ensures { Prints (W.contents writer.old) (W.contents writer.new) result
        (flat_map shown_line shown.now) }
{
    for one in shown {
        print_shown(writer, one)?;
    }
    Ok(())
}

/// Writes the line of a version at once, where it is not too long for that.
fn print_shown<W: Write>(writer: &mut W, shown: &Shown) -> Printed
    ensures { Prints (W.contents writer.old) (W.contents writer.new) result (shown_line shown.now) }
{
    let mut line = RowLine::new();
    match put_shown(&mut line, shown) {
        Ok(()) => write_all(writer, line.as_slice()),
        Err(WriteFault) => put_shown(writer, shown),
    }
}

/// Writes the line of a version, value by value.
fn put_shown<W: Write>(writer: &mut W, shown: &Shown) -> Printed
    ensures { Prints (W.contents writer.old) (W.contents writer.new) result (shown_line shown.now) }
{
    print_values(writer, shown.row.values(), b") from ")?;
    print_ends(writer, shown.from, shown.to)
}

fn print_ends<W: Write>(writer: &mut W, from: Instant, to: Option<Instant>) -> Printed
    ensures { Prints (W.contents writer.old) (W.contents writer.new) result
        (decimal from ++ (codes " to " ++ line (end_text to))) }
{
    print_number(writer, from)?;
    print_end(writer, to)
}

fn print_end<W: Write>(writer: &mut W, to: Option<Instant>) -> Printed
    ensures { Prints (W.contents writer.old) (W.contents writer.new) result
        (codes " to " ++ line (end_text to)) }
{
    match to {
        None => write_all(writer, b" to forever\n"),
        Some(instant) => print_numbered(writer, b" to ", instant),
    }
}

fn print_values_line<W: Write>(writer: &mut W, values: &[Value]) -> Printed
    ensures { Prints (W.contents writer.old) (W.contents writer.new) result
        (line (values_text values.now)) }
{
    print_values(writer, values, b")\n")
}

/// Writes values in parentheses. `ends` is the one that closes them and what is behind it: they are
/// written at once.
#[tactic(auto, using(crate::proofs::PrintEnds::ended_none, crate::proofs::PrintEnds::ended_first))]
fn print_values<W: Write>(writer: &mut W, values: &[Value], ends: &[u8]) -> Printed
    ensures { (behind : List ℕ) → ends.now ≡ codes ")" ++ behind
        → Prints (W.contents writer.old) (W.contents writer.new) result
        (values_text values.now ++ behind) }
{
    match values {
        [] => print_none(writer, ends),
        [first, others @ ..] => print_first(writer, first, others, ends),
    }
}

fn print_none<W: Write>(writer: &mut W, ends: &[u8]) -> Printed
    ensures { Prints (W.contents writer.old) (W.contents writer.new) result
        (codes "(" ++ ends.now) }
{
    write_all(writer, b"(")?;
    write_all(writer, ends)
}

fn print_first<W: Write>(writer: &mut W, first: &Value, others: &[Value], ends: &[u8]) -> Printed
    ensures { Prints (W.contents writer.old) (W.contents writer.new) result
        (codes "(" ++ (value_text first.now ++ (flat_map next_text others.now ++ ends.now))) }
{
    write_all(writer, b"(")?;
    print_inside(writer, first, others, ends)
}

fn print_inside<W: Write>(writer: &mut W, first: &Value, others: &[Value], ends: &[u8]) -> Printed
    ensures { Prints (W.contents writer.old) (W.contents writer.new) result
        (value_text first.now ++ (flat_map next_text others.now ++ ends.now)) }
{
    print_value(writer, first)?;
    print_others(writer, others, ends)
}

fn print_others<W: Write>(writer: &mut W, others: &[Value], ends: &[u8]) -> Printed
    ensures { Prints (W.contents writer.old) (W.contents writer.new) result
        (flat_map next_text others.now ++ ends.now) }
{
    print_next_values(writer, others)?;
    write_all(writer, ends)
}

fn print_next_values<W: Write>(writer: &mut W, values: &[Value]) -> Printed
    ensures { Prints (W.contents writer.old) (W.contents writer.new) result
        (flat_map next_text values.now) }
{
    for value in values {
        print_next(writer, value)?;
    }
    Ok(())
}

fn print_next<W: Write>(writer: &mut W, value: &Value) -> Printed
    ensures { Prints (W.contents writer.old) (W.contents writer.new) result (next_text value.now) }
{
    match value {
        Value::Text(text) => print_next_text(writer, text.text().as_bytes()),
        Value::Int(number) => print_next_number(writer, *number),
        Value::Bool(true) => write_all(writer, b", true"),
        Value::Bool(false) => write_all(writer, b", false"),
        Value::Null => write_all(writer, b", null"),
    }
}

fn print_next_text<W: Write>(writer: &mut W, text: &[u8]) -> Printed
    ensures { Prints (W.contents writer.old) (W.contents writer.new) result
        (codes ", '" ++ (quoted text.now ++ codes "'")) }
{
    write_all(writer, b", '")?;
    print_text(writer, text)
}

fn print_next_number<W: Write>(writer: &mut W, number: i64) -> Printed
    ensures { Prints (W.contents writer.old) (W.contents writer.new) result
        (codes ", " ++ signed_decimal number) }
{
    write_all(writer, b", ")?;
    print_number(writer, number)
}

/// Writes a value as a line has it: a number in decimal, a text in quotes with each quote in it
/// doubled, `true`, `false` or `null`. Where the writer fails, it took a prefix of that text.
pub fn print_value<W: Write>(writer: &mut W, value: &Value) -> Printed
    ensures { Prints (W.contents writer.old) (W.contents writer.new) result (value_text value.now) }
{
    match value {
        Value::Int(number) => print_number(writer, *number),
        Value::Text(text) => print_quoted(writer, text.text().as_bytes()),
        Value::Bool(true) => write_all(writer, b"true"),
        Value::Bool(false) => write_all(writer, b"false"),
        Value::Null => write_all(writer, b"null"),
    }
}

fn print_quoted<W: Write>(writer: &mut W, text: &[u8]) -> Printed
    ensures { Prints (W.contents writer.old) (W.contents writer.new) result
        (codes "'" ++ (quoted text.now ++ codes "'")) }
{
    write_all(writer, b"'")?;
    print_text(writer, text)
}

fn print_text<W: Write>(writer: &mut W, text: &[u8]) -> Printed
    ensures { Prints (W.contents writer.old) (W.contents writer.new) result
        (quoted text.now ++ codes "'") }
{
    print_doubled(writer, text)?;
    write_all(writer, b"'")
}

/// Writes a text with each quote doubled.
fn print_doubled<W: Write>(writer: &mut W, text: &[u8]) -> Printed
    ensures { Prints (W.contents writer.old) (W.contents writer.new) result (quoted text.now) }
{
    if has_quote(text) {
        print_bytes(writer, text)
    } else {
        write_all(writer, text)
    }
}

fn has_quote(text: &[u8]) -> bool
    ensures { result ≡ list_any (λ byte. byte == 39) text.now }
{
    text.iter().any(|byte| *byte == QUOTE)
}

fn print_bytes<W: Write>(writer: &mut W, text: &[u8]) -> Printed
    ensures { Prints (W.contents writer.old) (W.contents writer.new) result (quoted text.now) }
{
    for byte in text {
        print_byte(writer, *byte)?;
    }
    Ok(())
}

fn print_byte<W: Write>(writer: &mut W, byte: u8) -> Printed
    ensures { Prints (W.contents writer.old) (W.contents writer.new) result (quoted_byte byte) }
{
    if byte == QUOTE {
        write_all(writer, b"''")
    } else {
        write_all(writer, &[byte])
    }
}
