//! Numbers, texts, and the literals of rows and comparisons.
ghost use Rattle.std.specs.Prelude.{◌≡◌, ◌≤◌, ◌<◌, ◌^◌, length, [], IfOk, IfSome};
ghost use Rattle.std.specs.Str.Parse.{AllDigits};
ghost use Rattle.std.specs.Option.{option_map};
ghost use Rattle.tokens.specs.Token.{Finds, Gives, Makes};
ghost use Rattle.statement.specs.Literal.{digits_here, digits_at, value_within, above_nought, below_nought, number_here, number_at, quoted, text_of, text_at, constant_at, literal_at, row_at, rows_at};

use crate::list::{Item, enclosed_at, list_at};
use crate::token::Blanks;
use std::alloc::{AllocError, Global};
use tokens::{After, Made, Read, Separators, Stop, split_digits, symbol_at, word_at};
use values::{Chars, MAX_INT, Sequence, Value, Values};

/// The values of rows as they are written: any number of them, and any text.
pub type WrittenRows = Sequence<Values>;

/// The number that digits write, if it is at most so great.
fn value_within(most: u64, digits: &[u8]) -> Option<u64>
    requires { AllDigits 10 digits.now }
    ensures value { result ≡ value_within most digits.now }
    ensures within { IfSome result (λ value. value ≤ most) }
{
    let mut value: u64 = 0;
    for digit in digits {
        let more = 10 * value as u128 + (*digit - b'0') as u128;
        if more > most as u128 {
            return None;
        }
        value = more as u64;
    }
    Some(value)
}

/// Reads the number at the very start, if it is at most so great, and the bytes after it.
#[tactic(auto, unfolding(crate::specs::Literal::digits_here))]
pub fn digits_here(most: u64, bytes: &[u8]) -> Option<(u64, &[u8])>
    ensures found { Finds result (digits_here most bytes.now) }
    ensures within { IfSome result (λ x. x.0 ≤ most) }
{
    let (digits, rest) = split_digits(bytes);
    if digits.is_empty() {
        return None;
    }
    let value = value_within(most, digits)?;
    Some((value, rest))
}

/// Reads digits whose number is at most so great.
#[tactic(auto, unfolding(crate::specs::Literal::digits_at))]
pub fn digits_at(most: u64, bytes: &[u8]) -> Read<'_, u64>
    ensures { Gives result (digits_at most bytes.now) }
{
    let at = Blanks::next(bytes);
    digits_here(most, at).ok_or(at)
}

/// Reads a whole number of 64 bits, whose minus is right before its digits. It is compiled into its
/// few callers.
#[inline(always)]
#[tactic(auto, unfolding(crate::specs::Literal::number_at))]
pub fn number_at(bytes: &[u8]) -> Read<'_, i64>
    ensures { Gives result (number_at bytes.now) }
{
    let at = Blanks::next(bytes);
    number_here(at).ok_or(at)
}

/// Reads the whole number of 64 bits at the very start: digits, or a minus and digits.
pub fn number_here(bytes: &[u8]) -> Option<(i64, &[u8])>
    ensures { Finds result (number_here bytes.now) }
{
    match bytes {
        [b'-', digits @ ..] => below_nought(digits),
        _ => above_nought(bytes),
    }
}

#[tactic(auto, unfolding(crate::specs::Literal::digits_here))]
fn above_nought(bytes: &[u8]) -> Option<(i64, &[u8])>
    ensures { Finds result (above_nought bytes.now) }
{
    let (value, rest) = digits_here(MAX_INT, bytes)?;
    Some((value as i64, rest))
}

fn below_nought(bytes: &[u8]) -> Option<(i64, &[u8])>
    ensures { Finds result (below_nought bytes.now) }
{
    let (value, rest) = digits_here(MAX_INT + 1, bytes)?;
    Some((-(value as i128) as i64, rest))
}

/// The text up to its closing quote, and the bytes after it. Two quotes are one of the text's.
fn quoted_text(alloc: Global, bytes: &[u8]) -> Result<Option<(Vec<u8>, &[u8])>, AllocError>
    ensures { IfOk result (λ found.
        option_map (λ x. (x.0.items, x.1.now)) found ≡ quoted bytes.now) }
{
    let room = bytes.iter().position(|byte| *byte == b'\'');
    let mut text = Vec::with_capacity(alloc, room.unwrap_or(0))?;
    let mut closed = false;
    for (i, byte) in bytes.iter().enumerate() {
        if *byte != b'\'' {
            if closed {
                return Ok(Some((text, bytes.split_at(i).1)));
            }
            text.push(*byte)?;
        } else if closed {
            text.push(b'\'')?;
            closed = false;
        } else {
            closed = true;
        }
    }
    if closed {
        Ok(Some((text, bytes.split_at(bytes.len()).1)))
    } else {
        Ok(None)
    }
}

#[tactic(auto, unfolding(crate::specs::Literal::text_of))]
fn text_of(bytes: Vec<u8>) -> Option<Value>
    ensures { result ≡ text_of bytes.items }
{
    match String::from_utf8(bytes) {
        Ok(text) => Some(Value::Text(Chars::new(text))),
        Err(_) => None,
    }
}

#[tactic(auto, unfolding(crate::specs::Literal::text_at))]
fn text_at(alloc: Global, bytes: &[u8]) -> Made<'_, Value>
    ensures { Makes result (text_at bytes.now) }
{
    let at = Blanks::next(bytes);
    let inside = symbol_at::<Blanks>(b'\'', at)?;
    let Some((text, rest)) = quoted_text(alloc, inside)? else {
        return Err(Stop::At(at));
    };
    match text_of(text) {
        Some(value) => Ok((value, rest)),
        None => Err(Stop::At(at)),
    }
}

#[tactic(auto, unfolding(crate::specs::Literal::constant_at))]
fn constant_at(bytes: &[u8]) -> Read<'_, Value>
    ensures { Gives result (constant_at bytes.now) }
{
    if let Ok(rest) = word_at::<Blanks>(b"TRUE", bytes) {
        return Ok((Value::Bool(true), rest));
    }
    if let Ok(rest) = word_at::<Blanks>(b"FALSE", bytes) {
        return Ok((Value::Bool(false), rest));
    }
    let rest = word_at::<Blanks>(b"NULL", bytes)?;
    Ok((Value::Null, rest))
}

/// Reads a literal: a text, a number, TRUE, FALSE or NULL.
#[tactic(auto, unfolding(crate::specs::Literal::literal_at))]
pub fn literal_at(alloc: Global, bytes: &[u8]) -> Made<'_, Value>
    ensures { Makes result (literal_at bytes.now) }
{
    let at = Blanks::next(bytes);
    match at {
        [b'\'', ..] => text_at(alloc, at),
        [b'-' | b'0'..=b'9', ..] => {
            let (number, rest) = number_at(at)?;
            Ok((Value::Int(number), rest))
        }
        _ => Ok(constant_at(at)?),
    }
}

/// The literals of a row.
struct Literals;

impl Item for Literals {
    ghost use Rattle.statement.specs.Token.{symbol_at};
    ghost use Rattle.statement.specs.Literal.{literal_at};

    type Value = Value;

    ghost separator = { λ _. symbol_at 44 };

    ghost item = { λ _. literal_at };

    fn after_separator<'a>(&self, bytes: &'a [u8]) -> After<'a> {
        symbol_at::<Blanks>(b',', bytes)
    }

    fn item_at<'a>(&self, alloc: Global, bytes: &'a [u8]) -> Made<'a, Value> {
        literal_at(alloc, bytes)
    }
}

/// Reads a row's values, in the order in which they are written.
#[tactic(auto, unfolding(crate::specs::Literal::row_at))]
pub fn row_at(alloc: Global, bytes: &[u8]) -> Made<'_, Values>
    ensures { Makes result (row_at bytes.now) }
{
    let (values, rest) = enclosed_at(&Literals, alloc, bytes)?;
    Ok((Values::new(values), rest))
}

/// The rows of an INSERT.
struct ListedRows;

impl Item for ListedRows {
    ghost use Rattle.statement.specs.Token.{symbol_at};
    ghost use Rattle.statement.specs.Literal.{row_at};

    type Value = Values;

    ghost separator = { λ _. symbol_at 44 };

    ghost item = { λ _. row_at };

    fn after_separator<'a>(&self, bytes: &'a [u8]) -> After<'a> {
        symbol_at::<Blanks>(b',', bytes)
    }

    fn item_at<'a>(&self, alloc: Global, bytes: &'a [u8]) -> Made<'a, Values> {
        row_at(alloc, bytes)
    }
}

/// Reads the rows of an INSERT.
#[tactic(auto, unfolding(crate::specs::Literal::rows_at))]
pub fn rows_at(alloc: Global, bytes: &[u8]) -> Made<'_, WrittenRows>
    ensures { Makes result (rows_at bytes.now) }
{
    let (rows, rest) = list_at(&ListedRows, alloc, bytes)?;
    Ok((WrittenRows::new(rows), rest))
}
