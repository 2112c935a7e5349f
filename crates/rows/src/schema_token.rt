//! Reads the tokens of a schema.

ghost use Rattle.std.specs.Prelude.{◌≡◌, length, IfOk, IsUtf8};
ghost use Rattle.std.specs.Char.{is_ascii_digit};
ghost use Rattle.tokens.specs.Token.{Gives, Makes};
ghost use Rattle.rows.specs.SchemaToken.{is_separator, next, name_at, number_from, digits_at};

use std::alloc::{AllocError, Global};
use tokens::{Made, Read, Separators, name_at, split_digits};
use values::Chars;

/// Blanks, line ends and comments, which two hyphens begin and the line's end ends.
pub struct Gaps;

impl Separators for Gaps {
    ghost use Rattle.rows.specs.SchemaToken.{next};

    ghost next = { next };

    fn next(bytes: &[u8]) -> &[u8] {
        let mut rest = bytes;
        let mut in_comment = false;
        while let [byte, others @ ..] = rest {
            if in_comment {
                in_comment = *byte != b'\n';
            } else if *byte == b'-' && others.first() == Some(&b'-') {
                in_comment = true;
            } else if !is_separator(*byte) {
                return rest;
            }
            rest = others;
        }
        rest
    }
}

fn is_separator(byte: u8) -> bool
    ensures { result ≡ is_separator byte }
{
    byte == b' ' || byte == b'\t' || byte == b'\n' || byte == b'\r'
}

fn chars_of(alloc: Global, bytes: &[u8]) -> Result<Chars, AllocError>
    requires { IsUtf8 bytes.now }
    ensures { IfOk result (λ chars. chars ≡ bytes.now) }
{
    match str::from_utf8(bytes) {
        Ok(text) => Ok(Chars::new(String::from_str(alloc, text)?)),
        Err(_) => unreachable!(),
    }
}

/// Reads a name that is kept.
pub fn chars_at(alloc: Global, bytes: &[u8]) -> Made<'_, Chars>
    ensures { Makes result (name_at bytes.now) }
{
    let (name, rest) = name_at::<Gaps>(bytes)?;
    Ok((chars_of(alloc, name)?, rest))
}

/// The number that digits make; 65,535 for all that are greater.
fn number_of(digits: &[u8]) -> u16
    ensures { result ≡ number_from 0 digits.now }
{
    let mut n: u16 = 0;
    for digit in digits {
        n = (10 * n as u32 + (*digit).saturating_sub(b'0') as u32).min(65_535) as u16;
    }
    n
}

/// Reads the number that digits write; 65,535 for all that are greater.
#[tactic(auto, unfolding(crate::specs::SchemaToken::digits_at))]
pub fn digits_at(bytes: &[u8]) -> Read<'_, u16>
    ensures { Gives result (digits_at bytes.now) }
{
    let at = Gaps::next(bytes);
    let (digits, rest) = split_digits(at);
    if digits.is_empty() {
        Err(at)
    } else {
        Ok((number_of(digits), rest))
    }
}
