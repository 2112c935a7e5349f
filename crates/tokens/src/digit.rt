//! The digits at the start of a text.
ghost use Rattle.std.specs.Prelude.{◌≡◌, ◌≤◌, length};
ghost use Rattle.tokens.specs.Digit.{capped_from, capped_at};
ghost use Rattle.std.specs.Char.{is_ascii_digit};
ghost use Rattle.std.specs.List.{prefix_len};
ghost use Rattle.tokens.specs.Token.{Gives, prefix_while, skip_while};

use crate::token::{Read, Separators};

/// The number of digits at the start.
fn digit_count(bytes: &[u8]) -> usize
    ensures count { result ≡ prefix_len is_ascii_digit bytes.now }
    ensures within { result ≤ length bytes.now }
{
    for (i, byte) in bytes.iter().enumerate() {
        if !byte.is_ascii_digit() {
            return i;
        }
    }
    bytes.len()
}

/// Splits off the digits at the start, as many as come, from the bytes after them.
pub fn split_digits(bytes: &[u8]) -> (&[u8], &[u8])
    ensures digits { result.0.now ≡ prefix_while is_ascii_digit bytes.now }
    ensures rest { result.1.now ≡ skip_while is_ascii_digit bytes.now }
{
    bytes.split_at(digit_count(bytes))
}

/// The number that digits write; 65,535 for all that are greater.
fn capped_number(digits: &[u8]) -> u16
    ensures { result ≡ capped_from 0 digits.now }
{
    let mut n: u16 = 0;
    for digit in digits {
        n = (10 * n as u32 + (*digit).saturating_sub(b'0') as u32).min(65_535) as u16;
    }
    n
}

/// Reads the number that digits write; 65,535 for all that are greater.
#[tactic(auto, unfolding(crate::specs::Digit::capped_at))]
pub fn capped_at<S: Separators>(bytes: &[u8]) -> Read<'_, u16>
    ensures { Gives result (capped_at S.next bytes.now) }
{
    let at = S::next(bytes);
    let (digits, rest) = split_digits(at);
    if digits.is_empty() {
        Err(at)
    } else {
        Ok((capped_number(digits), rest))
    }
}
