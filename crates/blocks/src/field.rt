//! The fields of a block.
ghost use Rattle.std.specs.Prelude.{◌≡◌, ◌≤◌, ◌++◌, length, OnOk, IfOk, IfSome, option_copied};
ghost use Rattle.values.specs.KeyEncoding.{longest_key};
ghost use Rattle.values.specs.RowReading.{Parses};
ghost use Rattle.blocks.specs.Field.{key_field, end_field, instant_field, part_from, length_from, key_of_length, key_from, end_tagged, end_from, instant_from, byte_from};

use std::alloc::{AllocError, Global};
use values::{Instant, KeyBytes, LONGEST_KEY};

/// The length of a key. A key that is owned is known to be short enough: no clause says so of one
/// that is lent.
fn length_of(key: KeyBytes) -> u16
    ensures is { result ≡ length key }
    ensures short { length key ≤ longest_key }
{
    key.bytes().len() as u16
}

/// Appends a key behind its length, in two bytes.
pub(crate) fn push_key(bytes: &mut Vec<u8>, key: &KeyBytes) -> Result<(), AllocError>
    ensures ok { OnOk result (bytes.new.items ≡ bytes.old.items ++ key_field key.now) }
    ensures short { OnOk result (length key.now ≤ longest_key) }
{
    bytes.extend_from_slice(&length_of(key.clone()?).to_be_bytes())?;
    bytes.extend_from_slice(key.bytes())
}

/// Appends an upper key, or that there is none.
pub(crate) fn push_end(bytes: &mut Vec<u8>, end: &Option<KeyBytes>) -> Result<(), AllocError>
    ensures ok { OnOk result (bytes.new.items ≡ bytes.old.items ++ end_field end.now) }
    ensures short { OnOk result (IfSome end.now (λ key. length key ≤ longest_key)) }
{
    match end {
        None => bytes.extend_from_slice(&[0]),
        Some(key) => {
            bytes.push(1)?;
            push_key(bytes, key)
        }
    }
}

/// Appends an instant.
pub(crate) fn push_instant(bytes: &mut Vec<u8>, instant: Instant) -> Result<(), AllocError>
    ensures { OnOk result (bytes.new.items ≡ bytes.old.items ++ instant_field instant) }
{
    bytes.extend_from_slice(&instant.to_be_bytes())
}

/// Splits off so many bytes from those behind them.
#[tactic(auto, unfolding(crate::specs::Field::part_from))]
pub(crate) fn part_from(n: usize, bytes: &[u8]) -> Option<(&[u8], &[u8])>
    ensures taken { Parses (λ part. part.now) result (part_from n bytes.now) }
    ensures length { IfSome result (λ x. length x.0.now ≡ n) }
{
    if bytes.len() < n {
        return None;
    }
    Some(bytes.split_at(n))
}

/// Reads a length of two bytes.
#[tactic(auto, unfolding(crate::specs::Field::length_from))]
pub(crate) fn length_from(bytes: &[u8]) -> Option<(u16, &[u8])>
    ensures { Parses (λ n. n) result (length_from bytes.now) }
{
    let (n, rest) = bytes.split_first_chunk::<2>()?;
    Some((u16::from_be_bytes(*n), rest))
}

#[tactic(auto, unfolding(crate::specs::Field::key_of_length))]
fn key_of_length(n: usize, bytes: &[u8]) -> Option<(&[u8], &[u8])>
    ensures taken { Parses (λ key. key.now) result (key_of_length n bytes.now) }
    ensures short { IfSome result (λ x. length x.0.now ≤ longest_key) }
{
    if n > LONGEST_KEY {
        return None;
    }
    let (key, rest) = part_from(n, bytes)?;
    Some((key, rest))
}

/// Reads the bytes of a key.
#[tactic(auto, unfolding(crate::specs::Field::key_from))]
pub(crate) fn key_from(bytes: &[u8]) -> Option<(&[u8], &[u8])>
    ensures taken { Parses (λ key. key.now) result (key_from bytes.now) }
    ensures short { IfSome result (λ x. length x.0.now ≤ longest_key) }
{
    let (n, rest) = length_from(bytes)?;
    key_of_length(n as usize, rest)
}

#[tactic(auto, unfolding(crate::specs::Field::end_tagged))]
fn end_tagged(tag: u8, bytes: &[u8]) -> Option<(Option<&[u8]>, &[u8])>
    ensures taken { Parses (λ end. option_copied end) result (end_tagged tag bytes.now) }
    ensures short { IfSome result (λ x. IfSome x.0 (λ key. length key.now ≤ longest_key)) }
{
    match tag {
        0 => Some((None, bytes)),
        1 => {
            let (key, rest) = key_from(bytes)?;
            Some((Some(key), rest))
        }
        _ => None,
    }
}

/// Reads the bytes of an upper key, where there is one.
pub(crate) fn end_from(bytes: &[u8]) -> Option<(Option<&[u8]>, &[u8])>
    ensures taken { Parses (λ end. option_copied end) result (end_from bytes.now) }
    ensures short { IfSome result (λ x. IfSome x.0 (λ key. length key.now ≤ longest_key)) }
{
    let (tag, rest) = byte_from(bytes)?;
    end_tagged(tag, rest)
}

/// Reads an instant.
#[tactic(auto, unfolding(crate::specs::Field::instant_from))]
pub(crate) fn instant_from(bytes: &[u8]) -> Option<(Instant, &[u8])>
    ensures { Parses (λ instant. instant) result (instant_from bytes.now) }
{
    let (instant, rest) = bytes.split_first_chunk::<8>()?;
    Some((u64::from_be_bytes(*instant), rest))
}

/// Reads a byte.
pub(crate) fn byte_from(bytes: &[u8]) -> Option<(u8, &[u8])>
    ensures { Parses (λ byte. byte) result (byte_from bytes.now) }
{
    match bytes {
        [byte, rest @ ..] => Some((*byte, rest)),
        [] => None,
    }
}

/// Makes a key of bytes that were read.
pub(crate) fn key_of(alloc: Global, bytes: &[u8]) -> Result<KeyBytes, AllocError>
    requires { length bytes.now ≤ longest_key }
    ensures { IfOk result (λ key. key ≡ bytes.now) }
{
    let bytes = Vec::from_slice(alloc, bytes)?;
    match KeyBytes::new(bytes) {
        Some(key) => Ok(key),
        None => unreachable!(),
    }
}
