//! Names, and the reserved words, which no name is.
ghost use Rattle.std.specs.Prelude.{◌≡◌, IfOk, IsUtf8};
ghost use Rattle.std.specs.List.{list_any};
ghost use Rattle.values.specs.Names.{same_name};
ghost use Rattle.tokens.specs.Token.{GivesBytes, Makes};
ghost use Rattle.tokens.specs.Name.{any_at, is_reserved, is_name, name_at};

use crate::token::{Made, Read, Separators};
use crate::word::split_word;
use std::alloc::{AllocError, Global};
use values::{Chars, same_name};

/// The bytes that a name may have.
const LONGEST_NAME: usize = 64;

/// The words of the grammars of schemas and of lines, and those kept for later, in order: those of
/// each letter from A to Z.
const RESERVED_WORDS: &[&[&str]] = &[
    &["ADD", "ALTER", "ALWAYS", "AND", "AS", "AT"],
    &["BEGIN", "BETWEEN", "BIGINT", "BOOLEAN"],
    &["CLOCK", "COLUMN", "COMMIT", "CREATE"],
    &["DELETE"],
    &["END"],
    &["FALSE", "FOR", "FROM"],
    &["GENERATED"],
    &[],
    &["INSERT", "INT", "INTEGER", "INTO"],
    &[],
    &["KEY"],
    &[],
    &["MIGRATE"],
    &["NOT", "NULL"],
    &["OF", "OVERLAPS"],
    &["PERIOD", "PORTION", "PRIMARY"],
    &[],
    &["ROLLBACK", "ROW"],
    &["SELECT", "SET", "SPLIT", "START", "SYSTEM", "SYSTEM_TIME"],
    &[
        "TABLE",
        "TEXT",
        "TIME",
        "TIMESTAMP",
        "TO",
        "TRANSACTION",
        "TRUE",
    ],
    &["UPDATE"],
    &["VALUES", "VARCHAR", "VERSIONING"],
    &["WHERE", "WITH", "WITHOUT", "WORK"],
    &[],
    &[],
    &[],
];

fn is_one_of(words: &[&str], name: &[u8]) -> bool
    ensures { result ≡ list_any (λ word. same_name word.now name.now) words.now }
{
    words.iter().any(|word| same_name(word.as_bytes(), name))
}

/// Whether a name is, in any case, one of the words at a place, where there is one.
fn is_one_at(words: &[&[&str]], place: usize, name: &[u8]) -> bool
    ensures { result ≡ any_at (λ word. same_name word.now name.now) (λ some. some.now)
        words.now place }
{
    match words.get(place) {
        Some(words) => is_one_of(words, name),
        None => false,
    }
}

/// Tells whether a name is, in any case, a word of the grammars of schemas and of lines, or one
/// that is kept for later. Only words that begin with its first letter are looked at.
pub fn is_reserved(name: &[u8]) -> bool
    ensures { result ≡ is_reserved name.now }
{
    let [first, ..] = name else {
        return false;
    };
    let letter = first.to_ascii_lowercase();
    if letter < b'a' {
        return false;
    }
    is_one_at(RESERVED_WORDS, usize::from(letter - b'a'), name)
}

/// Tells whether letters, digits and underscores are a name: the first is no digit, there are 1 to
/// 64, and they are no reserved word.
#[tactic(auto, unfolding(crate::specs::Name::is_name))]
fn is_name(bytes: &[u8]) -> bool
    ensures { result ≡ is_name bytes.now }
{
    match bytes {
        [first, ..] => !first.is_ascii_digit()
            && bytes.len() <= LONGEST_NAME
            && !is_reserved(bytes),
        [] => false,
    }
}

/// Reads a name. It is compiled into its few callers.
#[inline(always)]
#[tactic(auto, unfolding(crate::specs::Name::name_at))]
pub fn name_at<S: Separators>(bytes: &[u8]) -> Read<'_, &[u8]>
    ensures is { GivesBytes result (name_at S.next bytes.now) }
    ensures text { IfOk result (λ x. IsUtf8 x.0.now) }
{
    let at = S::next(bytes);
    let (name, rest) = split_word(at);
    if is_name(name) {
        Ok((name, rest))
    } else {
        Err(at)
    }
}

/// Keeps a text.
fn chars_of(alloc: Global, bytes: &[u8]) -> Result<Chars, AllocError>
    requires { IsUtf8 bytes.now }
    ensures { IfOk result (λ chars. chars ≡ bytes.now) }
{
    match str::from_utf8(bytes) {
        Ok(text) => Ok(Chars::new(String::from_str(alloc, text)?)),
        Err(_) => unreachable!(),
    }
}

/// Reads a name that is kept.
pub fn kept_name_at<S: Separators>(alloc: Global, bytes: &[u8]) -> Made<'_, Chars>
    ensures { Makes result (name_at S.next bytes.now) }
{
    let (name, rest) = name_at::<S>(bytes)?;
    Ok((chars_of(alloc, name)?, rest))
}
