//! Words of the grammars, which are read in any case.
ghost use Rattle.std.specs.Prelude.{◌≡◌, ◌≤◌, length, IsUtf8, Ok, Err, if◌then◌else◌};
ghost use Rattle.values.specs.Names.{same_name};
ghost use Rattle.tokens.specs.Token.{Leaves, prefix_while, skip_while};
ghost use Rattle.tokens.specs.Word.{is_name_byte, word_length, is_word_at, after_word, word_at};

use crate::token::{After, Separators};

fn is_name_byte(byte: u8) -> bool
    ensures { result ≡ is_name_byte byte }
{
    byte.is_ascii_alphanumeric() || byte == b'_'
}

/// The number of bytes that the word or name at the start has.
fn word_length(bytes: &[u8]) -> usize
    ensures length { result ≡ word_length bytes.now }
    ensures within { result ≤ length bytes.now }
{
    for (i, byte) in bytes.iter().enumerate() {
        if !is_name_byte(*byte) {
            return i;
        }
    }
    bytes.len()
}

/// Splits off the word or name at the start from the bytes after it.
pub(crate) fn split_word(bytes: &[u8]) -> (&[u8], &[u8])
    ensures word { result.0.now ≡ prefix_while is_name_byte bytes.now }
    ensures rest { result.1.now ≡ skip_while is_name_byte bytes.now }
    ensures text { IsUtf8 result.0.now }
{
    bytes.split_at(word_length(bytes))
}

/// Tells whether a word comes next, in any case.
#[tactic(auto, unfolding(crate::specs::Word::is_word_at))]
pub fn is_word_at<S: Separators>(word: &[u8], bytes: &[u8]) -> bool
    ensures { result ≡ is_word_at S.next word.now bytes.now }
{
    word_here(word, S::next(bytes)).is_ok()
}

/// Returns the bytes after the word that comes next.
#[tactic(auto, unfolding(crate::specs::Word::after_word))]
pub fn after_word<S: Separators>(bytes: &[u8]) -> &[u8]
    ensures { result.now ≡ after_word S.next bytes.now }
{
    split_word(S::next(bytes)).1
}

/// Reads a word, in any case: the bytes after it.
#[inline(always)]
#[tactic(auto, unfolding(crate::specs::Word::word_at, crate::specs::Word::is_word_at, crate::specs::Word::after_word))]
pub fn word_at<'a, S: Separators>(word: &[u8], bytes: &'a [u8]) -> After<'a>
    ensures { Leaves result (word_at S.next word.now bytes.now) }
{
    word_here(word, S::next(bytes))
}

/// Reads a word at the very start, in any case: the bytes after it. It is compiled into each
/// caller, where the word is known: most are told apart by their first letters.
#[inline(always)]
pub fn word_here<'a>(word: &[u8], at: &'a [u8]) -> After<'a>
    ensures { Leaves result (if same_name word.now (prefix_while is_name_byte at.now)
        then Ok (skip_while is_name_byte at.now) else Err at.now) }
{
    let mut rest = at;
    for letter in word {
        match rest {
            [byte, others @ ..] if is_name_byte(*letter) && letter.eq_ignore_ascii_case(byte) => {
                rest = others;
            }
            _ => return Err(at),
        }
    }
    match rest {
        [byte, ..] if is_name_byte(*byte) => Err(at),
        _ => Ok(rest),
    }
}
