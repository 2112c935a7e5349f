//! Spaces and tabs between tokens, and what may be left out.
ghost use Rattle.std.specs.Prelude.{◌≡◌};
ghost use Rattle.tokens.specs.Token.{Leaves};
ghost use Rattle.statement.specs.Token.{is_blank, next, end_at, after_semicolon, after_optional_word};

use tokens::{After, Separators, symbol_at, word_at};

/// Spaces and tabs.
pub struct Blanks;

impl Separators for Blanks {
    ghost use Rattle.statement.specs.Token.{next};

    ghost next = { next };

    fn next(bytes: &[u8]) -> &[u8] {
        let mut rest = bytes;
        while let [byte, others @ ..] = rest {
            if !is_blank(*byte) {
                return rest;
            }
            rest = others;
        }
        rest
    }
}

fn is_blank(byte: u8) -> bool
    ensures { result ≡ is_blank byte }
{
    byte == b' ' || byte == b'\t'
}

/// Reads the end of the line.
#[tactic(auto, unfolding(crate::specs::Token::end_at))]
pub fn end_at(bytes: &[u8]) -> After<'_>
    ensures { Leaves result (end_at bytes.now) }
{
    let at = Blanks::next(bytes);
    if at.is_empty() { Ok(at) } else { Err(at) }
}

/// Skips a semicolon, where one comes next.
pub fn after_semicolon(bytes: &[u8]) -> &[u8]
    ensures { result.now ≡ after_semicolon bytes.now }
{
    match symbol_at::<Blanks>(b';', bytes) {
        Ok(rest) => rest,
        Err(_) => bytes,
    }
}

/// Skips a word, where it comes next.
pub fn after_optional_word<'a>(word: &[u8], bytes: &'a [u8]) -> &'a [u8]
    ensures { result.now ≡ after_optional_word word.now bytes.now }
{
    match word_at::<Blanks>(word, bytes) {
        Ok(rest) => rest,
        Err(_) => bytes,
    }
}
