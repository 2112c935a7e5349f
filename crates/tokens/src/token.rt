//! The results of reading, what is between tokens, and symbols.
ghost use Rattle.std.specs.Prelude.{◌≡◌, ℕ, List};
ghost use Rattle.tokens.specs.Token.{symbol_at, Leaves};

use std::alloc::{AllocError, AllocFailed};

/// Why reading stopped.
#[derive(Drop)]
pub enum Stop<'a> {
    /// At the bytes from the first unexpected token on.
    At(&'a [u8]),
    Memory,
}

/// The bytes after a token, or those from the token on where it is unexpected.
pub type After<'a> = Result<&'a [u8], &'a [u8]>;

/// A value and the bytes after it, or those from the first unexpected token on.
pub type Read<'a, T> = Result<(T, &'a [u8]), &'a [u8]>;

/// Like `Read`, where reading takes memory.
pub type Made<'a, T> = Result<(T, &'a [u8]), Stop<'a>>;

impl<'a> From<&'a [u8]> for Stop<'a> {
    ghost use Rattle.std.specs.Prelude.{◌≡◌};
    ghost use Rattle.tokens.specs.declared.token.Stop.TheVariants.{At};

    ghost from_gives = { λ x e. e ≡ At x };

    fn from(at: &'a [u8]) -> Stop<'a> {
        Stop::At(at)
    }
}

impl From<AllocError> for Stop<'_> {
    ghost use Rattle.std.specs.Prelude.{◌≡◌};
    ghost use Rattle.tokens.specs.declared.token.Stop.TheVariants.{Memory};

    ghost from_gives = { λ _ e. e ≡ Memory };

    fn from(_error: AllocError) -> Self {
        Stop::Memory
    }
}

impl<T: Drop> From<AllocFailed<T>> for Stop<'_> {
    ghost use Rattle.std.specs.Prelude.{◌≡◌};
    ghost use Rattle.tokens.specs.declared.token.Stop.TheVariants.{Memory};

    ghost from_gives = { λ _ e. e ≡ Memory };

    fn from(_error: AllocFailed<T>) -> Self {
        Stop::Memory
    }
}

/// What a grammar has between tokens.
pub trait Separators {
    ghost use Rattle.std.specs.Prelude.{ℕ, List};

    ghost next: { List ℕ → List ℕ };

    /// Returns the bytes from the next token on.
    fn next(bytes: &[u8]) -> &[u8]
        ensures { result.now ≡ next bytes.now };
}

/// Reads a symbol: the bytes after it.
#[tactic(auto, unfolding(crate::specs::Token::symbol_at))]
pub fn symbol_at<S: Separators>(symbol: u8, bytes: &[u8]) -> After<'_>
    ensures { Leaves result (symbol_at S.next symbol bytes.now) }
{
    let at = S::next(bytes);
    match at {
        [byte, rest @ ..] if *byte == symbol => Ok(rest),
        _ => Err(at),
    }
}
