//! The readings of the clock, which the one who serves hands in.
ghost use Rattle.std.specs.Prelude.{◌≡◌, true};

use values::Instant;

/// Readings of the clock. `may_give` says which there may be. A reading is taken with the store's
/// lock held, so it should take no time, and it must not ask the store.
pub trait Readings {
    ghost use Rattle.std.specs.Prelude.{ℕ, Bool};

    ghost may_give: { ℕ → Bool };

    /// Returns the reading for the next commit, one that there may be.
    fn reading(&mut self) -> Instant
        ensures { may_give result ≡ true };
}
