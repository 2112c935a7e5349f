//! Why a call of a store is refused.
ghost use Rattle.std.specs.Prelude.{◌≡◌};

use book::BookRefusal;
use std::alloc::AllocError;
use values::Refusal;

/// Why a call of a store is refused.
#[derive(Debug, Drop)]
pub enum StoreRefusal {
    /// The session does not allow the call, or memory ran out before the store was asked.
    Session(Refusal),
    /// The store's book refused it, under the lock.
    Book(BookRefusal),
}

impl From<StoreRefusal> for Refusal {
    ghost use Rattle.std.specs.Prelude.{◌≡◌};
    ghost use Rattle.sessions.specs.Refusal.{refusal_of};

    ghost from_gives = { λ told refusal. refusal ≡ refusal_of told };

    fn from(told: StoreRefusal) -> Refusal {
        match told {
            StoreRefusal::Session(refusal) => refusal,
            StoreRefusal::Book(refusal) => Refusal::from(refusal),
        }
    }
}

impl From<BookRefusal> for StoreRefusal {
    ghost use Rattle.std.specs.Prelude.{◌≡◌};
    ghost use Rattle.sessions.specs.declared.refusal.StoreRefusal.TheVariants.{Book};

    ghost from_gives = { λ refusal told. told ≡ Book refusal };

    fn from(refusal: BookRefusal) -> StoreRefusal {
        StoreRefusal::Book(refusal)
    }
}

impl From<Refusal> for StoreRefusal {
    ghost use Rattle.std.specs.Prelude.{◌≡◌};
    ghost use Rattle.sessions.specs.declared.refusal.StoreRefusal.TheVariants.{Session};

    ghost from_gives = { λ refusal told. told ≡ Session refusal };

    fn from(refusal: Refusal) -> StoreRefusal {
        StoreRefusal::Session(refusal)
    }
}

impl From<AllocError> for StoreRefusal {
    ghost use Rattle.std.specs.Prelude.{◌≡◌};
    ghost use Rattle.values.specs.declared.refusal.Refusal.TheVariants.{Memory};
    ghost use Rattle.sessions.specs.declared.refusal.StoreRefusal.TheVariants.{Session};

    ghost from_gives = { λ _ told. told ≡ Session Memory };

    fn from(_: AllocError) -> StoreRefusal {
        StoreRefusal::Session(Refusal::Memory)
    }
}
