//! How a round is broken off.
use crate::store_calls::Filled;
use growlog::StoreName;
use sessions::{GaveUp, Receipt};
use std::alloc::AllocError;

/// Why a round was broken off.
#[derive(Clone, Copy, Debug, PartialEq, Eq)]
pub enum Cause {
    /// Memory ran out, or a thread could not be made.
    Memory,
    /// The store answered that its journal is full.
    Full(Filled),
    /// The workers have ended, or a result is of a rectangle that was not asked for or has come
    /// before. Also that the session is of other tables than the store.
    Worker,
    /// The gate gave up.
    Gate(GaveUp),
}

/// A round that was broken off, with the receipts that it took until then.
pub struct MigrateFault<J: StoreName> {
    pub cause: Cause,
    pub receipts: Vec<Receipt<J>>,
}

impl From<AllocError> for Cause {
    ghost use Rattle.std.specs.Prelude.{◌≡◌};
    ghost use Rattle.migrator.specs.declared.fault.Cause.TheVariants.{Memory};

    ghost from_gives = { λ _ cause. cause ≡ Memory };

    fn from(_: AllocError) -> Cause {
        Cause::Memory
    }
}
