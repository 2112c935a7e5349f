//! Why a node is not packed.
use crate::fault::Cause;
use sessions::GaveUp;
use std::alloc::AllocError;
use values::Refusal;

/// Why a node is not packed. A worker has nothing else to report.
#[derive(Clone, Copy, Debug, PartialEq, Eq)]
pub(crate) enum Stop {
    /// Memory ran out.
    Memory,
    /// The gate gave up.
    Gate(GaveUp),
}

impl From<AllocError> for Stop {
    ghost use Rattle.std.specs.Prelude.{◌≡◌};
    ghost use Rattle.migrator.specs.declared.stop.Stop.TheVariants.{Memory};

    ghost from_gives = { λ _ stop. stop ≡ Memory };

    fn from(_: AllocError) -> Stop {
        Stop::Memory
    }
}

impl From<Refusal> for Stop {
    ghost use Rattle.std.specs.Prelude.{◌≡◌};
    ghost use Rattle.migrator.specs.declared.stop.Stop.TheVariants.{Memory};

    ghost from_gives = { λ _ stop. stop ≡ Memory };

    /// Whoever finds, copies or packs a node refuses it for memory alone.
    fn from(_: Refusal) -> Stop {
        Stop::Memory
    }
}

impl From<GaveUp> for Stop {
    ghost use Rattle.std.specs.Prelude.{◌≡◌};
    ghost use Rattle.migrator.specs.declared.stop.Stop.TheVariants.{Gate};

    ghost from_gives = { λ gave_up stop. stop ≡ Gate gave_up };

    fn from(gave_up: GaveUp) -> Stop {
        Stop::Gate(gave_up)
    }
}

impl From<Stop> for Cause {
    ghost use Rattle.std.specs.Prelude.{◌≡◌};
    ghost use Rattle.migrator.specs.Fault.{cause_of};

    ghost from_gives = { λ stop cause. cause ≡ cause_of stop };

    fn from(stop: Stop) -> Cause {
        match stop {
            Stop::Memory => Cause::Memory,
            Stop::Gate(gave_up) => Cause::Gate(gave_up),
        }
    }
}
