//! Why a dump stopped.
use statement::WriteFault;
use std::alloc::AllocError;
use values::Refusal;

/// Why a dump stopped.
#[derive(Clone, Copy, Debug, PartialEq, Eq)]
pub enum DumpFault {
    /// The writer failed.
    Write,
    /// Memory ran out.
    Memory,
}

/// Nothing, or why a dump stopped.
pub(crate) type Dumped = Result<(), DumpFault>;

impl From<WriteFault> for DumpFault {
    ghost use Rattle.std.specs.Prelude.{◌≡◌};
    ghost use Rattle.dumping.specs.declared.fault.DumpFault.TheVariants.{Write};

    ghost from_gives = { λ _ f. f ≡ Write };

    fn from(_fault: WriteFault) -> DumpFault {
        DumpFault::Write
    }
}

impl From<AllocError> for DumpFault {
    ghost use Rattle.std.specs.Prelude.{◌≡◌};
    ghost use Rattle.dumping.specs.declared.fault.DumpFault.TheVariants.{Memory};

    ghost from_gives = { λ _ f. f ≡ Memory };

    fn from(_error: AllocError) -> DumpFault {
        DumpFault::Memory
    }
}

impl From<Refusal> for DumpFault {
    ghost use Rattle.std.specs.Prelude.{◌≡◌};
    ghost use Rattle.dumping.specs.declared.fault.DumpFault.TheVariants.{Memory};

    ghost from_gives = { λ _ f. f ≡ Memory };

    fn from(_refusal: Refusal) -> DumpFault {
        DumpFault::Memory
    }
}
