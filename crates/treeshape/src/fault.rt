//! Why no shape is printed.
use scripts::RunFault;
use std::alloc::AllocError;
use std::io;
use thiserror::Error;
use values::Refusal;

#[derive(Debug, Drop, Error)]
pub enum ShapeFault {
    #[error("the script was not run to its end")]
    Script,
    #[error("memory")]
    Memory,
    #[error("{0}")]
    Stream(io::Error),
}

impl From<RunFault> for ShapeFault {
    fn from(_fault: RunFault) -> ShapeFault {
        ShapeFault::Script
    }
}

impl From<Refusal> for ShapeFault {
    fn from(_refusal: Refusal) -> ShapeFault {
        ShapeFault::Memory
    }
}

impl From<io::Error> for ShapeFault {
    fn from(error: io::Error) -> ShapeFault {
        ShapeFault::Stream(error)
    }
}
