//! What is told of a run while it goes on.

use crate::refusals::Cause;

/// What is told of a run: a line, without what a user said.
#[derive(Clone, Copy, Debug, PartialEq, Eq)]
pub(crate) enum Notice {
    /// The server listens at a port.
    Listening(u16),
    /// A connection was refused.
    Refused(Cause),
    /// The journal has come to so many entries, of so many that it may have.
    Entries { count: usize, most: usize },
    /// All connections have ended, and the journal has so many entries.
    Ended(usize),
}
