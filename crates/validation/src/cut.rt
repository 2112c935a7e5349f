//! Where a node is split.

use values::{Instant, KeyBytes};

/// A cut of the current data node that covers a key.
#[derive(Drop)]
pub enum Cut {
    /// At the key.
    Key(KeyBytes),
    /// At an instant.
    Time(KeyBytes, Instant),
}
