//! What ends a server that takes clients until it is stopped.
use std::alloc::Global;
use std::net::Net;

/// A reader whose end stops a server.
pub trait Control {
    /// Waits a moment at most until something can be read, or the reader has ended, and tells whether that
    /// is so. Where that cannot be told, as of a reader that never waits, it is.
    fn is_ready<N: Net>(&mut self, _net: &N, _alloc: Global) -> bool {
        true
    }
}

impl Control for &[u8] {}
