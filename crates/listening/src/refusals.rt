//! The connections that were refused, counted by why.

use std::sync::atomic::{AtomicU64, Ordering};

/// Why a connection was refused.
#[derive(Clone, Copy, Debug, PartialEq, Eq)]
pub(crate) enum Cause {
    /// There was no memory for it.
    Memory,
    /// There was no thread for it.
    Thread,
    /// There was no descriptor for it.
    Descriptor,
    /// It begins as an HTTP request or a TLS handshake does.
    Foreign,
}

impl Cause {
    /// Returns it in words.
    pub(crate) fn words(self) -> &'static str {
        match self {
            Cause::Memory => "no memory",
            Cause::Thread => "no thread",
            Cause::Descriptor => "no descriptor",
            Cause::Foreign => "HTTP or TLS",
        }
    }
}

/// How many connections were refused, by cause.
#[derive(Drop)]
pub(crate) struct Refusals {
    memory: AtomicU64,
    thread: AtomicU64,
    descriptor: AtomicU64,
    foreign: AtomicU64,
}

impl Refusals {
    /// Makes that of a run in which none was refused.
    pub(crate) fn new() -> Refusals {
        Refusals {
            memory: AtomicU64::new(0),
            thread: AtomicU64::new(0),
            descriptor: AtomicU64::new(0),
            foreign: AtomicU64::new(0),
        }
    }

    /// Counts one more.
    pub(crate) fn count(&self, cause: Cause) {
        self.of(cause).fetch_add(1, Ordering::SeqCst);
    }

    /// Returns how many there were.
    pub(crate) fn counted(&self, cause: Cause) -> u64 {
        self.of(cause).load(Ordering::SeqCst)
    }

    fn of(&self, cause: Cause) -> &AtomicU64 {
        match cause {
            Cause::Memory => &self.memory,
            Cause::Thread => &self.thread,
            Cause::Descriptor => &self.descriptor,
            Cause::Foreign => &self.foreign,
        }
    }
}
