//! The gate of a session that is served.

use crate::round_trigger::RoundTrigger;
use crate::stop::Stop;
use sessions::{Gate, Place};
use std::alloc::{AllocError, Global};
use std::cell::Cell;
use std::sync::Wait;

/// The commits of a session after which its memory is made to grow.
const COMMITS: u8 = 16;

/// The bytes for which it grows at once: some more than so many commits keep.
const ROOM: usize = 100_000;

/// A session's gate: its trigger counts the commits, and a full journal stops a server that may be
/// stopped. Else all pass that pass the gate of the server.
#[derive(Drop)]
pub(crate) struct SessionGate<'a, G: Gate> {
    alloc: Global,
    gate: &'a G,
    stop: &'a Stop,
    trigger: RoundTrigger<'a>,
    commits: Cell<u8>,
}

impl<'a, G: Gate> SessionGate<'a, G> {
    /// Makes the gate of a session.
    pub(crate) fn new(
        alloc: Global,
        gate: &'a G,
        stop: &'a Stop,
        trigger: RoundTrigger<'a>,
    ) -> SessionGate<'a, G> {
        SessionGate {
            alloc,
            gate,
            stop,
            trigger,
            commits: Cell::new(0),
        }
    }

    /// After each 16th commit the session's memory grows, by memory that is asked for and given back.
    /// Else the C library has it grow page by page, by a call of the system at most commits, while they
    /// hold the store.
    fn grow(&self) {
        let commits = self.commits.get().wrapping_add(1);
        self.commits.set(commits);
        if commits % COMMITS == 0 {
            let room: Result<Vec<u8>, AllocError> = Vec::with_capacity(self.alloc, ROOM);
            drop(room);
        }
    }
}

impl<G: Gate> Gate for SessionGate<'_, G> {
    fn pass<R: Wait>(&self, rt: &R, who: u8, place: Place) -> bool {
        match place {
            Place::Committed => {
                self.grow();
                self.trigger.count_commit(rt);
            }
            Place::Full => self.stop.stop(rt),
            Place::Read | Place::Pack => {}
        }
        self.gate.pass(rt, who, place)
    }
}
