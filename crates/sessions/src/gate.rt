//! A gate that sessions and workers pass, with no lock held.

use std::sync::Wait;

/// Where a gate is.
#[derive(Clone, Copy, Debug, PartialEq, Eq)]
pub enum Place {
    /// Before a SELECT is answered.
    Read,
    /// After a commit's reply.
    Committed,
    /// After a line was refused since the journal is full.
    Full,
    /// Before a worker packs a node.
    Pack,
}

/// A gate that each session passes, and each worker that packs, with no lock held.
pub trait Gate {
    /// Waits until the session, or the worker, may go on. False means that the gate gave up, which
    /// ends the session or the round. `who` is the session's number, or at `Pack` the worker's,
    /// from 1.
    fn pass<R: Wait>(&self, rt: &R, who: u8, place: Place) -> bool;
}

/// That a gate gave up. Only `pass_gate` makes one, where `Gate::pass` answered false.
#[derive(Clone, Copy, Debug, PartialEq, Eq)]
pub struct GaveUp(());

/// Passes a gate, or returns that it gave up.
pub fn pass_gate<G: Gate, R: Wait>(gate: &G, rt: &R, who: u8, place: Place) -> Result<(), GaveUp> {
    if gate.pass(rt, who, place) {
        Ok(())
    } else {
        Err(GaveUp(()))
    }
}
