//! A gate where nobody waits.
use sessions::{Gate, Place};
use std::sync::Wait;

/// A gate that every session passes at once.
#[derive(Clone, Copy)]
pub struct AlwaysOpen;

impl Gate for AlwaysOpen {
    fn pass<R: Wait>(&self, _rt: &R, _session: u8, _place: Place) -> bool {
        true
    }
}
