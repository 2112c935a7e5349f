//! What a session is served with.
use growlog::StoreName;
use sessions::{Gate, LockedStore};
use std::alloc::Global;
use std::sync::Wait;

/// The store round which the session runs, the gate that it passes, and what both wait by.
#[derive(Drop)]
pub(crate) struct Service<'a, J: StoreName, R: Wait, G: Gate> {
    pub(crate) rt: &'a R,
    pub(crate) alloc: Global,
    pub(crate) store: &'a LockedStore<J>,
    pub(crate) gate: &'a G,
}
