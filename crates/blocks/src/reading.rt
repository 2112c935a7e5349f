//! The events of blocks.
ghost use Rattle.std.specs.Prelude.{◌≡◌, IfOk};
ghost use Rattle.values.specs.Memory.{OnlyMemory};
ghost use Rattle.eventlist.specs.Listing.{events_in};

use crate::packed_node::Block;
use keyrange::KeyRange;
use std::alloc::Global;
use values::{Instant, Mem, SharedEvent};

/// Gives the events of blocks.
pub trait Blocks {
    /// Lists the events of a block's node of a range of keys, from an instant to another and with
    /// it, carried ones too.
    fn events(
        &mut self,
        block: &Block,
        range: &KeyRange,
        from: Instant,
        to: Instant,
    ) -> Mem<Vec<SharedEvent>>
        ensures ok { IfOk result (λ v.
            v.items ≡ events_in block.now.node.events range.now from to) }
        ensures err { OnlyMemory result };
}

/// Reads each block in place, and keeps nothing.
#[derive(Drop)]
pub struct InPlace {
    alloc: Global,
}

impl InPlace {
    /// Makes a reader that keeps nothing.
    pub fn new(alloc: Global) -> InPlace {
        InPlace { alloc }
    }
}

impl Blocks for InPlace {
    fn events(
        &mut self,
        block: &Block,
        range: &KeyRange,
        from: Instant,
        to: Instant,
    ) -> Mem<Vec<SharedEvent>> {
        block.events_in(self.alloc, range, from, to)
    }
}
