//! The cache of unpacked blocks.
ghost use Rattle.std.specs.Prelude.{◌≡◌, ◌≤◌, IfOk};
ghost use Rattle.std.specs.NonZero.{non_zero_usize_get};
ghost use Rattle.values.specs.Memory.{OnlyMemory};
ghost use Rattle.eventlist.specs.Listing.{events_in};

use crate::entry::Entry;
use crate::packed_node::Block;
use crate::reading::Blocks;
use keyrange::{KeyRange, Rect};
use lru::LruCache;
use std::alloc::Global;
use std::marker::Model;
use std::num::NonZeroUsize;
use values::{Instant, Mem, SharedEvent};

/// How many blocks are kept.
const MOST: usize = 16;

/// The first instant and the lower key of a block's rectangle.
type Corner = (Instant, Vec<u8>);

/// At most 16 blocks, those that were asked for last. What is asked of a block for the first time
/// is read in place; where it is asked for again, while it is kept, it is unpacked, and its node is
/// kept beside it. So a query that comes to many blocks once unpacks none. An entry is found by the
/// corner of its rectangle, which is short, and answers for a block of the same bytes alone: blocks
/// of two trees may have one rectangle. Of blocks that have one corner the last is kept. In a tree
/// no two have. Until the first block is asked for the cache takes no memory.
#[derive(Drop)]
pub struct BlockCache {
    alloc: Global,
    entries: Option<LruCache<Corner, Entry>>,
}

impl Model for BlockCache {
    ghost use Rattle.std.specs.Prelude.{◌≡◌, ℕ, length, IfSome, Some, None};

    ghost Value = { ℕ };

    ghost view = { λ c. elim c.entries [ None ↦ 0 | Some kept ↦ length kept.entries ] };

    ghost invariant = { λ c. IfSome c.entries (λ kept. kept.cap ≡ 16) };
}

impl BlockCache {
    /// Makes a cache of no blocks. It takes no memory.
    pub fn new(alloc: Global) -> BlockCache
        ensures { result ≡ 0 }
    {
        BlockCache {
            alloc,
            entries: None,
        }
    }

    /// Returns the number of blocks that the cache keeps: at most 16.
    pub fn len(&self) -> usize
        ensures is { result ≡ self.now }
        ensures most { result ≤ 16 }
    {
        match &self.entries {
            None => 0,
            Some(entries) => entries.len(),
        }
    }
}

impl Blocks for BlockCache {
    fn events(
        &mut self,
        block: &Block,
        range: &KeyRange,
        from: Instant,
        to: Instant,
    ) -> Mem<Vec<SharedEvent>> {
        if self.entries.is_none() {
            self.entries = Some(LruCache::new(self.alloc, most())?);
        }
        match &mut self.entries {
            None => unreachable!(),
            Some(entries) => events_of(self.alloc, entries, block, range, from, to),
        }
    }
}

/// The events of a block, whose entry is kept.
fn events_of(
    alloc: Global,
    entries: &mut LruCache<Corner, Entry>,
    block: &Block,
    range: &KeyRange,
    from: Instant,
    to: Instant,
) -> Mem<Vec<SharedEvent>>
    ensures ok { IfOk result (λ v. v.items ≡ events_in block.now.node.events range.now from to) }
    ensures room { entries.new.cap ≡ entries.old.cap }
    ensures err { OnlyMemory result }
{
    let corner = corner_of(alloc, block.rect())?;
    if let Some(entry) = entries.get(&corner) {
        if entry.is_of(block) {
            if let Some(node) = entry.node() {
                return node.events_in(alloc, range, from, to);
            }
            entries.put(corner, Entry::unpack(alloc, block)?)?;
            return block.events_in(alloc, range, from, to);
        }
    }
    entries.put(corner, Entry::new(block)?)?;
    block.events_in(alloc, range, from, to)
}

fn most() -> NonZeroUsize
    ensures { non_zero_usize_get result ≡ 16 }
{
    match NonZeroUsize::new(MOST) {
        Some(most) => most,
        None => unreachable!(),
    }
}

fn corner_of(alloc: Global, rect: &Rect) -> Mem<Corner>
    ensures { OnlyMemory result }
{
    let lower = Vec::from_slice(alloc, rect.keys().lo.bytes())?;
    Ok((rect.time().from, lower))
}
