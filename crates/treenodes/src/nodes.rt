//! The nodes of a tree.
ghost use Rattle.std.specs.Prelude.{◌≡◌, ◌<◌, ◌++◌, ◌∷◌, [], IfOk, HoldsAt, MatchOption, None, Some, length, option_copied, slice_get, slice_set};
ghost use Rattle.values.specs.Memory.{OnlyMemory};
ghost use Rattle.treenodes.specs.Node.{TreeNode};
ghost use Rattle.treenodes.specs.Backlog.{IsFirstWaiting, IsWaiting};
ghost use Rattle.treenodes.specs.Event.{AcceptsEvent, with_put};

use crate::backlog::Backlog;
use crate::node::Slot;
use keyrange::Rect;
use slots::Slots;
use std::alloc::Global;
use std::marker::Model;
use values::{Event, Mem};

/// The nodes of a tree by their numbers. A share of them is the same list. Beside it is kept which
/// data nodes of history are still to be packed, so that the first of them is found without passing
/// over all nodes.
#[derive(Drop)]
pub struct Nodes {
    slots: Slots<Slot>,
    backlog: Backlog,
}

impl Model for Nodes {
    ghost use Rattle.std.specs.Prelude.{List};
    ghost use Rattle.treenodes.specs.Node.{TreeNode};
    ghost use Rattle.treenodes.specs.Backlog.{IsBacklog};

    ghost Value = { List TreeNode };

    ghost view = { λ n. n.slots };

    ghost invariant = { λ n. IsBacklog n.slots n.backlog };
}

impl Nodes {
    /// Makes a list without nodes. `Memory` where it runs out.
    pub fn new(alloc: Global) -> Mem<Nodes>
        ensures ok { IfOk result (λ s. s ≡ []) }
        ensures err { OnlyMemory result }
    {
        let backlog = Backlog::new(alloc)?;
        let slots = Slots::new(alloc);
        Ok(Nodes { slots, backlog })
    }

    /// Returns how many nodes there are.
    pub fn len(&self) -> usize
        ensures { result ≡ length self.now }
    {
        // Nothing is kept beside these: with one field more this would not compile.
        let Nodes {
            slots,
            backlog: _backlog,
        } = self;
        slots.len()
    }

    /// Returns the node of a number.
    pub fn at(&self, number: usize) -> &Slot
        requires { number < length self.now }
        ensures { slice_get self.now number ≡ Some result.now }
    {
        self.slots.at(number)
    }

    /// Returns the node of a number, if there is one.
    pub fn get(&self, number: usize) -> Option<&Slot>
        ensures { MatchOption result (slice_get self.now number ≡ None) (λ s.
            slice_get self.now number ≡ Some s.now) }
    {
        self.slots.get(number)
    }

    /// Returns an equal list, which later changes of this one leave as it is. `Memory` where it
    /// runs out.
    pub fn share(&self) -> Mem<Nodes>
        ensures ok { IfOk result (λ s. s ≡ self.now) }
        ensures err { OnlyMemory result }
    {
        let backlog = self.backlog.share()?;
        let slots = self.slots.share()?;
        Ok(Nodes { slots, backlog })
    }

    /// Returns the first data node of history that is not packed: by the start of time, then by the
    /// lower key. After a rectangle it is the first that comes behind that one. It takes no memory.
    pub fn first_unpacked(&self, after: Option<&Rect>) -> Option<&Slot>
        ensures { MatchOption result
            ((p : TreeNode) → IsWaiting self.now (option_copied after.entry) p → ⊥)
            (λ s. IsFirstWaiting self.now (option_copied after.entry) s.now) }
    {
        match self.backlog.first(&self.slots, after) {
            None => None,
            Some(number) => Some(self.slots.at(number)),
        }
    }

    /// The nodes with an event in the data node of a number. A node that nobody shares is written
    /// in place.
    pub(crate) fn with_event(self, number: usize, event: Event) -> Mem<Nodes>
        requires inside { number < length self }
        requires can { HoldsAt (λ n. AcceptsEvent n event) self number }
        ensures ok { HoldsAt (λ n.
            IfOk result (λ s. s ≡ slice_set self number (with_put n event))) self number }
        ensures err { OnlyMemory result }
    {
        let Nodes { mut slots, backlog } = self;
        slots.update(number, event)?;
        Ok(Nodes { slots, backlog })
    }

    /// The nodes with an equal one in the place of one.
    pub(crate) fn with_equal(self, number: usize, slot: Slot) -> Mem<Nodes>
        requires { slice_get self number ≡ Some slot }
        ensures ok { IfOk result (λ s. s ≡ self) }
        ensures err { OnlyMemory result }
    {
        let Nodes { mut slots, backlog } = self;
        slots.set(number, slot)?;
        Ok(Nodes { slots, backlog })
    }

    /// The nodes with another in the place of one.
    pub(crate) fn with_slot(self, number: usize, slot: Slot) -> Mem<Nodes>
        requires { number < length self }
        ensures ok { IfOk result (λ s. s ≡ slice_set self number slot) }
        ensures err { OnlyMemory result }
    {
        let Nodes { mut slots, backlog } = self;
        let others = backlog.without(&slots, number)?;
        slots.set(number, slot)?;
        let backlog = others.with(&slots, number)?;
        Ok(Nodes { slots, backlog })
    }

    /// The nodes with one more, which has the number after the last.
    pub(crate) fn with_last(self, slot: Slot) -> Mem<Nodes>
        ensures ok { IfOk result (λ s. s ≡ self ++ slot ∷ []) }
        ensures err { OnlyMemory result }
    {
        let Nodes { mut slots, backlog } = self;
        let number = slots.len();
        slots.push(slot)?;
        let backlog = backlog.with(&slots, number)?;
        Ok(Nodes { slots, backlog })
    }
}
