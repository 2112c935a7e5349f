//! Which data nodes are still to be packed.
ghost use Rattle.std.specs.Prelude.{◌≡◌, ◌<◌, ◌≤◌, ℕ, [], All, IfOk, MatchOption, true, false, length, option_copied};
ghost use Rattle.std.specs.List.Sorted.{IsPartitionPoint};
ghost use Rattle.values.specs.Memory.{OnlyMemory};
ghost use Rattle.treenodes.specs.Node.{TreeNode};
ghost use Rattle.treenodes.specs.Backlog.{comes_after, AreBehind, AreFalling, IsBacklog, IsBacklogBut, IsFirstWaitingAt, IsUnpackedAt, IsWaiting, start_cmp};

use crate::node::Slot;
use keyrange::Rect;
use slots::Slots;
use std::alloc::Global;
use std::cmp::Ordering;
use std::marker::Model;
use std::sync::Arc;
use values::Mem;

/// The numbers of the unpacked data nodes of history, the first of them last: so the first goes
/// without moving others. A share of them is the same list.
#[derive(Drop)]
pub(crate) struct Backlog {
    alloc: Global,
    numbers: Arc<Vec<usize>>,
}

impl Model for Backlog {
    ghost use Rattle.std.specs.Prelude.{ℕ, List};

    ghost Value = { List ℕ };

    ghost view = { λ b. b.numbers.value.items };
}

impl Backlog {
    /// Makes an empty list.
    pub fn new(alloc: Global) -> Mem<Backlog>
        ensures ok { IfOk result (λ b. b ≡ []) }
        ensures err { OnlyMemory result }
    {
        let numbers = Arc::new(alloc, Vec::new(alloc))?;
        Ok(Backlog { alloc, numbers })
    }

    /// Shares the list, without copying it. `Memory` where it runs out.
    pub fn share(&self) -> Mem<Backlog>
        ensures ok { IfOk result (λ b. b ≡ self.now) }
        ensures err { OnlyMemory result }
    {
        let numbers = Arc::try_clone(&self.numbers)?;
        Ok(Backlog {
            alloc: self.alloc,
            numbers,
        })
    }

    /// The numbers, copied where others share them.
    fn into_numbers(self) -> Mem<Vec<usize>>
        ensures ok { IfOk result (λ v. v.items ≡ self) }
        ensures err { OnlyMemory result }
    {
        match Arc::try_unwrap(self.numbers) {
            Ok(numbers) => Ok(numbers),
            Err(shared) => copy_of(self.alloc, &shared),
        }
    }

    /// Takes a number out, if it is in the list.
    pub fn without(self, slots: &Slots<Slot>, number: usize) -> Mem<Backlog>
        requires inside { number < length slots.now }
        requires backlog { IsBacklog slots.now self }
        ensures ok { IfOk result (IsBacklogBut slots.now number) }
        ensures err { OnlyMemory result }
    {
        let slot = slots.at(number);
        if !slot.is_unpacked() {
            return Ok(self);
        }
        let alloc = self.alloc;
        let mut numbers = self.into_numbers()?;
        let place = count_after(slots, &numbers, slot.child().rect(), number);
        numbers.remove(place);
        let numbers = Arc::new(alloc, numbers)?;
        Ok(Backlog { alloc, numbers })
    }

    /// Adds a number, if its node is unpacked.
    pub fn with(self, slots: &Slots<Slot>, number: usize) -> Mem<Backlog>
        requires inside { number < length slots.now }
        requires backlog { IsBacklogBut slots.now number self }
        ensures ok { IfOk result (IsBacklog slots.now) }
        ensures err { OnlyMemory result }
    {
        let slot = slots.at(number);
        if !slot.is_unpacked() {
            return Ok(self);
        }
        let alloc = self.alloc;
        let mut numbers = self.into_numbers()?;
        let place = count_after(slots, &numbers, slot.child().rect(), number);
        numbers.insert(place, number)?;
        let numbers = Arc::new(alloc, numbers)?;
        Ok(Backlog { alloc, numbers })
    }

    /// Returns the number of the first node, or of the first that comes after a rectangle.
    pub fn first(&self, slots: &Slots<Slot>, after: Option<&Rect>) -> Option<usize>
        requires { IsBacklog slots.now self.now }
        ensures { MatchOption result
            ((p : TreeNode) → IsWaiting slots.now (option_copied after.entry) p → ⊥)
            (λ number. IsFirstWaitingAt slots.now (option_copied after.entry) number) }
    {
        let numbers = self.numbers.as_slice();
        let place = count_behind(slots, numbers, after);
        if place == 0 {
            None
        } else {
            Some(numbers[place - 1])
        }
    }
}

/// How many nodes are in question: all, or those that come after a rectangle. They stand first.
fn count_behind(slots: &Slots<Slot>, numbers: &[usize], after: Option<&Rect>) -> usize
    requires { IsBacklog slots.now numbers.now }
    ensures { AreBehind slots.now numbers.now (option_copied after.entry) result }
{
    match after {
        None => numbers.len(),
        Some(rect) => count_after(slots, numbers, rect, slots.len()),
    }
}

fn copy_of(alloc: Global, numbers: &[usize]) -> Mem<Vec<usize>>
    ensures ok { IfOk result (λ v. v.items ≡ numbers.now) }
    ensures err { OnlyMemory result }
{
    let mut copy = Vec::with_capacity(alloc, numbers.len())?;
    copy.extend_from_slice(numbers)?;
    Ok(copy)
}

/// How many come after a node of a rectangle and a number: they stand first.
fn count_after(slots: &Slots<Slot>, numbers: &[usize], rect: &Rect, other: usize) -> usize
    requires each { All (IsUnpackedAt slots.now) numbers.now }
    requires falling { AreFalling slots.now numbers.now }
    ensures bound { result ≤ length numbers.now }
    ensures parted { IsPartitionPoint (λ n. comes_after slots.now rect.now other n ≡ true)
        (λ n. comes_after slots.now rect.now other n ≡ false) numbers.now result }
{
    numbers.partition_point(|number| comes_after(slots, rect, other, *number))
}

/// Whether the node of a number comes after one of a rectangle and another number.
fn comes_after(slots: &Slots<Slot>, rect: &Rect, other: usize, number: usize) -> bool
    ensures { result ≡ comes_after slots.now rect.now other number }
{
    match slots.get(number) {
        None => false,
        Some(slot) => start_order(rect, slot.child().rect())
            .then(other.cmp(&number))
            .is_lt(),
    }
}

/// By the start of time, then by the lower key.
fn start_order(first: &Rect, second: &Rect) -> Ordering
    ensures { result ≡ start_cmp first.now second.now }
{
    first
        .time()
        .from
        .cmp(&second.time().from)
        .then(first.keys().lo.cmp(&second.keys().lo))
}
