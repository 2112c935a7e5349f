//! A list that shares its parts.
ghost use Rattle.std.specs.Prelude.{◌≡◌, ◌<◌, [], ◌∷◌, ◌++◌, length, slice_get, slice_set, HoldsAt, IfOk, OnOk, OnErr, Some, None, MatchOption};
ghost use Rattle.values.specs.Memory.{OnlyMemory};
ghost use Rattle.slots.specs.Slots.{all_of};
ghost use Rattle.slots.specs.Beside.{over, placed_of, AreInside, AreElsewhere, IsFirst, HasFirst};

use crate::beside::{Beside, changed};
use crate::share::{Share, Update};
use crate::trie::Trie;
use std::alloc::Global;
use std::marker::Model;
use values::Mem;

/// How many items stand beside the tree at most.
const MOST_BESIDE: usize = 8;

/// A list, which contracts see as one. A share costs two more counts. An item of a shared tree that
/// is changed stands beside the tree; what stands there is written into the tree once it is more than
/// a few. Where memory runs out the list is what it was.
#[derive(Drop)]
pub struct Slots<T> {
    root: Option<Trie<T>>,
    beside: Option<Beside<T>>,
    alloc: Global,
}

impl<T> Model for Slots<T> {
    ghost use Rattle.std.specs.Prelude.{List};

    ghost Value = { List T };

    ghost use Rattle.std.specs.Prelude.{length};
    ghost use Rattle.slots.specs.Slots.{all_of};
    ghost use Rattle.slots.specs.Beside.{over, placed_of, AreInside};

    ghost view = { λ s. over (all_of s.root) (placed_of s.beside) };

    ghost invariant = { λ s. AreInside (length (all_of s.root)) (placed_of s.beside) };
}

impl<T> Slots<T> {
    /// Makes the list without items.
    pub fn new(alloc: Global) -> Slots<T>
        ensures { result ≡ [] }
    {
        Slots {
            root: None,
            beside: None,
            alloc,
        }
    }

    /// Returns the number of items.
    pub fn len(&self) -> usize
        ensures { result ≡ length self.now }
    {
        match &self.root {
            None => 0,
            Some(root) => root.len(),
        }
    }

    /// Returns the item at a place.
    pub fn at(&self, place: usize) -> &T
        requires { place < length self.now }
        ensures { slice_get self.now place ≡ Some result.now }
    {
        if let Some(item) = item_in(&self.beside, place) {
            return item;
        }
        match &self.root {
            None => unreachable!(),
            Some(root) => root.get(place),
        }
    }

    /// Returns the item at a place, if there is one.
    pub fn get(&self, place: usize) -> Option<&T>
        ensures { MatchOption result (slice_get self.now place ≡ None) (λ x.
            slice_get self.now place ≡ Some x.now) }
    {
        if place < self.len() {
            Some(self.at(place))
        } else {
            None
        }
    }
}

impl<T: Drop> Slots<T> {
    /// Shares the list: an equal one, which later changes of this one leave as it is.
    pub fn share(&self) -> Mem<Slots<T>>
        ensures ok { IfOk result (λ s. s ≡ self.now) }
        ensures memory { OnlyMemory result }
    {
        let root = match &self.root {
            None => None,
            Some(root) => Some(root.share()?),
        };
        let beside = match &self.beside {
            None => None,
            Some(beside) => Some(beside.share()?),
        };
        Ok(Slots {
            root,
            beside,
            alloc: self.alloc,
        })
    }
}

impl<T: Share + Drop> Slots<T> {
    /// Replaces the item at a place. Of a shared tree the item stands beside it then.
    pub fn set(&mut self, place: usize, item: T) -> Mem<()>
        requires { place < length self.old }
        ensures ok { OnOk result (self.new ≡ slice_set self.old place item) }
        ensures err { OnErr result (self.new ≡ self.old) }
        ensures memory { OnlyMemory result }
    {
        if let Some(at) = find(&self.beside, place) {
            return set_at(&mut self.beside, self.alloc, at, item);
        }
        if is_shared(&self.root) {
            return self.put(place, item);
        }
        set_in(&mut self.root, self.alloc, place, item)
    }

    /// Changes an item. One that is not shared is changed in place; one of a shared tree stands beside
    /// it then.
    pub fn update<C: Drop>(&mut self, place: usize, change: C) -> Mem<()>
    where
        T: Update<C>,
        requires inside { place < length self.old }
        requires can { HoldsAt (λ x. T.can_update x change) self.old place }
        ensures ok { HoldsAt (λ x.
            OnOk result (self.new ≡ slice_set self.old place (T.updated x change)))
            self.old place }
        ensures err { OnErr result (self.new ≡ self.old) }
        ensures memory { OnlyMemory result }
    {
        if let Some(at) = find(&self.beside, place) {
            return update_at(&mut self.beside, self.alloc, at, change);
        }
        if is_shared(&self.root) {
            let item = changed(self.alloc, self.at(place), change)?;
            return self.put(place, item);
        }
        update_in(&mut self.root, self.alloc, place, change)
    }

    /// Has an item stand beside the tree, in a place of the list.
    fn put(&mut self, place: usize, item: T) -> Mem<()>
        requires { place < length self.old }
        ensures ok { OnOk result (self.new ≡ slice_set self.old place item) }
        ensures err { OnErr result (self.new ≡ self.old) }
        ensures memory { OnlyMemory result }
    {
        self.make_room()?;
        put_beside(&mut self.beside, self.alloc, place, item)
    }

    /// Writes what stands beside the tree into it, where no more may stand there.
    fn make_room(&mut self) -> Mem<()>
        ensures same { self.new ≡ self.old }
        ensures memory { OnlyMemory result }
    {
        if !is_full(&self.beside) {
            return Ok(());
        }
        let root = written(self.alloc, &self.root, &self.beside)?;
        self.root = root;
        self.beside = None;
        Ok(())
    }

    /// Puts an item at the end.
    pub fn push(&mut self, item: T) -> Mem<()>
        ensures ok { OnOk result (self.new ≡ self.old ++ item ∷ []) }
        ensures err { OnErr result (self.new ≡ self.old) }
        ensures memory { OnlyMemory result }
    {
        match &mut self.root {
            None => {
                let root = Trie::leaf(self.alloc, item)?;
                self.root = Some(root);
                Ok(())
            }
            Some(root) => root.push(self.alloc, item),
        }
    }
}

/// Finds what stands first in a place.
fn find<T>(beside: &Option<Beside<T>>, place: usize) -> Option<usize>
    ensures { MatchOption result
        (AreElsewhere place (placed_of beside.now))
        (IsFirst place (placed_of beside.now)) }
{
    match beside {
        None => None,
        Some(beside) => beside.find(place),
    }
}

/// Returns the item that stands first in a place.
fn item_in<T>(beside: &Option<Beside<T>>, place: usize) -> Option<&T>
    ensures { MatchOption result
        (AreElsewhere place (placed_of beside.now))
        (λ x. HasFirst place (placed_of beside.now) x.now) }
{
    let Some(beside) = beside else {
        return None;
    };
    match beside.find(place) {
        None => None,
        Some(at) => Some(beside.get(at)),
    }
}

/// Replaces the tree's item at a place.
fn set_in<T: Share + Drop>(
    root: &mut Option<Trie<T>>,
    alloc: Global,
    place: usize,
    item: T,
) -> Mem<()>
    requires { place < length (all_of root.old) }
    ensures ok { OnOk result (all_of root.new ≡ slice_set (all_of root.old) place item) }
    ensures err { OnErr result (all_of root.new ≡ all_of root.old) }
    ensures memory { OnlyMemory result }
{
    match root {
        None => Ok(()),
        Some(root) => root.set(alloc, place, item),
    }
}

/// Changes the tree's item at a place.
fn update_in<C: Drop, T: Update<C>>(
    root: &mut Option<Trie<T>>,
    alloc: Global,
    place: usize,
    change: C,
) -> Mem<()>
    requires inside { place < length (all_of root.old) }
    requires can { HoldsAt (λ x. T.can_update x change) (all_of root.old) place }
    ensures ok { HoldsAt (λ x.
        OnOk result (all_of root.new
        ≡ slice_set (all_of root.old) place (T.updated x change)))
        (all_of root.old) place }
    ensures err { OnErr result (all_of root.new ≡ all_of root.old) }
    ensures memory { OnlyMemory result }
{
    match root {
        None => Ok(()),
        Some(root) => root.update(alloc, place, change),
    }
}

/// Replaces what stands beside the tree, as its place in that list says.
fn set_at<T: Share + Drop>(
    beside: &mut Option<Beside<T>>,
    alloc: Global,
    at: usize,
    item: T,
) -> Mem<()>
    requires { at < length (placed_of beside.old) }
    ensures ok { HoldsAt (λ p. OnOk result (placed_of beside.new
        ≡ slice_set (placed_of beside.old) at (record { place = p.place; item = item })))
        (placed_of beside.old) at }
    ensures err { OnErr result (placed_of beside.new ≡ placed_of beside.old) }
    ensures memory { OnlyMemory result }
{
    match beside {
        None => Ok(()),
        Some(beside) => beside.set(alloc, at, item),
    }
}

/// Changes what stands beside the tree, as its place in that list says.
fn update_at<C: Drop, T: Update<C>>(
    beside: &mut Option<Beside<T>>,
    alloc: Global,
    at: usize,
    change: C,
) -> Mem<()>
    requires inside { at < length (placed_of beside.old) }
    requires can { HoldsAt (λ p. T.can_update p.item change) (placed_of beside.old) at }
    ensures ok { HoldsAt (λ p. OnOk result (placed_of beside.new
        ≡ slice_set (placed_of beside.old) at (record {
          place = p.place;
          item = T.updated p.item change;
        }))) (placed_of beside.old) at }
    ensures err { OnErr result (placed_of beside.new ≡ placed_of beside.old) }
    ensures memory { OnlyMemory result }
{
    match beside {
        None => Ok(()),
        Some(beside) => beside.update(alloc, at, change),
    }
}

/// Has an item stand beside the tree, before all others.
fn put_beside<T: Share + Drop>(
    beside: &mut Option<Beside<T>>,
    alloc: Global,
    place: usize,
    item: T,
) -> Mem<()>
    ensures ok { OnOk result (placed_of beside.new
        ≡ record { place = place; item = item } ∷ placed_of beside.old) }
    ensures err { OnErr result (placed_of beside.new ≡ placed_of beside.old) }
    ensures memory { OnlyMemory result }
{
    match beside {
        None => {
            let first = Beside::new(alloc, place, item)?;
            *beside = Some(first);
            Ok(())
        }
        Some(beside) => beside.put(alloc, place, item),
    }
}

/// Whether no more may stand beside the tree.
fn is_full<T>(beside: &Option<Beside<T>>) -> bool {
    match beside {
        None => false,
        Some(beside) => beside.len() >= MOST_BESIDE,
    }
}

/// Whether others share the tree.
fn is_shared<T>(root: &Option<Trie<T>>) -> bool {
    match root {
        None => false,
        Some(root) => root.is_shared(),
    }
}

/// The tree with what stands beside it.
fn written<T: Share + Drop>(
    alloc: Global,
    root: &Option<Trie<T>>,
    beside: &Option<Beside<T>>,
) -> Mem<Option<Trie<T>>>
    requires { AreInside (length (all_of root.now)) (placed_of beside.now) }
    ensures ok { IfOk result (λ r. all_of r ≡ over (all_of root.now) (placed_of beside.now)) }
    ensures memory { OnlyMemory result }
{
    let Some(root) = root else {
        return Ok(None);
    };
    let mut root = root.share()?;
    if let Some(beside) = beside {
        beside.write(alloc, &mut root)?;
    }
    Ok(Some(root))
}
