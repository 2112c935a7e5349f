//! Items that stand in the places of a list's own.
ghost use Rattle.std.specs.Prelude.{◌≡◌, ◌<◌, [], ◌∷◌, length, slice_set, HoldsAt, IfOk, OnOk, OnErr, MatchOption};
ghost use Rattle.values.specs.Memory.{OnlyMemory};
ghost use Rattle.slots.specs.Beside.{over, AreInside, AreElsewhere, IsFirst};

use crate::share::{Share, Update, share_all};
use crate::trie::Trie;
use std::alloc::Global;
use std::marker::Model;
use std::sync::Arc;
use values::Mem;

/// An item, and the place in which it stands.
#[derive(Drop)]
pub struct Placed<T> {
    place: usize,
    item: T,
}

impl<T: Share> Share for Placed<T> {
    fn share(&self) -> Mem<Placed<T>> {
        let item = self.item.share()?;
        Ok(Placed {
            place: self.place,
            item,
        })
    }
}

/// Items that stand in the places of a list's own: of two with one place, the first. They are few. A
/// share of them is the same list.
#[derive(Drop)]
pub struct Beside<T> {
    items: Arc<Vec<Placed<T>>>,
}

impl<T> Model for Beside<T> {
    ghost use Rattle.std.specs.Prelude.{List};
    ghost use Rattle.slots.specs.declared.beside.Placed.{Placed};

    ghost Value = { List (Placed T) };

    ghost view = { λ b. b.items.value.items };
}

impl<T> Beside<T> {
    /// Returns how many there are.
    pub fn len(&self) -> usize
        ensures { result ≡ length self.now }
    {
        self.items.len()
    }

    /// Finds the first that has a place.
    pub fn find(&self, place: usize) -> Option<usize>
        ensures { MatchOption result (AreElsewhere place self.now) (IsFirst place self.now) }
    {
        first_of(place, self.items.as_slice())
    }

    /// Returns an item.
    pub fn get(&self, at: usize) -> &T
        requires { at < length self.now }
        ensures { HoldsAt (λ p. p.item ≡ result.now) self.now at }
    {
        &self.items.as_slice()[at].item
    }

    /// Shares the items: equal ones, which later changes of these leave as they are.
    pub fn share(&self) -> Mem<Beside<T>>
        ensures ok { IfOk result (λ b. b ≡ self.now) }
        ensures memory { OnlyMemory result }
    {
        let items = Arc::try_clone(&self.items)?;
        Ok(Beside { items })
    }
}

impl<T: Share + Drop> Beside<T> {
    /// Has one item stand in a place.
    pub fn new(alloc: Global, place: usize, item: T) -> Mem<Beside<T>>
        ensures ok { IfOk result (λ b. b ≡ record { place = place; item = item } ∷ []) }
        ensures memory { OnlyMemory result }
    {
        let mut items = Vec::with_capacity(alloc, 1)?;
        items.push_reserved(Placed { place, item });
        let items = Arc::new(alloc, items)?;
        Ok(Beside { items })
    }

    /// Has one item more stand in a place, before all others.
    pub fn put(&mut self, alloc: Global, place: usize, item: T) -> Mem<()>
        ensures ok { OnOk result (self.new ≡ record { place = place; item = item } ∷ self.old) }
        ensures err { OnErr result (self.new ≡ self.old) }
        ensures memory { OnlyMemory result }
    {
        let others = self.items.as_slice();
        let mut items = share_all(alloc, others, others.len().saturating_add(1))?;
        items.insert(0, Placed { place, item })?;
        self.items = Arc::new(alloc, items)?;
        Ok(())
    }

    /// Replaces an item.
    pub fn set(&mut self, alloc: Global, at: usize, item: T) -> Mem<()>
        requires { at < length self.old }
        ensures ok { HoldsAt (λ p. OnOk result (self.new
            ≡ slice_set self.old at (record { place = p.place; item = item }))) self.old at }
        ensures err { OnErr result (self.new ≡ self.old) }
        ensures memory { OnlyMemory result }
    {
        let others = self.items.as_slice();
        let place = others[at].place;
        let mut items = share_all(alloc, others, others.len())?;
        items[at] = Placed { place, item };
        self.items = Arc::new(alloc, items)?;
        Ok(())
    }

    /// Changes an item. One that is not shared is changed in place.
    pub fn update<C: Drop>(&mut self, alloc: Global, at: usize, change: C) -> Mem<()>
    where
        T: Update<C>,
        requires inside { at < length self.old }
        requires can { HoldsAt (λ p. T.can_update p.item change) self.old at }
        ensures ok { HoldsAt (λ p. OnOk result (self.new
            ≡ slice_set self.old at (record {
              place = p.place;
              item = T.updated p.item change;
            }))) self.old at }
        ensures err { OnErr result (self.new ≡ self.old) }
        ensures memory { OnlyMemory result }
    {
        if let Some(items) = Arc::get_mut(&mut self.items) {
            return items[at].item.update(alloc, change);
        }
        let item = changed(alloc, self.get(at), change)?;
        self.set(alloc, at, item)
    }

    /// Writes each item in its place in a tree. At `Err` some may be written.
    pub fn write(&self, alloc: Global, tree: &mut Trie<T>) -> Mem<()>
        requires { AreInside (length tree.old.1) self.now }
        ensures ok { OnOk result (tree.new.1 ≡ over tree.old.1 self.now) }
        ensures memory { OnlyMemory result }
    {
        let items = self.items.as_slice();
        let mut left = items.len();
        while left > 0 {
            left -= 1;
            let item = items[left].item.share()?;
            tree.set(alloc, items[left].place, item)?;
        }
        Ok(())
    }
}

/// Finds the first that has a place.
fn first_of<T>(place: usize, items: &[Placed<T>]) -> Option<usize>
    ensures { MatchOption result (AreElsewhere place items.now) (IsFirst place items.now) }
{
    for (at, other) in items.iter().enumerate() {
        if other.place == place {
            return Some(at);
        }
    }
    None
}

/// An item with a change made to it, beside one that stays as it is.
pub(crate) fn changed<C: Drop, T: Update<C>>(alloc: Global, item: &T, change: C) -> Mem<T>
    requires { T.can_update item.now change }
    ensures ok { IfOk result (λ x. x ≡ T.updated item.now change) }
    ensures memory { OnlyMemory result }
{
    let mut item = item.share()?;
    item.update(alloc, change)?;
    Ok(item)
}
