//! A tree of shared nodes, seen as a list.
ghost use Rattle.std.specs.Prelude.{◌≡◌, ◌<◌, ◌≤◌, ◌*◌, ◌+◌, [], ◌∷◌, ◌++◌, length, max, slice_get, slice_set, HoldsAt, IfOk, OnOk, OnErr, Some};
ghost use Rattle.values.specs.Memory.{OnlyMemory};
ghost use Rattle.slots.specs.Trie.{all_items, Packed, items_of, view_of, IsShape};

use crate::share::{Share, Update, share_all};
use std::alloc::Global;
use std::marker::Model;
use std::sync::Arc;
use values::{Mem, Refusal};

/// How many items a leaf has, and how many children a node has, before the tree grows.
const FAN: usize = 16;

/// A shared tree of items. Contracts see how many items a full child has, 1 at a leaf, and the
/// items.
#[cycle(trie)]
#[derive(Drop)]
pub struct Trie<T> {
    node: Arc<Node<T>>,
}

#[cycle(trie)]
#[derive(Drop)]
struct Node<T> {
    each: usize,
    len: usize,
    body: Body<T>,
}

#[cycle(trie)]
#[derive(Drop)]
enum Body<T> {
    Leaf(Vec<T>),
    Inner(Vec<Trie<T>>),
}

impl<T> Model for Trie<T> {
    ghost use Rattle.std.specs.Prelude.{ℕ, List, length};

    ghost Value = { ℕ × List T };

    ghost use Rattle.slots.specs.Trie.{view_of, IsShape};

    ghost view = { λ t. view_of t.node.value };

    ghost invariant = { λ t. IsShape t.node.value };

    ghost size = { λ v. v.0 };

    ghost use Rattle.slots.specs.TrieSize.{falls};

    ghost size_decreases = { λ a h. falls a.node.value h };
}

impl<T> Trie<T> {
    /// Returns the number of items.
    pub fn len(&self) -> usize
        ensures { result ≡ length self.now.1 }
    {
        self.node.len
    }

    /// Returns the item at a place, if there is one.
    pub fn get(&self, at: usize) -> &T
        requires { at < length self.now.1 }
        ensures { slice_get self.now.1 at ≡ Some result.now }
    {
        let each = self.node.each;
        match &self.node.body {
            Body::Leaf(all) => &all[at],
            Body::Inner(children) => children[at / each].get(at % each),
        }
    }
}

impl<T> Trie<T> {
    /// Whether others share the tree's node.
    pub(crate) fn is_shared(&self) -> bool {
        Arc::strong_count(&self.node) > 1
    }
}

impl<T> Share for Trie<T> {
    fn share(&self) -> Mem<Trie<T>> {
        let node = Arc::try_clone(&self.node)?;
        Ok(Trie { node })
    }
}

impl<T: Share + Drop> Trie<T> {
    /// Makes a tree of one item.
    pub fn leaf(alloc: Global, item: T) -> Mem<Trie<T>>
        ensures ok { IfOk result (λ t. t ≡ (1, item ∷ [])) }
        ensures memory { OnlyMemory result }
    {
        let mut all = Vec::with_capacity(alloc, 1)?;
        all.push_reserved(item);
        let node = Arc::new(
            alloc,
            Node {
                each: 1,
                len: 1,
                body: Body::Leaf(all),
            },
        )?;
        Ok(Trie { node })
    }

    /// Replaces the item at a place. Where memory runs out the tree is what it was.
    #[cycle(set)]
    pub fn set(&mut self, alloc: Global, at: usize, item: T) -> Mem<()>
        requires { at < length self.old.1 }
        ensures each { self.new.0 ≡ self.old.0 }
        ensures ok { OnOk result (self.new.1 ≡ slice_set self.old.1 at item) }
        ensures err { OnErr result (self.new.1 ≡ self.old.1) }
        ensures memory { OnlyMemory result }
    {
        if let Some(node) = Arc::get_mut(&mut self.node) {
            return node.set(alloc, at, item);
        }
        let mut node = self.node.copy(alloc)?;
        node.set(alloc, at, item)?;
        self.node = Arc::new(alloc, node)?;
        Ok(())
    }

    /// Changes the item at a place. Where memory runs out the tree is what it was.
    #[cycle(update)]
    pub fn update<C: Drop>(&mut self, alloc: Global, at: usize, change: C) -> Mem<()>
    where
        T: Update<C>,
        requires inside { at < length self.old.1 }
        requires can { HoldsAt (λ x. T.can_update x change) self.old.1 at }
        ensures each { self.new.0 ≡ self.old.0 }
        ensures ok { HoldsAt (λ x.
            OnOk result (self.new.1 ≡ slice_set self.old.1 at (T.updated x change)))
            self.old.1 at }
        ensures err { OnErr result (self.new.1 ≡ self.old.1) }
        ensures memory { OnlyMemory result }
    {
        if let Some(node) = Arc::get_mut(&mut self.node) {
            return node.update(alloc, at, change);
        }
        let mut node = self.node.copy(alloc)?;
        node.update(alloc, at, change)?;
        self.node = Arc::new(alloc, node)?;
        Ok(())
    }

    /// Appends an item. Where memory runs out the tree is what it was.
    #[cycle(push)]
    pub fn push(&mut self, alloc: Global, item: T) -> Mem<()>
        ensures each { self.new.0 ≤ max self.old.0 (length self.old.1) }
        ensures ok { OnOk result (self.new.1 ≡ self.old.1 ++ item ∷ []) }
        ensures err { OnErr result (self.new.1 ≡ self.old.1) }
        ensures memory { OnlyMemory result }
    {
        if self.node.len / self.node.each >= FAN {
            let first = self.share()?;
            self.node = Arc::new(alloc, Node::parent(alloc, first, item)?)?;
            return Ok(());
        }
        if let Some(node) = Arc::get_mut(&mut self.node) {
            return node.push(alloc, item);
        }
        let mut node = self.node.copy(alloc)?;
        node.push(alloc, item)?;
        self.node = Arc::new(alloc, node)?;
        Ok(())
    }
}

impl<T: Share + Drop> Node<T> {
    /// An equal node.
    fn copy(&self, alloc: Global) -> Mem<Node<T>>
        requires { IsShape self.now }
        ensures shape { IfOk result (λ n. IsShape n) }
        ensures view { IfOk result (λ n. view_of n ≡ view_of self.now) }
        ensures memory { OnlyMemory result }
    {
        let body = match &self.body {
            Body::Leaf(all) => Body::Leaf(share_all(alloc, all.as_slice(), FAN)?),
            Body::Inner(children) => Body::Inner(share_all(alloc, children.as_slice(), FAN)?),
        };
        Ok(Node {
            each: self.each,
            len: self.len,
            body,
        })
    }

    /// A node over a full one, which is its first child, and an item behind it.
    fn parent(alloc: Global, first: Trie<T>, item: T) -> Mem<Node<T>>
        requires { first.0 < length first.1 }
        ensures shape { IfOk result (λ n. IsShape n) }
        ensures view { IfOk result (λ n. view_of n ≡ (length first.1, first.1 ++ item ∷ [])) }
        ensures memory { OnlyMemory result }
    {
        let each = first.len();
        let Some(len) = each.checked_add(1) else {
            return Err(Refusal::Memory);
        };
        let mut children = Vec::with_capacity(alloc, 2)?;
        children.push_reserved(first);
        children.push_reserved(Trie::leaf(alloc, item)?);
        Ok(Node {
            each,
            len,
            body: Body::Inner(children),
        })
    }

    #[cycle(set)]
    fn set(&mut self, alloc: Global, at: usize, item: T) -> Mem<()>
        requires shape { IsShape self.old }
        requires inside { at < length (items_of self.old.body) }
        ensures shape { IsShape self.new }
        ensures each { self.new.each ≡ self.old.each }
        ensures ok { OnOk result (items_of self.new.body
            ≡ slice_set (items_of self.old.body) at item) }
        ensures err { OnErr result (items_of self.new.body ≡ items_of self.old.body) }
        ensures memory { OnlyMemory result }
    {
        let each = self.each;
        match &mut self.body {
            Body::Leaf(all) => {
                all[at] = item;
                Ok(())
            }
            Body::Inner(children) => children[at / each].set(alloc, at % each, item),
        }
    }

    #[cycle(update)]
    fn update<C: Drop>(&mut self, alloc: Global, at: usize, change: C) -> Mem<()>
    where
        T: Update<C>,
        requires shape { IsShape self.old }
        requires inside { at < length (items_of self.old.body) }
        requires can { HoldsAt (λ x. T.can_update x change) (items_of self.old.body) at }
        ensures shape { IsShape self.new }
        ensures each { self.new.each ≡ self.old.each }
        ensures ok { HoldsAt (λ x. OnOk result (items_of self.new.body
            ≡ slice_set (items_of self.old.body) at (T.updated x change)))
            (items_of self.old.body) at }
        ensures err { OnErr result (items_of self.new.body ≡ items_of self.old.body) }
        ensures memory { OnlyMemory result }
    {
        let each = self.each;
        match &mut self.body {
            Body::Leaf(all) => all[at].update(alloc, change),
            Body::Inner(children) => children[at / each].update(alloc, at % each, change),
        }
    }

    #[cycle(push)]
    fn push(&mut self, alloc: Global, item: T) -> Mem<()>
        requires shape { IsShape self.old }
        ensures shape { IsShape self.new }
        ensures each { self.new.each ≡ self.old.each }
        ensures ok { OnOk result (items_of self.new.body ≡ items_of self.old.body ++ item ∷ []) }
        ensures err { OnErr result (items_of self.new.body ≡ items_of self.old.body) }
        ensures memory { OnlyMemory result }
    {
        let Some(len) = self.len.checked_add(1) else {
            return Err(Refusal::Memory);
        };
        match &mut self.body {
            Body::Leaf(all) => all.push(item)?,
            Body::Inner(children) => push_last(children, self.each, alloc, item)?,
        }
        self.len = len;
        Ok(())
    }
}

#[cycle(push)]
fn push_last<T: Share + Drop>(
    children: &mut Vec<Trie<T>>,
    each: usize,
    alloc: Global,
    item: T,
) -> Mem<()>
    requires each { 1 < each }
    requires packed { Packed each children.old.items }
    ensures packed { Packed each children.new.items }
    ensures ok { OnOk result (all_items children.new.items
        ≡ all_items children.old.items ++ item ∷ []) }
    ensures err { OnErr result (all_items children.new.items ≡ all_items children.old.items) }
    ensures memory { OnlyMemory result }
{
    let n = children.len();
    if n > 0 && children[n - 1].len() < each {
        return children[n - 1].push(alloc, item);
    }
    let last = Trie::leaf(alloc, item)?;
    children.push(last)?;
    Ok(())
}
