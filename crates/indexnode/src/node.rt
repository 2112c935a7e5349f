//! A node, the reference at a point, and those that meet a rectangle.
ghost use Rattle.std.specs.Prelude.{◌≡◌, ◌↔◌, ◌∷◌, [], IfOk, IsTrue, Contains, filter, map, All, length};
ghost use Rattle.values.specs.Memory.{OnlyMemory};
ghost use Rattle.keyrange.specs.Rect.{IsArea, has_point, Common};
ghost use Rattle.indexnode.specs.Node.{Tiles, at_point, meet, MeetsWhereCommon};

use crate::reference::Reference;
use crate::search::{find_before, place_above};
use keyrange::Rect;
use slots::Share;
use std::alloc::Global;
use values::{Instant, KeyBytes, Mem};

/// A rectangle, and references that tile it.
#[derive(Drop)]
pub struct IndexNode<C> {
    pub(crate) alloc: Global,
    pub(crate) rect: Rect,
    pub(crate) references: Vec<Reference<C>>,
}

impl<C> IndexNode<C> {
    /// Makes a node of a rectangle and the references that tile it.
    pub fn new(alloc: Global, rect: Rect, references: Vec<Reference<C>>) -> Mem<IndexNode<C>>
        requires { Tiles rect references.items }
        ensures rect { IfOk result (λ n. n.rect ≡ rect) }
        ensures references { IfOk result (λ n. n.references.items ≡ references.items) }
        ensures err { OnlyMemory result }
    {
        Ok(IndexNode {
            alloc,
            rect,
            references,
        })
    }

    /// Returns the rectangle.
    pub fn rect(&self) -> &Rect
        ensures rect { result.now ≡ self.now.rect }
        ensures area { IsArea result.now }
    {
        // Who reads the time knows that the ranges are not empty.
        let _time = self.rect.time();
        &self.rect
    }

    /// Returns the references, in their order.
    pub fn references(&self) -> &[Reference<C>]
        ensures { result.now ≡ self.now.references.items }
    {
        self.references.as_slice()
    }

    /// Finds the one reference at a point of the node's rectangle.
    pub fn find(&self, key: &KeyBytes, instant: Instant) -> &Reference<C>
        requires inside { IsTrue (has_point self.now.rect key.now instant) }
        requires tiled { Tiles self.now.rect self.now.references.items }
        ensures only { at_point key.now instant self.now.references.items ≡ result.now ∷ [] }
        ensures holds { IsTrue (has_point result.now.rect key.now instant) }
        ensures among { Contains self.now.references.items result.now }
    {
        let start = place_above(&self.references, key);
        if let Some(found) = find_before(&self.references, start, key, instant) {
            return found;
        }
        match find_before(&self.references, self.references.len(), key, instant) {
            Some(found) => found,
            None => unreachable!(),
        }
    }

    /// Lists the references that have a point in common with a rectangle, in their order.
    pub fn meeting(&self, alloc: Global, rect: &Rect) -> Mem<Vec<&Reference<C>>>
        ensures are { IfOk result (λ v.
            map (λ r. r.now) v.items
            ≡ filter (λ r. meet r.rect rect.now) self.now.references.items) }
        ensures common { IfOk result (λ _.
            All (MeetsWhereCommon rect.now) self.now.references.items) }
        ensures err { OnlyMemory result }
    {
        let mut found = Vec::new(alloc);
        for reference in &self.references {
            if meets(&reference.rect, rect) {
                found.push(reference)?;
            }
        }
        Ok(found)
    }
}

impl<C: Share + Drop> IndexNode<C> {
    /// Copies the node with room for one reference more, and shares its children.
    pub fn copy(&self) -> Mem<IndexNode<C>>
        ensures rect { IfOk result (λ n. n.rect ≡ self.now.rect) }
        ensures references { IfOk result (λ n. n.references.items ≡ self.now.references.items) }
        ensures err { OnlyMemory result }
    {
        let room = self.references.len().saturating_add(1);
        let mut references = Vec::with_capacity(self.alloc, room)?;
        for reference in &self.references {
            references.push(reference.share()?)?;
        }
        Ok(IndexNode {
            alloc: self.alloc,
            rect: self.rect.copy()?,
            references,
        })
    }
}

/// Whether two rectangles have a point in common.
fn meets(first: &Rect, second: &Rect) -> bool
    ensures test { result ≡ meet first.now second.now }
    ensures common { IsTrue result ↔ Common first.now second.now }
{
    // Who reads the time knows that the ranges are not empty.
    let _first = first.time();
    let _second = second.time();
    first.meets(second)
}
