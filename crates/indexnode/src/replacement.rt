//! References that take the place of another.
ghost use Rattle.std.specs.Prelude.{◌≡◌, ◌≢◌, ◌↔◌, ◌∷◌, [], None, IfOk, IsTrue, IsFalse, OnErr, IsSome, All, MatchOption};
ghost use Rattle.values.specs.Memory.{OnlyMemory};
ghost use Rattle.keyrange.specs.Rect.{IsInside};
ghost use Rattle.keyrange.specs.Cut.{AreHalves};
ghost use Rattle.indexnode.specs.Node.{Tiles, AllMeet};
ghost use Rattle.indexnode.specs.Split.{AreCurrentIn};
ghost use Rattle.indexnode.specs.Choice.{HasNoCurrent};
ghost use Rattle.indexnode.specs.Replacement.{HasRect, Replaced, IsFirstPlace};

use crate::list::pair;
use crate::node::IndexNode;
use crate::reference::Reference;
use keyrange::Rect;
use slots::Share;
use values::Mem;

impl<C: Drop> IndexNode<C> {
    /// Replaces the reference that has a rectangle by others; false where none has it. Where it is
    /// false, or memory runs out, nothing has changed.
    pub fn replace(&mut self, rect: &Rect, given: Vec<Reference<C>>) -> Mem<bool>
        requires tiles { Tiles rect.now given.items }
        requires inside { All (λ r. IsInside r.rect rect.now) given.items }
        ensures answer { IfOk result (λ done.
            IsTrue done ↔ HasRect rect.now self.old.references.items) }
        ensures replaced { IfOk result (λ done.
            IsTrue done
            → Replaced rect.now given.items self.old.references.items self.new.references.items) }
        ensures kept { IfOk result (λ done.
            IsFalse done → self.new.references.items ≡ self.old.references.items) }
        ensures rect { self.new.rect ≡ self.old.rect }
        ensures tiled { Tiles self.old.rect self.old.references.items
            → Tiles self.new.rect self.new.references.items }
        ensures current { AreCurrentIn self.old.rect self.old.references.items
            → (IsSome rect.now.time.to → HasNoCurrent given.items)
            → AreCurrentIn self.new.rect self.new.references.items }
        ensures meet { AllMeet self.old.rect self.old.references.items
            → AllMeet self.old.rect given.items
            → AllMeet self.new.rect self.new.references.items }
        ensures err { OnErr result (self.new.references.items ≡ self.old.references.items) }
        ensures memory { OnlyMemory result }
    {
        let Some(place) = place_of(rect, &self.references) else {
            return Ok(false);
        };
        let _replaced = self.references.splice(place..place + 1, given)?;
        Ok(true)
    }
}

impl<C: Share + Drop> IndexNode<C> {
    /// Makes the node with references to two halves in place of the one to their whole.
    pub fn with_references(
        &self,
        whole: &Rect,
        first: Reference<C>,
        second: Reference<C>,
    ) -> Mem<IndexNode<C>>
        requires halves { AreHalves whole.now first.rect second.rect }
        requires there { HasRect whole.now self.now.references.items }
        ensures rect { IfOk result (λ n. n.rect ≡ self.now.rect) }
        ensures replaced { IfOk result (λ n.
            Replaced whole.now
            (first ∷ second ∷ [])
            self.now.references.items n.references.items) }
        ensures tiled { Tiles self.now.rect self.now.references.items
            → IfOk result (λ n. Tiles self.now.rect n.references.items) }
        ensures current { whole.now.time.to ≡ None
            → AreCurrentIn self.now.rect self.now.references.items
            → IfOk result (λ n. AreCurrentIn self.now.rect n.references.items) }
        ensures meet { IsInside whole.now self.now.rect
            → AllMeet self.now.rect self.now.references.items
            → IfOk result (λ n. AllMeet self.now.rect n.references.items) }
        ensures err { OnlyMemory result }
    {
        let halves = pair(self.alloc, first, second)?;
        let mut node = self.copy()?;
        let _replaced = node.replace(whole, halves)?;
        Ok(node)
    }
}

/// The first place of a rectangle.
fn place_of<C>(rect: &Rect, references: &[Reference<C>]) -> Option<usize>
    ensures { MatchOption result
        (All (λ r. r.rect ≢ rect.now) references.now)
        (IsFirstPlace rect.now references.now) }
{
    for (place, reference) in references.iter().enumerate() {
        if reference.rect == *rect {
            return Some(place);
        }
    }
    None
}
