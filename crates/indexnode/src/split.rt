//! The halves of a node.
ghost use Rattle.std.specs.Prelude.{◌≡◌, IfOk, IsTrue, Some, filter};
ghost use Rattle.values.specs.Memory.{OnlyMemory};
ghost use Rattle.keyrange.specs.Cut.{is_key_inside, is_time_inside, halves_by_key, halves_by_time, PartsKeys, PartsTime};
ghost use Rattle.indexnode.specs.Node.{Tiles, AllMeet};
ghost use Rattle.indexnode.specs.Split.{keeps, reaches_below, reaches_up, starts_before, ends_after, IsUncrossed, IsBeforeCurrent, AreCurrentIn};

use crate::node::IndexNode;
use keyrange::{Rect, is_before_end, is_below, is_early};
use slots::Share;
use values::{Instant, KeyBytes, Mem};

/// What a half keeps: the references that reach below a key, or to it and above; those that start
/// before an instant, or end after it.
#[derive(Clone, Copy)]
pub(crate) enum Half<'a> {
    Below(&'a KeyBytes),
    From(&'a KeyBytes),
    Past(Instant),
    Current(Instant),
}

impl<C: Share + Drop> IndexNode<C> {
    /// Splits at a key: the half below it and the half from it on. A historical reference that
    /// crosses the key is in both, each with its child.
    pub fn split_key(&self, key: &KeyBytes) -> Mem<(IndexNode<C>, IndexNode<C>)>
        requires inside { IsTrue (is_key_inside self.now.rect key.now) }
        requires uncrossed { IsUncrossed key.now self.now.references.items }
        ensures rects { IfOk result (λ h.
            halves_by_key self.now.rect key.now ≡ Some (h.0.rect, h.1.rect)) }
        ensures parts { IfOk result (λ h. PartsKeys self.now.rect h.0.rect h.1.rect key.now) }
        ensures below { IfOk result (λ h.
            h.0.references.items
            ≡ filter (λ r. reaches_below key.now r.rect) self.now.references.items) }
        ensures above { IfOk result (λ h.
            h.1.references.items
            ≡ filter (λ r. reaches_up key.now r.rect) self.now.references.items) }
        ensures tiled { Tiles self.now.rect self.now.references.items
            → IfOk result (λ h.
            Tiles h.0.rect h.0.references.items × Tiles h.1.rect h.1.references.items) }
        ensures meet { AllMeet self.now.rect self.now.references.items
            → IfOk result (λ h.
            AllMeet h.0.rect h.0.references.items × AllMeet h.1.rect h.1.references.items) }
        ensures current { AreCurrentIn self.now.rect self.now.references.items
            → IfOk result (λ h.
            AreCurrentIn h.0.rect h.0.references.items
            × AreCurrentIn h.1.rect h.1.references.items) }
        ensures err { OnlyMemory result }
    {
        let Some((below, above)) = self.rect.cut_key(key)? else {
            unreachable!()
        };
        Ok((
            self.half(below, Half::Below(key))?,
            self.half(above, Half::From(key))?,
        ))
    }

    /// Splits at an instant: the half before it and the half from it on. A reference that starts
    /// before the instant and ends after it is in both, each with its child.
    pub fn split_time(&self, instant: Instant) -> Mem<(IndexNode<C>, IndexNode<C>)>
        requires inside { IsTrue (is_time_inside self.now.rect instant) }
        requires before_current { IsBeforeCurrent instant self.now.references.items }
        ensures rects { IfOk result (λ h.
            halves_by_time self.now.rect instant ≡ Some (h.0.rect, h.1.rect)) }
        ensures parts { IfOk result (λ h. PartsTime self.now.rect h.0.rect h.1.rect instant) }
        ensures past { IfOk result (λ h.
            h.0.references.items
            ≡ filter (λ r. starts_before instant r.rect) self.now.references.items) }
        ensures now { IfOk result (λ h.
            h.1.references.items
            ≡ filter (λ r. ends_after instant r.rect) self.now.references.items) }
        ensures tiled { Tiles self.now.rect self.now.references.items
            → IfOk result (λ h.
            Tiles h.0.rect h.0.references.items × Tiles h.1.rect h.1.references.items) }
        ensures meet { AllMeet self.now.rect self.now.references.items
            → IfOk result (λ h.
            AllMeet h.0.rect h.0.references.items × AllMeet h.1.rect h.1.references.items) }
        ensures current { AreCurrentIn self.now.rect self.now.references.items
            → IfOk result (λ h.
            AreCurrentIn h.0.rect h.0.references.items
            × AreCurrentIn h.1.rect h.1.references.items) }
        ensures err { OnlyMemory result }
    {
        let Some((past, now)) = self.rect().cut_time(instant)? else {
            unreachable!()
        };
        Ok((
            self.half(past, Half::Past(instant))?,
            self.half(now, Half::Current(instant))?,
        ))
    }

    fn half(&self, rect: Rect, half: Half<'_>) -> Mem<IndexNode<C>>
        ensures rect { IfOk result (λ n. n.rect ≡ rect) }
        ensures references { IfOk result (λ n.
            n.references.items
            ≡ filter (λ r. keeps half.entry r.rect) self.now.references.items) }
        ensures err { OnlyMemory result }
    {
        let mut references = Vec::with_capacity(self.alloc, self.references.len())?;
        for reference in &self.references {
            if half.keeps(&reference.rect) {
                references.push(reference.share()?)?;
            }
        }
        references.shrink_to_fit();
        Ok(IndexNode {
            alloc: self.alloc,
            rect,
            references,
        })
    }
}

impl Half<'_> {
    /// Tells whether a half keeps a reference's rectangle.
    pub(crate) fn keeps(&self, rect: &Rect) -> bool
        ensures { result ≡ keeps self.now rect.now }
    {
        match self {
            Half::Below(key) => is_below(&rect.keys().lo, key),
            Half::From(key) => is_before_end(key, &rect.keys().hi),
            Half::Past(instant) => rect.time().from < *instant,
            Half::Current(instant) => is_early(*instant, rect.time().to),
        }
    }
}
