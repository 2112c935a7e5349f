//! Where a node that has too many references is split.
ghost use Rattle.std.specs.Prelude.{◌≡◌, ◌<◌, ◌≤◌, IfOk, IfSome, IfNone, IsTrue, MatchOption, All, None, filter, length, if◌then◌else◌, nat_lt};
ghost use Rattle.values.specs.Memory.{OnlyMemory};
ghost use Rattle.values.specs.Commits.{max_instant};
ghost use Rattle.keyrange.specs.Rect.{IsArea};
ghost use Rattle.keyrange.specs.Cut.{is_key_inside};
ghost use Rattle.indexnode.specs.Split.{is_current, starts_before, ends_after, IsUncrossed};
ghost use Rattle.indexnode.specs.Choice.{IsLeastStart, HasOneCurrent, HasCurrents, StandsAlone, IsMiddle, AreOrdered, AreSmaller, current_count, current_keys};

use crate::node::IndexNode;
use crate::reference::Reference;
use crate::split::Half;
use std::alloc::Global;
use values::{Instant, KeyBytes, Mem};

impl<C> IndexNode<C> {
    /// Finds the least instant at which a current reference starts; none where there is no current
    /// one.
    pub fn least_current_start(&self) -> Option<Instant>
        ensures least { MatchOption result
            (current_count self.now.references.items ≡ 0)
            (IsLeastStart self.now.references.items) }
        ensures in_range { IfSome result (λ t. t ≤ max_instant) }
        ensures smaller { IfSome result (λ t.
            length (filter (λ r. starts_before t r.rect) self.now.references.items)
            < length self.now.references.items) }
        ensures alone { HasOneCurrent self.now.rect self.now.references.items
            → IfSome result (StandsAlone self.now.rect self.now.references.items) }
    {
        let mut least = None;
        for reference in &self.references {
            let time = reference.rect.time();
            if is_current(reference) {
                least = Some(earlier(least, time.from));
            }
        }
        least
    }

    /// Counts the current references.
    pub fn current_count(&self) -> usize
        ensures { result ≡ current_count self.now.references.items }
    {
        let mut current = 0;
        for reference in &self.references {
            current += usize::from(is_current(reference));
        }
        current
    }

    /// Counts the references that the current half of a split at an instant would have.
    pub fn stay_count(&self, instant: Instant) -> usize
        ensures { result
            ≡ length (filter (λ r. ends_after instant r.rect) self.now.references.items) }
    {
        let mut count = 0;
        for reference in &self.references {
            if Half::Current(instant).keeps(&reference.rect) {
                count += 1;
            }
        }
        count
    }

    /// Finds the lower key of the current reference in the middle of them, in order by lower key;
    /// none where there is no current one.
    pub fn middle_key(&self, alloc: Global) -> Mem<Option<KeyBytes>>
        ensures some { IfOk result (λ k. IfSome k (IsMiddle self.now.references.items)) }
        ensures none { IfOk result (λ k. IfNone k (current_count self.now.references.items ≡ 0)) }
        ensures uncrossed { HasCurrents 0 self.now.rect self.now.references.items
            → IfOk result (λ k. IfSome k (λ key. IsUncrossed key self.now.references.items)) }
        ensures inside { HasCurrents 2 self.now.rect self.now.references.items
            → IfOk result (λ k. IfSome k (λ key. IsTrue (is_key_inside self.now.rect key))) }
        ensures smaller { HasCurrents 2 self.now.rect self.now.references.items
            → IfOk result (λ k. IfSome k (λ key. AreSmaller key self.now.references.items)) }
        ensures err { OnlyMemory result }
    {
        let mut keys = ordered_keys(alloc, &self.references)?;
        let middle = keys.len() / 2;
        if middle < keys.len() {
            Ok(Some(keys.swap_remove(middle)))
        } else {
            Ok(None)
        }
    }
}

/// The lower keys of the current references, in order.
fn ordered_keys<C>(alloc: Global, references: &[Reference<C>]) -> Mem<Vec<KeyBytes>>
    ensures ordered { IfOk result (λ v. AreOrdered references.now v.items) }
    ensures areas { IfOk result (λ _. All (λ r. IsArea r.rect) references.now) }
    ensures err { OnlyMemory result }
{
    let mut keys = current_keys(alloc, references)?;
    keys.sort()?;
    Ok(keys)
}

fn current_keys<C>(alloc: Global, references: &[Reference<C>]) -> Mem<Vec<KeyBytes>>
    ensures are { IfOk result (λ v. v.items ≡ current_keys references.now) }
    ensures areas { IfOk result (λ _. All (λ r. IsArea r.rect) references.now) }
    ensures err { OnlyMemory result }
{
    let mut keys = Vec::new(alloc);
    for reference in references {
        let range = reference.rect.keys();
        if is_current(reference) {
            keys.push(range.lo.copy()?)?;
        }
    }
    Ok(keys)
}

fn is_current<C>(reference: &Reference<C>) -> bool
    ensures { result ≡ is_current reference.now }
{
    reference.rect.time().to.is_none()
}

fn earlier(least: Option<Instant>, start: Instant) -> Instant
    ensures none { least ≡ None → result ≡ start }
    ensures some { IfSome least (λ t. result ≡ (if nat_lt t start then t else start)) }
{
    match least {
        Some(instant) if instant < start => instant,
        _ => start,
    }
}
