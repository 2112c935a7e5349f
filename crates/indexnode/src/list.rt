//! Lists of references that tile a rectangle.
ghost use Rattle.std.specs.Prelude.{◌≡◌, ℕ, List, [], ◌∷◌, IfOk, All};
ghost use Rattle.values.specs.Memory.{OnlyMemory};
ghost use Rattle.keyrange.specs.Rect.{Area, IsInside};
ghost use Rattle.keyrange.specs.Cut.{AreHalves};
ghost use Rattle.indexnode.specs.Node.{Tiles, AllMeet};

use crate::reference::Reference;
use std::alloc::Global;
use values::Mem;

/// Makes a list of one reference, which tiles its own rectangle.
pub fn single<C: Drop>(alloc: Global, reference: Reference<C>) -> Mem<Vec<Reference<C>>>
    ensures are { IfOk result (λ v. v.items ≡ reference ∷ []) }
    ensures tiles { IfOk result (λ v. Tiles reference.rect v.items) }
    ensures inside { IfOk result (λ v. All (λ r. IsInside r.rect reference.rect) v.items) }
    ensures meet { (outer : Area) → IsInside reference.rect outer
        → IfOk result (λ v. AllMeet outer v.items) }
    ensures err { OnlyMemory result }
{
    // Who reads the time knows that the ranges are not empty.
    let _time = reference.rect.time();
    let mut references = Vec::new(alloc);
    references.push(reference)?;
    Ok(references)
}

/// Makes a list of two references, which tile a rectangle whose halves they have.
pub fn pair<C: Drop>(
    alloc: Global,
    first: Reference<C>,
    second: Reference<C>,
) -> Mem<Vec<Reference<C>>>
    ensures are { IfOk result (λ v. v.items ≡ first ∷ second ∷ []) }
    ensures halves { (area : Area) → AreHalves area first.rect second.rect
        → IfOk result (λ v. Tiles area v.items × All (λ r. IsInside r.rect area) v.items) }
    ensures meet { (outer : Area) → IsInside first.rect outer → IsInside second.rect outer
        → IfOk result (λ v. AllMeet outer v.items) }
    ensures err { OnlyMemory result }
{
    // Who reads the time knows that the ranges are not empty.
    let _first = first.rect.time();
    let _second = second.rect.time();
    let mut references = Vec::with_capacity(alloc, 2)?;
    references.push(first)?;
    references.push(second)?;
    Ok(references)
}
