//! The search for a reference at a point. It finds it in every order of the references; where they
//! are in the order of their lower keys, and then of their starts, it looks at few.
ghost use Rattle.std.specs.Prelude.{◌≡◌, ◌≤◌, [], IsTrue, IfSome, IfNone, HoldsAt, Contains, length, take};
ghost use Rattle.keyrange.specs.Range.{is_below};
ghost use Rattle.keyrange.specs.Rect.{has_point};
ghost use Rattle.indexnode.specs.Node.{at_point};
ghost use Rattle.indexnode.specs.Search.{IsAboveAt};

use crate::reference::Reference;
use keyrange::is_below;
use values::{Instant, KeyBytes};

/// So many references are not halved further: to look at each, its time first, costs no more than
/// to compare the keys of two.
const FEW: usize = 4;

/// Finds where to begin: the reference there, if there is one, begins above the key, and where
/// references are in the order of their lower keys, so do all after it.
pub(crate) fn place_above<C>(references: &[Reference<C>], key: &KeyBytes) -> usize
    ensures within { result ≤ length references.now }
    ensures above { IsAboveAt key.now references.now result }
{
    let mut low = 0;
    let mut high = references.len();
    while high - low > FEW {
        let middle = low + (high - low) / 2;
        if is_below(key, &references[middle].rect.keys().lo) {
            high = middle;
        } else {
            low = middle;
        }
    }
    high
}

/// Finds a reference that holds a point among those before a place, from the last of them down.
pub(crate) fn find_before<'a, C>(
    references: &'a [Reference<C>],
    end: usize,
    key: &KeyBytes,
    instant: Instant,
) -> Option<&'a Reference<C>>
    requires { end ≤ length references.now }
    ensures holds { IfSome result (λ r. IsTrue (has_point r.now.rect key.now instant)) }
    ensures among { IfSome result (λ r. Contains references.now r.now) }
    ensures none { IfNone result (at_point key.now instant (take end references.now) ≡ []) }
{
    let mut place = end;
    while place > 0 {
        place -= 1;
        let reference = &references[place];
        if reference.rect.contains(key, instant) {
            return Some(reference);
        }
    }
    None
}
