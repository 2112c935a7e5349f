//! The halves of a data node at a key.
ghost use Rattle.std.specs.Prelude.{◌≡◌, List, Some, IsTrue, IfOk};
ghost use Rattle.values.specs.Event.{Event};
ghost use Rattle.values.specs.Memory.{OnlyMemory};
ghost use Rattle.keyrange.specs.Cut.{is_key_inside, halves_by_key, PartsKeys};
ghost use Rattle.datanode.specs.Cut.{cut};
ghost use Rattle.datanode.specs.Node.{IsCutOf};

use datanode::DataNode;
use values::{KeyBytes, Mem};

/// Splits at a key: the half below it and the half from it on, without copying events.
pub fn split_key(node: &DataNode, key: &KeyBytes) -> Mem<(DataNode, DataNode)>
    requires { IsTrue (is_key_inside node.now.rect key.now) }
    ensures rects { IfOk result (λ p.
        halves_by_key node.now.rect key.now ≡ Some (p.0.rect, p.1.rect)) }
    ensures parts { IfOk result (λ p. PartsKeys node.now.rect p.0.rect p.1.rect key.now) }
    ensures below { IfOk result (λ p. p.0.events ≡ cut p.0.rect node.now.events) }
    ensures above { IfOk result (λ p. p.1.events ≡ cut p.1.rect node.now.events) }
    ensures of_map { IfOk result (λ p.
        (m : List Event) → IsCutOf node.now m → IsCutOf p.0 m × IsCutOf p.1 m) }
    ensures err { OnlyMemory result }
{
    match node.rect().cut_key(key)? {
        Some((below, above)) => Ok((node.part(below)?, node.part(above)?)),
        None => unreachable!(),
    }
}
