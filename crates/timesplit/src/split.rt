//! The halves of a data node at an instant.
ghost use Rattle.std.specs.Prelude.{◌≡◌, List, Some, IsTrue, IfOk};
ghost use Rattle.values.specs.Event.{Event};
ghost use Rattle.values.specs.Memory.{OnlyMemory};
ghost use Rattle.keyrange.specs.Cut.{is_time_inside, halves_by_time, PartsTime};
ghost use Rattle.datanode.specs.Cut.{cut};
ghost use Rattle.datanode.specs.Node.{IsCutOf};

use datanode::DataNode;
use values::{Instant, Mem};

/// Splits at an instant: the half before it and the half from it on, without copying events.
pub fn split_time(node: &DataNode, instant: Instant) -> Mem<(DataNode, DataNode)>
    requires { IsTrue (is_time_inside node.now.rect instant) }
    ensures rects { IfOk result (λ p.
        halves_by_time node.now.rect instant ≡ Some (p.0.rect, p.1.rect)) }
    ensures parts { IfOk result (λ p. PartsTime node.now.rect p.0.rect p.1.rect instant) }
    ensures past { IfOk result (λ p. p.0.events ≡ cut p.0.rect node.now.events) }
    ensures now { IfOk result (λ p. p.1.events ≡ cut p.1.rect node.now.events) }
    ensures of_map { IfOk result (λ p.
        (m : List Event) → IsCutOf node.now m → IsCutOf p.0 m × IsCutOf p.1 m) }
    ensures err { OnlyMemory result }
{
    match node.rect().cut_time(instant)? {
        Some((past, now)) => Ok((node.part(past)?, node.part(now)?)),
        None => unreachable!(),
    }
}
