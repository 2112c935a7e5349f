//! A tree takes an event.
ghost use Rattle.std.specs.Prelude.{◌≡◌, IfOk, slice_set};
ghost use Rattle.values.specs.Memory.{OnlyMemory};
ghost use Rattle.values.specs.Events.{put_event};
ghost use Rattle.treenodes.specs.Node.{TreeNode, IsAt};
ghost use Rattle.treenodes.specs.Tree.{IsTree};
ghost use Rattle.treenodes.specs.Map.{HoldsMap, IsNext, changes};
ghost use Rattle.treenodes.specs.Lookup.{IsLeafAt};
ghost use Rattle.treenodes.specs.Event.{AcceptsEvent, with_put};
ghost use Rattle.treenodes.specs.History.{KeepsHistory};

use crate::nodes::Nodes;
use values::{Event, Mem};

/// Puts an event into the data node at its point. A node that nobody shares is written in place.
/// `Memory` where it runs out.
pub fn with_event(nodes: Nodes, number: usize, event: Event) -> Mem<Nodes>
    requires tree { IsTree nodes }
    requires holds { HoldsMap nodes (changes nodes) }
    requires next { IsNext (changes nodes) event }
    requires leaf { IsLeafAt nodes event.key event.at number }
    ensures tree { IfOk result IsTree }
    ensures holds { IfOk result (λ s. HoldsMap s (put_event event (changes nodes))) }
    ensures taken { (n : TreeNode) → IsAt nodes number n
        → IfOk result (λ s. s ≡ slice_set nodes number (with_put n event)) }
    ensures accepted { (n : TreeNode) → IsAt nodes number n
        → IfOk result (λ _. AcceptsEvent n event) }
    ensures history { IfOk result (KeepsHistory nodes) }
    ensures err { OnlyMemory result }
{
    nodes.with_event(number, event)
}
