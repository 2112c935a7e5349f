//! A walk from the root down, level by level.
ghost use Rattle.std.specs.Prelude.{◌≡◌, ◌↔◌, ◌++◌, ◌+◌, ℕ, Contains, IfOk, OnOk, map, filter};
ghost use Rattle.std.specs.List.Sorted.{IsStrictlyIncreasing};
ghost use Rattle.values.specs.Memory.{OnlyMemory};
ghost use Rattle.indexnode.specs.Node.{meet};
ghost use Rattle.treenodes.specs.Tree.{IsTree};
ghost use Rattle.treewalk.specs.Level.{AreMeeting, AreIndexes, IsAround, IsBelowRoot};

use crate::descent::node_around;
use indexnode::IndexNode;
use keyrange::Rect;
use std::alloc::Global;
use treenodes::Nodes;
use values::Mem;

/// Adds the numbers of the children that meet a rectangle.
fn add_meeting(
    alloc: Global,
    node: &IndexNode<usize>,
    rect: &Rect,
    numbers: &mut Vec<usize>,
) -> Mem<()>
    ensures ok { OnOk result (numbers.new.items
        ≡ numbers.old.items
        ++ map (λ r. r.child) (filter (λ r. meet r.rect rect.now) node.now.references.items)) }
    ensures err { OnlyMemory result }
{
    let found = node.meeting(alloc, rect)?;
    for reference in &found {
        numbers.push(reference.child)?;
    }
    Ok(())
}

/// Puts numbers in order, each once.
fn sort_numbers(numbers: &mut Vec<usize>)
    ensures ordered { IsStrictlyIncreasing numbers.new.items }
    ensures same { (n : ℕ) → Contains numbers.new.items n ↔ Contains numbers.old.items n }
{
    numbers.sort_unstable();
    numbers.dedup();
}

/// The numbers of the children of some index nodes that meet a rectangle, each once and in order.
fn level_below(alloc: Global, nodes: &Nodes, numbers: &[usize], rect: &Rect) -> Mem<Vec<usize>>
    requires tree { IsTree nodes.now }
    requires indexes { AreIndexes nodes.now numbers.now }
    ensures ok { (level : ℕ) → IsBelowRoot nodes.now level
        → AreMeeting nodes.now (level + 1) rect.now numbers.now
        → IfOk result (λ v. AreMeeting nodes.now level rect.now v.items) }
    ensures err { OnlyMemory result }
{
    // Who reads the time knows that the ranges are not empty.
    let _time = rect.time();
    let mut next = Vec::new(alloc);
    for number in numbers {
        add_meeting(alloc, nodes.at(*number).index(), rect, &mut next)?;
    }
    sort_numbers(&mut next);
    Ok(next)
}

/// Lists the numbers of the data nodes that have a point of a rectangle, each once and in order.
pub fn leaves_in(alloc: Global, nodes: &Nodes, rect: &Rect) -> Mem<Vec<usize>>
    requires { IsTree nodes.now }
    ensures ok { IfOk result (λ v. AreMeeting nodes.now 0 rect.now v.items) }
    ensures err { OnlyMemory result }
{
    let number = node_around(nodes, rect);
    leaves_below(alloc, nodes, number, rect)
}

/// The same, where all of the rectangle lies in the node of a number.
pub(crate) fn leaves_below(
    alloc: Global,
    nodes: &Nodes,
    number: usize,
    rect: &Rect,
) -> Mem<Vec<usize>>
    requires tree { IsTree nodes.now }
    requires around { IsAround nodes.now rect.now number }
    ensures ok { IfOk result (λ v. AreMeeting nodes.now 0 rect.now v.items) }
    ensures err { OnlyMemory result }
{
    // Who reads the time knows that the ranges are not empty.
    let _time = rect.time();
    let mut numbers = Vec::new(alloc);
    numbers.push(number)?;
    let mut level = nodes.at(number).level();
    while level > 0 {
        numbers = level_below(alloc, nodes, &numbers, rect)?;
        level -= 1;
    }
    Ok(numbers)
}
