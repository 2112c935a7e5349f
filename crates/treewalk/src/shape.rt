//! A tree's shape: the rectangles of its nodes, and how much they hold.
ghost use Rattle.std.specs.Prelude.{◌≡◌, IfOk, is_some, map};
ghost use Rattle.values.specs.Memory.{OnlyMemory};
ghost use Rattle.treenodes.specs.Node.{count_of, content_of, packed_of};
ghost use Rattle.treenodes.specs.Tree.{IsTree};
ghost use Rattle.treewalk.specs.Shape.{IsShapeOf, node_shape, shape_cmp};

use keyrange::Rect;
use std::alloc::Global;
use std::cmp::Ordering;
use treenodes::{Child, Nodes, Slot};
use values::Mem;

/// A node's level, counted from the data nodes up, its rectangle, how many events or references it
/// holds, and whether it is packed.
#[derive(Debug, Drop)]
pub struct NodeShape {
    pub level: usize,
    pub rect: Rect,
    pub count: usize,
    pub packed: bool,
}

/// The nodes of a tree: from the root's level down, in each level by the start of time, then by the
/// lower key.
#[derive(Debug, Drop)]
pub struct Shape {
    pub nodes: Vec<NodeShape>,
}

/// Returns the shape of a tree: each of its nodes once, whatever the number of its parents.
pub fn tree_shape(alloc: Global, nodes: &Nodes) -> Mem<Shape>
    requires { IsTree nodes.now }
    ensures ok { IfOk result (λ s. IsShapeOf nodes.now s.nodes.items) }
    ensures err { OnlyMemory result }
{
    let mut shapes = all_shapes(alloc, nodes)?;
    shapes.sort_by(|first, second| order(first, second))?;
    Ok(Shape { nodes: shapes })
}

/// What a shape shows of each node, by their numbers.
fn all_shapes(alloc: Global, nodes: &Nodes) -> Mem<Vec<NodeShape>>
    ensures ok { IfOk result (λ v. v.items ≡ map node_shape nodes.now) }
    ensures err { OnlyMemory result }
{
    let mut shapes = Vec::with_capacity(alloc, nodes.len())?;
    for number in 0..nodes.len() {
        shapes.push(node_shape(nodes.at(number))?)?;
    }
    Ok(shapes)
}

/// What a shape shows of a node.
fn node_shape(node: &Slot) -> Mem<NodeShape>
    ensures ok { IfOk result (λ s. s ≡ node_shape node.now) }
    ensures err { OnlyMemory result }
{
    Ok(NodeShape {
        level: node.level(),
        rect: node.child().rect().copy()?,
        count: count_of(node.child()),
        packed: is_packed(node.child()),
    })
}

/// How many events or references there are.
fn count_of(child: &Child) -> usize
    ensures { result ≡ count_of (content_of child.now) }
{
    match child {
        Child::Data(node) => node.len(),
        Child::Packed(block) => block.len(),
        Child::Index(node) => node.references().len(),
    }
}

fn is_packed(child: &Child) -> bool
    ensures { result ≡ is_some (packed_of child.now) }
{
    match child {
        Child::Packed(_) => true,
        Child::Data(_) | Child::Index(_) => false,
    }
}

/// From the root's level down, then by the start of time, then by the lower key.
fn order(first: &NodeShape, second: &NodeShape) -> Ordering
    ensures { result ≡ shape_cmp first.now second.now }
{
    second
        .level
        .cmp(&first.level)
        .then(first.rect.time().from.cmp(&second.rect.time().from))
        .then(first.rect.keys().lo.cmp(&second.rect.keys().lo))
}
