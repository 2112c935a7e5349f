//! How a shape shows its nodes.
use keyrange::Rect;
use std::alloc::Global;
use std::process::Abort;
use treewalk::Shape;
use tsbtree::Tree;
use values::{Instant, KeyBytes};

/// A node: the level from the root down, the lower and the upper key, or 0, the start and the end,
/// and how much the node holds.
pub(crate) type Line = (usize, u8, u8, Instant, Option<Instant>, usize);

pub(crate) fn shape_of(rt: &impl Abort, alloc: Global, tree: Tree) -> Shape {
    tree.current().shape(alloc).expect(rt, "there is memory")
}

/// Whether a shape begins with some lines.
pub(crate) fn begins_with(shape: &Shape, lines: &[Line]) -> bool {
    for (place, line) in lines.iter().enumerate() {
        if !is_line(shape, place, *line) {
            return false;
        }
    }
    true
}

/// Whether a shape shows a node so at a place, and not packed.
fn is_line(shape: &Shape, place: usize, line: Line) -> bool {
    is_shown(shape, place, line, false)
}

/// Whether a shape shows a packed node so at a place.
pub(crate) fn is_packed_line(shape: &Shape, place: usize, line: Line) -> bool {
    is_shown(shape, place, line, true)
}

fn is_shown(shape: &Shape, place: usize, line: Line, packed: bool) -> bool {
    match shape.nodes.get(place) {
        None => false,
        Some(node) => {
            height(shape).checked_sub(line.0) == Some(node.level)
                && is_area(&node.rect, line)
                && node.count == line.5
                && node.packed == packed
        }
    }
}

/// How many packed nodes a shape shows.
pub(crate) fn count_packed(shape: &Shape) -> usize {
    let mut count = 0usize;
    for node in &shape.nodes {
        if node.packed {
            count = count.saturating_add(1);
        }
    }
    count
}

fn is_area(rect: &Rect, line: Line) -> bool {
    let (_, lo, hi, from, to, _) = line;
    last_byte(&rect.keys().lo) == lo
        && end_byte(&rect.keys().hi) == hi
        && rect.time().from == from
        && rect.time().to == to
}

/// The root's level.
fn height(shape: &Shape) -> usize {
    match shape.nodes.first() {
        None => 0,
        Some(root) => root.level,
    }
}

/// The last byte of a key, or 0 where it has none.
fn last_byte(key: &KeyBytes) -> u8 {
    key.bytes().last().copied().unwrap_or(0)
}

fn end_byte(end: &Option<KeyBytes>) -> u8 {
    match end {
        None => 0,
        Some(key) => last_byte(key),
    }
}
