//! A shape as text.
use crate::fault::ShapeFault;
use std::io::Write;
use treewalk::{NodeShape, Shape};
use values::{Instant, KeyBytes};

/// Writes a line for each node: its level from the root, its lower and its upper key in
/// hexadecimal, the start and the end of its time, how much it holds, and whether it is packed. A
/// dash is the empty lower key, or no end.
pub fn print_shape<W: Write>(shape: &Shape, out: &mut W) -> Result<(), ShapeFault> {
    let Some(root) = shape.nodes.first() else {
        return Ok(());
    };
    for node in &shape.nodes {
        print_node(root.level, node, out)?;
    }
    out.flush()?;
    Ok(())
}

fn print_node<W: Write>(top: usize, node: &NodeShape, out: &mut W) -> Result<(), ShapeFault> {
    let keys = node.rect.keys();
    let time = node.rect.time();
    write!(out, "{} ", top.saturating_sub(node.level))?;
    print_key(Some(&keys.lo), out)?;
    print_key(keys.hi.as_ref(), out)?;
    write!(out, "{} ", time.from)?;
    print_end(time.to, out)?;
    let packed = if node.packed { "packed" } else { "loose" };
    writeln!(out, "{} {packed}", node.count)?;
    Ok(())
}

fn print_key<W: Write>(key: Option<&KeyBytes>, out: &mut W) -> Result<(), ShapeFault> {
    let bytes: &[u8] = match key {
        Some(key) => key.bytes(),
        None => &[],
    };
    if bytes.is_empty() {
        write!(out, "-")?;
    }
    for byte in bytes {
        write!(out, "{byte:02x}")?;
    }
    write!(out, " ")?;
    Ok(())
}

fn print_end<W: Write>(end: Option<Instant>, out: &mut W) -> Result<(), ShapeFault> {
    match end {
        Some(end) => write!(out, "{end} ")?,
        None => write!(out, "- ")?,
    }
    Ok(())
}
