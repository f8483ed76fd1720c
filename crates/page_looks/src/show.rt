use crate::finding::Finding;
use crate::tree_look::{Level, Levels};
use crate::tree_walk::{Sight, Visit, Walk};
use btree_node::{Header, Node};
use std::alloc::{AllocError, Global};
use std::io;
use std::io::Write;
use std::os::unix::fs::FileExt;

// What stands before the page of a visit: a line down for each level that goes on, and a branch.
fn draw_branch<W: Write>(out: &mut W, visit: &Visit) -> io::Result<()> {
    for level in 2..visit.level {
        let ends = visit.lasts.wrapping_shr(level - 1) & 1 == 1;
        out.write_all(if ends { b"    " } else { b"|   " })?;
    }
    if visit.level > 1 {
        out.write_all(b"+-- ")?;
    }
    Ok(())
}

// The places of a page of an order, the taken ones and then the free ones.
fn draw_places<W: Write>(out: &mut W, taken: usize, order: u16) -> io::Result<()> {
    for i in 0..usize::from(order).saturating_mul(2) {
        out.write_all(if i < taken { b"#" } else { b"." })?;
    }
    Ok(())
}

// The keys of a node.
fn draw_keys<W: Write>(out: &mut W, node: &Node) -> io::Result<()> {
    for element in node.elements.iter() {
        write!(out, " {}", element.0)?;
    }
    Ok(())
}

// The line of a page.
fn draw_node<W: Write>(out: &mut W, number: u32, node: &Node, order: u16) -> io::Result<()> {
    write!(out, "page {number} [")?;
    draw_places(out, node.elements.len(), order)?;
    write!(out, "]")?;
    draw_keys(out, node)?;
    writeln!(out)
}

// The line of what isn't as it should be.
fn draw_wrong<W: Write>(out: &mut W, finding: &Finding) -> io::Result<()> {
    writeln!(out, "!! {finding}")
}

// The lines of what a visit finds; whether all of it is as it should be.
fn draw_sight<W: Write>(
    out: &mut W,
    visit: &Visit,
    sight: &Sight,
    node: &Node,
    order: u16,
) -> io::Result<bool> {
    draw_branch(out, visit)?;
    match sight {
        Sight::Node(None) => {
            draw_node(out, visit.number, node, order)?;
            return Ok(true);
        }
        Sight::Node(Some(finding)) => {
            draw_node(out, visit.number, node, order)?;
            draw_branch(out, visit)?;
            draw_wrong(out, finding)?;
        }
        Sight::Wrong(finding) => draw_wrong(out, finding)?,
        Sight::Unread(error) => {
            let number = visit.number;
            writeln!(out, "!! page {number} can't be read: {error}")?;
        }
    }
    Ok(false)
}

/// How full the pages of a level are, in a line.
pub fn draw_level<W: Write>(
    out: &mut W,
    number: usize,
    level: &Level,
    order: u16,
) -> io::Result<()> {
    let Level { pages, keys } = level;
    let full = level.full(order);
    writeln!(
        out,
        "level {number}: pages {pages}, keys {keys}, {full} of 100 places taken"
    )
}

// A run of pages that a walk didn't come to, and whether more than one stands in it.
fn draw_run<W: Write>(out: &mut W, first: usize, end: usize) -> io::Result<()> {
    if end == first.saturating_add(1) {
        return write!(out, " {first}");
    }
    let last = end.saturating_sub(1);
    write!(out, " {first} to {last}")
}

// The pages that a walk didn't come to, page 0 aside.
fn draw_free<W: Write>(out: &mut W, seen: &[bool]) -> io::Result<()> {
    write!(out, "free pages:")?;
    let mut first = None;
    for (n, is_seen) in seen.iter().enumerate().skip(1) {
        match (first, *is_seen) {
            (None, false) => first = Some(n),
            (Some(start), true) => {
                draw_run(out, start, n)?;
                first = None;
            }
            _ => {}
        }
    }
    if let Some(start) = first {
        draw_run(out, start, seen.len())?;
    }
    writeln!(out)
}

// What is drawn below the tree: the levels, and the pages that a walk didn't come to.
fn draw_rest<W: Write>(out: &mut W, levels: &Levels, seen: &[bool], order: u16) -> io::Result<()> {
    for (i, level) in levels.levels().iter().enumerate() {
        draw_level(out, i.saturating_add(1), level, order)?;
    }
    draw_free(out, seen)
}

/// Draws a tree in lines, a page in each with its places and its keys, below its father's; what isn't as it should be
/// stands where it was met. Then how full the levels are, and which pages the tree doesn't reach. It answers whether all
/// pages of the tree are as they should be, and how many keys they have.
pub fn draw_lines<F: FileExt, W: Write>(
    alloc: Global,
    file: &F,
    header: &Header,
    out: &mut W,
) -> io::Result<(bool, u32)> {
    let mut walk = Walk::new(alloc, file, header)?;
    let (mut levels, mut whole) = (Levels::new(alloc), true);
    let mut node = Node::blank();
    let (order, records, pages) = (header.order, header.count, header.pages);
    writeln!(out, "order {order}, records {records}, pages {pages}")?;
    for _ in 0..u32::MAX {
        let Some((visit, sight)) = walk.step(&mut node)? else {
            break;
        };
        whole = draw_sight(out, &visit, &sight, &node, header.order)? && whole;
        if let Sight::Node(_) = sight {
            levels.count(visit.level, node.elements.len())?;
        }
    }
    draw_rest(out, &levels, walk.seen(), header.order)?;
    Ok((whole, levels.keys()))
}
