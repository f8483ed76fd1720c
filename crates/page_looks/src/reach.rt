use crate::explain::{MOST_PAGES, tell_left_beside, wrong_count, wrong_pages};
use crate::finding::Finding;
use crate::page_view::PageView;
use crate::shown::header_of;
use crate::spelt::{is_whole, kind_of};
use crate::tree_walk::{Sight, Walk, unseen};
use crate::unopened::{open_regular, tell_unopened};
use btree_node::{Header, Node, decode_version};
use file_system::Lock;
use rec_types::PAGE_WIDTH;
use std::alloc::{AllocError, Global};
use std::fs::OpenFile;
use std::io;
use std::io::Write;
use std::os::unix::fs::FileExt;
use std::rt::Files;

/// What page 0 of a file says, where it is a header, and for each page whether the tree leads to it.
#[derive(Drop)]
pub struct Reach {
    pub header: Option<Header>,
    pub seen: Vec<bool>,
}

// Walks through the tree: to which pages it leads, and whether all of it is as it should be.
fn reach_pages<F: FileExt>(
    alloc: Global,
    file: &F,
    header: &Header,
) -> Result<(Vec<bool>, bool), AllocError> {
    let mut walk = Walk::new(alloc, file, header)?;
    let (mut node, mut keys, mut whole) = (Node::blank(), 0u32, true);
    for _ in 0..u32::MAX {
        let Some((_, sight)) = walk.step(&mut node)? else {
            break;
        };
        match sight {
            Sight::Node(None) => {
                let count = u32::try_from(node.elements.len()).unwrap_or(u32::MAX);
                keys = keys.saturating_add(count);
            }
            _ => whole = false,
        }
    }
    let whole = whole && wrong_count(header, keys).is_none();
    Ok((walk.into_seen(), whole))
}

// What makes a page no node of the kind of the header; without one nothing is known of it.
fn finding_in(page: &[u8; PAGE_WIDTH], number: u32, header: Option<&Header>) -> Option<Finding> {
    let header = header?;
    let kind = kind_of(Some(*header));
    let view = PageView {
        bytes: page,
        version: kind.version,
        order: kind.order,
    };
    match decode_version(kind.version, page, kind.order, &mut Node::blank()) {
        Ok(()) => None,
        Err(fault) => Some(view.finding(number, fault, header.pages)),
    }
}

// Tells of a page that isn't whole; one of zeros alone was never written.
fn tell_broken<E: Write>(
    page: &[u8; PAGE_WIDTH],
    number: u32,
    header: Option<&Header>,
    err: &mut E,
) -> io::Result<()> {
    if page.iter().all(|byte| *byte == 0) {
        return Ok(());
    }
    match finding_in(page, number, header) {
        Some(finding) => writeln!(err, "left out: {finding}"),
        None => writeln!(
            err,
            "left out: page {number} is no page of a tree of any version and order"
        ),
    }
}

// Tells of a page, where it is left out, or where the tree doesn't lead to it.
fn tell_page<F: FileExt, E: Write>(
    file: &F,
    number: u32,
    header: Option<&Header>,
    seen: bool,
    err: &mut E,
) -> io::Result<()> {
    let mut page = [0; PAGE_WIDTH];
    let start = u64::from(number) * PAGE_WIDTH as u64;
    if let Err(error) = file.read_exact_at(&mut page, start) {
        return writeln!(err, "left out: page {number} can't be read: {error}");
    }
    let kind = kind_of(header.copied());
    if !is_whole(&page, kind, &mut Node::blank()) {
        return tell_broken(&page, number, header, err);
    }
    if seen {
        return Ok(());
    }
    writeln!(
        err,
        "taken: page {number}, to which the tree doesn't lead: its records may be old ones"
    )
}

// Tells of each page but page 0, as far as the list of those that the tree leads to goes.
fn tell_pages<F: FileExt, E: Write>(
    file: &F,
    header: Option<&Header>,
    seen: &[bool],
    err: &mut E,
) -> io::Result<()> {
    for (n, is_seen) in seen.iter().enumerate().skip(1) {
        let number = u32::try_from(n).unwrap_or(u32::MAX);
        tell_page(file, number, header, *is_seen, err)?;
    }
    Ok(())
}

// What is reached of an open file of so many bytes.
fn reach_open<F: FileExt, E: Write>(
    alloc: Global,
    file: &F,
    len: u64,
    err: &mut E,
) -> Result<Reach, AllocError> {
    let pages = len / PAGE_WIDTH as u64;
    let tail = len % PAGE_WIDTH as u64;
    if tail != 0 {
        let _ = writeln!(err, "left out: {tail} bytes behind the last page");
    }
    let counted = u32::try_from(pages.min(MOST_PAGES)).unwrap_or(u32::MAX);
    let Some(header) = header_of(file, err) else {
        let seen = unseen(alloc, counted)?;
        let _ = tell_pages(file, None, &seen, err);
        return Ok(Reach { header: None, seen });
    };
    let found = wrong_pages(&header, pages);
    if let Some(finding) = &found {
        let _ = writeln!(err, "{finding}");
    }
    let header = Header {
        pages: counted,
        ..header
    };
    let (seen, whole) = reach_pages(alloc, file, &header)?;
    if !whole || found.is_some() || tail != 0 {
        let _ = tell_pages(file, Some(&header), &seen, err);
    }
    Ok(Reach {
        header: Some(header),
        seen,
    })
}

/// Looks at which pages of the file of a path its tree leads to. Of a file that isn't whole it tells on `err` which pages
/// are no node and why, and which are one to which the tree doesn't lead; where a side file or a log of commits stands beside
/// it, that; where the file isn't opened, why. It only reads the file. What can't be told isn't. Fault: out of memory.
pub fn reach_file<F: OpenFile + FileExt + Lock + Drop, H: Files<File = F>, E: Write>(
    rt: &H,
    alloc: Global,
    path: &str,
    err: &mut E,
) -> Result<Reach, AllocError> {
    let nothing = Reach {
        header: None,
        seen: Vec::new(alloc),
    };
    let file = match open_regular(rt, path) {
        Ok(file) => file,
        Err(fault) => {
            let _ = tell_unopened(rt, path, &fault, err);
            return Ok(nothing);
        }
    };
    tell_left_beside(rt, alloc, path, err).map_err(|_| AllocError)?;
    match file.metadata() {
        Ok(metadata) => reach_open(alloc, &file, metadata.len(), err),
        Err(_) => Ok(nothing),
    }
}
